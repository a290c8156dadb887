// Texts of pieces, most of them far too long to be written out.
use std::alloc::{AllocError, Global};
use std::fmt::{Result as Written, Write};
use std::process::Abort;

/// Appends the piece so many times.
fn put_times(text: &mut Vec<u8>, piece: &[u8], times: usize) -> Result<(), AllocError> {
    for _ in 0..times {
        text.extend_from_slice(piece)?;
    }
    Ok(())
}

/// Appends these pieces, each so many times.
fn put_pieces(text: &mut Vec<u8>, pieces: &[(&[u8], usize)]) -> Result<(), AllocError> {
    for (piece, times) in pieces {
        put_times(text, piece, *times)?;
    }
    Ok(())
}

/// The text of these pieces, each so many times.
pub(crate) fn text_of<R: Abort>(rt: &R, alloc: Global, pieces: &[(&[u8], usize)]) -> Vec<u8> {
    let mut text = Vec::new(alloc);
    put_pieces(&mut text, pieces).expect(rt, "memory");
    text
}

/// What stands before all numbers, before each, after each, and after all; and the least number of
/// digits.
pub(crate) type Round = (
    &'static str,
    &'static str,
    &'static str,
    &'static str,
    usize,
);

/// Appends the numbers from 0 on, so many.
fn put_numbers(text: &mut String, round: &Round, count: usize) -> Written {
    let (front, before, after, end, width) = round;
    text.write_str(front)?;
    for number in 0..count {
        write!(text, "{before}{number:0width$}{after}", width = *width)?;
    }
    text.write_str(end)
}

/// The text of so many numbers.
pub(crate) fn numbers<R: Abort>(rt: &R, alloc: Global, round: &Round, count: usize) -> String {
    let mut text = String::new(alloc);
    put_numbers(&mut text, round, count).expect(rt, "memory");
    text
}
