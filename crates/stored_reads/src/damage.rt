// Texts that were damaged: cut after each byte, and with a byte replaced by each value.
use crate::pieces::put_scan_fault;
use crate::runs::{Key, Runs};
use json_spans::{ScanFault, scan};
use std::alloc::{AllocError, Global};
use test_aids::fixed_seed;
use topo_outline::OpenFault;
use topo_reader::read;

/// Who says what a damaged text is.
#[derive(Clone, Copy)]
pub(crate) enum Reader {
    Scanner,
    Opening,
}

/// Appends a place after the text's start: `end`, or how many bytes it is after this one.
fn put_place(out: &mut String, text: &[u8], from: usize, place: usize) -> Result<(), AllocError> {
    if place == text.len() {
        return out.push_str("end");
    }
    write!(out, "+{}", place.saturating_sub(from))
}

/// Appends what the scanner says.
fn put_scanned(
    out: &mut String,
    alloc: Global,
    text: &[u8],
    from: usize,
) -> Result<(), AllocError> {
    match scan(alloc, text) {
        Ok(_) => out.push_str("json"),
        Err(ScanFault::NotJson { place }) => put_place(out, text, from, place),
        Err(fault) => put_scan_fault(out, &fault),
    }
}

/// Appends how many features are opened, or the fault.
fn put_opened(out: &mut String, alloc: Global, text: &[u8], from: usize) -> Result<(), AllocError> {
    let seed = fixed_seed().ok_or(AllocError)?;
    match read(alloc, alloc, seed, text) {
        Ok(raw) => write!(out, "opened {}", raw.polygons.len()),
        Err(OpenFault::NotJson { place }) => put_place(out, text, from, place),
        Err(fault) => write!(out, "{fault}"),
    }
}

impl Reader {
    /// What is said of the text. Places are reported from this one on.
    fn answer(self, alloc: Global, text: &[u8], from: usize) -> Result<String, AllocError> {
        let mut out = String::new(alloc);
        match self {
            Reader::Scanner => put_scanned(&mut out, alloc, text, from)?,
            Reader::Opening => put_opened(&mut out, alloc, text, from)?,
        }
        Ok(out)
    }

    /// What is said of the text cut after each of its bytes, and of all of it.
    pub(crate) fn of_cuts(self, alloc: Global, text: &[u8]) -> Result<String, AllocError> {
        let mut runs = Runs::new(alloc);
        for length in 0..=text.len() {
            let answer = self.answer(alloc, &text[..length], 0)?;
            runs.take(Key::Length(length), answer.as_str())?;
        }
        runs.finish()
    }

    /// What is said of the text with the byte at this place replaced by each value.
    pub(crate) fn of_bytes(
        self,
        alloc: Global,
        text: &mut [u8],
        place: usize,
        from: usize,
    ) -> Result<String, AllocError> {
        let kept = text.get(place).copied().unwrap_or(0);
        let mut runs = Runs::new(alloc);
        for byte in 0..=255u8 {
            put(text, place, byte);
            let answer = self.answer(alloc, text, from)?;
            runs.take(Key::Byte(byte), answer.as_str())?;
        }
        put(text, place, kept);
        runs.finish()
    }
}

/// Writes the byte at the place, if that is in the text.
pub(crate) fn put(text: &mut [u8], place: usize, byte: u8) {
    if let Some(at) = text.get_mut(place) {
        *at = byte;
    }
}

/// What is said of the text with a byte replaced at each of these places, if it is the same; else of the first where
/// it is another than this.
pub(crate) fn of_places(
    alloc: Global,
    reader: Reader,
    text: &mut [u8],
    (first, last): (usize, usize),
    want: &str,
) -> Result<String, AllocError> {
    let mut found = String::from_str(alloc, "no place")?;
    for place in first..=last {
        found = reader.of_bytes(alloc, text, place, place)?;
        if found.as_str() != want {
            break;
        }
    }
    Ok(found)
}

/// What is said of these bytes, one of the first and one of any value, if it is the same for all the first.
pub(crate) fn of_pairs(
    alloc: Global,
    text: &mut [u8],
    (first, last): (u8, u8),
    want: &str,
) -> Result<String, AllocError> {
    let place = text.len().saturating_sub(1);
    let mut found = String::from_str(alloc, "no pair")?;
    for byte in first..=last {
        put(text, place.saturating_sub(1), byte);
        found = Reader::Scanner.of_bytes(alloc, text, place, 0)?;
        if found.as_str() != want {
            break;
        }
    }
    Ok(found)
}
