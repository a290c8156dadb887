// Texts that are too long to be written out.
use std::alloc::{AllocError, Global};
use std::process::Abort;

/// A front, a piece, how many times it stands, and an end.
pub(crate) type Long<'t> = (&'t str, &'t str, usize, &'t str);

/// Appends the front, the piece so many times, and the end.
fn put(text: &mut Vec<u8>, long: &Long<'_>) -> Result<(), AllocError> {
    let (front, piece, times, end) = long;
    text.extend_from_slice(front.as_bytes())?;
    for _ in 0..*times {
        text.extend_from_slice(piece.as_bytes())?;
    }
    text.extend_from_slice(end.as_bytes())
}

/// The text.
pub(crate) fn text_of<R: Abort>(rt: &R, alloc: Global, long: &Long<'_>) -> Vec<u8> {
    let mut text = Vec::new(alloc);
    put(&mut text, long).expect(rt, "memory");
    text
}
