// Texts as they stand in a file: a text with a gap, the piece that fills it, and bytes by their numbers.
use json_spans::ScanFault;
use std::alloc::{AllocError, Global};

fn digit(byte: u8) -> Option<u8> {
    match byte {
        b'0'..=b'9' => Some(byte.wrapping_sub(b'0')),
        b'a'..=b'f' => Some(byte.wrapping_sub(b'a').wrapping_add(10)),
        _ => None,
    }
}

/// The byte that two hexadecimal digits name.
fn byte_of(high: u8, low: u8) -> Option<u8> {
    Some(digit(high)?.wrapping_mul(16).wrapping_add(digit(low)?))
}

/// Appends what stands between two percent signs: after the first of them a byte is named by two
/// digits.
fn put_coded(out: &mut Vec<u8>, part: &[u8]) -> Result<(), AllocError> {
    if let [high, low, rest @ ..] = part {
        if let Some(byte) = byte_of(*high, *low) {
            out.push(byte)?;
            return out.extend_from_slice(rest);
        }
    }
    out.extend_from_slice(part)
}

/// Appends the bytes of a text in which `%22` is the byte of this hexadecimal number (RFC 3986, 2.1).
pub(crate) fn put_decoded(out: &mut Vec<u8>, text: &str) -> Result<(), AllocError> {
    let mut parts = text.split("%");
    if let Some(first) = parts.next() {
        out.extend_from_slice(first.as_bytes())?;
    }
    for part in parts {
        put_coded(out, part.as_bytes())?;
    }
    Ok(())
}

/// The bytes of the text with this piece in its gap, which is `@`.
pub(crate) fn filled(alloc: Global, with_gap: &str, piece: &str) -> Result<Vec<u8>, AllocError> {
    let (front, end) = with_gap.split_once("@").unwrap_or((with_gap, ""));
    let mut out = Vec::new(alloc);
    put_decoded(&mut out, front)?;
    put_decoded(&mut out, piece)?;
    put_decoded(&mut out, end)?;
    Ok(out)
}

/// The bytes of a text without a gap.
pub(crate) fn decoded(alloc: Global, text: &str) -> Result<Vec<u8>, AllocError> {
    let mut out = Vec::new(alloc);
    put_decoded(&mut out, text)?;
    Ok(out)
}

/// Appends bytes that are text.
pub(crate) fn put_bytes(out: &mut String, bytes: &[u8]) -> Result<(), AllocError> {
    match str::from_utf8(bytes) {
        Ok(text) => out.push_str(text),
        Err(_) => out.push_str("no UTF-8"),
    }
}

/// Appends a fault of the scanner, as it is reported where a map is opened.
pub(crate) fn put_scan_fault(out: &mut String, fault: &ScanFault) -> Result<(), AllocError> {
    match fault {
        ScanFault::NotJson { place } => write!(out, "not json at {place}"),
        ScanFault::TooDeep { place } => write!(out, "too deep at {place}"),
        ScanFault::OutOfMemory => out.push_str("out of memory"),
    }
}
