// What the scanner answers: a fault, or the values of a text.
use crate::pieces::{put_bytes, put_scan_fault};
use json_spans::{Kind, Span, at, bytes, items, kind, members, scan, text, whole};
use std::alloc::{AllocError, Global};

/// Appends whether a text is JSON, or its fault.
pub(crate) fn put_scanned(out: &mut String, alloc: Global, text: &[u8]) -> Result<(), AllocError> {
    match scan(alloc, text) {
        Ok(_) => out.push_str("json"),
        Err(fault) => put_scan_fault(out, &fault),
    }
}

fn kind_name(kind: Kind) -> &'static str {
    match kind {
        Kind::Null => "null",
        Kind::Bool => "bool",
        Kind::Number => "number",
        Kind::Text => "string",
        Kind::List => "list",
        Kind::Object => "object",
    }
}

fn put_number(out: &mut String, number: Span<'_>) -> Result<(), AllocError> {
    match whole(number) {
        Ok(value) => write!(out, " = {value}"),
        Err(fault) => write!(out, " {fault}"),
    }
}

/// Appends bytes, all but plain ones by their numbers.
fn put_coded(out: &mut String, bytes: &[u8]) -> Result<(), AllocError> {
    for byte in bytes {
        if byte.is_ascii_graphic() && *byte != b'%' {
            out.push(char::from(*byte))?;
        } else {
            write!(out, "%{byte:02x}")?;
        }
    }
    Ok(())
}

fn put_string(out: &mut String, alloc: Global, string: Span<'_>) -> Result<(), AllocError> {
    match text(alloc, string) {
        Ok(value) => {
            out.push_str(" = ")?;
            put_coded(out, value.as_str().as_bytes())
        }
        Err(fault) => write!(out, " {fault}"),
    }
}

/// Appends a value without those inside it: its kind, its place and length, and what it stands for.
fn put_alone(out: &mut String, alloc: Global, value: Span<'_>) -> Result<(), AllocError> {
    let kind = kind(value);
    write!(
        out,
        "{} {}+{}",
        kind_name(kind),
        at(value),
        bytes(value).len()
    )?;
    match kind {
        Kind::Number => put_number(out, value),
        Kind::Text => put_string(out, alloc, value),
        Kind::Null | Kind::Bool => {
            out.push_str(" ")?;
            put_bytes(out, bytes(value))
        }
        Kind::List | Kind::Object => Ok(()),
    }
}

#[cycle(values)]
fn put_items(
    out: &mut String,
    alloc: Global,
    list: Span<'_>,
    depth: usize,
) -> Result<(), AllocError> {
    let mut before = " [";
    for item in items(list) {
        out.push_str(before)?;
        put_value(out, alloc, item, depth)?;
        before = ", ";
    }
    out.push_str(if before == " [" { " []" } else { "]" })
}

#[cycle(values)]
fn put_members(
    out: &mut String,
    alloc: Global,
    object: Span<'_>,
    depth: usize,
) -> Result<(), AllocError> {
    let mut before = " {";
    for (name, value) in members(object) {
        out.push_str(before)?;
        put_alone(out, alloc, name)?;
        out.push_str(": ")?;
        put_value(out, alloc, value, depth)?;
        before = ", ";
    }
    out.push_str(if before == " {" { " {}" } else { "}" })
}

/// Appends a value, and those inside it to this depth.
#[cycle(values)]
fn put_value(
    out: &mut String,
    alloc: Global,
    value: Span<'_>,
    depth: usize,
) -> Result<(), AllocError> {
    put_alone(out, alloc, value)?;
    match (kind(value), depth.checked_sub(1)) {
        (Kind::List, Some(rest)) => put_items(out, alloc, value, rest),
        (Kind::Object, Some(rest)) => put_members(out, alloc, value, rest),
        _ => Ok(()),
    }
}

/// Appends the values of a text, or its fault.
pub(crate) fn put_spans(out: &mut String, alloc: Global, text: &[u8]) -> Result<(), AllocError> {
    match scan(alloc, text) {
        Ok(root) => put_value(out, alloc, root.span(), 100),
        Err(fault) => put_scan_fault(out, &fault),
    }
}
