// What a GeoJSON text becomes (RFC 7946), and what is read of that.
use crate::pieces::{put_bytes, put_scan_fault};
use geo_topology::{GeoObject, MadeText, geo_object, topology_text};
use json_spans::{Span, scan};
use std::alloc::{AllocError, Global};
use test_aids::fixed_seed;
use topo_outline::OpenFault;
use topo_reader::read_walks;

/// What is told of a made text.
#[derive(Clone, Copy)]
pub(crate) enum Told {
    /// The text itself.
    Text,
    /// How many features are read of it, or the first fault, at its place in the file.
    Features,
}

/// The place in the file, where a copied part has it.
fn in_file(made: &MadeText, place: usize) -> usize {
    made.in_file(place).unwrap_or(place)
}

/// Appends the fault of a made text with its place in the file.
fn put_fault(out: &mut String, made: &MadeText, fault: &OpenFault<'_>) -> Result<(), AllocError> {
    match fault {
        OpenFault::NotJson { place } => write!(out, "not json at {}", in_file(made, *place)),
        OpenFault::TooDeep { place } => write!(out, "too deep at {}", in_file(made, *place)),
        OpenFault::NotWhole { place } => write!(out, "not whole at {}", in_file(made, *place)),
        OpenFault::OutOfRange { place } => write!(out, "out of range at {}", in_file(made, *place)),
        OpenFault::BadPosition { place } => {
            write!(out, "bad position at {}", in_file(made, *place))
        }
        _ => write!(out, "{fault}"),
    }
}

/// Appends how many features are read of a made text, or the first fault.
fn put_features(out: &mut String, alloc: Global, made: &MadeText) -> Result<(), AllocError> {
    let seed = fixed_seed().ok_or(AllocError)?;
    match read_walks(alloc, alloc, seed, made.text.as_slice()) {
        Ok(raw) => write!(out, "features {}", raw.polygons.len()),
        Err(fault) => put_fault(out, made, &fault),
    }
}

/// Appends what is told of a made text.
fn put_made(
    out: &mut String,
    alloc: Global,
    told: Told,
    made: &MadeText,
) -> Result<(), AllocError> {
    match told {
        Told::Text => put_bytes(out, made.text.as_slice()),
        Told::Features => put_features(out, alloc, made),
    }
}

/// Appends what is told of the object that a root is.
fn put_object(
    out: &mut String,
    alloc: Global,
    told: Told,
    object: Option<GeoObject>,
    root: Span<'_>,
) -> Result<(), AllocError> {
    match object {
        Some(object) => match topology_text(alloc, alloc, object, root) {
            Ok(made) => put_made(out, alloc, told, &made),
            Err(fault) => write!(out, "{fault}"),
        },
        None => out.push_str("no GeoJSON"),
    }
}

/// Appends what is told of a GeoJSON text.
pub(crate) fn put_geo(
    out: &mut String,
    alloc: Global,
    told: Told,
    text: &[u8],
) -> Result<(), AllocError> {
    match scan(alloc, text) {
        Ok(root) => {
            let object = geo_object(alloc, root.span())?;
            put_object(out, alloc, told, object, root.span())
        }
        Err(fault) => put_scan_fault(out, &fault),
    }
}
