// What a topology is read as: the rings of its features.
use grid_geometry::{Pos, Rect};
use std::alloc::{AllocError, Global};
use test_aids::fixed_seed;
use topo_outline::OpenFault;
use topo_reader::{RawDoc, read, read_walks};

/// A polygon's rings, each a list of positions.
type Rings = Vec<Vec<Pos>>;

fn put_ring(out: &mut String, ring: &[Pos]) -> Result<(), AllocError> {
    let mut before = "[";
    for pos in ring {
        write!(out, "{before}[{},{}]", pos.x(), pos.y())?;
        before = ",";
    }
    out.push_str(if before == "[" { "[]" } else { "]" })
}

fn put_rings(out: &mut String, rings: &[Vec<Pos>]) -> Result<(), AllocError> {
    let mut before = "[";
    for ring in rings {
        out.push_str(before)?;
        put_ring(out, ring.as_slice())?;
        before = ",";
    }
    out.push_str(if before == "[" { "[]" } else { "]" })
}

/// Appends the polygons of a feature, as the answer to `rings` has them.
fn put_polygons(out: &mut String, polygons: &[Rings]) -> Result<(), AllocError> {
    let mut before = "[";
    for rings in polygons {
        out.push_str(before)?;
        put_rings(out, rings.as_slice())?;
        before = ",";
    }
    out.push_str(if before == "[" { "[]" } else { "]" })
}

fn put_features(out: &mut String, features: &[Vec<Rings>]) -> Result<(), AllocError> {
    for polygons in features {
        out.push_str(" ")?;
        put_polygons(out, polygons.as_slice())?;
    }
    Ok(())
}

fn put_extent(out: &mut String, extent: Option<Rect>) -> Result<(), AllocError> {
    match extent {
        Some(it) => write!(out, " in {} {} {} {}", it.x0, it.y0, it.x1, it.y1),
        None => Ok(()),
    }
}

/// Appends the features that were read, and the box around them, or the fault.
fn put_read(
    out: &mut String,
    answer: &Result<RawDoc<'_>, OpenFault<'_>>,
) -> Result<(), AllocError> {
    match answer {
        Ok(raw) => {
            out.push_str("opened")?;
            put_features(out, raw.polygons.as_slice())?;
            put_extent(out, raw.extent())
        }
        Err(fault) => write!(out, "{fault}"),
    }
}

/// Appends what the text is read as, with rings.
pub(crate) fn put_opened(out: &mut String, alloc: Global, text: &[u8]) -> Result<(), AllocError> {
    let seed = fixed_seed().ok_or(AllocError)?;
    put_read(out, &read(alloc, alloc, seed, text))
}

/// Appends what the text is read as, with walks in the place of rings.
pub(crate) fn put_walks(out: &mut String, alloc: Global, text: &[u8]) -> Result<(), AllocError> {
    let seed = fixed_seed().ok_or(AllocError)?;
    put_read(out, &read_walks(alloc, alloc, seed, text))
}
