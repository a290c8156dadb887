//! Frames of maps made by hand: which ring has a number.
ghost use Rattle.std.specs.Prelude.{◌≡◌, length, map, IfOk};
ghost use Rattle.topo_reader.specs.Common.{IsOfRings, view_raw};

use crate::maps::{CUT, DONUT};
use grid_geometry::Pos;
use map_frame::{Frame, RingName};
use std::alloc::{AllocError, Global};
use test_aids::fixed_seed;
use topo_reader::{RawDoc, read};

/// A number for each ring of a polygon, from the next one on.
fn numbers_of(
    alloc: Global,
    polygon: &[Vec<Pos>],
    next: &mut usize,
) -> Result<Vec<usize>, AllocError> {
    let mut numbers = Vec::new(alloc);
    for _ in polygon {
        numbers.push(*next)?;
        *next = next.wrapping_add(1);
    }
    Ok(numbers)
}

/// The same for each polygon of a feature.
fn numbered_polygons(
    alloc: Global,
    polygons: &[Vec<Vec<Pos>>],
    next: &mut usize,
) -> Result<Vec<Vec<usize>>, AllocError>
    ensures { IfOk result (λ numbers. length numbers.items ≡ length polygons.now) }
{
    let mut numbers = Vec::new(alloc);
    for polygon in polygons {
        numbers.push(numbers_of(alloc, polygon.as_slice(), next)?)?;
    }
    Ok(numbers)
}

/// The same for each feature: rings are numbered from 0, in the order of the text.
fn numbered(
    alloc: Global,
    features: &[Vec<Vec<Vec<Pos>>>],
) -> Result<Vec<Vec<Vec<usize>>>, AllocError>
    ensures { IfOk result (λ numbers. map (λ f. length f.items) numbers.items
        ≡ map (λ f. length f.items) features.now) }
{
    let mut numbers = Vec::new(alloc);
    let mut next = 0usize;
    for polygons in features {
        numbers.push(numbered_polygons(alloc, polygons.as_slice(), &mut next)?)?;
    }
    Ok(numbers)
}

/// The frame of what was read, with these numbers of its rings.
fn built(
    alloc: Global,
    raw: RawDoc<'static>,
    numbers: Vec<Vec<Vec<usize>>>,
) -> Option<Frame<'static>>
    requires rings { IsOfRings (view_raw raw) }
    requires alike { map (λ f. length f.items) numbers.items
        ≡ map (λ f. length f.items) raw.polygons.items }
{
    Frame::build(alloc, raw.transform, raw.layers, raw.members, numbers).ok()
}

/// The frame of what was read.
fn frame_of(alloc: Global, raw: RawDoc<'static>) -> Option<Frame<'static>>
    requires { IsOfRings (view_raw raw) }
{
    match numbered(alloc, raw.polygons.as_slice()) {
        Ok(numbers) => built(alloc, raw, numbers),
        Err(_) => {
            drop(raw);
            None
        }
    }
}

/// The frame of a text that opens, where there is memory.
fn opened(alloc: Global, text: &'static str) -> Option<Frame<'static>> {
    let seed = fixed_seed()?;
    match read(alloc, alloc, seed, text.as_bytes()) {
        Ok(raw) => frame_of(alloc, raw),
        Err(_) => None,
    }
}

/// Maps, how many features they have, and the names of their rings in the order of the text.
const FRAMES: &[(&str, usize, &[(u32, usize, usize)])] = &[
    (DONUT, 4, &[(0, 0, 0), (0, 0, 1), (1, 0, 0), (2, 0, 0)]),
    (CUT, 3, &[(0, 0, 0), (1, 0, 0), (2, 0, 0), (2, 1, 0)]),
];

/// Whether the ring with this number has the name, and the name the number.
fn is_named(frame: &Frame<'_>, number: usize, name: &(u32, usize, usize)) -> bool {
    let (feature, polygon, ring) = *name;
    let wanted = RingName {
        feature,
        polygon,
        ring,
    };
    let is_found = frame.ring(feature, polygon, ring) == Some(number);
    is_found & (frame.name_of(number) == Some(wanted))
}

/// Whether the rings have these names, and no other number one.
fn are_named(frame: &Frame<'_>, names: &[(u32, usize, usize)]) -> bool {
    let mut are_so = frame.name_of(names.len()).is_none();
    for (number, name) in names.iter().enumerate() {
        are_so &= is_named(frame, number, name);
    }
    are_so
}

/// Whether the frame of a text has so many features, and rings of these names.
fn is_frame(
    alloc: Global,
    text: &'static str,
    count: usize,
    names: &[(u32, usize, usize)],
) -> bool {
    match opened(alloc, text) {
        Some(frame) => {
            let is_so = are_named(&frame, names) & (frame.feature_count() == count);
            drop(frame);
            is_so
        }
        None => false,
    }
}

#[test]
fn rings_have_names(rt: HostRuntime) {
    for (text, count, names) in FRAMES {
        assert!(rt; is_frame(rt.alloc(), *text, *count, *names), "{text}");
    }
}
