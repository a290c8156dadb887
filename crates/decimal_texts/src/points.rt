// Where the coordinates of the points of a topology stand in its text (TopoJSON 1.0, 2.2.1 and
// 2.2.2).
ghost use Rattle.std.specs.Prelude.{◌≡◌, ◌++◌, map, IfOk, OnOk};
ghost use Rattle.std.specs.List.{flat_map};
ghost use Rattle.json_spans.specs.Common.{node, items};
ghost use Rattle.decimal_texts.specs.Points.{first_two, coordinates_of, all_coordinates};

use crate::{Shape, all_geometries, has_type, value_in};
use json_spans::{Span, items};
use std::alloc::{AllocError, Allocator, Global};

/// Appends the first two numbers of a position.
fn push_pair<'a, A: Allocator + Copy>(
    position: Span<'a>,
    out: &mut Vec<Span<'a>, A>,
) -> Result<(), AllocError>
    ensures { OnOk result
        (map node out.new.items ≡ map node out.old.items ++ first_two (node position.entry)) }
{
    let mut numbers = items(position);
    let Some(x) = numbers.next() else {
        return Ok(());
    };
    out.push(x)?;
    let Some(y) = numbers.next() else {
        return Ok(());
    };
    out.push(y)?;
    Ok(())
}

/// Appends the first two numbers of each position of a list.
fn push_pairs<'a, A: Allocator + Copy>(
    list: Span<'a>,
    out: &mut Vec<Span<'a>, A>,
) -> Result<(), AllocError>
    ensures { OnOk result
        (map node out.new.items
        ≡ map node out.old.items ++ flat_map first_two (items (node list.entry))) }
{
    for position in items(list) {
        push_pair(position, out)?;
    }
    Ok(())
}

/// Appends the coordinates of a Point or a MultiPoint.
fn push_coordinates<'a, A: Allocator + Copy>(
    heap: Global,
    span: Span<'a>,
    out: &mut Vec<Span<'a>, A>,
) -> Result<(), AllocError>
    ensures { OnOk result
        (map node out.new.items ≡ map node out.old.items ++ coordinates_of (node span.entry)) }
{
    let one = has_type(heap, "Point", span)?;
    let value = match value_in(heap, "coordinates", span)? {
        Some(value) => value,
        None => return Ok(()),
    };
    if one {
        push_pair(value, out)?;
        return Ok(());
    }
    push_pairs(value, out)?;
    Ok(())
}

/// The coordinates of the points of all layers of a topology, in the order of the text.
pub(crate) fn all_coordinates<'a, A: Allocator + Copy>(
    alloc: A,
    heap: Global,
    root: Span<'a>,
) -> Result<Vec<Span<'a>, A>, AllocError>
    ensures { IfOk result (λ coordinates.
        map node coordinates.items ≡ all_coordinates (node root.entry)) }
{
    let geometries = all_geometries(alloc, heap, Shape::Points, root)?;
    let mut coordinates = Vec::new(alloc);
    for geometry in geometries.as_slice() {
        push_coordinates(heap, *geometry, &mut coordinates)?;
    }
    Ok(coordinates)
}
