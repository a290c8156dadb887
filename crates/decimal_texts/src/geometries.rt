// Where the geometries of a topology stand in its text (TopoJSON 1.0, 2.2).
ghost use Rattle.std.specs.Prelude.{◌≡◌, ◌++◌, map, IfOk, OnOk};
ghost use Rattle.json_spans.specs.Common.{node};
ghost use Rattle.decimal_texts.specs.Found.{found_value};
ghost use Rattle.decimal_texts.specs.Geometries.{says, value_in, has_type, is_of, collected, geometries_in, all_geometries};

use json_spans::{Span, TextFault, items, members, text};
use std::alloc::{AllocError, Allocator, Global};

/// Whether a string stands for this text (RFC 8259, 7).
pub(crate) fn says(heap: Global, name: &str, span: Span<'_>) -> Result<bool, AllocError>
    ensures { IfOk result (λ b. b ≡ says name.now (node span.entry)) }
{
    match text(heap, span) {
        Ok(decoded) => Ok(decoded.as_str() == name),
        Err(TextFault::BadText) => Ok(false),
        Err(TextFault::OutOfMemory) => Err(AllocError),
    }
}

/// The value of the first member of this name.
pub fn value_in<'a>(
    heap: Global,
    name: &str,
    span: Span<'a>,
) -> Result<Option<Span<'a>>, AllocError>
    ensures { IfOk result (λ value. found_value value ≡ value_in name.now (node span.entry)) }
{
    for member in members(span) {
        let named = says(heap, name, member.0)?;
        if named {
            return Ok(Some(member.1));
        }
    }
    Ok(None)
}

/// Whether the member `type` of an object is this text.
pub fn has_type(heap: Global, name: &str, span: Span<'_>) -> Result<bool, AllocError>
    ensures { IfOk result (λ b. b ≡ has_type name.now (node span.entry)) }
{
    match value_in(heap, "type", span)? {
        Some(value) => says(heap, name, value),
        None => Ok(false),
    }
}

/// What a geometry is made of.
#[derive(Clone, Copy, Debug)]
pub enum Shape {
    /// A point or several (TopoJSON 1.0, 2.2.1 and 2.2.2).
    Points,
    /// A line or several (TopoJSON 1.0, 2.2.3 and 2.2.4).
    Lines,
}

/// Whether a geometry is of this shape.
fn is_of(heap: Global, shape: Shape, span: Span<'_>) -> Result<bool, AllocError>
    ensures { IfOk result (λ b. b ≡ is_of shape (node span.entry)) }
{
    match shape {
        Shape::Points => Ok(has_type(heap, "Point", span)? || has_type(heap, "MultiPoint", span)?),
        Shape::Lines => {
            Ok(has_type(heap, "LineString", span)? || has_type(heap, "MultiLineString", span)?)
        }
    }
}

/// The list of what stands in a collection.
fn collected(heap: Global, span: Span<'_>) -> Result<Option<Span<'_>>, AllocError>
    ensures { IfOk result (λ list. found_value list ≡ collected (node span.entry)) }
{
    if has_type(heap, "GeometryCollection", span)? {
        value_in(heap, "geometries", span)
    } else {
        Ok(None)
    }
}

/// Appends the geometries of this shape that a geometry is or holds, with less than `depth`
/// collections one in another.
fn geometries_in<'a, A: Allocator + Copy>(
    heap: Global,
    shape: Shape,
    depth: usize,
    span: Span<'a>,
    out: &mut Vec<Span<'a>, A>,
) -> Result<(), AllocError>
    ensures { OnOk result (map node out.new.items
        ≡ map node out.old.items ++ geometries_in shape depth (node span.entry)) }
{
    if depth == 0 {
        return Ok(());
    }
    let found = is_of(heap, shape, span)?;
    if found {
        out.push(span)?;
        return Ok(());
    }
    let list = match collected(heap, span)? {
        Some(list) => list,
        None => return Ok(()),
    };
    for part in items(list) {
        geometries_in(heap, shape, depth - 1, part, out)?;
    }
    Ok(())
}

/// The geometries of this shape in all layers of the topology whose root this is, in the order of
/// its text.
pub fn all_geometries<'a, A: Allocator + Copy>(
    alloc: A,
    heap: Global,
    shape: Shape,
    root: Span<'a>,
) -> Result<Vec<Span<'a>, A>, AllocError>
    ensures { IfOk result (λ found_value. map node found_value.items ≡ all_geometries shape (node root.entry)) }
{
    let mut found = Vec::new(alloc);
    let Some(objects) = value_in(heap, "objects", root)? else {
        return Ok(found);
    };
    for member in members(objects) {
        geometries_in(heap, shape, 100, member.1, &mut found)?;
    }
    Ok(found)
}
