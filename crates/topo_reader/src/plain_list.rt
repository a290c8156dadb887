// A list of arcs that are written plainly is read in one walk over its bytes, with white space
// between them, since maps are often written an arc a line.
ghost use Rattle.std.specs.Prelude.{◌≡◌, true, map, IfSome, IfOk};
ghost use Rattle.json_spans.specs.Common.{is_space, Space, node};
ghost use Rattle.topo_reader.specs.Positions.{arcs};
ghost use Rattle.topo_reader.specs.PlainList.{PlainItem, PlainItems};

use crate::plain_arc::{after, arc_in_front, others};
use grid_geometry::Pos;
use json_spans::{Span, bytes};
use std::alloc::{AllocError, Allocator};

fn is_space(x: u8) -> bool
    ensures { result ≡ is_space x }
{
    matches!(x, b' ' | b'\t' | b'\n' | b'\r')
}

/// What follows the leading white space.
fn after_space(bytes: &[u8]) -> &[u8]
    ensures { Space bytes.now result.now }
{
    for (i, x) in bytes.iter().enumerate() {
        if !is_space(*x) {
            return &bytes[i..];
        }
    }
    &bytes[bytes.len()..]
}

/// The positions of the first arc, whether another one follows, and what is left.
fn plain_item<'a, A: Allocator + Copy>(
    alloc: A,
    scratch: &mut Vec<Pos, A>,
    delta: bool,
    bytes: &'a [u8],
) -> Result<Option<(Vec<Pos, A>, bool, &'a [u8])>, AllocError>
    ensures { IfOk result (λ r. IfSome r (λ v. PlainItem delta bytes.now v.0.items v.1 v.2.now)) }
{
    let Some((positions, behind)) = arc_in_front(alloc, scratch, delta, after_space(bytes))? else {
        return Ok(None);
    };
    match others(after_space(behind)) {
        Some((more, left)) => Ok(Some((positions, more, left))),
        None => Ok(None),
    }
}

/// The arcs after the bracket, up to the one at the end.
fn plain_items<A: Allocator + Copy>(
    alloc: A,
    scratch: &mut Vec<Pos, A>,
    delta: bool,
    inside: &[u8],
) -> Result<Option<Vec<Vec<Pos, A>, A>>, AllocError>
    ensures { IfOk result (λ r. IfSome r (λ v. PlainItems delta true inside.now (map (λ a. a.items) v.items))) }
{
    let mut found = Vec::new(alloc);
    let mut more = true;
    let mut left = inside;
    while more {
        let Some((positions, is_more, rest)) = plain_item(alloc, scratch, delta, left)? else {
            return Ok(None);
        };
        found.push(positions)?;
        more = is_more;
        left = rest;
    }
    if left.is_empty() {
        Ok(Some(found))
    } else {
        Ok(None)
    }
}

/// The positions of all arcs of a list that is written plainly; `None` for any other.
pub(crate) fn plain_arcs<A: Allocator + Copy>(
    alloc: A,
    scratch: &mut Vec<Pos, A>,
    delta: bool,
    span: Span<'_>,
) -> Result<Option<Vec<Vec<Pos, A>, A>>, AllocError>
    ensures { IfOk result (λ r. IfSome r (λ v. arcs delta (node span.entry) ≡ Ok (map (λ a. a.items) v.items))) }
{
    match after(b'[', bytes(span)) {
        Some(inside) => plain_items(alloc, scratch, delta, inside),
        None => Ok(None),
    }
}
