// The text without its lines.
ghost use Rattle.std.specs.Prelude.{◌≡◌, ◌⊎◌, ◌+◌, ◌-◌, ◌<◌, ◌^◌, length, replicate, map, slice_set, None, IfOk, OnOk};
ghost use Rattle.std.specs.List.{fold};
ghost use Rattle.json_spans.specs.Common.{members, node, Json};
ghost use Rattle.decimal_texts.specs.Found.{found_value};
ghost use Rattle.decimal_texts.specs.Dropped.{line_geometries, overwritten, end_of, behind, range_of, blanked, nulled, without_line, whole_value, without_lines};

use crate::geometries::{Shape, all_geometries, says, value_in};
use json_spans::{ScanFault, Span, members, scan};
use std::alloc::{AllocError, Allocator, Global};

/// A text without its lines, and how many they were.
#[derive(Drop)]
#[derive_where(Debug)]
pub struct Dropped<A: Allocator + Copy = Global> {
    pub text: Vec<u8, A>,
    pub lines: usize,
}

fn end_of(span: Span<'_>) -> usize
    ensures { result ≡ end_of (node span.entry) }
{
    span.at + span.text.len()
}

/// A range that begins where the member before ended.
fn behind(before: Option<usize>, to: usize) -> Option<(usize, usize)>
    ensures { result ≡ behind before to }
{
    before.map(|from| (from, to))
}

/// From where to where the first member of this name stands, with one comma.
fn range_of(heap: Global, name: &str, span: Span<'_>) -> Result<Option<(usize, usize)>, AllocError>
    ensures { IfOk result (λ range. range ≡ range_of name.now None (members (node span.entry))) }
{
    let mut left = members(span);
    let mut member = match left.next() {
        Some(member) => member,
        None => return Ok(None),
    };
    let mut before = None;
    for next in left {
        let named = says(heap, name, member.0)?;
        if named {
            return Ok(Some((member.0.at, next.0.at)));
        }
        before = Some(end_of(member.1));
        member = next;
    }
    let last = says(heap, name, member.0)?;
    if last {
        Ok(behind(before, end_of(member.1)))
    } else {
        Ok(None)
    }
}

fn set(text: &mut [u8], place: usize, byte: u8)
    ensures { text.new ≡ slice_set text.old place byte }
{
    if place < text.len() {
        text[place] = byte;
    }
}

/// Puts bytes in the place of as many others.
#[tactic(auto, using(crate::proofs::Putting::put_step, crate::proofs::Putting::put_end))]
fn put(text: &mut [u8], place: usize, bytes: &[u8])
    requires { place + length bytes.now < 2 ^ 64 }
    ensures { text.new ≡ overwritten place bytes.now text.old }
{
    for (i, byte) in bytes.iter().enumerate() {
        set(text, place + i, *byte);
    }
}

/// Puts spaces from a place up to another.
#[tactic(auto, using(crate::proofs::Putting::blank_step, crate::proofs::Putting::blank_end))]
fn blank(text: &mut [u8], from: usize, to: usize)
    ensures { text.new ≡ overwritten from (replicate (to - from) 32) text.old }
{
    for place in from..to {
        set(text, place, b' ');
    }
}

/// Spaces in a range of the text.
fn blanked(text: &mut [u8], range: Option<(usize, usize)>)
    ensures { text.new ≡ blanked range text.old }
{
    if let Some(range) = range {
        blank(text, range.0, range.1);
    }
}

/// `null`, and spaces, in the place of a value.
fn nulled(text: &mut [u8], value: Option<Span<'_>>)
    ensures { text.new ≡ nulled (found_value value.entry) text.old }
{
    if let Some(value) = value {
        let null = b"null";
        let len = value.text.len().min(null.len());
        blank(text, value.at, end_of(value));
        put(text, value.at, &null[..len]);
    }
}

/// The text without the `type` and the `arcs` of this line.
fn without_line(heap: Global, text: &mut [u8], line: Span<'_>) -> Result<(), AllocError>
    ensures { OnOk result (text.new ≡ without_line text.old (node line.entry)) }
{
    let range = range_of(heap, "arcs", line)?;
    let value = value_in(heap, "type", line)?;
    blanked(text, range);
    nulled(text, value);
    Ok(())
}

/// The text of a topology without its lines, each of which becomes a geometry whose `type` is `null`
/// (TopoJSON 1.0, 2.2.3 and 2.2.4), and how many they are. Every other value keeps its place.
///
/// Bytes that are no JSON with at most 100 lists and objects one in another are given as they are.
/// `Err` comes on allocation failure.
#[tactic(auto, using(crate::proofs::Putting::length_without, crate::proofs::Walking::fold_step, crate::proofs::Walking::fold_end))]
pub fn without_lines<A: Allocator + Copy>(
    alloc: A,
    heap: Global,
    bytes: &[u8],
) -> Result<Dropped<A>, AllocError>
    ensures text { IfOk result (λ dropped.
        ((dropped.text.items ≡ without_lines bytes.now)
        × (dropped.lines ≡ length (line_geometries (whole_value bytes.now))))
        ⊎ ((¬ Json 100 bytes.now) × (dropped.text.items ≡ bytes.now) × (dropped.lines ≡ 0))) }
    ensures as_it_is { IfOk result (λ dropped.
        (¬ Json 100 bytes.now) → dropped.text.items ≡ bytes.now) }
    ensures long { IfOk result (λ dropped. length dropped.text.items ≡ length bytes.now) }
{
    let root = match scan(alloc, bytes) {
        Ok(root) => root,
        Err(ScanFault::NotJson { place: _ } | ScanFault::TooDeep { place: _ }) => {
            let text = Vec::from_slice(alloc, bytes)?;
            return Ok(Dropped { text, lines: 0 });
        }
        Err(ScanFault::OutOfMemory) => return Err(AllocError),
    };
    let lines = all_geometries(alloc, heap, Shape::Lines, root.span())?;
    let mut text = Vec::from_slice(alloc, bytes)?;
    for line in lines.as_slice() {
        without_line(heap, text.as_mut_slice(), *line)?;
    }
    Ok(Dropped {
        text,
        lines: lines.len(),
    })
}
