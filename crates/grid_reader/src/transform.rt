// The transform of a grid that is finer by a power of ten (TopoJSON 1.0, 2.1.2).
ghost use Rattle.std.specs.Prelude.{◌≡◌, ◌≤◌, Ok, option_map, IfOk, None, Some, codes};
ghost use Rattle.json_spans.specs.Common.{node, items, members, decoded};
ghost use Rattle.topo_outline.specs.Common.{Gives};
ghost use Rattle.decimal_texts.specs.Common.{parts, shifted_text};
ghost use Rattle.grid_reader.specs.Transform.{member_value, two_number_nodes, two_in, new_transform_text, divided, transform_on, number};
ghost use Rattle.grid_reader.specs.TransformView.{view_transform};
ghost use Rattle.decimal_texts.specs.Geometries.{is_string_of};

use crate::fine::two;
use decimal_texts::{Decimal, decimal_of, push_shifted};
use json_spans::{Kind, Span, TextFault, bytes, kind, members, text};
use std::alloc::{AllocError, Allocator, Global};
use topo_outline::{OpenFault, Token};

/// The transform of a map on a grid.
#[derive(Drop)]
#[derive_where(Debug)]
pub enum Transform<'a, A: Allocator + Copy = Global> {
    /// As it stands in the text, and none where it is missing or `null`.
    Kept(Option<&'a [u8]>),
    /// One that was made, since the grid is finer than that of the text.
    Made(Vec<u8, A>),
}

impl<'a, A: Allocator + Copy> Transform<'a, A> {
    /// Its text, if there is one.
    pub fn text(&self) -> Option<&[u8]>
        ensures { option_map (λ t. t.now) result ≡ view_transform self.now }
    {
        match self {
            Transform::Kept(text) => *text,
            Transform::Made(text) => Some(text.as_slice()),
        }
    }
}

/// The member that is at fault where a transform cannot be divided.
fn transform_name() -> Token<'static>
    ensures { result.text.now ≡ codes "transform" }
{
    Token { text: b"transform" }
}

/// Whether a name stands for this text (RFC 8259, 7).
fn says<'a>(heap: Global, name: &[u8], span: Span<'a>) -> Result<bool, OpenFault<'a>>
    ensures { Gives (λ b. b) result (Ok (is_string_of name.now (decoded (node span.entry).bytes))) }
{
    match text(heap, span) {
        Ok(decoded) => Ok(decoded.as_str().as_bytes() == name),
        Err(TextFault::BadText) => Ok(false),
        Err(TextFault::OutOfMemory) => Err(OpenFault::OutOfMemory),
    }
}

/// The value of the first member with this name.
fn value_named<'a>(
    heap: Global,
    name: &[u8],
    object: Span<'a>,
) -> Result<Option<Span<'a>>, OpenFault<'a>>
    ensures { Gives (option_map node) result
        (Ok (member_value name.now (members (node object.entry)))) }
{
    for member in members(object) {
        if or_return!(says(heap, name, member.0)) {
            return Ok(Some(member.1));
        }
    }
    Ok(None)
}

/// The parts of a list of two numbers.
#[tactic(auto, unfolding(crate::specs::Transform::two_number_nodes))]
fn two_numbers<'a>(part: Span<'a>) -> Option<(Span<'a>, Span<'a>)>
    ensures { option_map (λ p. (node p.0, node p.1)) result ≡ two_number_nodes (node part.entry) }
{
    if kind(part) != Kind::List {
        return None;
    }
    let (first, second) = two(false, part)?;
    (kind(first) == Kind::Number && kind(second) == Kind::Number).then_some((first, second))
}

/// The two numbers of the member with this name.
fn two_named<'a>(
    heap: Global,
    name: &[u8],
    object: Span<'a>,
) -> Result<(Span<'a>, Span<'a>), OpenFault<'a>>
    ensures { Gives (λ p. (node p.0, node p.1)) result
        (two_in (member_value name.now (members (node object.entry)))) }
{
    match value_named(heap, name, object) {
        Ok(Some(value)) => match two_numbers(value) {
            Some(pair) => Ok(pair),
            None => Err(OpenFault::BadMember {
                name: transform_name(),
            }),
        },
        Ok(None) => Err(OpenFault::BadMember {
            name: transform_name(),
        }),
        Err(fault) => Err(fault),
    }
}

/// A number of a transform.
fn number<'a>(text: &'a [u8]) -> Result<Decimal<'a>, OpenFault<'a>>
    ensures { Gives parts result (number text.now) }
{
    match decimal_of(text) {
        Some(number) => Ok(number),
        None => Err(OpenFault::BadMember {
            name: transform_name(),
        }),
    }
}

/// The text of a transform with this scale, divided by 10^`digits`, and this translation.
fn made<A: Allocator + Copy>(
    alloc: A,
    digits: usize,
    scale: (Decimal<'_>, Decimal<'_>),
    translate: (&[u8], &[u8]),
) -> Result<Vec<u8, A>, AllocError>
    requires { digits ≤ 36 }
    ensures { IfOk result (λ v. v.items ≡ new_transform_text
        (shifted_text digits (parts scale.entry.0)) (shifted_text digits (parts scale.entry.1))
        translate.entry.0.now translate.entry.1.now) }
{
    let mut text = Vec::new(alloc);
    text.extend_from_slice(b"{\"scale\":[")?;
    push_shifted(&mut text, scale.0, digits)?;
    text.extend_from_slice(b",")?;
    push_shifted(&mut text, scale.1, digits)?;
    text.extend_from_slice(b"],\"translate\":[")?;
    text.extend_from_slice(translate.0)?;
    text.extend_from_slice(b",")?;
    text.extend_from_slice(translate.1)?;
    text.extend_from_slice(b"]}")?;
    Ok(text)
}

/// The transform of a grid finer by 10^`digits`, where there was none.
fn first<'a, A: Allocator + Copy>(alloc: A, digits: usize) -> Result<Vec<u8, A>, OpenFault<'a>>
    requires { digits ≤ 36 }
    ensures { Gives (λ v. v.items) result (divided digits None) }
{
    let one = or_return!(number(b"1"));
    Ok(made(alloc, digits, (one, one), (b"0", b"0"))?)
}

/// A transform with its scale divided by 10^`digits`.
fn divided<'a, A: Allocator + Copy>(
    alloc: A,
    heap: Global,
    digits: usize,
    text: &'a [u8],
) -> Result<Vec<u8, A>, OpenFault<'a>>
    requires { digits ≤ 36 }
    ensures { Gives (λ v. v.items) result (divided digits (Some text.now)) }
{
    let object = Span { text, at: 0 };
    let scale = or_return!(two_named(heap, b"scale", object));
    let across = or_return!(number(bytes(scale.0)));
    let upward = or_return!(number(bytes(scale.1)));
    let (x, y) = or_return!(two_named(heap, b"translate", object));
    Ok(made(alloc, digits, (across, upward), (bytes(x), bytes(y)))?)
}

/// The transform of a grid that is finer by 10^`digits`.
pub(crate) fn transform_on<'a, A: Allocator + Copy>(
    alloc: A,
    heap: Global,
    digits: usize,
    text: Option<&'a [u8]>,
) -> Result<Transform<'a, A>, OpenFault<'a>>
    requires { digits ≤ 36 }
    ensures { Gives view_transform result (transform_on digits (option_map (λ t. t.now) text.entry)) }
{
    if digits == 0 {
        return Ok(Transform::Kept(text));
    }
    let made = match text {
        Some(text) => divided(alloc, heap, digits, text),
        None => first(alloc, digits),
    };
    Ok(Transform::Made(or_return!(made)))
}
