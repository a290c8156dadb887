// An arc that is written without space, and with whole numbers of a minus and digits alone, is
// read in one walk over its bytes.
ghost use Rattle.std.specs.Prelude.{◌≡◌, ◌∷◌, ◌+ℤ◌, true, drop, IfSome, IfOk};
ghost use Rattle.grid_geometry.specs.Common.{position, InRange};
ghost use Rattle.json_spans.specs.Common.{node};
ghost use Rattle.topo_reader.specs.Arcs.{origin};
ghost use Rattle.topo_reader.specs.Positions.{arc};
ghost use Rattle.topo_reader.specs.Plain.{PlainDigits, PlainNumber, PlainPair, PlainStep, PlainFront, PlainArc, Follows};

use crate::arcs::{before_next, origin};
use grid_geometry::Pos;
use json_spans::{Span, bytes};
use std::alloc::{AllocError, Allocator};

/// Ten times a number below it, and a digit, is a number of at most eighteen digits.
const LIMIT: u64 = 100_000_000_000_000_000;

/// The first digits as a number, and what follows them; `None` where there is none, or where the number
/// has more than eighteen.
fn digits(bytes: &[u8]) -> Option<(u64, &[u8])>
    ensures { IfSome result (λ n. PlainDigits bytes.now n.0 n.1.now) }
{
    let mut value = 0u64;
    for (i, x) in bytes.iter().enumerate() {
        if !x.is_ascii_digit() {
            return (i > 0).then_some((value, &bytes[i..]));
        }
        if value >= LIMIT {
            return None;
        }
        value = value * 10 + u64::from(*x - b'0');
    }
    None
}

pub(crate) fn after(byte: u8, bytes: &[u8]) -> Option<&[u8]>
    ensures { IfSome result (λ rest. bytes.now ≡ byte ∷ rest.now) }
{
    match bytes {
        [x, rest @ ..] if *x == byte => Some(rest),
        _ => None,
    }
}

/// The first number, and what follows it.
fn plain_number(bytes: &[u8]) -> Option<(i64, &[u8])>
    ensures { IfSome result (λ n. PlainNumber bytes.now n.0 n.1.now) }
{
    if let Some(body) = after(b'-', bytes) {
        let (size, rest) = digits(body)?;
        return Some((0 - size as i64, rest));
    }
    let (value, rest) = digits(bytes)?;
    Some((value as i64, rest))
}

/// The two numbers of the first pair, and what follows it.
fn plain_pair(bytes: &[u8]) -> Option<(i64, i64, &[u8])>
    ensures { IfSome result (λ n. PlainPair bytes.now n.0 n.1 n.2.now) }
{
    let (x, behind) = plain_number(after(b'[', bytes)?)?;
    let (y, end) = plain_number(after(b',', behind)?)?;
    Some((x, y, after(b']', end)?))
}

/// What follows the comma or the closing bracket in front, and whether it is the comma.
pub(crate) fn others(bytes: &[u8]) -> Option<(bool, &[u8])>
    ensures { IfSome result (λ n. Follows bytes.now n.0 n.1.now) }
{
    match bytes {
        [b',', rest @ ..] => Some((true, rest)),
        [b']', rest @ ..] => Some((false, rest)),
        _ => None,
    }
}

/// The position that the numbers lead to.
fn moved(before: Pos, x: i64, y: i64) -> Option<Pos>
    ensures { IfSome result (λ p. (p ≡ position (before.x +ℤ x) (before.y +ℤ y)) × InRange p) }
{
    Pos::new(before.x().checked_add(x)?, before.y().checked_add(y)?)
}

/// The position that a pair leads to, whether a comma follows it, and what follows.
#[derive(Clone, Copy)]
struct Step<'a> {
    to: Pos,
    more: bool,
    left: &'a [u8],
}

fn plain_step(before: Pos, bytes: &[u8]) -> Option<Step<'_>>
    ensures { IfSome result (λ s. PlainStep before s.to bytes.now s.more s.left.now) }
{
    let (x, y, rest) = plain_pair(bytes)?;
    let to = moved(before, x, y)?;
    let (more, left) = others(rest)?;
    Some(Step { to, more, left })
}

/// Lists the positions of the pairs after the bracket in `found`, in place of what it held, and gives
/// what follows the bracket that closes the list.
fn plain_positions<'a, A: Allocator + Copy>(
    found: &mut Vec<Pos, A>,
    delta: bool,
    inside: &'a [u8],
) -> Result<Option<&'a [u8]>, AllocError>
    ensures { IfOk result (λ r. IfSome r (λ rest. PlainFront delta origin true inside.now found.new.items rest.now)) }
{
    found.clear();
    let mut before = origin();
    let mut more = true;
    let mut left = inside;
    while more {
        let Some(step) = plain_step(before, left) else {
            return Ok(None);
        };
        found.push(step.to)?;
        before = before_next(delta, step.to);
        more = step.more;
        left = step.left;
    }
    Ok(Some(left))
}

/// What follows the first bracket, where another one does.
fn inside(text: &[u8]) -> Option<&[u8]>
    ensures { IfSome result (λ s. (text.now ≡ 91 ∷ s.now) × (s.now ≡ 91 ∷ drop 1 s.now)) }
{
    match text {
        [b'[', inside @ ..] if inside.first() == Some(&b'[') => Some(inside),
        _ => None,
    }
}

/// The positions of the first arc, and what follows it; `None` where none is written plainly.
///
/// They grow in `scratch`, whose room serves for one arc after the other, and are copied out at
/// their exact length.
pub(crate) fn arc_in_front<'a, A: Allocator + Copy>(
    alloc: A,
    scratch: &mut Vec<Pos, A>,
    delta: bool,
    text: &'a [u8],
) -> Result<Option<(Vec<Pos, A>, &'a [u8])>, AllocError>
    ensures { IfOk result (λ r. IfSome r (λ v. PlainArc delta text.now v.0.items v.1.now)) }
{
    let Some(inside) = inside(text) else {
        return Ok(None);
    };
    match plain_positions(scratch, delta, inside)? {
        Some(rest) if scratch.len() >= 2 => {
            Ok(Some((Vec::from_slice(alloc, scratch.as_slice())?, rest)))
        }
        _ => Ok(None),
    }
}

/// The positions of an arc that is written plainly; `None` for any other.
pub(crate) fn plain_arc<A: Allocator + Copy>(
    alloc: A,
    scratch: &mut Vec<Pos, A>,
    delta: bool,
    span: Span<'_>,
) -> Result<Option<Vec<Pos, A>>, AllocError>
    ensures { IfOk result (λ r. IfSome r (λ v. arc delta (node span.entry) ≡ Ok v.items)) }
{
    match arc_in_front(alloc, scratch, delta, bytes(span))? {
        Some((found, rest)) if rest.is_empty() => Ok(Some(found)),
        _ => Ok(None),
    }
}
