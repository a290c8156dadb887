//! The pieces of a text (RFC 8259).
ghost use Rattle.std.specs.Prelude.{◌≡◌, ◌+◌, ◌<◌, ◌≤◌, ◌++◌, ◌-ℤ◌, drop, length, OnOk};
ghost use Rattle.std.specs.Fmt.{signed_decimal};
ghost use Rattle.grid_geometry.specs.Common.{position};
ghost use Rattle.map_text.specs.Common.{comma_if, pair_text, pairs, arc_text, ring_text};
ghost use Rattle.topo_writer.specs.Found.{at_place};

use grid_geometry::Pos;
use itoa::{Buffer, write_digits};
use std::alloc::{AllocError, Allocator};

/// Appends a number in decimal.
pub fn push_number<A: Allocator + Copy>(
    text: &mut Vec<u8, A>,
    number: i64,
) -> Result<(), AllocError>
    ensures { OnOk result (text.new.items ≡ text.old.items ++ signed_decimal number) }
{
    let mut buffer = Buffer::new();
    text.extend_from_slice(buffer.format(number).as_bytes())
}

/// Appends a comma where something stands before.
pub fn push_comma<A: Allocator + Copy>(text: &mut Vec<u8, A>, more: bool) -> Result<(), AllocError>
    ensures { OnOk result (text.new.items ≡ text.old.items ++ comma_if more) }
{
    if more {
        text.push(b',')?;
    }
    Ok(())
}

/// The most bytes of a pair: two brackets, a comma, and twice a sign and 19 digits.
const PAIR_ROOM: usize = 43;

/// Writes a number in decimal so that it ends before a place, and answers where it begins.
fn write_before(buffer: &mut [u8], end: usize, number: i64) -> usize
    requires room { 20 ≤ end }
    requires within { end ≤ length buffer.old }
    ensures short { end ≤ result + 20 }
    ensures some { result < end }
    ensures written { drop result buffer.new ≡ signed_decimal number ++ drop end buffer.old }
{
    let start = write_digits(number.unsigned_abs(), buffer, end);
    if number >= 0 {
        return start;
    }
    buffer[start - 1] = b'-';
    start - 1
}

/// Appends a pair of numbers.
pub fn push_pair<A: Allocator + Copy>(
    text: &mut Vec<u8, A>,
    x: i64,
    y: i64,
) -> Result<(), AllocError>
    ensures { OnOk result (text.new.items ≡ text.old.items ++ pair_text (position x y)) }
{
    let mut buffer = [b']'; PAIR_ROOM];
    let second = write_before(&mut buffer, PAIR_ROOM - 1, y);
    buffer[second - 1] = b',';
    let first = write_before(&mut buffer, second - 1, x);
    buffer[first - 1] = b'[';
    text.extend_from_slice(&buffer[first - 1..])
}

/// How far a position lies to the right of another.
fn across(p: Pos, before: Pos) -> i64
    ensures { result ≡ p.x -ℤ before.x }
{
    p.x() - before.x()
}

/// How far a position lies above another.
fn upward(p: Pos, before: Pos) -> i64
    ensures { result ≡ p.y -ℤ before.y }
{
    p.y() - before.y()
}

/// The pair of an arc at a place: with a transform the difference to the position before, and the
/// position itself at the first place and without one (TopoJSON 1.0, 2.1.2).
fn pair_at(delta: bool, arc: &[Pos], i: usize) -> (i64, i64)
    requires { i < length arc.now }
    ensures { position result.0 result.1 ≡ at_place (pairs delta arc.now) i }
{
    let p = arc[i];
    if !delta || i == 0 {
        return (p.x(), p.y());
    }
    let before = arc[i - 1];
    (across(p, before), upward(p, before))
}

/// Appends an arc.
pub(crate) fn push_arc<A: Allocator + Copy>(
    text: &mut Vec<u8, A>,
    delta: bool,
    arc: &[Pos],
) -> Result<(), AllocError>
    ensures { OnOk result (text.new.items ≡ text.old.items ++ arc_text delta arc.now) }
{
    text.push(b'[')?;
    for i in 0..arc.len() {
        push_comma(text, i > 0)?;
        let (x, y) = pair_at(delta, arc, i);
        push_pair(text, x, y)?;
    }
    text.push(b']')?;
    Ok(())
}

/// Appends a ring by the indexes of its arcs.
pub(crate) fn push_ring<A: Allocator + Copy>(
    text: &mut Vec<u8, A>,
    indexes: &[i64],
) -> Result<(), AllocError>
    ensures { OnOk result (text.new.items ≡ text.old.items ++ ring_text indexes.now) }
{
    text.push(b'[')?;
    for i in 0..indexes.len() {
        push_comma(text, i > 0)?;
        push_number(text, indexes[i])?;
    }
    text.push(b']')?;
    Ok(())
}
