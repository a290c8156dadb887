// The paths of rings and of lines.
ghost use Rattle.std.specs.Prelude.{◌≡◌, ◌++◌, OnOk, map};
ghost use Rattle.std.specs.Fmt.{signed_decimal};
ghost use Rattle.map_drawing.specs.Paths.{next_text, points_of, start_path, step_path, step_text, steps_path, ring_path, rings_path, line_path};

use crate::corners::is_same;
use crate::points::Point;
use std::alloc::{AllocError, Allocator};
use svg_text::{push_number, push_pair};

/// Appends a number after another one: a minus sign tells them apart as a space does (SVG 1.1, 8.3.9).
fn push_next<A: Allocator>(text: &mut Vec<u8, A>, number: i64) -> Result<(), AllocError>
    ensures { OnOk result (text.new.items ≡ text.old.items ++ next_text number) }
{
    if 0 <= number {
        text.extend_from_slice(b" ")?;
        push_number(text, number)
    } else {
        push_number(text, number)
    }
}

/// Appends a move to a point.
fn push_start<A: Allocator>(text: &mut Vec<u8, A>, point: Point) -> Result<(), AllocError>
    ensures { OnOk result (text.new.items ≡ text.old.items ++ start_path point) }
{
    text.extend_from_slice(b"M")?;
    push_pair(text, point.x, point.y)
}

/// Appends a letter and a number.
fn push_command<A: Allocator>(
    text: &mut Vec<u8, A>,
    letter: &[u8],
    number: i64,
) -> Result<(), AllocError>
    ensures { OnOk result (text.new.items ≡ text.old.items ++ (letter.now ++ signed_decimal number)) }
{
    text.extend_from_slice(letter)?;
    push_number(text, number)
}

/// Appends a line that goes so far to the right and so far down.
fn push_way<A: Allocator>(text: &mut Vec<u8, A>, right: i64, down: i64) -> Result<(), AllocError>
    ensures { OnOk result (text.new.items ≡ text.old.items ++ step_text right down) }
{
    if right == 0 {
        push_command(text, b"v", down)
    } else if down == 0 {
        push_command(text, b"h", right)
    } else {
        push_command(text, b"l", right)?;
        push_next(text, down)
    }
}

/// Appends the line from a point to another one.
fn push_step<A: Allocator>(text: &mut Vec<u8, A>, from: Point, to: Point) -> Result<(), AllocError>
    ensures { OnOk result (text.new.items ≡ text.old.items ++ step_path from to) }
{
    push_way(text, from.right_to(to), from.down_to(to))
}

/// Appends the lines from a point to each of others in turn.
fn push_steps<A: Allocator>(
    text: &mut Vec<u8, A>,
    start: Point,
    points: &[Point],
) -> Result<(), AllocError>
    ensures { OnOk result (text.new.items ≡ text.old.items ++ steps_path start points.now) }
{
    let mut from = start;
    for to in points {
        push_step(text, from, *to)?;
        from = *to;
    }
    Ok(())
}

/// Appends a closed ring.
fn push_ring<A: Allocator>(text: &mut Vec<u8, A>, ring: &[Point]) -> Result<(), AllocError>
    ensures { OnOk result (text.new.items ≡ text.old.items ++ ring_path ring.now) }
{
    let [start, rest @ ..] = ring else {
        return Ok(());
    };
    push_start(text, *start)?;
    push_steps(text, *start, rest)?;
    text.extend_from_slice(b"z")?;
    Ok(())
}

/// Appends rings.
pub(crate) fn push_rings<A: Allocator, B: Allocator + Copy>(
    text: &mut Vec<u8, A>,
    rings: &[Vec<Point, B>],
) -> Result<(), AllocError>
    ensures { OnOk result (text.new.items ≡ text.old.items ++ rings_path (map points_of rings.now)) }
{
    for ring in rings {
        push_ring(text, ring.as_slice())?;
    }
    Ok(())
}

/// Appends a line, unless it ends where it begins.
pub(crate) fn push_line<A: Allocator>(
    text: &mut Vec<u8, A>,
    from: Point,
    to: Point,
) -> Result<(), AllocError>
    ensures { OnOk result (text.new.items ≡ text.old.items ++ line_path from to) }
{
    if is_same(from, to) {
        Ok(())
    } else {
        push_start(text, from)?;
        push_step(text, from, to)
    }
}
