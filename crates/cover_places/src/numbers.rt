// Pairs of numbers, and commas, appended to a text (RFC 8259).
ghost use Rattle.std.specs.Prelude.{◌≡◌, ◌++◌, ◌-ℤ◌, OnOk};
ghost use Rattle.grid_geometry.specs.Common.{position};
ghost use Rattle.map_text.specs.Common.{comma_if, pair_text};
ghost use Rattle.place_text.specs.Common.{pair_behind};

use grid_geometry::Pos;
use place_text::push_number;
use std::alloc::{AllocError, Allocator};

/// Appends a comma where something stands before.
pub(crate) fn push_comma<A: Allocator>(text: &mut Vec<u8, A>, more: bool) -> Result<(), AllocError>
    ensures { OnOk result (text.new.items ≡ text.old.items ++ comma_if more) }
{
    if more {
        text.extend_from_slice(b",")?;
    }
    Ok(())
}

/// Appends a pair of numbers.
fn push_pair<A: Allocator>(text: &mut Vec<u8, A>, x: i64, y: i64) -> Result<(), AllocError>
    ensures { OnOk result (text.new.items ≡ text.old.items ++ pair_text (position x y)) }
{
    append!(text; b"[" push_number(x) b"," push_number(y) b"]")
}

/// Appends a position, as a pair of numbers.
pub(crate) fn push_position<A: Allocator>(text: &mut Vec<u8, A>, pos: Pos) -> Result<(), AllocError>
    ensures { OnOk result (text.new.items ≡ text.old.items ++ pair_text pos) }
{
    push_pair(text, pos.x(), pos.y())
}

/// How far b is to the right of a.
fn across(a: Pos, b: Pos) -> i64
    ensures { result ≡ b.x -ℤ a.x }
{
    b.x() - a.x()
}

/// How far b is above a.
fn upward(a: Pos, b: Pos) -> i64
    ensures { result ≡ b.y -ℤ a.y }
{
    b.y() - a.y()
}

/// Appends the position after another in an arc: with a transform the difference to that one, and else
/// the position itself (TopoJSON 1.0, 2.1.2 and 2.1.3).
pub(crate) fn push_behind<A: Allocator>(
    text: &mut Vec<u8, A>,
    delta: bool,
    before: Pos,
    pos: Pos,
) -> Result<(), AllocError>
    ensures { OnOk result
        (text.new.items ≡ text.old.items ++ pair_text (pair_behind delta before pos)) }
{
    if delta {
        push_pair(text, across(before, pos), upward(before, pos))
    } else {
        push_position(text, pos)
    }
}
