// The segments that findings speak of.
ghost use Rattle.std.specs.Prelude.{◌≡◌, ◌++◌, IfOk, OnOk};
ghost use Rattle.walk_faults.specs.Common.{flat_map_at};
ghost use Rattle.place_text.specs.Sides.{touch_side, crossing_sides, sides_of};

use crate::places::Kind;
use grid_geometry::Seg;
use std::alloc::{AllocError, Allocator};
use walk_faults::{Crossing, Findings, Touch};

/// A segment that a finding speaks of.
#[derive(Clone, Copy)]
pub(crate) struct Side {
    pub(crate) segment: Seg,
    pub(crate) kind: Kind,
    /// The number of the finding among those of its kind, from 0.
    pub(crate) number: usize,
}

/// Appends the segments that vertices lie on.
fn push_touched<A: Allocator + Copy>(
    sides: &mut Vec<Side, A>,
    touches: &[Touch],
) -> Result<(), AllocError>
    ensures { OnOk result
        (sides.new.items ≡ sides.old.items ++ flat_map_at touch_side 0 touches.now) }
{
    for (number, touch) in touches.iter().enumerate() {
        sides.push(Side {
            segment: touch.segment,
            kind: Kind::On,
            number,
        })?;
    }
    Ok(())
}

/// Appends the segments that cross, pair after pair.
fn push_crossed<A: Allocator + Copy>(
    sides: &mut Vec<Side, A>,
    pairs: &[Crossing],
) -> Result<(), AllocError>
    ensures { OnOk result
        (sides.new.items ≡ sides.old.items ++ flat_map_at crossing_sides 0 pairs.now) }
{
    for (number, pair) in pairs.iter().enumerate() {
        sides.push(Side {
            segment: pair.first,
            kind: Kind::Cross,
            number,
        })?;
        sides.push(Side {
            segment: pair.second,
            kind: Kind::Cross,
            number,
        })?;
    }
    Ok(())
}

/// The segments of findings: those that vertices lie on, and then both of each pair that crosses.
pub(crate) fn sides<A: Allocator + Copy>(
    alloc: A,
    findings: &Findings<A>,
) -> Result<Vec<Side, A>, AllocError>
    ensures { IfOk result (λ sides. sides.items ≡ sides_of findings.now) }
{
    let mut sides = Vec::new(alloc);
    push_touched(&mut sides, findings.touches.as_slice())?;
    push_crossed(&mut sides, findings.crossings.as_slice())?;
    Ok(sides)
}
