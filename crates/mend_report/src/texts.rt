//! Rings, positions and segments, appended to a text.
ghost use Rattle.std.specs.Prelude.{◌≡◌, ◌++◌, OnOk};
ghost use Rattle.grid_geometry.specs.Common.{position_text, segment_text};
ghost use Rattle.mend_report.specs.Report.{ring_numbers};

use grid_geometry::{Pos, Seg};
use place_text::push_number;
use std::alloc::{AllocError, Allocator};
use topo_outline::RingAt;

/// Appends the numbers of the feature, of the polygon and of the ring, with spaces between them.
pub(crate) fn push_ring<A: Allocator>(text: &mut Vec<u8, A>, ring: RingAt) -> Result<(), AllocError>
    ensures { OnOk result (text.new.items ≡ text.old.items ++ ring_numbers ring) }
{
    append!(text; push_number(ring.feature) b" " push_number(ring.polygon) b" " push_number(ring.ring))
}

/// Appends both numbers, with a space between them.
pub(crate) fn push_position<A: Allocator>(
    text: &mut Vec<u8, A>,
    position: Pos,
) -> Result<(), AllocError>
    ensures { OnOk result (text.new.items ≡ text.old.items ++ position_text position) }
{
    append!(text; push_number(position.x()) b" " push_number(position.y()))
}

/// Appends the lesser end and the greater, with a space between them.
pub(crate) fn push_segment<A: Allocator>(
    text: &mut Vec<u8, A>,
    segment: Seg,
) -> Result<(), AllocError>
    ensures { OnOk result (text.new.items ≡ text.old.items ++ segment_text segment) }
{
    append!(text; push_position(segment.lo) b" " push_position(segment.hi))
}
