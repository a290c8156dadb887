//! The lines of a report.
ghost use Rattle.std.specs.Prelude.{◌≡◌, ℕ, List, ◌++◌, codes, flat_map, length, OnOk};
ghost use Rattle.grid_geometry.specs.Common.{position_text};
ghost use Rattle.mend_report.specs.Report.{short_line, repeat_line, touch_line, crossing_line};
ghost use Rattle.mend_report.specs.Report.{path_line, parts_line, area_line, lines, found_text};
ghost use Rattle.mend_report.specs.Report.{opens_line, decimals_line, heights_line, lines_line};
ghost use Rattle.segment_paths.specs.Common.{path_of_segment};

use crate::texts::{push_position, push_ring, push_segment};
use grid_geometry::Pos;
use grid_reader::Told;
use map_mending::{AreaChange, Parted};
use place_text::push_number;
use segment_paths::SegmentPath;
use std::alloc::{AllocError, Allocator};
use topo_outline::RingAt;
use walk_faults::{Crossing, Findings, Repeat, Touch};

/// Appends the line of a map that opens, where it does.
pub(crate) fn push_opens<A: Allocator>(
    text: &mut Vec<u8, A>,
    is_clear: bool,
) -> Result<(), AllocError>
    ensures { OnOk result (text.new.items ≡ text.old.items ++ opens_line is_clear) }
{
    if is_clear {
        text.extend_from_slice(b"opens\n")?;
    }
    Ok(())
}

/// Appends the line of the decimals of a grid, where a coordinate is not written as a whole number.
pub(crate) fn push_decimals<A: Allocator>(
    text: &mut Vec<u8, A>,
    grid: Told,
) -> Result<(), AllocError>
    ensures { OnOk result (text.new.items ≡ text.old.items ++ decimals_line grid) }
{
    if grid.whole {
        return Ok(());
    }
    append!(text; b"decimals " push_number(grid.decimals) b" digits " push_number(grid.digits)
        b" rounded " push_number(grid.rounded) b"\n")
}

/// Appends the line of the further numbers that were left out, where there were some.
pub(crate) fn push_heights<A: Allocator>(
    text: &mut Vec<u8, A>,
    grid: Told,
) -> Result<(), AllocError>
    ensures { OnOk result (text.new.items ≡ text.old.items ++ heights_line grid) }
{
    if grid.heights == 0 {
        return Ok(());
    }
    append!(text; b"heights " push_number(grid.heights) b"\n")
}

/// Appends the line of the lines that were left out, where there were some.
pub(crate) fn push_lines<A: Allocator>(
    text: &mut Vec<u8, A>,
    dropped: usize,
) -> Result<(), AllocError>
    ensures { OnOk result (text.new.items ≡ text.old.items ++ lines_line dropped) }
{
    if dropped == 0 {
        return Ok(());
    }
    append!(text; b"lines " push_number(dropped) b"\n")
}

/// What a report has a line of.
pub(crate) trait ReportLine {
    ghost line: { Self → List ℕ };

    /// Appends its line.
    fn push_line<A: Allocator>(&self, text: &mut Vec<u8, A>) -> Result<(), AllocError>
        ensures { OnOk result (text.new.items ≡ text.old.items ++ line self.now) };
}

// A ring of fewer than three positions.
impl ReportLine for RingAt {
    ghost line = { short_line };

    fn push_line<A: Allocator>(&self, text: &mut Vec<u8, A>) -> Result<(), AllocError> {
        append!(text; b"short " push_ring(*self) b"\n")
    }
}

impl ReportLine for Repeat {
    ghost line = { repeat_line };

    fn push_line<A: Allocator>(&self, text: &mut Vec<u8, A>) -> Result<(), AllocError> {
        append!(text; b"repeats " push_ring(self.ring) b" " push_position(self.pos) b"\n")
    }
}

impl ReportLine for Touch {
    ghost line = { touch_line };

    fn push_line<A: Allocator>(&self, text: &mut Vec<u8, A>) -> Result<(), AllocError> {
        append!(text; b"on " push_position(self.pos) b" / " push_segment(self.segment) b"\n")
    }
}

impl ReportLine for Crossing {
    ghost line = { crossing_line };

    fn push_line<A: Allocator>(&self, text: &mut Vec<u8, A>) -> Result<(), AllocError> {
        append!(text; b"cross " push_segment(self.first) b" / " push_segment(self.second) b"\n")
    }
}

/// Appends the positions, each after a space.
fn push_positions<A: Allocator>(text: &mut Vec<u8, A>, positions: &[Pos]) -> Result<(), AllocError>
    ensures { OnOk result (text.new.items ≡ text.old.items
        ++ flat_map (λ q. codes " " ++ position_text q) positions.now) }
{
    for position in positions {
        text.extend_from_slice(b" ")?;
        push_position(text, *position)?;
    }
    Ok(())
}

impl<B: Allocator + Copy> ReportLine for SegmentPath<B> {
    ghost line = { λ path. path_line (path_of_segment path) };

    fn push_line<A: Allocator>(&self, text: &mut Vec<u8, A>) -> Result<(), AllocError> {
        append!(text; b"path " push_position(self.segment.lo) push_positions(self.inner.as_slice())
            b" " push_position(self.segment.hi) b"\n")
    }
}

impl ReportLine for Parted {
    ghost line = { parts_line };

    fn push_line<A: Allocator>(&self, text: &mut Vec<u8, A>) -> Result<(), AllocError> {
        append!(text; b"parts " push_number(self.feature) b" " push_number(self.polygon)
            b" " push_number(self.parts) b"\n")
    }
}

impl ReportLine for AreaChange {
    ghost line = { area_line };

    fn push_line<A: Allocator>(&self, text: &mut Vec<u8, A>) -> Result<(), AllocError> {
        let change = *self;
        append!(text; b"area " push_number(change.feature) b" " push_number(change.before)
            b" " push_number(change.after) b" " push_number(change.swept) b"\n")
    }
}

/// Appends a line for each of the first elements of a list, at most so many.
pub(crate) fn push_first<A: Allocator, L: ReportLine>(
    text: &mut Vec<u8, A>,
    list: &[L],
    most: usize,
) -> Result<(), AllocError>
    ensures { OnOk result (text.new.items ≡ text.old.items ++ lines most L.line list.now) }
{
    let first = list.get(..most).unwrap_or(list);
    for told in first {
        told.push_line(text)?;
    }
    Ok(())
}

/// Appends how many findings there are of each kind, without the end of the line.
pub(crate) fn push_found<A: Allocator, B: Allocator + Copy>(
    text: &mut Vec<u8, A>,
    found: &Findings<B>,
) -> Result<(), AllocError>
    ensures { OnOk result (text.new.items ≡ text.old.items
        ++ found_text (length found.now.short.items) (length found.now.repeats.items)
        (length found.now.touches.items) (length found.now.crossings.items)) }
{
    append!(text; b"counts short " push_number(found.short.len())
        b" repeats " push_number(found.repeats.len()) b" on " push_number(found.touches.len())
        b" cross " push_number(found.crossings.len()))
}
