ghost use Rattle.std.specs.Prelude.{◌≡◌, ◌<◌, ◌≤◌, ◌+◌, ◌^◌, ◌%◌, pos};
ghost use Rattle.std.specs.Int.{int_div_euclid};
ghost use Rattle.segment_sets.specs.Covers.{cover_of, clamped};
ghost use Rattle.segment_sets.specs.Directories.{lines_in, home_of, block_of};

use crate::cover::Cover;
use grid_geometry::Rect;

/// The cells of a directory: where they begin, how many times the width and the height of each was
/// doubled, and how many columns and rows there are.
#[derive(Clone, Copy)]
pub(crate) struct Region {
    extent: Rect,
    wide: u32,
    high: u32,
    columns: usize,
    rows: usize,
}

/// How many times a cell is doubled at most.
const DOUBLINGS: u32 = 84;

impl Region {
    /// A region without cells.
    pub(crate) fn none() -> Self {
        Region {
            extent: Rect {
                x0: 0,
                y0: 0,
                x1: 0,
                y1: 0,
            },
            wide: 0,
            high: 0,
            columns: 0,
            rows: 0,
        }
    }

    /// The region of an extent, with the least cells that are not more than so many. No answer depends
    /// on how many there are.
    pub(crate) fn over(extent: Rect, most: usize) -> Self {
        let mut region = Region::doubled(extent, 0);
        for times in 1..DOUBLINGS {
            if region.columns.saturating_mul(region.rows) <= most {
                break;
            }
            region = Region::doubled(extent, times);
        }
        region
    }

    /// The region of an extent, whose cells were doubled so many times, in turn in width and height.
    fn doubled(extent: Rect, times: u32) -> Self {
        let (high, wide) = (times / 2, times - times / 2);
        Region {
            extent,
            wide,
            high,
            columns: lines(extent.x0, extent.x1, wide),
            rows: lines(extent.y0, extent.y1, high),
        }
    }

    /// How many columns there are.
    pub(crate) fn columns(&self) -> usize
        ensures { result ≡ self.now.columns }
    {
        self.columns
    }

    /// How many rows there are.
    pub(crate) fn rows(&self) -> usize
        ensures { result ≡ self.now.rows }
    {
        self.rows
    }

    /// The cells that a box covers.
    fn cover(&self, rect: Rect) -> Cover
        ensures value { result ≡ cover_of (lines_in self.now) rect }
        ensures across { result.left ≤ result.right }
        ensures upward { result.low ≤ result.high }
    {
        let extent = self.extent;
        Cover {
            left: line(rect.x0 - extent.x0, self.wide, self.columns),
            right: line(rect.x1 - extent.x0, self.wide, self.columns) + 1,
            low: line(rect.y0 - extent.y0, self.high, self.rows),
            high: line(rect.y1 - extent.y0, self.high, self.rows) + 1,
        }
    }

    /// The row and the column of the least corner of a box, if it reaches at most one column and one
    /// row further.
    pub(crate) fn home(&self, rect: Rect) -> Option<(usize, usize)>
        ensures { result ≡ home_of (lines_in self.now) rect }
    {
        let cover = self.cover(rect);
        if cover.right.saturating_sub(cover.left) <= 2
            && cover.high.saturating_sub(cover.low) <= 2
        {
            Some((cover.low, cover.left))
        } else {
            None
        }
    }

    /// The cells that can be the home of a box which meets another: their strips, which are rows, and
    /// their places in these.
    pub(crate) fn block(&self, rect: Rect) -> Cover
        ensures value { result ≡ block_of (lines_in self.now) rect }
        ensures across { result.left ≤ result.right }
        ensures upward { result.low ≤ result.high }
    {
        let cover = self.cover(rect);
        Cover {
            left: cover.low.saturating_sub(1),
            right: cover.high,
            low: cover.left.saturating_sub(1),
            high: cover.right,
        }
    }
}

/// How many columns or rows reach from the first coordinate to the last.
fn lines(first: i64, last: i64, shift: u32) -> usize {
    (last.abs_diff(first).wrapping_shr(shift) as usize).saturating_add(1)
}

/// In which of so many columns or rows a coordinate lies, by its distance after the first one.
fn line(distance: i64, shift: u32, count: usize) -> usize
    ensures value { result ≡ clamped count (int_div_euclid distance (pos (2 ^ (shift % 64)))) }
    ensures range { result + 1 < 2 ^ 64 }
{
    if distance < 0 {
        0
    } else {
        ((distance as u64).wrapping_shr(shift) as usize).min(count.saturating_sub(1))
    }
}
