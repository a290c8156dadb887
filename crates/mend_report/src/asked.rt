//! What is asked about a map, and what is reported of it.
ghost use Rattle.std.specs.Prelude.{◌≡◌};

use grid_reader::{PointNeeds, Told, Wants};
use std::alloc::{Allocator, Global};
use walk_faults::Findings;

/// What is asked about a map.
#[derive(Clone, Copy, Debug)]
pub struct Asked {
    /// The grid that its coordinates are put on.
    pub grid: Wants,
    /// How many lines of one kind the report has at most.
    pub most: usize,
    /// How many lines (TopoJSON 1.0, 2.2.3 and 2.2.4) were left out of its text before.
    pub dropped: usize,
}

impl Asked {
    /// So many lines of one kind at most, and the grid that has all decimals that fit; nothing was left
    /// out.
    pub fn with_most(most: usize) -> Asked
        ensures most { result.most ≡ most }
        ensures grid { result.grid.finer ≡ 0 }
    {
        let grid = Wants {
            digits: 24,
            finer: 0,
            drop_heights: false,
            points_lie: false,
            points: PointNeeds::NONE,
        };
        Asked {
            grid,
            most,
            dropped: 0,
        }
    }
}

/// What is reported of a map.
#[derive(Drop)]
pub struct Report<A: Allocator + Copy = Global> {
    /// The grid that its coordinates were put on.
    pub grid: Told,
    /// How many lines were left out of its text before.
    pub dropped: usize,
    /// All that keeps it from opening on that grid.
    pub findings: Findings<A>,
}
