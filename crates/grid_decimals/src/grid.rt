// The grid of a map.
ghost use Rattle.std.specs.Prelude.{◌≤◌};

use crate::axis::Axis;

/// From the whole numbers of a grid to coordinates (TopoJSON 1.0, 2.1.2).
#[derive(Clone, Copy, Debug)]
pub struct Grid {
    pub(crate) is_given: bool,
    pub(crate) decimals: usize,
    pub(crate) x: Axis,
    pub(crate) y: Axis,
    ghost few: { decimals ≤ 36 },
}

impl Grid {
    ghost use Rattle.std.specs.Prelude.{◌≡◌};
    ghost use Rattle.grid_decimals.specs.Grid.{is_flipped};
    ghost use Rattle.grid_decimals.specs.Seen.{view_grid};

    /// Whether the map has a transform.
    pub fn is_given(&self) -> bool
        ensures { result ≡ (view_grid self.now).is_given }
    {
        self.is_given
    }

    /// How many decimals its coordinates have at the most.
    pub fn decimals(&self) -> usize
        ensures value { result ≡ (view_grid self.now).decimals }
        ensures few { result ≤ 36 }
    {
        self.decimals
    }

    /// Whether exactly one of the scales is negative: what turns to the left on the grid turns to the right on the map.
    pub fn is_flipped(&self) -> bool
        ensures { result ≡ is_flipped (view_grid self.now) }
    {
        self.x.is_negative() != self.y.is_negative()
    }
}
