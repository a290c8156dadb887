// How many decimals are written.
ghost use Rattle.std.specs.Prelude.{◌≡◌, ◌≤◌, ◌*◌, ◌^◌};
ghost use Rattle.grid_decimals.specs.Kept.{fewest};

use crate::grid::Grid;

/// As few decimals, of at most so many, as keep so many units of the last one within a length.
fn fewest(most: usize, units: u128, length: u128) -> usize
    requires units { units ≤ 10 ^ 14 }
    requires length { length ≤ 10 ^ 25 }
    ensures value { result ≡ fewest most units length }
    ensures bound { result ≤ most }
{
    let mut decimals = most;
    let mut wider = units;
    while decimals > 0 && wider * 10 <= length {
        wider *= 10;
        decimals -= 1;
    }
    decimals
}

impl Grid {
    ghost use Rattle.std.specs.Prelude.{◌≡◌};
    ghost use Rattle.grid_decimals.specs.Kept.{least_decimals, least_scale, safe_decimals};
    ghost use Rattle.grid_decimals.specs.Seen.{view_grid};

    /// The lesser scale.
    fn least_scale(&self) -> u128
        ensures value { result ≡ least_scale (view_grid self.now) }
        ensures bound { result ≤ 10 ^ 25 }
    {
        self.x.scale.unsigned_abs().min(self.y.scale.unsigned_abs())
    }

    /// As few decimals as keep positions apart: a unit of the last one is at most one of the grid.
    pub fn least_decimals(&self) -> usize
        ensures value { result ≡ least_decimals (view_grid self.now) }
        ensures bound { result ≤ (view_grid self.now).decimals }
    {
        fewest(self.decimals, 1, self.least_scale())
    }

    /// As few decimals as keep each vertex on its side of each segment, where no segment is wider or higher than this
    /// on the grid; all, where a scale has too few for it.
    pub fn safe_decimals(&self, longest: u64) -> usize
        requires { longest ≤ 2 * 10 ^ 12 }
        ensures value { result ≡ safe_decimals longest (view_grid self.now) }
        ensures bound { result ≤ (view_grid self.now).decimals }
    {
        fewest(
            self.decimals,
            16 * u128::from(longest.max(1)),
            self.least_scale(),
        )
    }
}
