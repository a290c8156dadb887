// The coordinates of a grid, written with so many decimals.
ghost use Rattle.std.specs.Prelude.{◌≡◌, ℕ, ◌≤◌, ◌+◌, ◌*◌, ◌^◌, ◌++◌, unsigned_abs, OnOk};
ghost use Rattle.grid_decimals.specs.Grid.{coordinate_text, nearest, x_text, y_text};
ghost use Rattle.grid_decimals.specs.Seen.{view_axis, view_grid};

use crate::axis::Axis;
use crate::grid::Grid;
use crate::number::power_of_ten;
use crate::writing::push_number;
use std::alloc::{AllocError, Allocator};

/// A grid, and how many decimals of its coordinates are written.
#[derive(Clone, Copy, Debug)]
pub struct Coordinates {
    pub grid: Grid,
    pub decimals: usize,
    pub ghost within: { decimals ≤ grid.decimals },
}

/// So many units as units of the last decimal but so many: the nearest, and halves up.
fn nearest(fewer: usize, units: i128) -> i128
    requires few { fewer ≤ 36 }
    requires near { unsigned_abs units ≤ 2 * 10 ^ 37 }
    ensures { (k : ℕ) → result ≡ nearest (k + fewer) k units }
{
    if fewer == 0 {
        return units;
    }
    let unit = power_of_ten(fewer) as i128;
    (2 * units + unit).div_euclid(2 * unit)
}

impl Coordinates {
    /// Appends a coordinate of this axis.
    fn push<A: Allocator>(
        &self,
        text: &mut Vec<u8, A>,
        axis: Axis,
        number: i64,
    ) -> Result<(), AllocError>
        requires { unsigned_abs number ≤ 10 ^ 12 }
        ensures { OnOk result (text.new.items ≡ text.old.items
            ++ coordinate_text self.now.grid.decimals self.now.decimals (view_axis axis) number) }
    {
        let units = nearest(self.grid.decimals - self.decimals, axis.coordinate(number));
        push_number(text, self.decimals, units)
    }

    /// Appends where a whole number lies across.
    pub fn push_x<A: Allocator>(&self, text: &mut Vec<u8, A>, x: i64) -> Result<(), AllocError>
        requires { unsigned_abs x ≤ 10 ^ 12 }
        ensures { OnOk result (text.new.items ≡ text.old.items
            ++ x_text (view_grid self.now.grid) self.now.decimals x) }
    {
        self.push(text, self.grid.x, x)
    }

    /// Appends where a whole number lies upward.
    pub fn push_y<A: Allocator>(&self, text: &mut Vec<u8, A>, y: i64) -> Result<(), AllocError>
        requires { unsigned_abs y ≤ 10 ^ 12 }
        ensures { OnOk result (text.new.items ≡ text.old.items
            ++ y_text (view_grid self.now.grid) self.now.decimals y) }
    {
        self.push(text, self.grid.y, y)
    }
}
