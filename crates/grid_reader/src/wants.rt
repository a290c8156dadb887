//! What is asked of coordinates.
ghost use Rattle.std.specs.Prelude.{◌≤◌};

use crate::needs::PointNeeds;

/// What is asked of the coordinates of a map.
#[derive(Clone, Copy, Debug)]
pub struct Wants {
    /// At most so many decimals are kept.
    pub digits: usize,
    /// The grid is made finer by 10 to the power of this.
    pub finer: usize,
    /// Whether further numbers of positions are left out.
    pub drop_heights: bool,
    /// Whether points and several points lie on the grid that is asked for already.
    pub points_lie: bool,
    /// What points need of the grid: they count where the coordinates of arcs have decimals.
    pub points: PointNeeds,
    ghost few_digits: { digits ≤ 24 },
    ghost not_too_fine: { finer ≤ 12 },
}
