// Segments in conflict.
use crate::bounds::Bounds;
use grid_geometry::{Pos, Seg};

/// Two segments that meet elsewhere than at their common ends.
#[derive(Clone, Copy)]
pub struct Conflict {
    /// The lesser of them.
    pub first: Seg,
    /// The greater.
    pub second: Seg,
}

impl Conflict {
    /// The position in the middle of what the bounds of both have in common.
    pub fn middle(&self) -> Option<Pos> {
        let first = Bounds::of(self.first.lo).with(self.first.hi);
        let second = Bounds::of(self.second.lo).with(self.second.hi);
        first.middle_with(&second)
    }
}
