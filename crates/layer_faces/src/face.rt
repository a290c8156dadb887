// A face of a layer.
ghost use Rattle.std.specs.Prelude.{◌≤◌, unsigned_abs};

use crate::kind::Kind;
use std::alloc::{Allocator, Global};

/// A face of a layer.
#[derive(Drop)]
pub struct Face<A: Allocator + Copy = Global> {
    /// The numbers of its sides, ascending: 2i is the left side of border i, and 2i + 1 its right side.
    pub sides: Vec<u32, A>,
    /// The first of them, by which the face is named.
    pub first: u32,
    /// The numbers of the polygons that hold it, ascending.
    pub holders: Vec<u32, A>,
    /// The features that hold it, ascending; of a face that none holds, the features beside it.
    pub features: Vec<usize, A>,
    /// Twice its area.
    pub twice_area: i128,
    /// The length of the borders around it, in 65,536ths of a unit.
    pub border: u128,
    /// What kind of face it is.
    pub kind: Kind,
    ghost small: { unsigned_abs twice_area ≤ 16000000000000000000000000000000 },
    ghost short: { border ≤ 147573952589676412928000000 },
}

impl<A: Allocator + Copy> Face<A> {
    ghost use Rattle.std.specs.Prelude.{◌≡◌, ℕ, pos, ◌*ℤ◌, ◌≤ℤ◌, ◌*◌, ◌<◌, ◌↔◌};
    ghost use Rattle.layer_faces.specs.Lengths.{width_of};

    /// Its width in units, rounded up: twice its area by the length of its border. Of a long sliver that
    /// is its mean width.
    pub fn width(&self) -> u128
        ensures value { result ≡ width_of self.now.twice_area self.now.border }
        ensures within { (w : ℕ) → 0 < self.now.border
            → (result ≤ w ↔ (pos 65536 *ℤ self.now.twice_area) ≤ℤ pos (w * self.now.border)) }
    {
        if self.twice_area <= 0 || self.border == 0 {
            return 0;
        }
        (self.twice_area.unsigned_abs() * 65_536 + (self.border - 1)) / self.border
    }
}
