ghost use Rattle.std.specs.Prelude.{◌≡◌, None, IfOk};

use crate::map::Map;
use segment_index::SegIndex;
use std::alloc::{AllocError, Allocator};

impl<'a, I: SegIndex, A: Allocator + Copy> Map<'a, I, A> {
    /// Another map with the same document, places, next number and count of tests, in memory of the
    /// same allocator; what takes the last edit back stays with this one. Fails only on allocation
    /// failure.
    pub fn copy(&self) -> Result<Map<'a, I, A>, AllocError>
        ensures { IfOk result (λ copy. copy ≡ record self.now { last = None }) }
    {
        let frame = self.frame.copy()?;
        let rings = self.rings.copy()?;
        Ok(Map {
            frame,
            rings,
            tests: self.tests,
            positions: self.positions,
            last: None,
        })
    }
}
