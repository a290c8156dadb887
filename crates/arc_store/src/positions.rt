ghost use Rattle.std.specs.Prelude.{◌≡◌, IfOk};
ghost use Rattle.ring_machine.specs.Common.{vertices, feature_at};
ghost use Rattle.ring_parts.specs.Common.{polygons_seen};
ghost use Rattle.map_frame.specs.Common.{frame_ring};

use crate::map::Map;
use feature_exchange::{RingIter, read_polygons};
use grid_geometry::Pos;
use segment_index::SegIndex;
use std::alloc::{AllocError, Allocator};

impl<'a, I: SegIndex, A: Allocator + Copy> Map<'a, I, A> {
    /// The polygons of feature `n`, each ring as its positions from the least one on, the outer ring
    /// first; none where no feature has the number. Fails only on allocation failure.
    pub fn polygons(&self, n: u32) -> Result<Vec<Vec<Vec<Pos, A>, A>, A>, AllocError>
        ensures { IfOk result
            (λ found. polygons_seen found.items ≡ (feature_at self.now.doc n).polygons) }
    {
        read_polygons(&self.frame, &self.rings, n)
    }

    /// The positions of a ring, from the least one on: of the feature with this number the polygon
    /// and the ring of these numbers, where the outer ring is the first one. `None` where there is
    /// no such ring. Takes no memory.
    pub fn ring(&self, n: u32, polygon: usize, ring: usize) -> Option<RingIter<'_, A>>
        ensures { result ≡ frame_ring self.now.doc n polygon ring }
    {
        let number = self.frame.ring(n, polygon, ring)?;
        RingIter::begin(self.rings.borders.keys(number)?, &self.rings.vertices)
    }

    /// The positions of all vertices, ascending, each once. Goes through the map. Fails only on
    /// allocation failure.
    pub fn vertices(&self) -> Result<Vec<Pos, A>, AllocError>
        ensures { IfOk result (λ found. found.items ≡ vertices self.now.doc) }
    {
        let mut found = Vec::new(self.rings.alloc);
        found.extend_from_slice(self.rings.vertices.positions())?;
        found.sort_unstable();
        found.dedup();
        Ok(found)
    }
}
