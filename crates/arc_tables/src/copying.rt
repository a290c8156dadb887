//! Copies of the tables, in memory of the same allocator.
ghost use Rattle.std.specs.Prelude.{IfOk};
ghost use Rattle.arc_tables.specs.Stores.{SamePaths, SameUsers, SameRings, SameKeys, ListsMore};

use crate::tables::Tables;
use std::alloc::{AllocError, Allocator};

impl<A: Allocator + Copy> Tables<A> {
    /// Tables that hold the same. Fails only on allocation failure.
    pub fn copy(&self) -> Result<Tables<A>, AllocError>
        ensures arcs { IfOk result (λ copy. SamePaths self.now.arcs copy.arcs × SameUsers self.now.arcs copy.arcs) }
        ensures rings { IfOk result (λ copy. SameRings self.now.rings copy.rings × SameKeys self.now.rings copy.rings) }
        ensures stands { IfOk result (λ copy. ListsMore self.now.stands.items copy.stands.items) }
    {
        let arcs = self.arcs.clone()?;
        let rings = self.rings.clone()?;
        let stands = self.stands.clone()?;
        let ends = self.ends.clone()?;
        Ok(Tables {
            alloc: self.alloc,
            heap: self.heap,
            arcs,
            rings,
            stands,
            ends,
        })
    }
}
