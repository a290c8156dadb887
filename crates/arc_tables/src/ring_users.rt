//! The lists of the rings that have a segment, and of those that have one of a ring's.
ghost use Rattle.std.specs.Prelude.{◌≡◌, ◌++◌, ℕ, [], OnOk, IfSome};
ghost use Rattle.slab.specs.Slab.{get};
ghost use Rattle.arc_tables.specs.Sound.{rings_of, Sound};
ghost use Rattle.arc_tables.specs.Users.{HasSegment, ListsUsers, ListsSharing, sharers_in};

use crate::arc::Arc;
use crate::place::arcs_at;
use crate::tables::Tables;
use slab::Slab;
use std::alloc::{AllocError, Allocator};
use vertex_index::VertexKey;

/// Appends the numbers of the rings of arc `i`, where it has a segment.
fn push_sharers<A: Allocator + Copy, B: Allocator>(
    arcs: &Slab<Arc<A>, A>,
    i: usize,
    out: &mut Vec<usize, B>,
) -> Result<(), AllocError>
    ensures { OnOk result (out.new.items ≡ out.old.items ++ sharers_in (get arcs.now i)) }
{
    if let Some(arc) = arcs.get(i) {
        if arc.keys.len() > 1 {
            out.extend_from_slice(arc.rings.as_slice())?;
        }
    }
    Ok(())
}

impl<A: Allocator + Copy> Tables<A> {
    /// Appends the numbers of the rings that have the segment of a and b, in either direction, each
    /// once: those of the arc that has it. Fails only on allocation failure.
    pub fn push_users<B: Allocator>(
        &self,
        a: VertexKey,
        b: VertexKey,
        out: &mut Vec<usize, B>,
    ) -> Result<(), AllocError>
        requires { Sound self.now }
        ensures { OnOk result (ListsUsers (rings_of self.now) a b out.old.items out.new.items) }
    {
        if let Some(place) = self.find(a, b) {
            let arc = self.arcs.get(place.arc).unwrap();
            out.extend_from_slice(arc.rings.as_slice())?;
        }
        Ok(())
    }

    /// The numbers of the rings that have a segment of vertex a, each once, where a is listed for one
    /// arc alone: all its segments are of that arc. `None` where it may stand in several.
    pub fn users_around(&self, a: VertexKey) -> Option<&[usize]>
        requires { Sound self.now }
        ensures { IfSome result (λ found. (b r : ℕ) → HasSegment (rings_of self.now) a b r
            → ListsUsers (rings_of self.now) a b [] found.now) }
    {
        let among = arcs_at(&self.stands, a);
        if among.len() != 1 {
            return None;
        }
        let arc = self.arcs.get(among[0])?;
        Some(arc.rings.as_slice())
    }

    /// Appends the numbers of the rings that have a segment in common with ring `r`, itself among them,
    /// some perhaps several times: those of each arc that it uses. Where there is no such ring nothing
    /// is appended. Fails only on allocation failure; some of them may then have been appended.
    pub fn push_sharing<B: Allocator>(
        &self,
        r: usize,
        out: &mut Vec<usize, B>,
    ) -> Result<(), AllocError>
        requires { Sound self.now }
        ensures { OnOk result (ListsSharing (rings_of self.now) r out.old.items out.new.items) }
    {
        if let Some(ring) = self.rings.get(r) {
            for u in ring.uses.as_slice() {
                push_sharers(&self.arcs, u.arc, out)?;
            }
        }
        Ok(())
    }
}
