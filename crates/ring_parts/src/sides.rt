// The segments of a ring, found by a search.
ghost use Rattle.std.specs.Prelude.{◌≡◌, IfOk, map};
ghost use Rattle.std.specs.List.{list_any};
ghost use Rattle.std.specs.List.Sorted.{IsSorted};
ghost use Rattle.grid_geometry.specs.Common.{Edge};
ghost use Rattle.grid_geometry.specs.Ring as geometry;
ghost use Rattle.ring_machine.specs.Common.{edge_eq, is_common};
ghost use Rattle.ring_parts.specs.Borders.{ends_of, edge_cmp};

use crate::edges::{all_ends, edges, ends};
use crate::membership::has_sorted;
use grid_geometry::Pos;
use std::alloc::{AllocError, Allocator};

/// A ring with its segments sorted beside it.
#[derive(Drop)]
pub(crate) struct Border<'r, A: Allocator> {
    ring: &'r [Pos],
    sides: Vec<(Pos, Pos), A>,
    ghost ascending: { IsSorted edge_cmp sides.items },
    ghost same: { (e : Edge) → list_any (edge_eq e) sides.items
        ≡ list_any (edge_eq e) (map ends_of (geometry.edges ring.now)) },
}

impl<'r, A: Allocator + Copy> Border<'r, A> {
    /// The border of a ring.
    pub(crate) fn new(alloc: A, ring: &'r [Pos]) -> Result<Border<'r, A>, AllocError>
        ensures { IfOk result (λ border. border.ring.now ≡ ring.now) }
    {
        let edges = edges(alloc, ring)?;
        let mut sides = all_ends(alloc, edges.as_slice())?;
        sides.sort_unstable();
        Ok(Border { ring, sides })
    }

    /// Whether the segment of an edge is one of the ring's.
    #[tactic(auto, using(crate::proofs::Ways::edge_turned))]
    pub(crate) fn has(&self, edge: (Pos, Pos)) -> bool
        ensures { result ≡ is_common self.now.ring.now edge }
    {
        has_sorted(self.sides.as_slice(), &ends(edge))
    }
}
