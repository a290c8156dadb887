ghost use Rattle.std.specs.Prelude.{◌≡◌, ◌≤◌, length, None, Some, option_map, OnOk, IfErr};
ghost use Rattle.ring_machine.specs.Common.{first_of, ring_refusals};
ghost use Rattle.ring_parts.specs.Common.{polygons_seen};
ghost use Rattle.arc_store.specs.Common.{Refuses};
ghost use Rattle.split_merge.specs.Conditions.{only_outer};

use arc_store::EditFault;
use grid_geometry::Pos;
use ring_parts::{SharedSides, common_else, has_common, runs, same_side};
use std::alloc::Allocator;

/// The outer ring of the only one of these polygons.
pub(crate) fn only_outer<A: Allocator + Copy>(polygons: &[Vec<Vec<Pos, A>, A>]) -> Option<&[Pos]>
    ensures { option_map (λ ring. ring.now) result ≡ only_outer (polygons_seen polygons.now) }
{
    let [polygon] = polygons else {
        return None;
    };
    match polygon.as_slice() {
        [outer, ..] => Some(outer.as_slice()),
        [] => None,
    }
}

/// Tells whether two outer rings can be joined: they have a common segment, one run of them and no
/// other common position, and their areas do not lie on the same side of the run.
pub(crate) fn check_rings<A: Allocator + Copy>(
    alloc: A,
    one: &[Pos],
    other: &[Pos],
) -> Result<(), EditFault>
    requires few { length one.now ≤ 4000000 }
    requires few_others { length other.now ≤ 4000000 }
    ensures accepted { OnOk result
        (first_of (ring_refusals (Some one.now) (Some other.now)) ≡ None) }
    ensures refused { IfErr result
        (λ fault. Refuses fault (first_of (ring_refusals (Some one.now) (Some other.now)))) }
{
    let shared = SharedSides::new(alloc, one, other)?;
    if !has_common(&shared) {
        return Err(EditFault::NotNeighbours);
    }
    let n = runs(alloc, &shared)?;
    if 1 < n {
        return Err(EditFault::Runs { n });
    }
    if let Some(pos) = common_else(alloc, &shared)? {
        return Err(EditFault::CommonElse { pos });
    }
    if same_side(alloc, &shared)? {
        return Err(EditFault::SameSide);
    }
    Ok(())
}
