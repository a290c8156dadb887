// How many positions the rings may have.
ghost use Rattle.std.specs.Prelude.{◌≡◌, ◌+◌, ◌-◌, ◌^◌, fold, flat_map, length, map, min, nat_le};
ghost use Rattle.topo_reader.specs.Sizes.{size};
ghost use Rattle.topo_reader.specs.Uses.{feature_uses};

use crate::indexes::Use;
use std::alloc::Allocator;

/// The most positions that all rings have, each arc counted for each of its uses.
const MAX_POSITIONS: usize = 4_000_000;

/// The lengths of the arcs, added over all uses, or the greatest number where they are more.
fn size<A: Allocator + Copy>(features: &[Vec<Vec<Vec<Use<'_>, A>, A>, A>]) -> usize
    ensures { result ≡ fold (λ sum one. min (sum + length one.arc.now) (2 ^ 64 - 1)) 0
        (flat_map (λ ring. ring.items) (flat_map (λ polygon. polygon.items)
        (flat_map (λ polygons. polygons.items) features.now))) }
{
    let uses = features.iter().flatten().flatten().flatten();
    uses.fold(0usize, |sum, one| sum.saturating_add(one.arc.len()))
}

/// Whether the lengths of the arcs, added over all uses, are within the limit.
pub(crate) fn fit<A: Allocator + Copy>(features: &[Vec<Vec<Vec<Use<'_>, A>, A>, A>]) -> bool
    ensures { result ≡ nat_le (size (map feature_uses features.now)) 4000000 }
{
    size(features) <= MAX_POSITIONS
}
