// A layer that was found.
ghost use Rattle.std.specs.Prelude.{◌≤◌, ◌+◌, ◌^◌};

use std::alloc::Allocator;
use topo_outline::RawLayer;

/// A layer, and how many features and points of the map stand before it. Layers are a list of lists, so the numbers may be
/// beyond a `usize`; one more list has room.
#[derive(Drop)]
pub(crate) struct Found<'r, 'a, A: Allocator + Copy> {
    pub(crate) layer: &'r RawLayer<'a, A>,
    pub(crate) leaves: u128,
    pub(crate) points: u128,
    ghost room_for_leaves: { leaves + 2 ^ 64 ≤ 2 ^ 128 },
    ghost room_for_points: { points + 2 ^ 64 ≤ 2 ^ 128 },
}
