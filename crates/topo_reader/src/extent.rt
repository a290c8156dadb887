// The extent of a topology.
ghost use Rattle.std.specs.Prelude.{◌≡◌, ◌-◌, length, map, flat_map, fold};
ghost use Rattle.std.specs.Prelude as prelude;
ghost use Rattle.ring_machine.specs.Common.{positions};
ghost use Rattle.topo_outline.specs.Common.{at_most_one, leaf_of, leaves_in, leaves, view_item};
ghost use Rattle.topo_outline.specs.Common.{view_layer};
ghost use Rattle.topo_reader.specs.Document.{document_of};
ghost use Rattle.topo_reader.specs.DocumentView.{view_raw};
ghost use Rattle.topo_reader.specs.Extent.{box_with, widened, extent_of};

use crate::document::RawDoc;
use grid_geometry::{Pos, Rect};
use std::alloc::Allocator;
use topo_outline::{Item, RawLayer};

/// The least box of a box and a position.
fn box_with(rect: Option<Rect>, pos: Pos) -> Rect
    ensures { result ≡ box_with rect pos }
{
    let (x, y) = (pos.x(), pos.y());
    match rect {
        None => Rect {
            x0: x,
            y0: y,
            x1: x,
            y1: y,
        },
        Some(rect) => Rect {
            x0: rect.x0.min(x),
            y0: rect.y0.min(y),
            x1: rect.x1.max(x),
            y1: rect.y1.max(y),
        },
    }
}

#[tactic(auto, using(crate::proofs::Widening::step, crate::proofs::Widening::end))]
fn with_ring(before: Option<Rect>, ring: &[Pos]) -> Option<Rect>
    ensures { result ≡ widened before ring.now }
{
    let mut rect = before;
    for pos in ring {
        rect = Some(box_with(rect, *pos));
    }
    rect
}

fn with_features<A: Allocator + Copy>(features: &[Vec<Vec<Vec<Pos, A>, A>, A>]) -> Option<Rect>
    ensures { result ≡ fold (λ rect ring. widened rect ring.items) prelude.None
        (flat_map (λ polygon. polygon.items) (flat_map (λ polygons. polygons.items) features.now)) }
{
    let rings = features.iter().flatten().flatten();
    rings.fold(None, |rect, ring| with_ring(rect, ring.as_slice()))
}

/// 1 for a feature, and 0 for any other item.
fn features_in<A: Allocator + Copy>(item: &Item<'_, A>) -> usize
    ensures { result ≡ length (at_most_one (leaf_of (view_item item.now))) }
{
    match item {
        Item::Leaf(_) => 1,
        _ => 0,
    }
}

/// What a number is less the number of features among the items, and 0 where they are more.
fn less_items<A: Allocator + Copy>(number: usize, items: &[Item<'_, A>]) -> usize
    ensures { result ≡ number - length (leaves_in (map view_item items.now)) }
{
    let mut left = number;
    for item in items {
        left = left.saturating_sub(features_in(item));
    }
    left
}

/// What a number is less the number of features of the layers, and 0 where they are more.
fn less_layers<A: Allocator + Copy>(number: usize, layers: &[RawLayer<'_, A>]) -> usize
    ensures { result ≡ number - length (leaves (map view_layer layers.now)) }
{
    let mut left = number;
    for layer in layers {
        left = less_items(left, layer.items.as_slice());
    }
    left
}

impl<'a, A: Allocator + Copy> RawDoc<'a, A> {
    /// The least box of the positions of all rings, and none where there is no ring (TopoJSON 1.0, 3).
    /// It takes no memory.
    pub fn extent(&self) -> Option<Rect>
        ensures { result ≡ extent_of (positions (document_of (view_raw self.now))) }
    {
        let features = self.polygons.as_slice();
        let unnamed = less_layers(features.len(), self.layers.values().as_slice());
        with_features(&features[..features.len() - unnamed])
    }
}
