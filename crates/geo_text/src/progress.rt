// How far a layer is written.
use std::alloc::Allocator;
use topo_outline::Head;

/// How far a layer is written.
#[derive(Drop)]
pub(crate) struct Progress<'m, 'a, A: Allocator + Copy> {
    /// The collections that are open in the layer, the innermost last.
    pub(crate) heads: Vec<&'m Head<'a, A>, A>,
    /// Whether something stands before in the innermost one.
    pub(crate) more: bool,
    /// The number of the next Feature of the text.
    pub(crate) feature: usize,
    /// The number of the next feature of the map that has rings or none, by which its polygons are found. Layers are a
    /// list of lists, so it may be beyond a `usize`.
    pub(crate) leaf: u128,
    /// The number of the next point of the map.
    pub(crate) point: u128,
}

impl<'m, 'a, A: Allocator + Copy> Progress<'m, 'a, A> {
    ghost use Rattle.std.specs.Prelude.{◌≡◌, ◌==◌, ◌<◌, ◌+◌, ◌^◌, length};
    ghost use Rattle.geo_text.specs.Items.{begin_at, passed};
    ghost use Rattle.geo_text.specs.Seen.{view_progress};

    /// Before the first item of a layer that these numbers of the map come to.
    pub(crate) fn new(alloc: A, leaf: u128, point: u128) -> Progress<'m, 'a, A>
        ensures at { view_progress result ≡ begin_at point }
        ensures leaf { result.leaf ≡ leaf }
    {
        Progress {
            heads: Vec::new(alloc),
            more: false,
            feature: 0,
            leaf,
            point,
        }
    }

    /// Whether the next geometry is a Feature's, and stands in no other one.
    pub(crate) fn is_outside(&self) -> bool
        ensures { result ≡ (length (view_progress self.now).heads == 0) }
    {
        self.heads.is_empty()
    }

    /// Passes a geometry.
    pub(crate) fn pass(&mut self)
        requires { self.old.feature + 1 < 2 ^ 64 }
        ensures at { view_progress self.new ≡ passed (view_progress self.old) }
        ensures leaf { self.new.leaf ≡ self.old.leaf }
    {
        if self.heads.is_empty() {
            self.feature += 1;
        } else {
            self.more = true;
        }
    }
}
