//! The least two segments of a map in conflict, found as its segments come into an index one after another.
ghost use Rattle.std.specs.Prelude.{◌≡◌, IfOk, OnOk};
ghost use Rattle.ring_machine.specs.Common.{first_pair};
ghost use Rattle.ring_parts.specs.Common.{polygons_seen, rings_seen};
ghost use Rattle.topo_reader.specs.Common.{document_of, IsOfRings, view_raw};
ghost use Rattle.walk_faults.specs.Common.{segment_at, walk_segments};
ghost use Rattle.cover_report.specs.Filling.{Fills, feature_segments, polygon_segments};

use grid_geometry::{Pos, Seg};
use local_planarity::{TestCount, fill};
use segment_index::{SegIndex, TreeIndex};
use std::alloc::{AllocError, Allocator, Global};
use topo_reader::RawDoc;

/// Segments in an index, and the least two of them in conflict.
#[derive(Drop)]
pub(crate) struct Filling<A: Allocator + Copy> {
    index: TreeIndex,
    first: Option<(Seg, Seg)>,
    /// Those near the one that came last: one list serves for all.
    near: Vec<Seg, A>,
    tests: TestCount,
}

impl<A: Allocator + Copy> Filling<A> {
    /// Puts the segment between two positions in, where they differ.
    fn put_edge(&mut self, from: Pos, to: Pos) -> Result<(), AllocError>
        ensures { OnOk result (Fills self.old (segment_at (from, to)) self.new) }
    {
        let Some(segment) = Seg::new(from, to) else {
            return Ok(());
        };
        fill(
            &mut self.index,
            segment,
            &mut self.first,
            &mut self.near,
            &mut self.tests,
        )
    }

    /// Puts the segments of a ring in.
    fn put_ring(&mut self, ring: &[Pos]) -> Result<(), AllocError>
        ensures { OnOk result (Fills self.old (walk_segments ring.now) self.new) }
    {
        let [first, rest @ ..] = ring else {
            return Ok(());
        };
        let mut from = *first;
        for to in rest {
            self.put_edge(from, *to)?;
            from = *to;
        }
        self.put_edge(from, *first)
    }

    /// Puts the segments of a polygon in.
    fn put_polygon(&mut self, rings: &[Vec<Pos, A>]) -> Result<(), AllocError>
        ensures { OnOk result (Fills self.old (polygon_segments (rings_seen rings.now)) self.new) }
    {
        for ring in rings {
            self.put_ring(ring.as_slice())?;
        }
        Ok(())
    }

    /// Puts the segments of a feature in.
    fn put_feature(&mut self, polygons: &[Vec<Vec<Pos, A>, A>]) -> Result<(), AllocError>
        ensures { OnOk result
            (Fills self.old (feature_segments (polygons_seen polygons.now)) self.new) }
    {
        for rings in polygons {
            self.put_polygon(rings.as_slice())?;
        }
        Ok(())
    }
}

/// How many positions the rings of a polygon have.
fn ring_positions<A: Allocator + Copy>(rings: &[Vec<Pos, A>]) -> usize {
    let mut count = 0usize;
    for ring in rings {
        count = count.saturating_add(ring.len());
    }
    count
}

/// How many positions the rings of a feature have.
fn feature_positions<A: Allocator + Copy>(polygons: &[Vec<Vec<Pos, A>, A>]) -> usize {
    let mut count = 0usize;
    for rings in polygons {
        count = count.saturating_add(ring_positions(rings.as_slice()));
    }
    count
}

/// How many segments features have if each stands in two rings, as on most maps.
fn shared_by_two<A: Allocator + Copy>(features: &[Vec<Vec<Vec<Pos, A>, A>, A>]) -> usize {
    let mut count = 0usize;
    for polygons in features {
        count = count.saturating_add(feature_positions(polygons.as_slice()));
    }
    count / 2
}

/// The least two segments of a map in conflict, which opening reports; none where it opens.
pub(crate) fn first_pair<A: Allocator + Copy>(
    alloc: A,
    heap: Global,
    raw: &RawDoc<'_, A>,
) -> Result<Option<(Seg, Seg)>, AllocError>
    requires { IsOfRings (view_raw raw.now) }
    ensures { IfOk result (λ pair. first_pair (document_of (view_raw raw.now)) ≡ pair) }
{
    let mut index = TreeIndex::new(heap, raw.extent());
    index.prepare(shared_by_two(raw.polygons.as_slice()))?;
    let mut filling = Filling {
        index,
        first: None,
        near: Vec::new(alloc),
        tests: TestCount::new(),
    };
    for polygons in raw.polygons.as_slice() {
        filling.put_feature(polygons.as_slice())?;
    }
    Ok(filling.first)
}
