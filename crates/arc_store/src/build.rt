ghost use Rattle.std.specs.Prelude.{◌≡◌, None, IfOk, IfErr, length};
ghost use Rattle.std.specs.FinSet as set;
ghost use Rattle.ring_machine.specs.Common.{features, Proper, first_pair};
ghost use Rattle.topo_reader.specs.Common.{document_of, IsOfRings, view_raw};
ghost use Rattle.arc_store.specs.Faults.{Names};

use crate::fault::BuildFault;
use crate::map::Map;
use local_planarity::TestCount;
use map_frame::Frame;
use map_opening::{flattened, lay, regrouped};
use segment_index::SegIndex;
use std::alloc::{Allocator, Global};
use std::hash::RandomState;
use topo_reader::RawDoc;

impl<'a, I: SegIndex, A: Allocator + Copy> Map<'a, I, A> {
    /// The map of what was read, in an index that is empty; positions are hashed by a seed, and `heap`
    /// holds long lists of arcs and of rings. Fails with the least pair of segments in conflict, or on
    /// allocation failure.
    pub fn build(
        alloc: A,
        heap: Global,
        seed: RandomState,
        raw: RawDoc<'a, A>,
        index: I,
    ) -> Result<Map<'a, I, A>, BuildFault>
        requires rings { IsOfRings (view_raw raw) }
        requires empty { I.held index ≡ set.empty }
        ensures built { IfOk result (λ map. map.doc ≡ document_of (view_raw raw.entry)) }
        ensures proper { IfOk result (λ map. Proper map.doc) }
        ensures next { IfOk result (λ map. map.next ≡ length (features map.doc)) }
        ensures untested { IfOk result (λ map. map.tests ≡ 0) }
        ensures cells { IfOk result (λ map. map.cells ≡ I.cells index) }
        ensures none { IfOk result (λ map. map.last ≡ None) }
        ensures conflict { IfErr result
            (λ fault. Names fault (first_pair (document_of (view_raw raw.entry)))) }
    {
        let RawDoc {
            transform,
            layers,
            members,
            polygons,
        } = raw;
        let flat = flattened(alloc, polygons)?;
        let opened = lay(alloc, heap, seed, index, flat.rings.as_slice())?;
        if let Some((s, t)) = opened.first {
            return Err(BuildFault::Conflict { s, t });
        }
        let numbers = regrouped(alloc, opened.numbers.as_slice(), flat.shape.as_slice())?;
        let frame = Frame::build(alloc, transform, layers, members, numbers)?;
        Ok(Map {
            frame,
            rings: opened.tables,
            tests: TestCount::new(),
            positions: opened.positions,
            last: None,
        })
    }
}
