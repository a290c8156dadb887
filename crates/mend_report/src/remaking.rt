//! From a map of walks to the text of the map that it is mended to.
ghost use Rattle.std.specs.Prelude.{◌≡◌, IfOk, IfErr};
ghost use Rattle.topo_reader.specs.Common.{document_of, IsOfWalks, view_raw};
ghost use Rattle.walk_faults.specs.Common.{features_seen};
ghost use Rattle.mend_report.specs.Remaking.{IsRemade, EndsMending};

use crate::repair_fault::RepairFault;
use crate::saving::saved_text;
use grid_geometry::Pos;
use map_mending::{AreaChange, Mending, Parted, area_changes, mend};
use segment_index::TreeIndex;
use segment_paths::SegmentPath;
use std::alloc::{Allocator, Global};
use std::hash::RandomState;
use topo_reader::RawDoc;

/// What was done to a map, and the text that it is saved as.
#[derive(Drop)]
pub struct Remade<A: Allocator + Copy = Global> {
    /// The paths that its borders were led along.
    pub paths: Vec<SegmentPath<A>, A>,
    /// The polygons that were taken apart.
    pub parted: Vec<Parted, A>,
    /// The features whose area changed, or whose borders swept over something.
    pub areas: Vec<AreaChange, A>,
    /// The text of the mended map, which opens.
    pub text: Vec<u8, A>,
}

/// Mends a map that was read with walks, and saves it as a text that opens. Its polygons are given
/// once more.
pub(crate) fn remake<'a, A: Allocator + Copy>(
    alloc: A,
    heap: Global,
    seed: RandomState,
    map: RawDoc<'a, A>,
    polygons: &[Vec<Vec<Vec<Pos, A>, A>, A>],
) -> Result<Remade<A>, RepairFault<'static>>
    requires walks { IsOfWalks (view_raw map) }
    requires same { features_seen polygons.now ≡ (view_raw map).polygons }
    ensures remade { IfOk result (IsRemade (document_of (view_raw map.entry))) }
    ensures refused { IfErr result (λ fault. EndsMending fault (view_raw map.entry)) }
{
    let index = TreeIndex::new(heap, map.extent());
    let Mending { map, paths, parted } = mend(alloc, index, map)?;
    let areas = area_changes(alloc, paths.as_slice(), polygons, map.polygons.as_slice())?;
    let text = saved_text(alloc, heap, seed, map)?;
    Ok(Remade {
        paths,
        parted,
        areas,
        text,
    })
}
