// From a map of walks to one of rings.
ghost use Rattle.std.specs.Prelude.{◌≡◌, map, IfErr, IfOk};
ghost use Rattle.ring_machine.specs.Common.{in_rings, canonical};
ghost use Rattle.segment_paths.specs.Common.{paths_seen};
ghost use Rattle.topo_reader.specs.Common.{document_of, IsOfRings, IsOfWalks, view_raw};
ghost use Rattle.map_mending.specs.Bounding.{MendedBy, NeedsNoMending};
ghost use Rattle.map_mending.specs.Faults.{IsMendFault};
ghost use Rattle.map_mending.specs.Laws.{VerticesStay, AllStayNear};
ghost use Rattle.map_mending.specs.Mended.{Mended};
ghost use Rattle.map_mending.specs.Told.{TellsPartedIn};

use crate::fault::MendFault;
use crate::forms::with_polygons;
use crate::parted::Parted;
use crate::polygons::mended_features;
use crate::size::{MAX_POSITIONS, fit};
use segment_index::SegIndex;
use segment_paths::{SegmentPath, find_paths};
use std::alloc::{Allocator, Global};
use topo_reader::RawDoc;
use walk_mending::bounding_segments;

/// A map that was mended, and what was done to it.
#[derive(Drop)]
pub struct Mending<'a, A: Allocator + Copy = Global> {
    /// The map, of rings.
    pub map: RawDoc<'a, A>,
    /// The paths that its borders were led along: ascending by their segments, each once. Where no
    /// segments were in conflict there is none.
    pub paths: Vec<SegmentPath<A>, A>,
    /// The polygons that were taken apart, in the order of the map.
    pub parted: Vec<Parted, A>,
}

/// The map with its rings mended. It was read with walks in their place. The index is to be empty:
/// over another one conflicts may be missed.
///
/// The segments that bound its polygons get paths where they conflict, each walk is led along them,
/// and of a polygon whose walks are then not all rings the segments that stand in it an odd number of
/// times become rings. A `Polygon` that then has not exactly one polygon becomes a `MultiPolygon`.
/// All else stays as it is, and a map of rings whose segments do not conflict is not changed, but for
/// where its rings begin.
///
/// Whether the segments of the mended map conflict is not tested here. Fails with `TooLarge` where its
/// rings, or the paths, would have more than 4,000,000 positions, with `Unmended` where paths were
/// found under which two segments still conflict, with `Unparted` where no rings were found for a
/// polygon that bounds something, and on allocation failure.
pub fn mend<'a, I: SegIndex, A: Allocator + Copy>(
    alloc: A,
    index: I,
    raw: RawDoc<'a, A>,
) -> Result<Mending<'a, A>, MendFault>
    requires { IsOfWalks (view_raw raw) }
    ensures rings { IfOk result (λ mending. IsOfRings (view_raw mending.map)) }
    ensures mended { IfOk result (λ mending. Mended (paths_seen mending.paths.items)
        (document_of (view_raw raw.entry)) (document_of (view_raw mending.map))) }
    ensures paths { IfOk result (λ mending.
        MendedBy (document_of (view_raw raw.entry)) (paths_seen mending.paths.items)) }
    ensures parted { IfOk result (λ mending. TellsPartedIn (paths_seen mending.paths.items)
        (document_of (view_raw raw.entry)) (document_of (view_raw mending.map))
        mending.parted.items) }
    ensures stays { IfOk result (λ mending. NeedsNoMending (document_of (view_raw raw.entry))
        → document_of (view_raw mending.map)
        ≡ in_rings canonical (document_of (view_raw raw.entry))) }
    ensures vertices { IfOk result (λ mending. VerticesStay (paths_seen mending.paths.items)
        (document_of (view_raw raw.entry)) (document_of (view_raw mending.map))) }
    ensures near { IfOk result (λ mending. AllStayNear (paths_seen mending.paths.items)
        (document_of (view_raw raw.entry)) (document_of (view_raw mending.map))) }
    ensures fault { IfErr result (IsMendFault (document_of (view_raw raw.entry))) }
{
    let segments = bounding_segments(alloc, raw.polygons.as_slice())?;
    let paths = find_paths(alloc, index, segments.as_slice(), MAX_POSITIONS)?;
    let (polygons, parted) = mended_features(alloc, paths.as_slice(), raw.polygons.as_slice())?;
    if !fit(polygons.as_slice()) {
        return Err(MendFault::TooLarge);
    }
    Ok(Mending {
        map: with_polygons(raw, polygons),
        paths,
        parted,
    })
}
