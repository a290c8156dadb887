// The features with which one has a border in common.
ghost use Rattle.std.specs.Prelude.{◌≡◌, ◌==◌, ◌↔◌, not, [], map, length, get_or};
ghost use Rattle.std.specs.Prelude.{IfOk, IfErr, OnOk, IsTrue};
ghost use Rattle.std.specs.List.{filter, flat_map};
ghost use Rattle.grid_geometry.specs.Common.{edges};
ghost use Rattle.ring_machine.specs.Common.{has_feature, feature_at};
ghost use Rattle.ring_machine.specs.Query as query;
ghost use Rattle.arc_store.specs.Common.{ListsRingNames};
ghost use Rattle.point_queries.specs.Told.{IsFaultOf};

use crate::numbers::{Numbers, sort_once};
use arc_store::{Map, RingName};
use segment_index::SegIndex;
use std::alloc::{AllocError, Allocator};

/// Why a question about a feature has no answer.
#[derive(Clone, Copy, Debug, PartialEq, Eq)]
pub enum QueryFault {
    /// No feature has the number.
    NoFeature,
    /// Memory was refused.
    OutOfMemory,
}

impl From<AllocError> for QueryFault {
    ghost use Rattle.std.specs.Prelude.{◌≡◌};
    ghost use Rattle.point_queries.specs.declared.sharing.QueryFault.TheVariants.{OutOfMemory};

    ghost from_gives = { λ _ e. e ≡ OutOfMemory };

    fn from(_e: AllocError) -> QueryFault {
        QueryFault::OutOfMemory
    }
}

/// Appends the rings that have a segment of this polygon, which has so many rings. Fails only on
/// allocation failure.
fn push_polygon<'a, I: SegIndex, A: Allocator + Copy>(
    map: &Map<'a, I, A>,
    f: u32,
    polygon: usize,
    rings: usize,
    out: &mut Vec<RingName, A>,
) -> Result<(), AllocError>
    requires { rings ≡ length (get_or (feature_at map.now.doc f).polygons polygon []) }
    ensures { OnOk result (ListsRingNames map.now.doc
        (flat_map edges (get_or (feature_at map.now.doc f).polygons polygon []))
        out.old.items out.new.items) }
{
    for ring in 0..rings {
        map.push_sharing(f, polygon, ring, out)?;
    }
    Ok(())
}

/// The numbers of the features of these rings, but for one.
fn others<A: Allocator + Copy>(
    alloc: A,
    names: &[RingName],
    f: u32,
) -> Result<Vec<u32, A>, AllocError>
    ensures { IfOk result (λ found. found.items
        ≡ filter (λ m. not (m == f)) (map (λ name. name.feature) names.now)) }
{
    let mut found = Vec::new(alloc);
    for name in names {
        if name.feature != f {
            found.push(name.feature)?;
        }
    }
    Ok(found)
}

/// The numbers of the other features that have a segment in common with the feature with this
/// number, ascending. Reads the arcs of the rings of the feature alone.
pub fn neighbours<'a, I: SegIndex, A: Allocator + Copy>(
    alloc: A,
    map: &Map<'a, I, A>,
    f: u32,
) -> Result<Numbers<A>, QueryFault>
    ensures found { IfOk result (λ found. found
        ≡ query.neighbours_of map.now.doc (feature_at map.now.doc f)) }
    ensures there { IfOk result (λ found. IsTrue (has_feature map.now.doc f)) }
    ensures fault { IfErr result (λ fault. IsFaultOf map.now.doc f fault) }
{
    let Some(feature) = map.feature(f) else {
        return Err(QueryFault::NoFeature);
    };
    let mut names = Vec::new(alloc);
    for polygon in 0..feature.polygon_count() {
        push_polygon(map, f, polygon, feature.ring_count(polygon), &mut names)?;
    }
    let mut found = others(alloc, names.as_slice(), f)?;
    sort_once(&mut found);
    Ok(Numbers(found))
}
