// The walks of a map in one list.
ghost use Rattle.std.specs.Prelude.{◌≡◌, ◌++◌, map, IfOk, OnOk};
ghost use Rattle.walk_faults.specs.Walks.{walks_in_polygon, walks_in_feature, walks_of};
ghost use Rattle.walk_faults.specs.Seen.{walk_seen, features_seen};
ghost use Rattle.ring_parts.specs.Common.{rings_seen, polygons_seen};

use grid_geometry::Pos;
use std::alloc::{AllocError, Allocator};
use topo_outline::RingAt;

/// A walk, and where it stands in the map.
#[derive(Clone, Copy)]
pub(crate) struct Walk<'r> {
    pub(crate) at: RingAt,
    pub(crate) positions: &'r [Pos],
}

/// Appends the walks of a polygon.
fn push_rings<'r, A: Allocator + Copy>(
    walks: &mut Vec<Walk<'r>, A>,
    feature: usize,
    polygon: usize,
    rings: &'r [Vec<Pos, A>],
) -> Result<(), AllocError>
    ensures { OnOk result (map walk_seen walks.new.items ≡ map walk_seen walks.old.items
        ++ walks_in_polygon feature polygon (rings_seen rings.now)) }
{
    for (ring, positions) in rings.iter().enumerate() {
        let at = RingAt {
            feature,
            polygon,
            ring,
        };
        walks.push(Walk {
            at,
            positions: positions.as_slice(),
        })?;
    }
    Ok(())
}

/// Appends the walks of a feature.
fn push_polygons<'r, A: Allocator + Copy>(
    walks: &mut Vec<Walk<'r>, A>,
    feature: usize,
    polygons: &'r [Vec<Vec<Pos, A>, A>],
) -> Result<(), AllocError>
    ensures { OnOk result (map walk_seen walks.new.items ≡ map walk_seen walks.old.items
        ++ walks_in_feature feature (polygons_seen polygons.now)) }
{
    for (polygon, rings) in polygons.iter().enumerate() {
        push_rings(walks, feature, polygon, rings.as_slice())?;
    }
    Ok(())
}

/// The walks of a map, in its order.
pub(crate) fn walks<'r, A: Allocator + Copy>(
    alloc: A,
    polygons: &'r [Vec<Vec<Vec<Pos, A>, A>, A>],
) -> Result<Vec<Walk<'r>, A>, AllocError>
    ensures { IfOk result
        (λ found. map walk_seen found.items ≡ walks_of (features_seen polygons.now)) }
{
    let mut found = Vec::new(alloc);
    for (feature, polygons) in polygons.iter().enumerate() {
        push_polygons(&mut found, feature, polygons.as_slice())?;
    }
    Ok(found)
}
