// Polygon by polygon: its walks are led along the paths, and then it stays or is taken apart.
ghost use Rattle.std.specs.Prelude.{◌≡◌, map, IfErr, IfOk};
ghost use Rattle.std.specs.List.Sorted.{IsStrictlySortedBy};
ghost use Rattle.grid_geometry.specs.Common.{segment_cmp};
ghost use Rattle.segment_paths.specs.Common.{paths_seen};
ghost use Rattle.topo_reader.specs.Common.{positions_of, polygon_positions, feature_positions};
ghost use Rattle.walk_mending.specs.Common.{laid};
ghost use Rattle.map_mending.specs.Faults.{AreUnparted, AreUnpartedIn, OnlyUnparted};
ghost use Rattle.map_mending.specs.Seen.{StandsFor};
ghost use Rattle.map_mending.specs.Told.{TellsParted};

use crate::fault::MendFault;
use crate::forms::Polygons;
use crate::parted::Parted;
use grid_geometry::Pos;
use segment_paths::SegmentPath;
use std::alloc::{AllocError, Allocator};
use walk_mending::{all_simple, laid_walk, mended_polygon};

/// The walks of a polygon, each led along the paths.
fn laid_walks<A: Allocator + Copy>(
    alloc: A,
    paths: &[SegmentPath<A>],
    walks: &[Vec<Pos, A>],
) -> Result<Vec<Vec<Pos, A>, A>, AllocError>
    requires { IsStrictlySortedBy segment_cmp (map (λ p. p.0) (paths_seen paths.now)) }
    ensures { IfOk result (λ found. map positions_of found.items
        ≡ map (laid (paths_seen paths.now)) (map positions_of walks.now)) }
{
    let mut found = Vec::new(alloc);
    for walk in walks {
        found.push(laid_walk(alloc, paths, walk.as_slice())?)?;
    }
    Ok(found)
}

/// The polygons that stand in the place of a feature's. Those that were taken apart are appended.
fn mended_feature<A: Allocator + Copy>(
    alloc: A,
    paths: &[SegmentPath<A>],
    feature: usize,
    polygons: &[Vec<Vec<Pos, A>, A>],
    parted: &mut Vec<Parted, A>,
) -> Result<Polygons<A>, MendFault>
    requires { IsStrictlySortedBy segment_cmp (map (λ p. p.0) (paths_seen paths.now)) }
    ensures stands { IfOk result (λ found. StandsFor (paths_seen paths.now) feature
        (map polygon_positions polygons.now) (map polygon_positions found.items)
        parted.old.items parted.new.items) }
    ensures fault { IfErr result (OnlyUnparted (λ n k. (n ≡ feature)
        × AreUnpartedIn (paths_seen paths.now) (map polygon_positions polygons.now) k)) }
{
    let mut found = Vec::new(alloc);
    for (polygon, walks) in polygons.iter().enumerate() {
        let laid = laid_walks(alloc, paths, walks.as_slice())?;
        let Some(mut mended) = mended_polygon(alloc, laid.as_slice())? else {
            return Err(MendFault::Unparted { feature, polygon });
        };
        if !all_simple(alloc, laid.as_slice())? {
            parted.push(Parted {
                feature,
                polygon,
                parts: mended.len(),
            })?;
        }
        found.append(&mut mended)?;
    }
    Ok(found)
}

/// The polygons of all features, each mended, and those that were taken apart.
pub(crate) fn mended_features<A: Allocator + Copy>(
    alloc: A,
    paths: &[SegmentPath<A>],
    features: &[Polygons<A>],
) -> Result<(Vec<Polygons<A>, A>, Vec<Parted, A>), MendFault>
    requires { IsStrictlySortedBy segment_cmp (map (λ p. p.0) (paths_seen paths.now)) }
    ensures tells { IfOk result (λ found. TellsParted (paths_seen paths.now)
        (map feature_positions features.now) (map feature_positions found.0.items)
        found.1.items) }
    ensures fault { IfErr result (OnlyUnparted
        (AreUnparted (paths_seen paths.now) (map feature_positions features.now))) }
{
    let mut found = Vec::new(alloc);
    let mut parted = Vec::new(alloc);
    for (feature, polygons) in features.iter().enumerate() {
        let mended = mended_feature(alloc, paths, feature, polygons.as_slice(), &mut parted)?;
        found.push(mended)?;
    }
    Ok((found, parted))
}
