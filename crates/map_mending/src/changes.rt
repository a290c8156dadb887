// Which features change, and by how much.
ghost use Rattle.std.specs.Prelude.{◌≡◌, ◌≤◌, ◌++◌, map, length, sum_by, IfOk, OnOk};
ghost use Rattle.std.specs.List.{All};
ghost use Rattle.std.specs.List.Sorted.{IsStrictlySortedBy};
ghost use Rattle.grid_geometry.specs.Common.{segment_cmp};
ghost use Rattle.segment_paths.specs.Common.{IsWay, segments_with_path, paths_seen};
ghost use Rattle.topo_reader.specs.Common.{feature_positions};
ghost use Rattle.map_mending.specs.Areas.{told_if, changes_from};

use crate::areas::area;
use crate::change::AreaChange;
use crate::sweeping::swept;
use grid_geometry::Pos;
use segment_paths::SegmentPath;
use std::alloc::{AllocError, Allocator};

/// Appends a change, where the area changes or something is swept over.
fn push_change<A: Allocator + Copy>(
    changes: &mut Vec<AreaChange, A>,
    change: AreaChange,
) -> Result<(), AllocError>
    ensures { OnOk result (changes.new.items ≡ changes.old.items ++ told_if change) }
{
    if change.before != change.after || change.swept != 0 {
        changes.push(change)?;
    }
    Ok(())
}

/// How the areas of features change as their borders are led along paths and mended: of each feature
/// whose area changes, or whose borders sweep over anything, in order. The polygons are those of each
/// feature before and after.
///
/// A border sweeps over no more than the triangles of each step of its paths and their ends. Fails only
/// on allocation failure.
pub fn area_changes<A: Allocator + Copy>(
    alloc: A,
    paths: &[SegmentPath<A>],
    before: &[Vec<Vec<Vec<Pos, A>, A>, A>],
    after: &[Vec<Vec<Vec<Pos, A>, A>, A>],
) -> Result<Vec<AreaChange, A>, AllocError>
    requires ascending { IsStrictlySortedBy segment_cmp (segments_with_path (paths_seen paths.now)) }
    requires ways { All (λ p. IsWay p.0 p.1) (paths_seen paths.now) }
    requires same { length after.now ≡ length before.now }
    requires few_before { sum_by (sum_by (sum_by length)) (map feature_positions before.now)
        ≤ 4000000 }
    requires few_after { sum_by (sum_by (sum_by length)) (map feature_positions after.now)
        ≤ 4000000 }
    ensures { IfOk result (λ changes. changes.items ≡ changes_from (paths_seen paths.now) 0
        (map feature_positions before.now) (map feature_positions after.now)) }
{
    let mut changes = Vec::new(alloc);
    for (feature, polygons) in before.iter().enumerate() {
        let change = AreaChange {
            feature,
            before: area(polygons.as_slice()),
            after: area(after[feature].as_slice()),
            swept: swept(paths, polygons.as_slice()),
        };
        push_change(&mut changes, change)?;
    }
    Ok(changes)
}
