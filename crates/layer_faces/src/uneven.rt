// The polygons whose area by their rings is not that by the even-odd rule.
ghost use Rattle.std.specs.Prelude.{◌≡◌, ◌≤◌, ◌++◌, unsigned_abs, length, sum_by, All, IfOk, OnOk};
ghost use Rattle.ring_parts.specs.Seen.{polygons_seen};
ghost use Rattle.layer_faces.specs.Weighed.{told_beside_all, told_if};

use crate::rings::polygon_area;
use grid_geometry::Pos;
use std::alloc::{AllocError, Allocator};

/// A polygon whose area by its rings is not that by the even-odd rule, as where a hole is not inside the
/// outer ring.
#[derive(Clone, Copy, Debug, PartialEq, Eq)]
pub struct Uneven {
    /// The number of the polygon in the layer, from 0.
    pub polygon: usize,
    /// Twice its area by its rings: that of the outer one less those of the holes.
    pub by_rings: i128,
    /// Twice the area of what it holds by the even-odd rule.
    pub even_odd: i128,
}

/// Appends a polygon, where its two areas differ.
fn push_uneven<A: Allocator + Copy>(
    found: &mut Vec<Uneven, A>,
    told: Uneven,
) -> Result<(), AllocError>
    ensures { OnOk result (found.new.items ≡ found.old.items ++ told_if told) }
{
    if told.by_rings != told.even_odd {
        found.push(told)?;
    }
    Ok(())
}

/// The polygons whose areas by their rings are not these, in order.
pub(crate) fn uneven_in<A: Allocator + Copy>(
    alloc: A,
    polygons: &[Vec<Vec<Pos, A>, A>],
    areas: &[i128],
) -> Result<Vec<Uneven, A>, AllocError>
    requires same { length areas.now ≡ length polygons.now }
    requires few { sum_by (sum_by length) (polygons_seen polygons.now) ≤ 4000000 }
    requires small { All (λ z. unsigned_abs z ≤ 64000000000000000000000000000000000000) areas.now }
    ensures { IfOk result
        (λ found. found.items ≡ told_beside_all 0 (polygons_seen polygons.now) areas.now) }
{
    let mut found = Vec::new(alloc);
    for (polygon, rings) in polygons.iter().enumerate() {
        let told = Uneven {
            polygon,
            by_rings: polygon_area(rings.as_slice()),
            even_odd: areas[polygon],
        };
        push_uneven(&mut found, told)?;
    }
    Ok(found)
}
