// The borders of polygons, each with the polygons that it bounds.
ghost use Rattle.std.specs.Prelude.{◌≡◌, ◌≤◌, ◌<◌, ℕ, [], map, length, slice_index_or, Contains, IfOk};
ghost use Rattle.std.specs.Prelude.{IsTrue};
ghost use Rattle.std.specs.List.{list_all};
ghost use Rattle.std.specs.List.Sorted.{IsStrictlySortedBy};
ghost use Rattle.grid_geometry.specs.Common.{Segment};
ghost use Rattle.ring_machine.specs.Common.{is_ring};
ghost use Rattle.layer_sides.specs.Borders.{AreBorders, Bordering};
ghost use Rattle.layer_sides.specs.Seen.{border_seen, borders_seen};
ghost use Rattle.layer_sides.specs.Standing.{standing_cmp, AreGrouped};
ghost use Rattle.ring_parts.specs.Common.{polygons_seen};

use crate::border::Border;
use crate::fault::SideFault;
use crate::standing::{Standing, odd_standing};
use grid_geometry::{Pos, Seg};
use std::alloc::{AllocError, Allocator};

/// The most polygons of a layer: their numbers are 32 bits long.
const MOST_POLYGONS: usize = 4_294_967_295;

/// The most numbers of polygons that the borders of a layer have in all.
const MOST_NUMBERS: usize = 16_000_000;

/// How many of these, from the first one on, are of this segment.
fn run_length(rest: &[Standing], segment: Seg) -> usize
    ensures within { result ≤ length rest.now }
    ensures alike { (k : ℕ) → (x : Standing) → k < result
        → (slice_index_or rest.now k x).segment ≡ segment }
    ensures other { (x : Standing) → result < length rest.now
        → (slice_index_or rest.now result x).segment ≡ segment → ⊥ }
{
    for (i, x) in rest.iter().enumerate() {
        if x.segment != segment {
            return i;
        }
    }
    rest.len()
}

/// The border of this segment with the numbers of these.
fn border_of<A: Allocator + Copy>(
    alloc: A,
    segment: Seg,
    own: &[Standing],
) -> Result<Border<A>, AllocError>
    ensures { IfOk result (λ b. border_seen b
        ≡ record { segment = segment; bounds = map (λ x. x.polygon) own.now; right = [] }) }
{
    let mut bounds = Vec::new(alloc);
    for x in own {
        bounds.push(x.polygon)?;
    }
    Ok(Border {
        segment,
        bounds,
        right: Vec::new(alloc),
    })
}

/// A border for each segment of these, which ascend.
fn grouped<A: Allocator + Copy>(alloc: A, odd: &[Standing]) -> Result<Vec<Border<A>, A>, AllocError>
    requires { IsStrictlySortedBy standing_cmp odd.now }
    ensures grouped { IfOk result (λ borders. AreGrouped odd.now (borders_seen borders.items)) }
    ensures empty { IfOk result (λ borders. (b : Bordering)
        → Contains (borders_seen borders.items) b → b.right ≡ []) }
{
    let mut borders = Vec::new(alloc);
    let mut rest = odd;
    while let [first, ..] = rest {
        let (own, more) = rest.split_at(run_length(rest, first.segment));
        borders.push(border_of(alloc, first.segment, own)?)?;
        rest = more;
    }
    Ok(borders)
}

/// The borders of the polygons of a layer, ascending, each with the numbers of the polygons that it
/// bounds; those of the polygons that hold its right side are not known yet.
pub(crate) fn borders_of<A: Allocator + Copy>(
    alloc: A,
    polygons: &[Vec<Vec<Pos, A>, A>],
) -> Result<Vec<Border<A>, A>, SideFault>
    requires { IsTrue (list_all (list_all is_ring) (polygons_seen polygons.now)) }
    ensures borders { IfOk result (λ borders.
        AreBorders (polygons_seen polygons.now) (borders_seen borders.items)) }
    ensures empty { IfOk result (λ borders. (b : Bordering)
        → Contains (borders_seen borders.items) b → b.right ≡ []) }
{
    if polygons.len() > MOST_POLYGONS {
        return Err(SideFault::TooLarge);
    }
    let odd = odd_standing(alloc, polygons)?;
    if odd.len() > MOST_NUMBERS {
        return Err(SideFault::TooLarge);
    }
    let borders = grouped(alloc, odd.as_slice())?;
    Ok(borders)
}
