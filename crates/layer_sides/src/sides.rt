// The borders of a layer, with the polygons that hold their sides, and the faces of the sides.
ghost use Rattle.std.specs.Prelude.{◌≡◌, ◌+◌, ◌*◌, length, IfOk};
ghost use Rattle.layer_sides.specs.Borders.{AreBorders, AreHeld, IsProperLayer};
ghost use Rattle.layer_sides.specs.Seen.{borders_seen};
ghost use Rattle.ring_parts.specs.Seen.{polygons_seen};

use crate::border::Border;
use crate::borders::borders_of;
use crate::fault::SideFault;
use crate::sweep::sweep;
use grid_geometry::Pos;
use std::alloc::{Allocator, Global};

/// The borders of the polygons of a layer, and which sides of them lie in one face.
#[derive(Drop)]
pub struct Sides<A: Allocator + Copy = Global> {
    /// Ascending by their segments.
    pub borders: Vec<Border<A>, A>,
    /// By side the label of its face: 2i is the left side of border i, 2i + 1 its right side; the last
    /// is the label of the outside.
    pub faces: Vec<u32, A>,
}

/// The borders of the polygons of a layer, each with the polygons that hold its right side, and which
/// sides lie in one face. Fails on allocation failure, where there are more than 4,294,967,295 polygons
/// or more numbers of polygons than can be kept, and at a vertex where the borders are not as those of
/// polygons whose segments meet in their ends alone.
pub fn sides_of<A: Allocator + Copy>(
    alloc: A,
    polygons: &[Vec<Vec<Pos, A>, A>],
) -> Result<Sides<A>, SideFault>
    requires { IsProperLayer (polygons_seen polygons.now) }
    ensures borders { IfOk result (λ sides.
        AreBorders (polygons_seen polygons.now) (borders_seen sides.borders.items)) }
    ensures held { IfOk result (λ sides.
        AreHeld (polygons_seen polygons.now) (borders_seen sides.borders.items)) }
    ensures labels { IfOk result (λ sides.
        length sides.faces.items ≡ 2 * length sides.borders.items + 1) }
{
    let mut borders = borders_of(alloc, polygons)?;
    let faces = sweep(alloc, &mut borders)?;
    Ok(Sides { borders, faces })
}
