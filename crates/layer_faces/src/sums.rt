// What the areas of a layer's polygons add up to.
ghost use Rattle.std.specs.Prelude.{◌≡◌, pos, ◌*ℤ◌, ◌*◌, ◌-◌, ◌≤◌, unsigned_abs, length, All, if◌then◌else◌};
ghost use Rattle.layer_faces.specs.Areas.{total};
ghost use Rattle.layer_faces.specs.Weighed.{AreFaceSums, reach};

use crate::face::Face;
use crate::kind::{is_gap, is_land, is_outside};
use std::alloc::Allocator;

/// What the areas of the polygons of a layer add up to, all twice as large. What the polygons have is
/// what is covered and what is held too often; what is within is what is covered and the gaps.
#[derive(Clone, Copy, Debug, PartialEq, Eq)]
pub struct Sums {
    /// The sum over the polygons of the area of each by the even-odd rule.
    pub polygons: i128,
    /// What is held more than once, as often as it is held too often.
    pub over: i128,
    /// What some polygon holds.
    pub covered: i128,
    /// What no polygon holds and is not outside.
    pub gaps: i128,
    /// What is not outside.
    pub within: i128,
}

/// Twice the area of a face, as often as it is held too often.
fn over_in<A: Allocator + Copy>(face: &Face<A>) -> i128
    requires few { length face.now.holders.items ≤ 4000000 }
    ensures value { result ≡ pos (length face.now.holders.items - 1) *ℤ face.now.twice_area }
    ensures bound { unsigned_abs result ≤ 4000000 * unsigned_abs face.now.twice_area }
{
    face.holders.len().saturating_sub(1) as i128 * face.twice_area
}

/// What is held too often, as often as it is.
fn over_of<A: Allocator + Copy>(faces: &[Face<A>]) -> i128
    requires few { All (λ f. length f.holders.items ≤ 4000000) faces.now }
    requires small { reach faces.now ≤ 16000000000000000000000000000000 }
    ensures value { result ≡ total (λ f. pos (length f.holders.items - 1) *ℤ f.twice_area) faces.now }
    ensures bound { unsigned_abs result ≤ 64000000000000000000000000000000000000 }
{
    let mut over = 0;
    for face in faces {
        over += over_in(face);
    }
    over
}

/// Twice the area of a face where it is asked for, and else 0.
fn area_if<A: Allocator + Copy>(face: &Face<A>, asked: bool) -> i128
    ensures { result ≡ (if asked then face.now.twice_area else pos 0) }
{
    if asked { face.twice_area } else { 0 }
}

/// What the areas of polygons add up to, of which these are the faces.
pub(crate) fn sums_of<A: Allocator + Copy>(faces: &[Face<A>]) -> Sums
    requires few { All (λ f. length f.holders.items ≤ 4000000) faces.now }
    requires small { reach faces.now ≤ 16000000000000000000000000000000 }
    ensures { AreFaceSums faces.now result }
{
    let mut covered = 0;
    let mut gaps = 0;
    let mut within = 0;
    for face in faces {
        covered += area_if(face, is_land(face.kind));
        gaps += area_if(face, is_gap(face.kind));
        within -= area_if(face, is_outside(face.kind));
    }
    let over = over_of(faces);
    Sums {
        polygons: covered + over,
        over,
        covered,
        gaps,
        within,
    }
}
