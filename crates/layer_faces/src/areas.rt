// The areas of polygons by the even-odd rule: each is the sum of the faces that it holds.
ghost use Rattle.std.specs.Prelude.{◌≡◌, ℕ, ℤ, pos, ◌+ℤ◌, ◌*ℤ◌, ◌*◌, ◌+◌, ◌<◌, ◌≤◌, ◌^◌, ◌==◌, unsigned_abs, length, slice_index_or, All, IfOk};
ghost use Rattle.std.specs.List.{count_by};
ghost use Rattle.layer_faces.specs.Areas.{total};
ghost use Rattle.layer_faces.specs.Weighed.{area_of_holder, area_of_holders, reach};

use crate::face::Face;
use std::alloc::{AllocError, Allocator};

/// Adds the area to those of the polygons with these numbers.
fn add_to(areas: &mut [i128], numbers: &[u32], area: i128)
    requires within { All (λ n. n < length areas.old) numbers.now }
    requires room { All (λ z. unsigned_abs z + length numbers.now * unsigned_abs area < 2 ^ 127)
        areas.old }
    ensures each { (k : ℕ) → slice_index_or areas.new k (pos 0)
        ≡ slice_index_or areas.old k (pos 0) +ℤ pos (count_by (λ n. n == k) numbers.now) *ℤ area }
    ensures sum { total (λ z. z) areas.new
        ≡ total (λ z. z) areas.old +ℤ pos (length numbers.now) *ℤ area }
{
    for n in numbers {
        areas[*n as usize] += area;
    }
}

/// Of polygons, of which there are so many, twice the areas of the faces that each holds.
pub(crate) fn areas_by_faces<A: Allocator + Copy>(
    alloc: A,
    count: usize,
    faces: &[Face<A>],
) -> Result<Vec<i128, A>, AllocError>
    requires within { All (λ f. All (λ n. n < count) f.holders.items) faces.now }
    requires few { All (λ f. length f.holders.items ≤ 4000000) faces.now }
    requires small { reach faces.now ≤ 16000000000000000000000000000000 }
    ensures count { IfOk result (λ areas. length areas.items ≡ count) }
    ensures each { IfOk result (λ areas. (n : ℕ) → slice_index_or areas.items n (pos 0)
        ≡ area_of_holder faces.now n) }
    ensures sum { IfOk result (λ areas. total (λ z. z) areas.items ≡ area_of_holders faces.now) }
    ensures small { IfOk result (λ areas.
        All (λ z. unsigned_abs z ≤ 64000000000000000000000000000000000000) areas.items) }
{
    let mut areas = vec![in alloc; 0; count]?;
    for face in faces {
        add_to(
            areas.as_mut_slice(),
            face.holders.as_slice(),
            face.twice_area,
        );
    }
    Ok(areas)
}
