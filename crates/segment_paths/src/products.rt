// Differences of coordinates, and their products in 128 bits.
ghost use Rattle.std.specs.Prelude.{◌≡◌, ◌≤◌, ◌-ℤ◌, ◌*ℤ◌, unsigned_abs};

use grid_geometry::Pos;

/// How far b is to the right of a.
pub(crate) fn across(a: Pos, b: Pos) -> i64
    ensures value { result ≡ b.x -ℤ a.x }
    ensures bound { unsigned_abs result ≤ 2000000000000 }
{
    b.x() - a.x()
}

/// How far b is above a.
pub(crate) fn upward(a: Pos, b: Pos) -> i64
    ensures value { result ≡ b.y -ℤ a.y }
    ensures bound { unsigned_abs result ≤ 2000000000000 }
{
    b.y() - a.y()
}

/// The product of two differences of coordinates.
pub(crate) fn product(u: i64, v: i64) -> i128
    requires one { unsigned_abs u ≤ 2000000000000 }
    requires other { unsigned_abs v ≤ 2000000000000 }
    ensures value { result ≡ u *ℤ v }
    ensures bound { unsigned_abs result ≤ 4000000000000000000000000 }
{
    u as i128 * v as i128
}
