// Crossings, rounded to the grid.
ghost use Rattle.std.specs.Prelude.{ℤ, pos, ◌≤◌, ◌<◌, ◌*◌, ◌≤ℤ◌, IsTrue, unsigned_abs};
ghost use Rattle.grid_geometry.specs.Common.{cross};
ghost use Rattle.segment_paths.specs.Crossing.{IsRounded, IsRoundedBetween, IsRoundedCrossing};

use crate::near::beside;
use grid_geometry::{Pos, Seg};

/// A part of a length, rounded to a whole number, a half upwards: the length times `part / whole`.
fn rounded_part(length: u64, part: u128, whole: u128) -> u64
    requires within { part ≤ whole }
    requires some { 0 < whole }
    requires long { length ≤ 2000000000000 }
    requires large { whole ≤ 16000000000000000000000000 }
    ensures rounded { IsRounded (pos (length * part)) whole (pos result) }
    ensures bound { result ≤ length }
{
    ((2 * (length as u128 * part) + whole) / (2 * whole)) as u64
}

/// The number at `part / whole` of the way from a to b, rounded, a half upwards.
fn rounded_between(a: i64, b: i64, part: u128, whole: u128) -> i64
    requires within { part ≤ whole }
    requires some { 0 < whole }
    requires large { whole ≤ 16000000000000000000000000 }
    requires from { unsigned_abs a ≤ 1000000000000 }
    requires to { unsigned_abs b ≤ 1000000000000 }
    ensures rounded { IsRoundedBetween a b part whole result }
    ensures bound { unsigned_abs result ≤ 1000000000000 }
{
    if a <= b {
        a + rounded_part(b.abs_diff(a), part, whole) as i64
    } else {
        b + rounded_part(a.abs_diff(b), whole - part, whole) as i64
    }
}

/// The position where two segments cross, rounded to the grid: in x and in y to the nearest whole
/// number, a half upwards.
pub fn rounded_crossing(s: Seg, t: Seg) -> Pos
    requires { IsTrue (cross s t) }
    ensures { IsRoundedCrossing s t result }
{
    let part = beside(t, s.lo);
    let whole = part + beside(t, s.hi);
    let x = rounded_between(s.lo.x(), s.hi.x(), part, whole);
    let y = rounded_between(s.lo.y(), s.hi.y(), part, whole);
    match Pos::new(x, y) {
        Some(p) => p,
        None => unreachable!(),
    }
}
