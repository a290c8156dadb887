// Quotients by positive numbers.
ghost use Rattle.std.specs.Prelude.{◌≡◌, ◌≤◌, ◌/◌, ◌≤ℤ◌, pos, unsigned_abs};

/// How often a positive whole is in a part.
pub fn quotient(part: i64, whole: i64) -> i64
    requires { pos 1 ≤ℤ whole }
    ensures size { unsigned_abs result ≡ unsigned_abs part / unsigned_abs whole }
    ensures small { unsigned_abs result ≤ unsigned_abs part }
    ensures sign { pos 0 ≤ℤ part → pos 0 ≤ℤ result }
{
    part / whole
}
