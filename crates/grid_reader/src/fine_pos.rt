// A position before it is put on a grid.
ghost use Rattle.std.specs.Prelude.{◌≤◌, ◌^◌, unsigned_abs};

/// A position in units of 10^-24.
#[derive(Clone, Copy)]
pub(crate) struct FinePos {
    pub(crate) x: i128,
    pub(crate) y: i128,
    ghost across: { unsigned_abs x ≤ 10 ^ 36 },
    ghost upward: { unsigned_abs y ≤ 10 ^ 36 },
}
