ghost use Rattle.std.specs.Prelude.{◌≡◌, ◌+◌, min};
ghost use Rattle.grid_geometry.specs.Conflict as geometry;

use grid_geometry::{Seg, conflict};
use std::marker::Model;

/// How many times two segments were tested for a conflict. A count that has come to the greatest
/// `u64` stays there.
#[derive(Clone, Copy, Debug, PartialEq, Eq)]
pub struct TestCount {
    made: u64,
}

impl Model for TestCount {
    ghost use Rattle.std.specs.Prelude.{ℕ};

    ghost Value = { ℕ };

    ghost view = { λ t. t.made };

    ghost inverse = { λ n. record { made = n } };
}

impl TestCount {
    /// No test so far.
    pub fn new() -> Self
        ensures { result ≡ 0 }
    {
        TestCount { made: 0 }
    }

    /// How many tests were made.
    pub fn count(&self) -> u64
        ensures { result ≡ self.now }
    {
        self.made
    }

    /// Tests whether two segments conflict, and counts one.
    pub(crate) fn test(&mut self, s: Seg, t: Seg) -> bool
        ensures conflict { result ≡ geometry.conflict s t }
        ensures counted { self.new ≡ min (self.old + 1) u64.MAX }
    {
        self.made = self.made.saturating_add(1);
        conflict(s, t)
    }
}
