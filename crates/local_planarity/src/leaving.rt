ghost use Rattle.std.specs.Prelude.{◌≡◌};
ghost use Rattle.local_planarity.specs.Edits.{goes_away};

use grid_geometry::{Pos, Seg};

/// Which of the segments that are held go away in an edit.
#[derive(Clone, Copy, Debug, PartialEq, Eq)]
pub enum Leaving {
    /// None of them.
    Nothing,
    /// Those that end at this position.
    EndingAt(Pos),
    /// This one.
    One(Seg),
}

/// Whether a segment goes away.
pub(crate) fn leaves(leaving: Leaving, t: Seg) -> bool
    ensures { result ≡ goes_away leaving t }
{
    match leaving {
        Leaving::Nothing => false,
        Leaving::EndingAt(p) => p == t.lo || p == t.hi,
        Leaving::One(s) => s == t,
    }
}
