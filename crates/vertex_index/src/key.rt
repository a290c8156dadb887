//! Keys of vertices.
ghost use Rattle.std.specs.Prelude.{◌≡◌};

use std::marker::Model;

/// The key of a vertex: it names the same vertex, wherever that stands, until that is removed.
#[derive(Clone, Copy, Debug, PartialEq, Eq, PartialOrd, Ord, Hash)]
pub struct VertexKey {
    index: usize,
}

impl Model for VertexKey {
    ghost use Rattle.std.specs.Prelude.{ℕ};

    ghost Value = { ℕ };

    ghost view = { λ k. k.index };

    ghost inverse = { λ n. record { index = n } };
}

impl VertexKey {
    /// The key of the vertex in this slot.
    pub(crate) fn new(index: usize) -> Self
        ensures { result ≡ index }
    {
        VertexKey { index }
    }

    /// The number of the key: small, since the numbers of removed vertices are given out again.
    pub fn index(self) -> usize
        ensures { result ≡ self }
    {
        self.index
    }
}
