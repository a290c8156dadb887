// What is reported of the grid.

/// What is reported of the grid that a map was put on.
#[derive(Clone, Copy, Debug, PartialEq, Eq)]
pub struct Told {
    /// The most decimals that a coordinate has, of 24: one of an arc, and where these have some, of a
    /// point that counts.
    pub decimals: usize,
    /// How many of them are kept.
    pub digits: usize,
    /// How many positions of arcs rounding moved.
    pub rounded: usize,
    /// How many positions of arcs had further numbers, which were left out.
    pub heights: usize,
    /// Whether all coordinates are written as whole numbers, as the editor takes them: without an
    /// exponent, and with zeros alone after the point (RFC 8259, 6).
    pub whole: bool,
}
