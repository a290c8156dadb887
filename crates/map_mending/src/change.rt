// How the area of a feature changed.

/// How the area of a feature changed, twice as large so that it is whole.
#[derive(Clone, Copy, Debug, PartialEq, Eq)]
pub struct AreaChange {
    /// The number of the feature, from 0 in the order of the map.
    pub feature: usize,
    /// Twice its area before: its outer rings less their holes, whichever way they turn.
    pub before: i128,
    /// Twice its area after.
    pub after: i128,
    /// Twice the area that its borders swept over at most.
    pub swept: u128,
}
