// A polygon that was taken apart.

/// A polygon that was taken apart, since its walks were not all rings.
#[derive(Clone, Copy, Debug, PartialEq, Eq)]
pub struct Parted {
    /// The number of the feature, from 0 in the order of the map.
    pub feature: usize,
    /// The number of the polygon in the feature as it was, from 0.
    pub polygon: usize,
    /// As how many polygons it stands now: none where it bounded nothing.
    pub parts: usize,
}
