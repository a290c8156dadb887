/// What is asked of a text.
#[derive(Clone, Copy, Debug)]
pub struct Asked<'w> {
    /// The name of the layer; without it the map has to have a single one.
    pub layer: Option<&'w str>,
    /// How many decimals coordinates have at the most, if not as many as keep each vertex on its side of each segment.
    pub decimals: Option<usize>,
    /// Whether rings keep the direction that they have, and not that of RFC 7946, 3.1.6.
    pub keeps_winding: bool,
    /// Whether collections within the layer are taken apart, so that each geometry in them is a Feature.
    pub flattens: bool,
}
