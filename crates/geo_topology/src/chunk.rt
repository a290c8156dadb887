use json_spans::Span;

/// A piece of the text that is made.
#[derive(Clone, Copy)]
pub(crate) enum Chunk<'a> {
    /// Words that stand in no file.
    Words(&'static [u8]),
    /// A name or a value of the file, as it stands.
    Copied(Span<'a>),
    /// The arcs of a polygon, of which this is the list of rings (RFC 7946, 3.1.6).
    Rings(Span<'a>),
    /// The arcs of several polygons, of which this is the list (RFC 7946, 3.1.7).
    Polygons(Span<'a>),
}
