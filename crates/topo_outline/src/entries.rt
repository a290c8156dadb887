use crate::words::Word;
use json_spans::Span;

/// A member of an object (RFC 8259, 4).
#[derive(Clone, Copy, Debug)]
pub struct Entry<'a> {
    /// What the decoded name says to the reader.
    pub word: Word,
    /// The name with its quotes, as it stands.
    pub name: Span<'a>,
    pub value: Span<'a>,
}
