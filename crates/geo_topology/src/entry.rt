use crate::words::Word;
use json_spans::Span;

/// A member of an object (RFC 8259, 4).
#[derive(Clone, Copy)]
pub(crate) struct Entry<'a> {
    /// What the decoded name says.
    pub(crate) word: Word,
    /// The name with its quotes, as it stands.
    pub(crate) name: Span<'a>,
    pub(crate) value: Span<'a>,
}
