// What JSON values stand for, and the beginnings of texts that are shown.
ghost use Rattle.std.specs.Prelude.{◌≡◌, ◌≤◌, length, slice_index, IfOk};
ghost use Rattle.json_spans.specs.Common.{is_tail};
ghost use Rattle.topo_outline.specs.Shape.{unquoted};
ghost use Rattle.map_features.specs.Values.{bare_value, cut_end, first_bytes, is_quoted, shortened_text, shown_value, stands_for};

use json_spans::{Span, TextFault, text};
use std::alloc::{AllocError, Allocator, Global};

/// The most bytes of a value that are shown.
const MOST_BYTES: usize = 48;

/// Whether a byte goes on with a character (RFC 3629, 3).
fn goes_on(byte: u8) -> bool
    ensures { result ≡ is_tail byte }
{
    0x80 <= byte && byte <= 0xBF
}

/// Whether the byte at a place goes on with a character.
fn is_within(words: &[u8], end: usize) -> bool
    ensures { result ≡ is_tail (slice_index words.now end) }
{
    match words.get(end) {
        Some(byte) => goes_on(*byte),
        None => false,
    }
}

/// Where a text is cut that is to be cut there or before: no character is cut.
fn cut_end(words: &[u8], most: usize) -> usize
    requires { most ≤ length words.now }
    ensures value { result ≡ cut_end words.now most }
    ensures within { result ≤ length words.now }
{
    let mut end = most;
    while 0 < end && is_within(words, end) {
        end -= 1;
    }
    end
}

/// The first bytes of a text, at most so many, with no character cut.
fn first_bytes(words: &[u8], most: usize) -> &[u8]
    ensures { result.now ≡ first_bytes words.now most }
{
    &words[..cut_end(words, words.len().min(most))]
}

/// The first bytes of a text, at most so many, and three dots where these are not all.
pub fn shortened<A: Allocator>(
    alloc: A,
    words: &[u8],
    most: usize,
) -> Result<Vec<u8, A>, AllocError>
    ensures { IfOk result (λ text. text.items ≡ shortened_text words.now most) }
{
    let first = first_bytes(words, most);
    let mut name = Vec::from_slice(alloc, first)?;
    if first.len() < words.len() {
        name.extend_from_slice("\u{2026}".as_bytes())?;
    }
    Ok(name)
}

/// Whether a JSON value is a string.
fn is_quoted(token: &[u8]) -> bool
    ensures { result ≡ is_quoted token.now }
{
    1 < token.len() && token[0] == b'"' && token[token.len() - 1] == b'"'
}

/// A token without its first and its last byte.
fn without_ends(token: &[u8]) -> &[u8]
    ensures { result.now ≡ unquoted token.now }
{
    match token {
        [] => token,
        [_, rest @ ..] => &rest[..rest.len().saturating_sub(1)],
    }
}

/// A JSON value without the quotes of a string.
fn without_quotes(token: &[u8]) -> &[u8]
    ensures { result.now ≡ bare_value token.now }
{
    if is_quoted(token) {
        without_ends(token)
    } else {
        token
    }
}

/// What a JSON value stands for, cut where it is long: the text of a string, and any other value as in the
/// text of the map, as is a string with half a surrogate pair.
pub(crate) fn value_text<A: Allocator>(
    alloc: A,
    heap: Global,
    value: &[u8],
) -> Result<Vec<u8, A>, AllocError>
    ensures { IfOk result (λ text. text.items ≡ shown_value value.now) }
{
    match text(heap, Span { text: value, at: 0 }) {
        Ok(words) => shortened(alloc, words.as_bytes(), MOST_BYTES),
        Err(TextFault::BadText) => shortened(alloc, without_quotes(value), MOST_BYTES),
        Err(TextFault::OutOfMemory) => Err(AllocError),
    }
}

/// Whether a JSON value stands for this text.
pub(crate) fn is_for(heap: Global, value: &[u8], wanted: &str) -> Result<bool, AllocError>
    ensures { IfOk result (λ is. is ≡ stands_for value.now wanted.now) }
{
    match text(heap, Span { text: value, at: 0 }) {
        Ok(words) => Ok(words.as_bytes() == wanted.as_bytes()),
        Err(TextFault::BadText) => Ok(without_quotes(value) == wanted.as_bytes()),
        Err(TextFault::OutOfMemory) => Err(AllocError),
    }
}
