ghost use Rattle.std.specs.Prelude.{◌≡◌};
ghost use Rattle.json_spans.specs.Left.{node, left};
ghost use Rattle.json_spans.specs.Pairs.{nodes};
ghost use Rattle.json_spans.specs.Walk.{items, items_left, members, members_left, raw_parts, member_of};
ghost use Rattle.json_spans.specs.Inside.{HasItems, OnlyItems, ItemsAreValues, HasMembers, OnlyMembers, MembersAreValues};

use crate::parts::{Parts, part_len};
use crate::span::Span;
use crate::trimming::{spaces_before, trim};
use crate::walk::{Items, Members};

// The name and the value, cut at the colon.
pub(crate) fn member_of(part: Span<'_>) -> (Span<'_>, Span<'_>)
    ensures { nodes result ≡ member_of (node part.entry) }
{
    let len = part_len(b':', part.text);
    let (name, rest) = part.text.split_at(len);
    let at = part.at + len;
    let value = match rest {
        [] => Span { text: rest, at },
        [_, text @ ..] => Span { text, at: at + 1 },
    };
    let name = Span {
        text: name,
        at: part.at,
    };
    (trim(name), trim(value))
}

// What stands between the commas after the bracket.
fn parts(span: Span<'_>) -> Parts<'_>
    ensures { left result ≡ raw_parts span.entry.at span.entry.text.now }
{
    match span.text {
        [] => Parts {
            more: false,
            at: span.at,
            rest: span.text,
        },
        [_, rest @ ..] => Parts {
            more: !matches!(&rest[spaces_before(rest)..], [] | [b']' | b'}', ..]),
            at: span.at + 1,
            rest,
        },
    }
}

/// The items of a list (RFC 8259, section 5), without the space round them.
///
/// A value that is a list has exactly the items of the grammar, each a value with one level less.
/// They are cut at the commas, so a span that is no list has what stands between its commas.
pub fn items(span: Span<'_>) -> Items<'_>
    ensures value { items_left result ≡ items (node span.entry) }
    ensures grammar { HasItems (node span.entry) (items_left result) }
    ensures only { OnlyItems (node span.entry) (items_left result) }
    ensures deeper { ItemsAreValues (node span.entry) (items_left result) }
{
    Items { parts: parts(span) }
}

/// The names and values of an object (RFC 8259, section 4), without the space round them. A name
/// keeps its quotes.
///
/// A value that is an object has exactly the members of the grammar: strings, and values with one
/// level less. They are cut at commas and colons, so a span that is no object has what stands
/// between those.
pub fn members(span: Span<'_>) -> Members<'_>
    ensures value { members_left result ≡ members (node span.entry) }
    ensures grammar { HasMembers (node span.entry) (members_left result) }
    ensures only { OnlyMembers (node span.entry) (members_left result) }
    ensures deeper { MembersAreValues (node span.entry) (members_left result) }
{
    Members { parts: parts(span) }
}
