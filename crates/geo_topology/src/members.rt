// The members of an object by their decoded names, and what each object may have.
ghost use Rattle.std.specs.Prelude.{◌≡◌, ◌||◌, ℕ, List, map, not, IfOk, OnOk, option_map, string_bytes};
ghost use Rattle.std.specs.BTreeSet.{contains_text};
ghost use Rattle.std.specs.Str.{bytes_eq};
ghost use Rattle.json_spans.specs.Common.{node};
ghost use Rattle.topo_outline.specs.Common.{Gives, unquoted, name_text};
ghost use Rattle.geo_topology.specs.Members.{word_code, member_with_word, members_once, expected_member, right_member, is_barred, barred, has_own_place};
ghost use Rattle.geo_topology.specs.Views.{view_named};

use crate::entry::Entry;
use crate::words::{Word, word_of};
use json_spans::{Span, TextFault, members, text};
use std::alloc::{AllocFailed, Allocator, Global};
use std::collections::BTreeSet;
use topo_outline::{OpenFault, Token};

/// The decoded names of an object, each once. `serde_json` makes them, so they lie in `Global`.
///
/// A tree and no hash table: the names come from the text, and whoever writes it could choose names
/// of one hash, each of which would be compared with all before it.
type Names<A> = BTreeSet<String, A>;

/// A string's token without its quotes.
pub(crate) fn unquoted(text: &[u8]) -> &[u8]
    ensures { result.now ≡ unquoted text.now }
{
    match text {
        [] => text,
        [_, rest @ ..] => &rest[..rest.len().saturating_sub(1)],
    }
}

/// The text that a name stands for (RFC 8259, 7), or BadMember where it stands for none.
fn name_text<'a>(heap: Global, name: Span<'a>) -> Result<String, OpenFault<'a>>
    ensures { Gives string_bytes result (name_text (node name.entry)) }
{
    match text(heap, name) {
        Ok(decoded) => Ok(decoded),
        Err(TextFault::BadText) => Err(OpenFault::BadMember {
            name: Token {
                text: unquoted(name.text),
            },
        }),
        Err(TextFault::OutOfMemory) => Err(OpenFault::OutOfMemory),
    }
}

/// Puts a name to those seen, and tells whether it is new.
fn note<A: Allocator + Copy>(seen: &mut Names<A>, name: String) -> Result<bool, AllocFailed<String>>
    ensures new { IfOk result (λ new. new ≡ not (contains_text seen.old (string_bytes name))) }
    ensures names { OnOk result ((t : List ℕ) →
        contains_text seen.new t ≡ (bytes_eq (string_bytes name) t || contains_text seen.old t)) }
{
    seen.insert(name)
}

/// The members of an object, once its names are tested in order: BadMember for one that stands for
/// no text, Duplicate for one whose text stood before.
pub(crate) fn entries<'a, A: Allocator + Copy>(
    alloc: A,
    heap: Global,
    span: Span<'a>,
) -> Result<Vec<Entry<'a>, A>, OpenFault<'a>>
    ensures { Gives (λ v. map view_named v.items) result (members_once (node span.entry)) }
{
    let mut seen: Names<A> = BTreeSet::new(alloc);
    let mut found = Vec::new(alloc);
    for member in members(span) {
        let decoded = or_return!(name_text(heap, member.0));
        let word = word_of(decoded.as_str());
        let new = note(&mut seen, decoded)?;
        if !new {
            return Err(OpenFault::Duplicate {
                name: Token {
                    text: unquoted(member.0.text),
                },
            });
        }
        found.push(Entry {
            word,
            name: member.0,
            value: member.1,
        })?;
    }
    Ok(found)
}

/// The place of a word in the list of words.
fn code(word: Word) -> u8
    ensures { result ≡ word_code word }
{
    match word {
        Word::Type => 0,
        Word::Features => 1,
        Word::Geometry => 2,
        Word::Geometries => 3,
        Word::Coordinates => 4,
        Word::Id => 5,
        Word::Properties => 6,
        Word::Bbox => 7,
        Word::Name => 8,
        Word::Arcs => 9,
        Word::Other => 10,
    }
}

/// The member with this name, if it is there.
#[tactic(auto, using(crate::proofs::Naming::member_step, crate::proofs::Naming::member_end))]
pub(crate) fn find<'a>(entries: &[Entry<'a>], word: Word) -> Option<Entry<'a>>
    ensures { option_map view_named result ≡ member_with_word word (map view_named entries.now) }
{
    for entry in entries {
        if code(entry.word) == code(word) {
            return Some(*entry);
        }
    }
    None
}

/// A member's name, as faults give it.
pub(crate) fn token_of(entry: Entry<'_>) -> Token<'_>
    ensures { result.text.now ≡ unquoted entry.entry.name.text.now }
{
    Token {
        text: unquoted(entry.name.text),
    }
}

/// The member where it is right, else BadMember.
pub(crate) fn member_if(right: bool, entry: Entry<'_>) -> Result<Entry<'_>, OpenFault<'_>>
    ensures { Gives view_named result (right_member right (view_named entry.entry)) }
{
    if right {
        Ok(entry)
    } else {
        Err(OpenFault::BadMember {
            name: token_of(entry),
        })
    }
}

/// The member with this name, or BadMember with the expected name where it is missing.
pub(crate) fn named_member<'a>(
    entries: &[Entry<'a>],
    word: Word,
    expected: &'static [u8],
) -> Result<Entry<'a>, OpenFault<'a>>
    ensures { Gives view_named result
        (expected_member expected.now word (map view_named entries.now)) }
{
    match find(entries, word) {
        Some(entry) => Ok(entry),
        None => Err(OpenFault::BadMember {
            name: Token { text: expected },
        }),
    }
}

/// What an object with members is.
#[derive(Clone, Copy)]
pub(crate) enum Owner {
    /// A FeatureCollection.
    Collection,
    /// A FeatureCollection whose `name` is the layer's.
    NamedCollection,
    Feature,
    Geometry,
}

/// Whether the name is one of another object's (RFC 7946, 7.1), or TopoJSON's `arcs`, which a Feature
/// becomes the owner of. A FeatureCollection may have `properties`, since ArcGIS writes some there.
fn is_barred(owner: Owner, word: Word) -> bool
    ensures { result ≡ is_barred owner word }
{
    match owner {
        Owner::Collection | Owner::NamedCollection => {
            matches!(word, Word::Coordinates | Word::Geometries | Word::Geometry)
        }
        Owner::Feature => matches!(
            word,
            Word::Coordinates | Word::Geometries | Word::Features | Word::Arcs
        ),
        Owner::Geometry => matches!(word, Word::Geometry | Word::Properties | Word::Features),
    }
}

/// The first member whose name is another object's.
#[tactic(auto, using(crate::proofs::Naming::barred_step, crate::proofs::Naming::barred_end))]
pub(crate) fn barred<'a>(owner: Owner, entries: &[Entry<'a>]) -> Option<Entry<'a>>
    ensures { option_map view_named result ≡ barred owner (map view_named entries.now) }
{
    for entry in entries {
        if is_barred(owner, entry.word) {
            return Some(*entry);
        }
    }
    None
}

/// Whether the member has its own place in the made text, or is dropped as a `bbox`. Any other is a
/// foreign member (RFC 7946, 6.1), which is kept.
pub(crate) fn is_known(owner: Owner, word: Word) -> bool
    ensures { result ≡ has_own_place owner word }
{
    match word {
        Word::Type | Word::Bbox => true,
        Word::Id | Word::Properties => !matches!(owner, Owner::Geometry),
        Word::Features => matches!(owner, Owner::Collection | Owner::NamedCollection),
        Word::Name => matches!(owner, Owner::NamedCollection),
        Word::Geometry => matches!(owner, Owner::Feature),
        Word::Coordinates | Word::Geometries => matches!(owner, Owner::Geometry),
        Word::Arcs | Word::Other => false,
    }
}
