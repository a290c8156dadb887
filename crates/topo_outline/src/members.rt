// The members of an object, by their decoded names.
ghost use Rattle.std.specs.Prelude.{◌≡◌, ◌||◌, ℕ, List, map, not, IfOk, OnOk, Ok, option_map, string_bytes};
ghost use Rattle.std.specs.BTreeSet.{contains_text};
ghost use Rattle.std.specs.Str.{bytes_eq};
ghost use Rattle.json_spans.specs.Common.{node};
ghost use Rattle.topo_outline.specs.Gives.{Gives};
ghost use Rattle.topo_outline.specs.Members.{code, member, is_known, kept, text_of, head};
ghost use Rattle.topo_outline.specs.Shape.{unquoted, name_text, members_of, named_member, member_if, member_that, is_list, is_object};
ghost use Rattle.topo_outline.specs.Views.{view_entry, view_kept, view_head};

use crate::document::{Head, KeptMember};
use crate::entries::Entry;
use crate::fault::OpenFault;
use crate::token::Token;
use crate::words::{Word, word_of};
use json_spans::{Kind, Span, TextFault, kind, members, text};
use std::alloc::{AllocFailed, Allocator, Global};
use std::collections::BTreeSet;

/// The decoded names of an object, each once. `serde_json` makes them, so they lie in `Global`.
///
/// A tree and no hash table: the names come from the text, and whoever writes it could choose names
/// of one hash, each of which would be compared with all before it.
type Names<A> = BTreeSet<String, A>;

/// A string's token without its quotes.
pub(crate) fn unquoted(text: &[u8]) -> &[u8]
    ensures { result.now ≡ unquoted text.now }
{
    match text {
        [] => text,
        [_, rest @ ..] => &rest[..rest.len().saturating_sub(1)],
    }
}

/// A member's name, as faults give it.
pub(crate) fn token_of(entry: Entry<'_>) -> Token<'_>
    ensures { result.text.now ≡ unquoted entry.entry.name.text.now }
{
    Token {
        text: unquoted(entry.name.text),
    }
}

/// The text that a name stands for (RFC 8259, 7), or BadMember where it stands for none.
pub(crate) fn name_text<'a>(heap: Global, name: Span<'a>) -> Result<String, OpenFault<'a>>
    ensures { Gives string_bytes result (name_text (node name.entry)) }
{
    match text(heap, name) {
        Ok(decoded) => Ok(decoded),
        Err(TextFault::BadText) => Err(OpenFault::BadMember {
            name: Token {
                text: unquoted(name.text),
            },
        }),
        Err(TextFault::OutOfMemory) => Err(OpenFault::OutOfMemory),
    }
}

/// Puts a name to those seen, and tells whether it is new.
fn note<A: Allocator + Copy>(seen: &mut Names<A>, name: String) -> Result<bool, AllocFailed<String>>
    ensures new { IfOk result (λ new. new ≡ not (contains_text seen.old (string_bytes name))) }
    ensures names { OnOk result ((t : List ℕ) →
        contains_text seen.new t ≡ (bytes_eq (string_bytes name) t || contains_text seen.old t)) }
{
    seen.insert(name)
}

/// The members of an object, once its names are tested in order: BadMember for one that stands for
/// no text, Duplicate for one whose text stood before.
pub(crate) fn entries<'a, A: Allocator + Copy>(
    alloc: A,
    heap: Global,
    span: Span<'a>,
) -> Result<Vec<Entry<'a>, A>, OpenFault<'a>>
    ensures { Gives (λ v. map view_entry v.items) result (members_of (node span.entry)) }
{
    let mut seen: Names<A> = BTreeSet::new(alloc);
    let mut found = Vec::new(alloc);
    for member in members(span) {
        let decoded = or_return!(name_text(heap, member.0));
        let word = word_of(decoded.as_str());
        let new = note(&mut seen, decoded)?;
        if !new {
            return Err(OpenFault::Duplicate {
                name: Token {
                    text: unquoted(member.0.text),
                },
            });
        }
        found.push(Entry {
            word,
            name: member.0,
            value: member.1,
        })?;
    }
    Ok(found)
}

/// The place of a word in the list of words.
fn code(word: Word) -> u8
    ensures { result ≡ code word }
{
    match word {
        Word::Type => 0,
        Word::Transform => 1,
        Word::Objects => 2,
        Word::Arcs => 3,
        Word::Geometries => 4,
        Word::Id => 5,
        Word::Properties => 6,
        Word::Bbox => 7,
        Word::Scale => 8,
        Word::Translate => 9,
        Word::Other => 10,
    }
}

/// The member with this name, if it is there.
#[tactic(auto, using(crate::proofs::Naming::member_step, crate::proofs::Naming::member_end))]
pub(crate) fn find<'a>(entries: &[Entry<'a>], word: Word) -> Option<Entry<'a>>
    ensures { option_map view_entry result ≡ member word (map view_entry entries.now) }
{
    for entry in entries {
        if code(entry.word) == code(word) {
            return Some(*entry);
        }
    }
    None
}

/// The member with this name, or BadMember with the expected name where it is missing.
pub(crate) fn named_member<'a>(
    entries: &[Entry<'a>],
    word: Word,
    expected: &'static [u8],
) -> Result<Entry<'a>, OpenFault<'a>>
    ensures { Gives view_entry result
        (named_member expected.now word (map view_entry entries.now)) }
{
    match find(entries, word) {
        Some(entry) => Ok(entry),
        None => Err(OpenFault::BadMember {
            name: Token { text: expected },
        }),
    }
}

/// The member where it is right, else BadMember with its name as it stands.
pub(crate) fn member_if(right: bool, entry: Entry<'_>) -> Result<Entry<'_>, OpenFault<'_>>
    ensures { Gives view_entry result (member_if right (view_entry entry.entry)) }
{
    if right {
        Ok(entry)
    } else {
        Err(OpenFault::BadMember {
            name: token_of(entry),
        })
    }
}

/// The member with this name, where it is a list.
pub(crate) fn list_member<'a>(
    entries: &[Entry<'a>],
    word: Word,
    expected: &'static [u8],
) -> Result<Entry<'a>, OpenFault<'a>>
    ensures { Gives view_entry result
        (member_that is_list expected.now word (map view_entry entries.now)) }
{
    let entry = or_return!(named_member(entries, word, expected));
    member_if(kind(entry.value) == Kind::List, entry)
}

/// The member with this name, where it is an object.
pub(crate) fn object_member<'a>(
    entries: &[Entry<'a>],
    word: Word,
    expected: &'static [u8],
) -> Result<Entry<'a>, OpenFault<'a>>
    ensures { Gives view_entry result
        (member_that is_object expected.now word (map view_entry entries.now)) }
{
    let entry = or_return!(named_member(entries, word, expected));
    member_if(kind(entry.value) == Kind::Object, entry)
}

/// What an object with members is.
#[derive(Clone, Copy, Debug, PartialEq, Eq)]
pub enum Owner {
    Topology,
    /// A polygon or several polygons.
    Rings,
    Collection,
    /// An object whose `type` is `null`.
    Null,
}

/// Whether the reader knows the member, or drops it as a `bbox` (TopoJSON 1.0, 3).
fn is_known(owner: Owner, word: Word) -> bool
    ensures { result ≡ is_known owner word }
{
    match word {
        Word::Type | Word::Bbox => true,
        Word::Transform | Word::Objects => matches!(owner, Owner::Topology),
        Word::Arcs => matches!(owner, Owner::Topology | Owner::Rings),
        Word::Geometries => matches!(owner, Owner::Collection),
        Word::Id | Word::Properties => !matches!(owner, Owner::Topology),
        Word::Scale | Word::Translate | Word::Other => false,
    }
}

/// The members that are neither known nor dropped, in order.
#[tactic(auto, using(crate::proofs::Naming::kept_step, crate::proofs::Naming::kept_end))]
pub(crate) fn kept<'a, A: Allocator + Copy>(
    alloc: A,
    owner: Owner,
    entries: &[Entry<'a>],
) -> Result<Vec<KeptMember<'a>, A>, AllocFailed<KeptMember<'a>>>
    ensures { IfOk result (λ v. map view_kept v.items ≡ kept owner (map view_entry entries.now)) }
{
    let mut found = Vec::new(alloc);
    for entry in entries {
        if !is_known(owner, entry.word) {
            found.push(KeptMember {
                name: entry.name.text,
                value: entry.value.text,
            })?;
        }
    }
    Ok(found)
}

/// The text of the member with this name, if it is there.
fn text_of<'a>(entries: &[Entry<'a>], word: Word) -> Option<&'a [u8]>
    ensures { option_map (λ t. t.now) result ≡ text_of word (map view_entry entries.now) }
{
    find(entries, word).map(|entry| entry.value.text)
}

/// What a collection and a feature have beside their geometry.
pub(crate) fn head<'a, A: Allocator + Copy>(
    alloc: A,
    owner: Owner,
    entries: &[Entry<'a>],
) -> Result<Head<'a, A>, AllocFailed<KeptMember<'a>>>
    ensures { IfOk result (λ h. view_head h ≡ head owner (map view_entry entries.now)) }
{
    Ok(Head {
        id: text_of(entries, Word::Id),
        properties: text_of(entries, Word::Properties),
        members: kept(alloc, owner, entries)?,
    })
}
