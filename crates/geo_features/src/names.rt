// Names of members, by the texts that they stand for (RFC 8259, 7).
ghost use Rattle.std.specs.Prelude.{◌≡◌, ◌||◌, List, ℕ, map, not, Err, IfOk, OnOk, Some, option_map, string_bytes};
ghost use Rattle.std.specs.BTreeSet.{contains_text};
ghost use Rattle.std.specs.Str.{bytes_eq};
ghost use Rattle.std.specs.List.{list_any};
ghost use Rattle.json_spans.specs.Common.{decoded};
ghost use Rattle.topo_outline.specs.Common.{bad_member, name_text, unquoted, view_kept};
ghost use Rattle.ring_machine.specs.Common.{Text};
ghost use Rattle.geo_features.specs.Names.{HasNames, first_of, is_one_of, same_text, tested_members};
ghost use Rattle.geo_features.specs.Faults.{of_map, of_opening};
ghost use Rattle.geo_features.specs.Gives.{Gives, IsGeoFault};

use crate::fault::ExportFault;
use json_spans::{Span, TextFault, members, text};
use std::alloc::{AllocError, AllocFailed, Allocator, Global};
use std::collections::BTreeSet;
use topo_outline::{KeptMember, OpenFault, Token};

// The names that another object's members have (RFC 7946, 7.1).
/// The names that the members of a Feature with a geometry may not have.
pub const NOT_OF_FEATURE: &[&str] = &["coordinates", "geometries", "features", "arcs"];

/// A Feature without a geometry has nowhere to put its members.
pub(crate) const NOT_OF_NULL: &[&str] = &[
    "geometry",
    "coordinates",
    "geometries",
    "features",
    "arcs",
];

pub(crate) const NOT_OF_GEOMETRY: &[&str] = &[
    "type",
    "bbox",
    "coordinates",
    "geometries",
    "geometry",
    "properties",
    "features",
];

/// The member that holds what the geometry of a Feature has of its own.
pub(crate) const GEOMETRY: &[&str] = &["geometry"];

/// A string's token without its quotes.
fn unquoted(token: &[u8]) -> &[u8]
    ensures { result.now ≡ unquoted token.now }
{
    match token {
        [] => token,
        [_, rest @ ..] => &rest[..rest.len().saturating_sub(1)],
    }
}

/// The fault of a map with a wrong member.
/// It names the member without its quotes.
pub fn bad_member<'a>(name: &'a [u8]) -> ExportFault<'a>
    ensures { IsGeoFault {Y = Text} result (Err (of_map (bad_member (unquoted name.now)))) }
{
    ExportFault::Open(OpenFault::BadMember {
        name: Token {
            text: unquoted(name),
        },
    })
}

/// Whether a text is one of these.
#[tactic(auto, using(crate::proofs::Naming::any_step, crate::proofs::Naming::any_end))]
fn is_among(words: &[&str], text: &str) -> bool
    ensures { result ≡ list_any (λ word. bytes_eq text.now word) (map (λ word. word.now) words.now) }
{
    for word in words {
        if text == *word {
            return true;
        }
    }
    false
}

/// Whether a name's token stands for one of these texts.
pub fn is_one_of(heap: Global, words: &[&str], token: &[u8]) -> Result<bool, AllocError>
    ensures { IfOk result (λ is. is ≡ is_one_of (map (λ word. word.now) words.now) token.now) }
{
    match text(heap, Span { text: token, at: 0 }) {
        Ok(decoded) => Ok(is_among(words, decoded.as_str())),
        Err(TextFault::BadText) => Ok(false),
        Err(TextFault::OutOfMemory) => Err(AllocError),
    }
}

/// The first member whose name is one of these.
#[tactic(auto, using(crate::proofs::Naming::first_step, crate::proofs::Naming::first_end))]
pub fn first_of<'a>(
    heap: Global,
    words: &[&str],
    members: &[KeptMember<'a>],
) -> Result<Option<KeptMember<'a>>, AllocError>
    ensures { IfOk result (λ found. option_map view_kept found
        ≡ first_of (map (λ word. word.now) words.now) (map view_kept members.now)) }
{
    for member in members {
        if is_one_of(heap, words, member.name)? {
            return Ok(Some(*member));
        }
    }
    Ok(None)
}

/// Decoded names, each once. They come from the text, and whoever writes it could choose names of one hash: so they stand
/// in a tree, and in no hash table.
pub type Names<A> = BTreeSet<String, A>;

/// Puts a name to those seen, and tells whether it is new.
fn note<A: Allocator + Copy>(seen: &mut Names<A>, name: String) -> Result<bool, AllocFailed<String>>
    ensures new { IfOk result (λ new. new ≡ not (contains_text seen.old (string_bytes name))) }
    ensures names { OnOk result ((t : List ℕ) →
        contains_text seen.new t ≡ (bytes_eq (string_bytes name) t || contains_text seen.old t)) }
{
    seen.insert(name)
}

/// The text that a name stands for.
fn decoded<'a>(heap: Global, name: &'a [u8]) -> Result<String, ExportFault<'a>>
    ensures { Gives string_bytes result
        (of_opening (name_text (record { at_byte = 0; bytes = name.now }))) }
{
    match text(heap, Span { text: name, at: 0 }) {
        Ok(decoded) => Ok(decoded),
        Err(TextFault::BadText) => Err(bad_member(name)),
        Err(TextFault::OutOfMemory) => Err(ExportFault::Open(OpenFault::OutOfMemory)),
    }
}

/// The members of an object in order, once its names are tested: the first that stands for no text, or for the same text
/// as one before it, is at fault.
pub(crate) fn members_of<'a, A: Allocator + Copy>(
    alloc: A,
    heap: Global,
    object: &'a [u8],
) -> Result<Vec<KeptMember<'a>, A>, ExportFault<'a>>
    ensures { Gives (λ v. map view_kept v.items) result (tested_members object.now) }
{
    let mut seen: Names<A> = BTreeSet::new(alloc);
    let mut found = Vec::new(alloc);
    for member in members(Span {
        text: object,
        at: 0,
    }) {
        let decoded = or_return!(decoded(heap, member.0.text));
        let new = note(&mut seen, decoded)?;
        if !new {
            return Err(ExportFault::Open(OpenFault::Duplicate {
                name: Token {
                    text: unquoted(member.0.text),
                },
            }));
        }
        found.push(KeptMember {
            name: member.0.text,
            value: member.1.text,
        })?;
    }
    Ok(found)
}

/// Puts the text that a name stands for to those seen; one that stands for none adds nothing.
fn note_name<A: Allocator + Copy>(
    heap: Global,
    names: &mut Names<A>,
    name: &[u8],
) -> Result<(), AllocError>
    ensures { OnOk result ((t : List ℕ) → contains_text names.new t
        ≡ (same_text (decoded name.now) (Some t) || contains_text names.old t)) }
{
    match text(heap, Span { text: name, at: 0 }) {
        Ok(decoded) => {
            note(names, decoded)?;
            Ok(())
        }
        Err(TextFault::BadText) => Ok(()),
        Err(TextFault::OutOfMemory) => Err(AllocError),
    }
}

/// The texts that the names of these members stand for.
/// A name that stands for none adds nothing.
pub fn names_of<A: Allocator + Copy>(
    alloc: A,
    heap: Global,
    members: &[KeptMember<'_>],
) -> Result<Names<A>, AllocError>
    ensures { IfOk result (λ names. HasNames (contains_text names) (map view_kept members.now)) }
{
    let mut names: Names<A> = BTreeSet::new(alloc);
    for member in members {
        note_name(heap, &mut names, member.name)?;
    }
    Ok(names)
}
