// The members of an object of the topology, piece by piece.
ghost use Rattle.std.specs.Prelude.{◌≡◌, ◌++◌, ◌∷◌, [], map, codes, option_map, OnOk, false};
ghost use Rattle.json_spans.specs.Common.{node};
ghost use Rattle.geo_topology.specs.Pieces.{words, copied, comma, member_behind, value_behind, id_and_properties, kept_one, foreign, before_inside, end_inside, inside};
ghost use Rattle.geo_topology.specs.Members.{has_own_place};
ghost use Rattle.geo_topology.specs.Views.{view_named, view_chunk};

use crate::chunk::Chunk;
use crate::entry::Entry;
use crate::members::{Owner, find, is_known};
use crate::words::Word;
use json_spans::Span;
use std::alloc::{AllocFailed, Allocator};

/// Appends words of our own.
pub(crate) fn put_words<'a, A: Allocator + Copy>(
    text: &'static [u8],
    out: &mut Vec<Chunk<'a>, A>,
) -> Result<(), AllocFailed<Chunk<'a>>>
    ensures { OnOk result (map view_chunk out.new.items ≡ map view_chunk out.old.items
        ++ words text.now ∷ []) }
{
    out.push(Chunk::Words(text))
}

/// Appends a copy of a name or a value.
pub(crate) fn put_copy<'a, A: Allocator + Copy>(
    span: Span<'a>,
    out: &mut Vec<Chunk<'a>, A>,
) -> Result<(), AllocFailed<Chunk<'a>>>
    ensures { OnOk result (map view_chunk out.new.items ≡ map view_chunk out.old.items
        ++ copied (node span.entry) ∷ []) }
{
    out.push(Chunk::Copied(span))
}

/// Appends a comma, but before the first.
pub(crate) fn put_comma<'a, A: Allocator + Copy>(
    is_first: bool,
    out: &mut Vec<Chunk<'a>, A>,
) -> Result<(), AllocFailed<Chunk<'a>>>
    ensures { OnOk result (map view_chunk out.new.items ≡ map view_chunk out.old.items
        ++ comma is_first) }
{
    if is_first {
        Ok(())
    } else {
        put_words(b",", out)
    }
}

/// Appends a member as it stands, behind these words.
fn put_member<'a, A: Allocator + Copy>(
    before: &'static [u8],
    entry: Entry<'a>,
    out: &mut Vec<Chunk<'a>, A>,
) -> Result<(), AllocFailed<Chunk<'a>>>
    ensures { OnOk result (map view_chunk out.new.items ≡ map view_chunk out.old.items
        ++ member_behind before.now (view_named entry.entry)) }
{
    put_words(before, out)?;
    put_copy(entry.name, out)?;
    put_words(b":", out)?;
    put_copy(entry.value, out)
}

/// Appends the value of a member behind these words, where the object has the member.
pub(crate) fn put_value<'a, A: Allocator + Copy>(
    before: &'static [u8],
    member: Option<Entry<'a>>,
    out: &mut Vec<Chunk<'a>, A>,
) -> Result<(), AllocFailed<Chunk<'a>>>
    ensures { OnOk result (map view_chunk out.new.items ≡ map view_chunk out.old.items
        ++ value_behind before.now (option_map view_named member.entry)) }
{
    match member {
        Some(entry) => {
            put_words(before, out)?;
            put_copy(entry.value, out)
        }
        None => Ok(()),
    }
}

/// Appends the id and the properties of a Feature, or of a FeatureCollection.
pub(crate) fn put_head<'a, A: Allocator + Copy>(
    entries: &[Entry<'a>],
    out: &mut Vec<Chunk<'a>, A>,
) -> Result<(), AllocFailed<Chunk<'a>>>
    ensures { OnOk result (map view_chunk out.new.items ≡ map view_chunk out.old.items
        ++ id_and_properties (map view_named entries.now)) }
{
    put_value(b",\"id\":", find(entries, Word::Id), out)?;
    put_value(b",\"properties\":", find(entries, Word::Properties), out)
}

/// Appends a member as it stands, where it is foreign.
fn put_kept<'a, A: Allocator + Copy>(
    owner: Owner,
    before: &'static [u8],
    entry: Entry<'a>,
    out: &mut Vec<Chunk<'a>, A>,
) -> Result<(), AllocFailed<Chunk<'a>>>
    ensures { OnOk result (map view_chunk out.new.items ≡ map view_chunk out.old.items
        ++ kept_one (has_own_place owner entry.entry.word) before.now (view_named entry.entry)) }
{
    if is_known(owner, entry.word) {
        Ok(())
    } else {
        put_member(before, entry, out)
    }
}

/// Appends the foreign members of a Feature, or of a FeatureCollection.
#[tactic(auto, using(crate::proofs::Foreign::foreign_step, crate::proofs::Foreign::foreign_end))]
pub(crate) fn put_foreign<'a, A: Allocator + Copy>(
    owner: Owner,
    entries: &[Entry<'a>],
    out: &mut Vec<Chunk<'a>, A>,
) -> Result<(), AllocFailed<Chunk<'a>>>
    ensures { OnOk result (map view_chunk out.new.items ≡ map view_chunk out.old.items
        ++ foreign owner (map view_named entries.now)) }
{
    for entry in entries {
        put_kept(owner, b",", *entry, out)?;
    }
    Ok(())
}

/// What stands before a foreign member of a geometry.
fn before_inside(is_open: bool) -> &'static [u8]
    ensures { result.now ≡ before_inside is_open }
{
    if is_open { b"," } else { b",\"geometry\":{" }
}

/// Appends the bracket that ends the foreign members of a geometry, where there are any.
fn put_end<'a, A: Allocator + Copy>(
    is_open: bool,
    out: &mut Vec<Chunk<'a>, A>,
) -> Result<(), AllocFailed<Chunk<'a>>>
    ensures { OnOk result (map view_chunk out.new.items ≡ map view_chunk out.old.items
        ++ end_inside is_open) }
{
    if is_open {
        put_words(b"}", out)
    } else {
        Ok(())
    }
}

/// Appends the foreign members of a geometry, in a member `geometry`: a name that no Feature can have
/// as a foreign one.
#[tactic(auto, using(crate::proofs::Foreign::inside_step, crate::proofs::Foreign::inside_end))]
pub(crate) fn put_inside<'a, A: Allocator + Copy>(
    entries: &[Entry<'a>],
    out: &mut Vec<Chunk<'a>, A>,
) -> Result<(), AllocFailed<Chunk<'a>>>
    ensures { OnOk result (map view_chunk out.new.items ≡ map view_chunk out.old.items
        ++ inside false (map view_named entries.now)) }
{
    let mut is_open = false;
    for entry in entries {
        put_kept(Owner::Geometry, before_inside(is_open), *entry, out)?;
        is_open = is_open || !is_known(Owner::Geometry, entry.word);
    }
    put_end(is_open, out)
}
