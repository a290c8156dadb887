// The members of `objects` by their decoded names, in a map that tells a name that comes again.
ghost use Rattle.std.specs.Prelude.{◌≡◌, ◌+◌, ◌||◌, ℕ, List, length, map, not, true, is_some, IfOk, OnOk, string_bytes};
ghost use Rattle.std.specs.Str.{bytes_eq};
ghost use Rattle.indexmap.specs.IndexMap.{get_by_text, index_map_len, IsEmpty};
ghost use Rattle.json_spans.specs.Common.{node};
ghost use Rattle.topo_outline.specs.Gives.{Gives};
ghost use Rattle.topo_outline.specs.Shape.{members_of};
ghost use Rattle.topo_outline.specs.Views.{view_entry};

use crate::document::{Layers, RawLayer};
use crate::entries::Entry;
use crate::fault::OpenFault;
use crate::members::{name_text, unquoted};
use crate::token::Token;
use crate::words::word_of;
use json_spans::{Span, members};
use std::alloc::{AllocFailed, Allocator, Global};

/// Puts a layer behind the others, and tells whether its name is new.
fn note<'a, A: Allocator + Copy>(
    layers: &mut Layers<'a, A>,
    name: String,
    layer: RawLayer<'a, A>,
) -> Result<bool, AllocFailed<(String, RawLayer<'a, A>)>>
    ensures new { IfOk result (λ new. new ≡ not (is_some (get_by_text layers.old (string_bytes name)))) }
    ensures names { OnOk result ((t : List ℕ) → is_some (get_by_text layers.new t)
        ≡ (bytes_eq (string_bytes name) t || is_some (get_by_text layers.old t))) }
    ensures len { IfOk result (λ new. new ≡ true →
        index_map_len layers.new ≡ index_map_len layers.old + 1) }
{
    let old = layers.insert(name, layer)?;
    Ok(old.is_none())
}

/// The members of `objects`, once their names are tested in order: BadMember for one that stands for
/// no text, Duplicate for one whose text stood before. Puts a layer without items for each.
pub(crate) fn named<'a, A: Allocator + Copy>(
    alloc: A,
    heap: Global,
    span: Span<'a>,
    layers: &mut Layers<'a, A>,
) -> Result<Vec<Entry<'a>, A>, OpenFault<'a>>
    requires { IsEmpty layers.old }
    ensures entries { Gives (λ v. map view_entry v.items) result (members_of (node span.entry)) }
    ensures each { IfOk result (λ v. index_map_len layers.new ≡ length v.items) }
{
    let mut found = Vec::new(alloc);
    for member in members(span) {
        let decoded = or_return!(name_text(heap, member.0));
        let word = word_of(decoded.as_str());
        let layer = RawLayer {
            name: member.0.text,
            items: Vec::new(alloc),
        };
        let new = note(layers, decoded, layer)?;
        if !new {
            return Err(OpenFault::Duplicate {
                name: Token {
                    text: unquoted(member.0.text),
                },
            });
        }
        found.push(Entry {
            word,
            name: member.0,
            value: member.1,
        })?;
    }
    Ok(found)
}
