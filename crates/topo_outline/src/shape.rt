// The shape of a topology (TopoJSON 1.0, 2.1): its transform, its layers and where its arcs stand.
ghost use Rattle.std.specs.Prelude.{◌≡◌, ◌≢◌, ◌&&◌, true, map, Ok, IfOk, IfErr, option_map, nat_le, length};
ghost use Rattle.indexmap.specs.IndexMap.{index_map_len, values};
ghost use Rattle.json_spans.specs.Common.{node, items, kind_of, decoded};
ghost use Rattle.topo_outline.specs.Gives.{Gives};
ghost use Rattle.topo_outline.specs.Faults.{each, demand, not_topology};
ghost use Rattle.topo_outline.specs.Members.{member};
ghost use Rattle.topo_outline.specs.Shape.{is_list, is_topology_word, says_topology, is_topology, two_numbers, are_two_numbers, is_transform, transform_value, transform_from, layer, layers};
ghost use Rattle.topo_outline.specs.Layers.{few};
ghost use Rattle.topo_outline.specs.Outline.{outline_text, limited, outlined, outline};
ghost use Rattle.topo_outline.specs.IsOutline.{HasOutline, HasNoOutline, NestsAtMost};
ghost use Rattle.topo_outline.specs.OutlineView.{view_outline, IsPlaced};
ghost use Rattle.topo_outline.specs.Views.{view_entry, view_layer, view_place};

use crate::document::{KeptMember, Layers, RawLayer};
use crate::entries::Entry;
use crate::fault::{Limit, OpenFault};
use crate::geometries::geometry;
use crate::layer_names::named;
use crate::members::{Owner, entries, find, kept, list_member, object_member, token_of};
use crate::places::{Place, places};
use crate::words::{Geometry, Word, geometry_of};
use indexmap::IndexMap;
use json_spans::{Kind, Span, TextFault, items, kind, text};
use std::alloc::{Allocator, Global};
use std::hash::RandomState;

/// A topology before its positions are read (TopoJSON 1.0, 2.1).
#[derive(Drop)]
#[derive_where(Debug)]
pub struct Outline<'a, A: Allocator + Copy = Global> {
    /// The text of the transform, and none where it is missing or `null` (TopoJSON 1.0, 2.1.2).
    pub transform: Option<&'a [u8]>,
    /// The members of `objects` in order, by the texts that their names stand for.
    pub layers: Layers<'a, A>,
    /// The features of all layers in the order of the text.
    pub places: Vec<Place<'a>, A>,
    /// The value of `arcs`, a list (TopoJSON 1.0, 2.1.3).
    pub arcs: Span<'a>,
    /// The members that are neither known nor a `bbox`, in order.
    pub members: Vec<KeptMember<'a>, A>,
}

const MAX_FEATURES: usize = 200_000;

/// More than the collections that can stand in one another in a text of at most 100 levels.
const MAX_COLLECTIONS: usize = 100;

fn is_named_topology<'a>(heap: Global, value: Span<'a>) -> Result<bool, OpenFault<'a>>
    ensures { Gives (λ b. b) result (Ok (says_topology (decoded (node value.entry).bytes))) }
{
    match text(heap, value) {
        Ok(says) => Ok(matches!(geometry_of(says.as_str()), Geometry::Topology)),
        Err(TextFault::BadText) => Ok(false),
        Err(TextFault::OutOfMemory) => Err(OpenFault::OutOfMemory),
    }
}

fn is_topology<'a>(heap: Global, members: &[Entry<'a>]) -> Result<bool, OpenFault<'a>>
    ensures { Gives (λ b. b) result
        (Ok (is_topology (member Word.Type (map view_entry members.now)))) }
{
    match find(members, Word::Type) {
        Some(entry) if kind(entry.value) == Kind::Text => is_named_topology(heap, entry.value),
        _ => Ok(false),
    }
}

fn are_two_numbers(span: Span<'_>) -> bool
    ensures { result ≡ (is_list (node span.entry) && two_numbers (items (node span.entry))) }
{
    if kind(span) != Kind::List {
        return false;
    }
    let mut parts = items(span);
    match (parts.next(), parts.next(), parts.next()) {
        (Some(x), Some(y), None) => kind(x) == Kind::Number && kind(y) == Kind::Number,
        _ => false,
    }
}

fn has_two_numbers(members: &[Entry<'_>], word: Word) -> bool
    ensures { result ≡ are_two_numbers (member word (map view_entry members.now)) }
{
    find(members, word).is_some_and(|entry| are_two_numbers(entry.value))
}

/// Whether `scale` and `translate` are lists of two numbers each (TopoJSON 1.0, 2.1.2).
fn is_transform(members: &[Entry<'_>]) -> bool
    ensures { result ≡ is_transform (map view_entry members.now) }
{
    has_two_numbers(members, Word::Scale) && has_two_numbers(members, Word::Translate)
}

fn transform_value<'a, A: Allocator + Copy>(
    alloc: A,
    heap: Global,
    entry: Entry<'a>,
) -> Result<Option<&'a [u8]>, OpenFault<'a>>
    ensures { Gives (option_map (λ t. t.now)) result
        (transform_value (view_entry entry.entry) (kind_of (node entry.entry.value).bytes)) }
{
    let name = token_of(entry);
    match kind(entry.value) {
        Kind::Null => Ok(None),
        Kind::Object => {
            let members = or_return!(entries(alloc, heap, entry.value));
            if is_transform(members.as_slice()) {
                Ok(Some(entry.value.text))
            } else {
                Err(OpenFault::BadMember { name })
            }
        }
        _ => Err(OpenFault::BadMember { name }),
    }
}

/// The text of the transform, if there is one. `null` stands for none.
fn transform<'a, A: Allocator + Copy>(
    alloc: A,
    heap: Global,
    members: &[Entry<'a>],
) -> Result<Option<&'a [u8]>, OpenFault<'a>>
    ensures { Gives (option_map (λ t. t.now)) result
        (transform_from (member Word.Transform (map view_entry members.now))) }
{
    match find(members, Word::Transform) {
        Some(entry) => transform_value(alloc, heap, entry),
        None => Ok(None),
    }
}

/// A layer: a member of `objects` that is an object (TopoJSON 1.0, 2.1.5).
#[tactic(auto, unfolding(crate::specs::Shape::layer))]
fn layer<'a, A: Allocator + Copy>(
    alloc: A,
    heap: Global,
    entry: Entry<'a>,
) -> Result<RawLayer<'a, A>, OpenFault<'a>>
    ensures { Gives view_layer result (layer (view_entry entry.entry)) }
{
    if kind(entry.value) != Kind::Object {
        return Err(OpenFault::BadMember {
            name: token_of(entry),
        });
    }
    let mut items = Vec::new(alloc);
    or_return!(geometry(alloc, heap, MAX_COLLECTIONS, entry.value, &mut items));
    Ok(RawLayer {
        name: entry.name.text,
        items,
    })
}

/// Reads each layer into its place in the map.
fn each_layer<'a, A: Allocator + Copy>(
    alloc: A,
    heap: Global,
    names: &[Entry<'a>],
    found: &mut Layers<'a, A>,
) -> Result<(), OpenFault<'a>>
    requires { index_map_len found.old ≡ length names.now }
    ensures { Gives (λ _. map view_layer (values found.new)) result
        (each layer (map view_entry names.now)) }
{
    for i in 0..names.len() {
        found[i] = or_return!(layer(alloc, heap, names[i]));
    }
    Ok(())
}

/// The layers of `objects`: all names are tested before any layer is read.
fn layers<'a, A: Allocator + Copy>(
    alloc: A,
    heap: Global,
    seed: RandomState,
    span: Span<'a>,
) -> Result<Layers<'a, A>, OpenFault<'a>>
    ensures { Gives (λ m. map view_layer (values m)) result (layers (node span.entry)) }
{
    let mut found: Layers<'a, A> = IndexMap::with_hasher(alloc, seed);
    let names = or_return!(named(alloc, heap, span, &mut found));
    or_return!(each_layer(alloc, heap, names.as_slice(), &mut found));
    Ok(found)
}

/// The outline, or TooLarge where it has too many features.
fn limited<'a, A: Allocator + Copy>(
    alloc: A,
    transform: Option<&'a [u8]>,
    layers: Layers<'a, A>,
    arcs: Span<'a>,
    members: &[Entry<'a>],
) -> Result<Outline<'a, A>, OpenFault<'a>>
    ensures shape { Gives view_outline result
        (limited (outline_text (option_map (λ t. t.now) transform.entry)
        (map view_layer (values layers.entry)) (node arcs.entry) (map view_entry members.now))) }
    ensures places { IfOk result (λ o. IsPlaced o) }
{
    let places = places(alloc, layers.values().as_slice())?;
    if places.len() > MAX_FEATURES {
        return Err(OpenFault::TooLarge {
            what: Limit::Features,
        });
    }
    let members = kept(alloc, Owner::Topology, members)?;
    Ok(Outline {
        transform,
        layers,
        places,
        arcs,
        members,
    })
}

fn outlined<'a, A: Allocator + Copy>(
    alloc: A,
    heap: Global,
    seed: RandomState,
    members: &[Entry<'a>],
) -> Result<Outline<'a, A>, OpenFault<'a>>
    ensures shape { Gives view_outline result (outlined (map view_entry members.now)) }
    ensures places { IfOk result (λ o. IsPlaced o) }
{
    let transform = or_return!(transform(alloc, heap, members));
    let objects = or_return!(object_member(members, Word::Objects, b"objects"));
    let arcs = or_return!(list_member(members, Word::Arcs, b"arcs"));
    let layers = or_return!(layers(alloc, heap, seed, objects.value));
    limited(alloc, transform, layers, arcs.value, members)
}

/// The outline of the topology whose root this is, or its first fault.
fn topology<'a, A: Allocator + Copy>(
    alloc: A,
    heap: Global,
    seed: RandomState,
    root: Span<'a>,
) -> Result<Outline<'a, A>, OpenFault<'a>>
    ensures shape { Gives view_outline result (outline (node root.entry)) }
    ensures places { IfOk result (λ o. IsPlaced o) }
{
    if kind(root) != Kind::Object {
        return Err(OpenFault::NotTopology);
    }
    let members = or_return!(entries(alloc, heap, root));
    if !or_return!(is_topology(heap, members.as_slice())) {
        return Err(OpenFault::NotTopology);
    }
    outlined(alloc, heap, seed, members.as_slice())
}

/// The outline of the topology whose root this is, or the first fault of its shape: `NotTopology`,
/// `BadMember`, `Duplicate`, `Unsupported`, at the end `TooLarge` with more than 200,000 features, and
/// `OutOfMemory` where an allocation fails. What stands in `arcs` is not tested.
///
/// All that the outline owns lies in `alloc`, but for the decoded names of layers. These are in
/// `heap`, as is each decoded name while its object is read: `serde_json` decodes into `Global` only.
/// `seed` is that of the hash of the layers' names.
pub fn read_outline<'a, A: Allocator + Copy>(
    alloc: A,
    heap: Global,
    seed: RandomState,
    root: Span<'a>,
) -> Result<Outline<'a, A>, OpenFault<'a>>
    ensures opened { IfOk result (λ o. HasOutline (node root.entry) (view_outline o)) }
    ensures few { IfOk result (λ o. few (view_outline o).layers ≡ true) }
    ensures refused { IfErr result (λ f.
        f ≢ OpenFault.OutOfMemory → NestsAtMost 100 (node root.entry) →
        HasNoOutline (node root.entry)) }
    ensures shape { Gives view_outline result (outline (node root.entry)) }
    ensures places { IfOk result (λ o. IsPlaced o) }
{
    topology(alloc, heap, seed, root)
}
