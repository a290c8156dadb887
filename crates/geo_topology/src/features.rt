// Features and collections of them (RFC 7946, 3.2 and 3.3).
ghost use Rattle.std.specs.Prelude.{◌≡◌, ◌++◌, ◌∷◌, [], map, codes, option_map, None, Ok, OnOk, true};
ghost use Rattle.json_spans.specs.Common.{node, items, kind_of};
ghost use Rattle.topo_outline.specs.Common.{Gives};
ghost use Rattle.topo_outline.specs.Gives.{Appends};
ghost use Rattle.geo_topology.specs.Pieces.{separated};
ghost use Rattle.geo_topology.specs.Geometries.{geometry_pieces};
ghost use Rattle.geo_topology.specs.Features.{is_feature, may_be_geometry, geometry_member, empty, with_geometry, feature_pieces, layer_name, features_of, feature_in_list, name_piece, layer_front, collection_owner, layer_end, collection, single_object, layer_pieces};
ghost use Rattle.geo_topology.specs.Views.{view_named, view_chunk};

use crate::chunk::Chunk;
use crate::entry::Entry;
use crate::geometries::{geometry, no_members, put_front, typed};
use crate::members::{Owner, barred, entries, find, member_if, named_member, token_of};
use crate::object::GeoObject;
use crate::putting::{put_comma, put_copy, put_foreign, put_words};
use crate::shapes::{is_list, is_object};
use crate::words::{GeoType, Word};
use json_spans::{Kind, Span, TextFault, items, kind, text};
use std::alloc::{AllocFailed, Allocator, Global};
use topo_outline::OpenFault;

/// More than the collections that can stand in one another in a text of at most 100 levels.
pub(crate) const MAX_COLLECTIONS: usize = 100;

fn is_feature(says: GeoType) -> bool
    ensures { result ≡ is_feature says }
{
    matches!(says, GeoType::Feature)
}

fn may_be_geometry(span: Span<'_>) -> bool
    ensures { result ≡ may_be_geometry (kind_of (node span.entry).bytes) }
{
    matches!(kind(span), Kind::Null | Kind::Object)
}

/// The member `geometry` of a Feature, an object or null.
fn geometry_of<'a>(heap: Global, entries: &[Entry<'a>]) -> Result<Entry<'a>, OpenFault<'a>>
    ensures { Gives view_named result (geometry_member (map view_named entries.now)) }
{
    let (says, named) = or_return!(typed(heap, entries));
    let _ = or_return!(member_if(is_feature(says), named));
    if let Some(entry) = barred(Owner::Feature, entries) {
        return Err(OpenFault::BadMember {
            name: token_of(entry),
        });
    }
    let value = or_return!(named_member(entries, Word::Geometry, b"geometry"));
    member_if(may_be_geometry(value.value), value)
}

/// Appends a Feature without geometry.
fn put_empty<'a, A: Allocator + Copy>(
    feature: &[Entry<'a>],
    out: &mut Vec<Chunk<'a>, A>,
) -> Result<(), AllocFailed<Chunk<'a>>>
    ensures { OnOk result (map view_chunk out.new.items ≡ map view_chunk out.old.items
        ++ empty (map view_named feature.now)) }
{
    put_front(GeoType::Other, feature, out)?;
    put_foreign(Owner::Feature, feature, out)?;
    put_words(b"}", out)
}

/// Appends a Feature that is an object.
pub(crate) fn feature<'a, A: Allocator + Copy>(
    heap: Global,
    span: Span<'a>,
    out: &mut Vec<Chunk<'a>, A>,
) -> Result<(), OpenFault<'a>>
    ensures { Appends (map view_chunk out.old.items) (map view_chunk out.new.items) result
        (feature_pieces (node span.entry)) }
{
    let members = or_return!(entries(*out.allocator(), heap, span));
    let value = or_return!(geometry_of(heap, members.as_slice())).value;
    if is_object(value) {
        return geometry(heap, MAX_COLLECTIONS, members.as_slice(), value, out);
    }
    put_empty(members.as_slice(), out)?;
    Ok(())
}

/// The member `name` of a FeatureCollection, where it is a string that stands for a text.
fn layer_name<'a>(heap: Global, entries: &[Entry<'a>]) -> Result<Option<Entry<'a>>, OpenFault<'a>>
    ensures { Gives (option_map view_named) result (Ok (layer_name (map view_named entries.now))) }
{
    let Some(entry) = find(entries, Word::Name) else {
        return Ok(None);
    };
    match text(heap, entry.value) {
        Ok(_) => Ok(Some(entry)),
        Err(TextFault::BadText) => Ok(None),
        Err(TextFault::OutOfMemory) => Err(OpenFault::OutOfMemory),
    }
}

/// The member `features` of a FeatureCollection, a list.
fn features_of<'a>(entries: &[Entry<'a>]) -> Result<Entry<'a>, OpenFault<'a>>
    ensures { Gives view_named result (features_of (map view_named entries.now)) }
{
    if let Some(entry) = barred(Owner::Collection, entries) {
        return Err(OpenFault::BadMember {
            name: token_of(entry),
        });
    }
    let list = or_return!(named_member(entries, Word::Features, b"features"));
    member_if(is_list(list.value), list)
}

/// Appends the name of the layer, `features` where there is none.
fn put_name<'a, A: Allocator + Copy>(
    name: Option<Entry<'a>>,
    out: &mut Vec<Chunk<'a>, A>,
) -> Result<(), AllocFailed<Chunk<'a>>>
    ensures { OnOk result (map view_chunk out.new.items ≡ map view_chunk out.old.items
        ++ name_piece (option_map view_named name.entry) ∷ []) }
{
    match name {
        Some(entry) => put_copy(entry.value, out),
        None => put_words(b"\"features\"", out),
    }
}

/// Appends how the topology begins, up to the features of its layer.
fn put_layer<'a, A: Allocator + Copy>(
    name: Option<Entry<'a>>,
    collection: &[Entry<'a>],
    out: &mut Vec<Chunk<'a>, A>,
) -> Result<(), AllocFailed<Chunk<'a>>>
    ensures { OnOk result (map view_chunk out.new.items ≡ map view_chunk out.old.items
        ++ layer_front (option_map view_named name.entry) (map view_named collection.now)) }
{
    put_words(b"{\"type\":\"Topology\",\"objects\":{", out)?;
    put_name(name, out)?;
    put_words(b":", out)?;
    put_front(GeoType::GeometryCollection, collection, out)?;
    put_words(b",\"geometries\":[", out)
}

/// Appends the Features of a FeatureCollection.
fn features<'a, A: Allocator + Copy>(
    heap: Global,
    list: Entry<'a>,
    out: &mut Vec<Chunk<'a>, A>,
) -> Result<(), OpenFault<'a>>
    ensures { Appends (map view_chunk out.old.items) (map view_chunk out.new.items) result
        (separated (feature_in_list (view_named list.entry)) true
        (items (node list.entry.value))) }
{
    let mut is_first = true;
    for part in items(list.value) {
        if !is_object(part) {
            return Err(OpenFault::BadMember {
                name: token_of(list),
            });
        }
        put_comma(is_first, out)?;
        or_return!(feature(heap, part, out));
        is_first = false;
    }
    Ok(())
}

/// What the members of a FeatureCollection are to the layer, whose name is that of the collection or not.
fn owner_of(name: Option<Entry<'_>>) -> Owner
    ensures { result ≡ collection_owner (option_map view_named name.entry) }
{
    match name {
        Some(_) => Owner::NamedCollection,
        None => Owner::Collection,
    }
}

/// Appends what stands behind the features of a layer.
fn put_behind<'a, A: Allocator + Copy>(
    name: Option<Entry<'a>>,
    collection: &[Entry<'a>],
    out: &mut Vec<Chunk<'a>, A>,
) -> Result<(), AllocFailed<Chunk<'a>>>
    ensures { OnOk result (map view_chunk out.new.items ≡ map view_chunk out.old.items
        ++ layer_end (option_map view_named name.entry) (map view_named collection.now)) }
{
    put_words(b"]", out)?;
    put_foreign(owner_of(name), collection, out)
}

/// Appends the layer that a FeatureCollection becomes.
fn collection<'a, A: Allocator + Copy>(
    heap: Global,
    span: Span<'a>,
    out: &mut Vec<Chunk<'a>, A>,
) -> Result<(), OpenFault<'a>>
    ensures { Appends (map view_chunk out.old.items) (map view_chunk out.new.items) result
        (collection (node span.entry)) }
{
    let members = or_return!(entries(*out.allocator(), heap, span));
    let list = or_return!(features_of(members.as_slice()));
    let name = or_return!(layer_name(heap, members.as_slice()));
    put_layer(name, members.as_slice(), out)?;
    or_return!(features(heap, list, out));
    put_behind(name, members.as_slice(), out)?;
    Ok(())
}

/// Appends a Feature, or a geometry without one.
fn single<'a, A: Allocator + Copy>(
    heap: Global,
    object: GeoObject,
    root: Span<'a>,
    out: &mut Vec<Chunk<'a>, A>,
) -> Result<(), OpenFault<'a>>
    ensures { Appends (map view_chunk out.old.items) (map view_chunk out.new.items) result
        (single_object object (node root.entry)) }
{
    match object {
        GeoObject::Feature => feature(heap, root, out),
        _ => geometry(heap, MAX_COLLECTIONS, no_members(), root, out),
    }
}

/// Appends the topology up to its arcs: one layer, which a FeatureCollection is, or in which a Feature
/// or a geometry stands alone.
pub(crate) fn layer<'a, A: Allocator + Copy>(
    heap: Global,
    object: GeoObject,
    root: Span<'a>,
    out: &mut Vec<Chunk<'a>, A>,
) -> Result<(), OpenFault<'a>>
    ensures { Appends (map view_chunk out.old.items) (map view_chunk out.new.items) result
        (layer_pieces object (node root.entry)) }
{
    if matches!(object, GeoObject::FeatureCollection) {
        return collection(heap, root, out);
    }
    put_layer(None, no_members(), out)?;
    or_return!(single(heap, object, root, out));
    put_behind(None, no_members(), out)?;
    Ok(())
}
