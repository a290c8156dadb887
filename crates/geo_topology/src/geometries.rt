// Geometries (RFC 7946, 3.1), collections walked depth first.
ghost use Rattle.std.specs.Prelude.{◌≡◌, ◌++◌, ◌∷◌, [], map, codes, OnOk, false};
ghost use Rattle.json_spans.specs.Common.{node};
ghost use Rattle.topo_outline.specs.Common.{Gives};
ghost use Rattle.topo_outline.specs.Gives.{Appends};
ghost use Rattle.geo_topology.specs.Pieces.{words, rings, polygons};
ghost use Rattle.geo_topology.specs.Geometries.{typed, geometry_type, value_member, typed_value, coordinates_pieces, tail, front_pieces, single_pieces, geometry_pieces};
ghost use Rattle.geo_topology.specs.declared.words.GeoType.{GeoType};
ghost use Rattle.geo_topology.specs.Views.{view_named, view_chunk};

use crate::chunk::Chunk;
use crate::entry::Entry;
use crate::members::{Owner, barred, entries, find, member_if, named_member, token_of, unquoted};
use crate::putting::{put_comma, put_copy, put_foreign, put_head, put_inside, put_words};
use crate::shapes::{
    has_shape, is_collection, is_geometry, is_object, opening, other_word, value_name, value_word,
};
use crate::words::{GeoType, Word, type_of};
use json_spans::{Span, TextFault, items, text};
use std::alloc::{AllocFailed, Allocator, Global};
use topo_outline::{OpenFault, Token};

/// What the member `type` says, and the member.
pub(crate) fn typed<'a>(
    heap: Global,
    entries: &[Entry<'a>],
) -> Result<(GeoType, Entry<'a>), OpenFault<'a>>
    ensures { Gives (λ p. (p.0, view_named p.1)) result (typed (map view_named entries.now)) }
{
    let entry = or_return!(named_member(entries, Word::Type, b"type"));
    match text(heap, entry.value) {
        Ok(says) => Ok((type_of(says.as_str()), entry)),
        Err(TextFault::BadText) => Err(OpenFault::BadMember {
            name: token_of(entry),
        }),
        Err(TextFault::OutOfMemory) => Err(OpenFault::OutOfMemory),
    }
}

/// The type of a geometry, or Unsupported.
fn geometry_type<'a>(heap: Global, entries: &[Entry<'a>]) -> Result<GeoType, OpenFault<'a>>
    ensures { Gives (λ g. g) result (geometry_type (map view_named entries.now)) }
{
    let (says, entry) = or_return!(typed(heap, entries));
    if is_geometry(says) {
        Ok(says)
    } else {
        Err(OpenFault::Unsupported {
            type_name: Token {
                text: unquoted(entry.value.text),
            },
        })
    }
}

/// The member that a geometry of this type has its value in, where no other one of its names is
/// another object's, and the value has the shape that the type asks.
fn value_of<'a>(says: GeoType, entries: &[Entry<'a>]) -> Result<Entry<'a>, OpenFault<'a>>
    ensures { Gives view_named result (value_member says (map view_named entries.now)) }
{
    let value = or_return!(named_member(entries, value_word(says), value_name(says)));
    match find(entries, other_word(says)) {
        Some(other) => Err(OpenFault::BadMember {
            name: token_of(other),
        }),
        None => member_if(has_shape(says, value.value), value),
    }
}

/// The type of a geometry, and the member that it has its value in.
fn typed_value<'a>(
    heap: Global,
    entries: &[Entry<'a>],
) -> Result<(GeoType, Entry<'a>), OpenFault<'a>>
    ensures { Gives (λ p. (p.0, view_named p.1)) result
        (typed_value (map view_named entries.now)) }
{
    if let Some(entry) = barred(Owner::Geometry, entries) {
        return Err(OpenFault::BadMember {
            name: token_of(entry),
        });
    }
    let says = or_return!(geometry_type(heap, entries));
    let value = or_return!(value_of(says, entries));
    Ok((says, value))
}

/// Appends the arcs of a polygon.
fn put_rings<'a, A: Allocator + Copy>(
    value: Span<'a>,
    out: &mut Vec<Chunk<'a>, A>,
) -> Result<(), AllocFailed<Chunk<'a>>>
    ensures { OnOk result (map view_chunk out.new.items ≡ map view_chunk out.old.items
        ++ rings (node value.entry) ∷ []) }
{
    out.push(Chunk::Rings(value))
}

/// Appends the arcs of several polygons.
fn put_polygons<'a, A: Allocator + Copy>(
    value: Span<'a>,
    out: &mut Vec<Chunk<'a>, A>,
) -> Result<(), AllocFailed<Chunk<'a>>>
    ensures { OnOk result (map view_chunk out.new.items ≡ map view_chunk out.old.items
        ++ polygons (node value.entry) ∷ []) }
{
    out.push(Chunk::Polygons(value))
}

/// Appends what a geometry that is no collection has in place of its coordinates. A line has nothing.
fn put_coordinates<'a, A: Allocator + Copy>(
    says: GeoType,
    value: Span<'a>,
    out: &mut Vec<Chunk<'a>, A>,
) -> Result<(), AllocFailed<Chunk<'a>>>
    ensures { OnOk result (map view_chunk out.new.items ≡ map view_chunk out.old.items
        ++ coordinates_pieces says (node value.entry)) }
{
    match says {
        GeoType::Polygon => {
            put_words(b",\"arcs\":", out)?;
            put_rings(value, out)
        }
        GeoType::MultiPolygon => {
            put_words(b",\"arcs\":", out)?;
            put_polygons(value, out)
        }
        GeoType::Point | GeoType::MultiPoint => {
            put_words(b",\"coordinates\":", out)?;
            put_copy(value, out)
        }
        _ => Ok(()),
    }
}

/// Appends the foreign members of a Feature and of its geometry, and the end of the object that both
/// become.
fn put_tail<'a, A: Allocator + Copy>(
    feature: &[Entry<'a>],
    geometry: &[Entry<'a>],
    out: &mut Vec<Chunk<'a>, A>,
) -> Result<(), AllocFailed<Chunk<'a>>>
    ensures { OnOk result (map view_chunk out.new.items ≡ map view_chunk out.old.items
        ++ tail (map view_named feature.now) (map view_named geometry.now)) }
{
    put_foreign(Owner::Feature, feature, out)?;
    put_inside(geometry, out)?;
    put_words(b"}", out)
}

/// Appends how the object begins that a Feature and its geometry become.
pub(crate) fn put_front<'a, A: Allocator + Copy>(
    says: GeoType,
    feature: &[Entry<'a>],
    out: &mut Vec<Chunk<'a>, A>,
) -> Result<(), AllocFailed<Chunk<'a>>>
    ensures { OnOk result (map view_chunk out.new.items ≡ map view_chunk out.old.items
        ++ front_pieces says (map view_named feature.now)) }
{
    put_words(opening(says), out)?;
    put_head(feature, out)
}

/// Appends a geometry that is no collection, with what its Feature has.
fn put_single<'a, A: Allocator + Copy>(
    typed: (GeoType, Span<'a>),
    feature: &[Entry<'a>],
    geometry: &[Entry<'a>],
    out: &mut Vec<Chunk<'a>, A>,
) -> Result<(), AllocFailed<Chunk<'a>>>
    ensures { OnOk result (map view_chunk out.new.items ≡ map view_chunk out.old.items
        ++ single_pieces typed.entry.0 (node typed.entry.1) (map view_named feature.now)
        (map view_named geometry.now)) }
{
    put_front(typed.0, feature, out)?;
    put_coordinates(typed.0, typed.1, out)?;
    put_tail(feature, geometry, out)
}

/// Appends what stands before the geometries of a collection.
fn put_start<'a, A: Allocator + Copy>(
    feature: &[Entry<'a>],
    out: &mut Vec<Chunk<'a>, A>,
) -> Result<(), AllocFailed<Chunk<'a>>>
    ensures { OnOk result (map view_chunk out.new.items ≡ map view_chunk out.old.items
        ++ (front_pieces GeoType.GeometryCollection (map view_named feature.now)
        ++ words (codes ",\"geometries\":[") ∷ [])) }
{
    put_front(GeoType::GeometryCollection, feature, out)?;
    put_words(b",\"geometries\":[", out)
}

/// Appends what stands behind them.
fn put_finish<'a, A: Allocator + Copy>(
    feature: &[Entry<'a>],
    geometry: &[Entry<'a>],
    out: &mut Vec<Chunk<'a>, A>,
) -> Result<(), AllocFailed<Chunk<'a>>>
    ensures { OnOk result (map view_chunk out.new.items ≡ map view_chunk out.old.items
        ++ words (codes "]") ∷ tail (map view_named feature.now) (map view_named geometry.now)) }
{
    put_words(b"]", out)?;
    put_tail(feature, geometry, out)
}

/// The members of the Feature of a geometry that has none.
pub(crate) fn no_members<'s, 'a>() -> &'s [Entry<'a>]
    ensures { result.now ≡ [] }
{
    &[]
}

/// Appends a geometry that is an object, with at most `depth` collections in one another, else
/// TooDeep, and with the id, the properties and the foreign members of its Feature, if it has one.
pub(crate) fn geometry<'a, A: Allocator + Copy>(
    heap: Global,
    depth: usize,
    feature: &[Entry<'a>],
    span: Span<'a>,
    out: &mut Vec<Chunk<'a>, A>,
) -> Result<(), OpenFault<'a>>
    ensures { Appends (map view_chunk out.old.items) (map view_chunk out.new.items) result
        (geometry_pieces depth (map view_named feature.now) (node span.entry)) }
{
    let members = or_return!(entries(*out.allocator(), heap, span));
    let (says, member) = or_return!(typed_value(heap, members.as_slice()));
    if !is_collection(says) {
        put_single((says, member.value), feature, members.as_slice(), out)?;
        return Ok(());
    }
    if depth == 0 {
        return Err(OpenFault::TooDeep { place: span.at });
    }
    put_start(feature, out)?;
    let alone = no_members();
    let mut is_first = true;
    for part in items(member.value) {
        if !is_object(part) {
            return Err(OpenFault::BadMember {
                name: token_of(member),
            });
        }
        put_comma(is_first, out)?;
        or_return!(geometry(heap, depth - 1, alone, part, out));
        is_first = false;
    }
    put_finish(feature, members.as_slice(), out)?;
    Ok(())
}
