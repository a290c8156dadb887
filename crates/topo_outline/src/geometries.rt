// Geometries, collections walked depth first (TopoJSON 1.0, 2.2).
ghost use Rattle.std.specs.Prelude.{◌≡◌, ◌++◌, [], ◌∷◌, map, OnOk, Ok, codes};
ghost use Rattle.json_spans.specs.Common.{node, kind_of};
ghost use Rattle.topo_outline.specs.Gives.{Gives, Appends};
ghost use Rattle.topo_outline.specs.Members.{head};
ghost use Rattle.topo_outline.specs.Layers.{leaf};
ghost use Rattle.topo_outline.specs.Shape.{type_text, type_of, are_lists, are_lists_of_lists, are_rings, member_that, with_rings, single, is_object, is_collection, geometry};
ghost use Rattle.topo_outline.specs.Views.{form_of, view_entry, view_item};

use crate::document::{Form, Item, RawFeature};
use crate::entries::Entry;
use crate::fault::OpenFault;
use crate::members::{
    Owner, entries, head, list_member, member_if, named_member, token_of, unquoted,
};
use crate::token::Token;
use crate::words::{Geometry, Word, geometry_of};
use json_spans::{Kind, Span, TextFault, items, kind, text};
use std::alloc::{AllocFailed, Allocator, Global};

fn type_value<'a>(heap: Global, entry: Entry<'a>) -> Result<Geometry, OpenFault<'a>>
    ensures { Gives (λ g. g) result
        (type_text (view_entry entry.entry) (kind_of (node entry.entry.value).bytes)) }
{
    let name = token_of(entry);
    match kind(entry.value) {
        Kind::Null => Ok(Geometry::Null),
        Kind::Text => match text(heap, entry.value) {
            Ok(says) => Ok(geometry_of(says.as_str())),
            Err(TextFault::BadText) => Err(OpenFault::BadMember { name }),
            Err(TextFault::OutOfMemory) => Err(OpenFault::OutOfMemory),
        },
        _ => Err(OpenFault::BadMember { name }),
    }
}

/// What the member `type` says, and the member.
fn type_of<'a>(heap: Global, members: &[Entry<'a>]) -> Result<(Geometry, Entry<'a>), OpenFault<'a>>
    ensures { Gives (λ p. (p.0, view_entry p.1)) result (type_of (map view_entry members.now)) }
{
    let entry = or_return!(named_member(members, Word::Type, b"type"));
    let says = or_return!(type_value(heap, entry));
    Ok((says, entry))
}

/// Whether it is a list of lists.
fn are_lists(span: Span<'_>) -> bool
    ensures { result ≡ are_lists (node span.entry) }
{
    if kind(span) != Kind::List {
        return false;
    }
    for part in items(span) {
        if kind(part) != Kind::List {
            return false;
        }
    }
    true
}

/// Whether it is a list of lists of lists.
fn are_lists_of_lists(span: Span<'_>) -> bool
    ensures { result ≡ are_lists_of_lists (node span.entry) }
{
    if kind(span) != Kind::List {
        return false;
    }
    for part in items(span) {
        if !are_lists(part) {
            return false;
        }
    }
    true
}

fn are_rings(form: Form, span: Span<'_>) -> bool
    ensures { result ≡ are_rings (form_of form) (node span.entry) }
{
    match form {
        Form::Polygon => are_lists(span),
        Form::MultiPolygon => are_lists_of_lists(span),
        Form::Null => true,
    }
}

/// The member `arcs`, where it nests lists as the form asks.
fn rings_of<'a>(form: Form, members: &[Entry<'a>]) -> Result<Entry<'a>, OpenFault<'a>>
    ensures { Gives view_entry result (member_that (are_rings (form_of form)) (codes "arcs")
        Word.Arcs (map view_entry members.now)) }
{
    let entry = or_return!(named_member(members, Word::Arcs, b"arcs"));
    member_if(are_rings(form, entry.value), entry)
}

fn with_rings<'a, A: Allocator + Copy>(
    alloc: A,
    form: Form,
    members: &[Entry<'a>],
) -> Result<Item<'a, A>, OpenFault<'a>>
    ensures { Gives view_item result (with_rings (form_of form) (map view_entry members.now)) }
{
    let arcs = or_return!(rings_of(form, members)).value;
    let head = head(alloc, Owner::Rings, members)?;
    Ok(Item::Leaf(RawFeature { form, head, arcs }))
}

/// The item of a geometry that is no collection.
fn single<'a, A: Allocator + Copy>(
    alloc: A,
    typed: (Geometry, Entry<'a>),
    span: Span<'a>,
    members: &[Entry<'a>],
) -> Result<Item<'a, A>, OpenFault<'a>>
    ensures { Gives view_item result (single typed.entry.0 (view_entry typed.entry.1)
        (node span.entry) (map view_entry members.now)) }
{
    match typed.0 {
        Geometry::Null => Ok(Item::Leaf(RawFeature {
            form: Form::Null,
            head: head(alloc, Owner::Null, members)?,
            arcs: span,
        })),
        Geometry::Polygon => with_rings(alloc, Form::Polygon, members),
        Geometry::MultiPolygon => with_rings(alloc, Form::MultiPolygon, members),
        Geometry::Point => Ok(Item::Kept(span.text)),
        _ => Err(OpenFault::Unsupported {
            type_name: Token {
                text: unquoted(typed.1.value.text),
            },
        }),
    }
}

fn push<'a, A: Allocator + Copy>(
    out: &mut Vec<Item<'a, A>, A>,
    item: Item<'a, A>,
) -> Result<(), AllocFailed<Item<'a, A>>>
    ensures { OnOk result
        (map view_item out.new.items ≡ map view_item out.old.items ++ view_item item.entry ∷ []) }
{
    out.push(item)
}

fn is_object(span: Span<'_>) -> bool
    ensures { result ≡ is_object (node span.entry) }
{
    kind(span) == Kind::Object
}

fn is_collection(says: Geometry) -> bool
    ensures { result ≡ is_collection says }
{
    matches!(says, Geometry::Collection)
}

/// Appends the items of a geometry that is an object, with at most `depth` collections in one
/// another, else TooDeep.
pub(crate) fn geometry<'a, A: Allocator + Copy>(
    alloc: A,
    heap: Global,
    depth: usize,
    span: Span<'a>,
    out: &mut Vec<Item<'a, A>, A>,
) -> Result<(), OpenFault<'a>>
    ensures { Appends (map view_item out.old.items) (map view_item out.new.items) result
        (geometry depth (node span.entry)) }
{
    let members = or_return!(entries(alloc, heap, span));
    let typed = or_return!(type_of(heap, members.as_slice()));
    if !is_collection(typed.0) {
        let item = or_return!(single(alloc, typed, span, members.as_slice()));
        push(out, item)?;
        return Ok(());
    }
    let list = or_return!(list_member(members.as_slice(), Word::Geometries, b"geometries"));
    if depth == 0 {
        return Err(OpenFault::TooDeep { place: span.at });
    }
    let head = head(alloc, Owner::Collection, members.as_slice())?;
    push(out, Item::Open(head))?;
    for part in items(list.value) {
        if !is_object(part) {
            return Err(OpenFault::BadMember {
                name: token_of(list),
            });
        }
        or_return!(geometry(alloc, heap, depth - 1, part, out));
    }
    push(out, Item::Close)?;
    Ok(())
}
