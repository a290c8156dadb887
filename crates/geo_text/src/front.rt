// A FeatureCollection up to the list of its Features (RFC 7946, 3.3).
ghost use Rattle.std.specs.Prelude.{◌≡◌, ◌||◌, ◌&&◌, List, [], ◌∷◌, ◌++◌, codes, is_some, map, option_map, IfOk, OnOk};
ghost use Rattle.std.specs.BTreeSet.{contains_text};
ghost use Rattle.ring_machine.specs.Common.{Member};
ghost use Rattle.topo_outline.specs.Common.{view_head, view_kept};
ghost use Rattle.geo_features.specs.Names.{HasNames, is_one_of};
ghost use Rattle.geo_text.specs.Layer.{collection_members, front_of, front_text, has_already, has_named, head_text};
ghost use Rattle.geo_text.specs.Layer.{missing_members, name_text};
ghost use Rattle.geo_text.specs.Found.{head_or_none};
ghost use Rattle.geo_features.specs.Gives.{Appends};

use geo_features::{
    ExportFault, Names, bad_member, first_of, is_one_of, names_of, push_member, push_member_if,
    push_members,
};
use json_spans::{Span, TextFault, text as decoded};
use std::alloc::{AllocError, Allocator, Global};
use topo_outline::{Head, KeptMember, OpenFault, Token};

/// The names that the members of a collection may not have (RFC 7946, 7.1).
const NOT_OF_COLLECTION: &[&str] = &["features", "coordinates", "geometries", "geometry"];

/// Whether a name is among these.
fn is_among<A: Allocator + Copy>(
    heap: Global,
    names: &Names<A>,
    name: &[u8],
) -> Result<bool, AllocError>
    ensures { IfOk result (λ is. (ms : List Member) → HasNames (contains_text names.now) ms
        → is ≡ has_named ms name.now) }
{
    match decoded(heap, Span { text: name, at: 0 }) {
        Ok(text) => Ok(names.contains(text.as_str())),
        Err(TextFault::BadText) => Ok(false),
        Err(TextFault::OutOfMemory) => Err(AllocError),
    }
}

/// Whether a name is that of an id or of properties which a collection has.
fn is_taken<A: Allocator + Copy>(
    heap: Global,
    head: &Head<'_, A>,
    name: &[u8],
) -> Result<bool, AllocError>
    ensures { IfOk result (λ is. is ≡ ((is_some (view_head head.now).id && is_one_of (codes "id" ∷ []) name.now)
        || (is_some (view_head head.now).properties && is_one_of (codes "properties" ∷ []) name.now))) }
{
    let has_id = head.id.is_some() && is_one_of(heap, &["id"], name)?;
    let has_properties = head.properties.is_some() && is_one_of(heap, &["properties"], name)?;
    Ok(has_id || has_properties)
}

/// Whether a collection whose members have these names has a member of this name.
fn has_already<A: Allocator + Copy>(
    heap: Global,
    head: &Head<'_, A>,
    names: &Names<A>,
    name: &[u8],
) -> Result<bool, AllocError>
    ensures { IfOk result (λ has. HasNames (contains_text names.now) (view_head head.now).members
        → has ≡ has_already (view_head head.now) name.now) }
{
    let is_taken = is_taken(heap, head, name)?;
    let is_among = is_among(heap, names, name)?;
    Ok(is_taken || is_among)
}

/// Appends the members of the topology that the collection does not have.
fn push_missing<'a, A: Allocator + Copy>(
    found: &mut Vec<KeptMember<'a>, A>,
    heap: Global,
    head: &Head<'a, A>,
    of_topology: &[KeptMember<'a>],
) -> Result<(), AllocError>
    ensures { OnOk result (map view_kept found.new.items ≡ map view_kept found.old.items
        ++ missing_members (view_head head.now) (map view_kept of_topology.now)) }
{
    let names = names_of(*found.allocator(), heap, head.members.as_slice())?;
    for member in of_topology {
        let has = has_already(heap, head, &names, member.name)?;
        if !has {
            found.push(*member)?;
        }
    }
    Ok(())
}

/// The members of the collection: its own, and then those of the topology that it does not have.
fn collection_members<'a, A: Allocator + Copy>(
    alloc: A,
    heap: Global,
    head: Option<&Head<'a, A>>,
    of_topology: &[KeptMember<'a>],
) -> Result<Vec<KeptMember<'a>, A>, AllocError>
    ensures { IfOk result (λ v. map view_kept v.items ≡ collection_members
        (head_or_none (option_map (λ h. view_head h.now) head.entry)) (map view_kept of_topology.now)) }
{
    let mut found = Vec::new(alloc);
    let Some(head) = head else {
        found.extend_from_slice(of_topology)?;
        return Ok(found);
    };
    found.extend_from_slice(head.members.as_slice())?;
    push_missing(&mut found, heap, head, of_topology)?;
    Ok(found)
}

/// Appends the layer's name. Where a member has that name, the layer has to have the name of one that was read without.
fn push_name<'a, A: Allocator>(
    text: &mut Vec<u8, A>,
    heap: Global,
    token: &[u8],
    members: &[KeptMember<'a>],
) -> Result<(), ExportFault<'a>>
    ensures { Appends text.old.items text.new.items result (name_text token.now (map view_kept members.now)) }
{
    if first_of(heap, &["name"], members)?.is_none() {
        push_member(text, b"\"name\"", token)?;
        return Ok(());
    }
    if is_one_of(heap, &["features"], token)? {
        return Ok(());
    }
    Err(ExportFault::Open(OpenFault::Duplicate {
        name: Token { text: b"name" },
    }))
}

/// Appends the collection's id and properties, if they are there.
fn push_head<A: Allocator, B: Allocator + Copy>(
    text: &mut Vec<u8, A>,
    head: Option<&Head<'_, B>>,
) -> Result<(), AllocError>
    ensures { OnOk result (text.new.items ≡ text.old.items
        ++ head_text (head_or_none (option_map (λ h. view_head h.now) head.entry))) }
{
    let Some(head) = head else {
        return Ok(());
    };
    push_member_if(text, b"\"id\"", head.id)?;
    push_member_if(text, b"\"properties\"", head.properties)
}

/// Appends the collection's members up to the list of its Features.
fn push_front_with<'a, A: Allocator + Copy>(
    text: &mut Vec<u8, A>,
    heap: Global,
    token: &[u8],
    head: Option<&Head<'a, A>>,
    members: &[KeptMember<'a>],
) -> Result<(), ExportFault<'a>>
    ensures { Appends text.old.items text.new.items result (front_text token.now
        (head_or_none (option_map (λ h. view_head h.now) head.entry)) (map view_kept members.now)) }
{
    text.extend_from_slice(b"{\"type\":\"FeatureCollection\"")?;
    or_return!(push_name(text, heap, token, members));
    if let Some(wrong) = first_of(heap, NOT_OF_COLLECTION, members)? {
        return Err(bad_member(wrong.name));
    }
    push_head(text, head)?;
    push_members(text, members)?;
    text.extend_from_slice(b",\"features\":[")?;
    Ok(())
}

/// Appends the collection of a layer with this name up to the list of its Features.
pub(crate) fn push_front<'a, A: Allocator + Copy>(
    text: &mut Vec<u8, A>,
    heap: Global,
    token: &[u8],
    head: Option<&Head<'a, A>>,
    of_topology: &[KeptMember<'a>],
) -> Result<(), ExportFault<'a>>
    ensures { Appends text.old.items text.new.items result (front_of token.now
        (head_or_none (option_map (λ h. view_head h.now) head.entry)) (map view_kept of_topology.now)) }
{
    let members = collection_members(*text.allocator(), heap, head, of_topology)?;
    push_front_with(text, heap, token, head, members.as_slice())
}
