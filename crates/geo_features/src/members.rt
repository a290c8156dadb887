// The members of Features and of their geometries.
ghost use Rattle.std.specs.Prelude.{◌≡◌, filter, map, not, IfOk, Some};
ghost use Rattle.std.specs.List.{list_all};
ghost use Rattle.topo_outline.specs.Common.{view_head, view_kept};
ghost use Rattle.geo_features.specs.Names.{feature_members, geometry_members, is_bare, is_geometry, members_in};
ghost use Rattle.geo_features.specs.Gives.{Gives};

use crate::fault::ExportFault;
use crate::names::{GEOMETRY, NOT_OF_GEOMETRY, bad_member, first_of, is_one_of, members_of};
use json_spans::{Kind, Span, kind};
use std::alloc::{AllocError, Allocator, Global};
use topo_outline::{Head, KeptMember};

/// The members but `geometry`.
#[tactic(auto, using(crate::proofs::Naming::own_step, crate::proofs::Naming::own_end))]
fn without_geometry<'a, A: Allocator + Copy>(
    alloc: A,
    heap: Global,
    members: &[KeptMember<'a>],
) -> Result<Vec<KeptMember<'a>, A>, AllocError>
    ensures { IfOk result (λ v. map view_kept v.items
        ≡ filter (λ m. not (is_geometry m.name)) (map view_kept members.now)) }
{
    let mut own = Vec::new(alloc);
    for member in members {
        if !is_one_of(heap, GEOMETRY, member.name)? {
            own.push(*member)?;
        }
    }
    Ok(own)
}

/// The members that stand in a Feature: all but `geometry`. A name of these words is at fault.
pub(crate) fn feature_members<'a, A: Allocator + Copy>(
    alloc: A,
    heap: Global,
    words: &[&str],
    members: &[KeptMember<'a>],
) -> Result<Vec<KeptMember<'a>, A>, ExportFault<'a>>
    ensures { Gives (λ v. map view_kept v.items) result
        (feature_members (map (λ word. word.now) words.now) (map view_kept members.now)) }
{
    match first_of(heap, words, members)? {
        Some(wrong) => Err(bad_member(wrong.name)),
        None => Ok(without_geometry(alloc, heap, members)?),
    }
}

/// The members of an object, none of which has a name that a geometry may not have.
fn members_in<'a, A: Allocator + Copy>(
    alloc: A,
    heap: Global,
    member: KeptMember<'a>,
) -> Result<Vec<KeptMember<'a>, A>, ExportFault<'a>>
    ensures { Gives (λ v. map view_kept v.items) result (members_in (Some (view_kept member.entry))) }
{
    let value = Span {
        text: member.value,
        at: 0,
    };
    if kind(value) != Kind::Object {
        return Err(bad_member(member.name));
    }
    let members = or_return!(members_of(alloc, heap, member.value));
    match first_of(heap, NOT_OF_GEOMETRY, members.as_slice())? {
        Some(wrong) => Err(bad_member(wrong.name)),
        None => Ok(members),
    }
}

/// The members that stand in a geometry: those of the member `geometry` of its feature.
pub(crate) fn geometry_members<'a, A: Allocator + Copy>(
    alloc: A,
    heap: Global,
    members: &[KeptMember<'a>],
) -> Result<Vec<KeptMember<'a>, A>, ExportFault<'a>>
    ensures { Gives (λ v. map view_kept v.items) result (geometry_members (map view_kept members.now)) }
{
    match first_of(heap, GEOMETRY, members)? {
        Some(member) => members_in(alloc, heap, member),
        None => Ok(Vec::new(alloc)),
    }
}

/// Whether all members are `geometry`.
#[tactic(auto, using(crate::proofs::Naming::all_step, crate::proofs::Naming::all_end))]
fn are_geometries(heap: Global, members: &[KeptMember<'_>]) -> Result<bool, AllocError>
    ensures { IfOk result (λ are. are
        ≡ list_all (λ m. is_geometry m.name) (map view_kept members.now)) }
{
    for member in members {
        if !is_one_of(heap, GEOMETRY, member.name)? {
            return Ok(false);
        }
    }
    Ok(true)
}

/// Whether an object has nothing that is lost where it stands within a GeometryCollection.
pub fn is_bare<A: Allocator + Copy>(heap: Global, head: &Head<'_, A>) -> Result<bool, AllocError>
    ensures { IfOk result (λ is. is ≡ is_bare (view_head head.now)) }
{
    if head.id.is_some() || head.properties.is_some() {
        return Ok(false);
    }
    are_geometries(heap, head.members.as_slice())
}
