// Members of an object, appended to a buffer after the first one.
ghost use Rattle.std.specs.Prelude.{◌≡◌, ◌++◌, [], ◌∷◌, map, option_map, OnOk};
ghost use Rattle.topo_outline.specs.Common.{view_head, view_kept};
ghost use Rattle.topo_writer.specs.Members.{further_if, head_members};
ghost use Rattle.map_text.specs.Common.{closing_text, further, member, member_text, opening_text};

use std::alloc::{AllocError, Allocator};
use topo_outline::{Head, KeptMember};

/// Appends a comma, a name with its quotes, a colon and a value.
fn push_member<A: Allocator + Copy>(
    text: &mut Vec<u8, A>,
    name: &[u8],
    value: &[u8],
) -> Result<(), AllocError>
    ensures { OnOk result (text.new.items
        ≡ text.old.items ++ further (map member_text (member name.now value.now ∷ []))) }
{
    text.extend_from_slice(b",")?;
    text.extend_from_slice(name)?;
    text.extend_from_slice(b":")?;
    text.extend_from_slice(value)
}

/// Appends a member that need not be there.
pub(crate) fn push_member_if<A: Allocator + Copy>(
    text: &mut Vec<u8, A>,
    name: &[u8],
    value: Option<&[u8]>,
) -> Result<(), AllocError>
    ensures { OnOk result (text.new.items
        ≡ text.old.items ++ further_if name.now (option_map (λ t. t.now) value.entry)) }
{
    match value {
        Some(value) => push_member(text, name, value),
        None => Ok(()),
    }
}

/// Appends members that were kept.
pub(crate) fn push_kept<A: Allocator + Copy>(
    text: &mut Vec<u8, A>,
    members: &[KeptMember<'_>],
) -> Result<(), AllocError>
    ensures { OnOk result (text.new.items
        ≡ text.old.items ++ further (map member_text (map view_kept members.now))) }
{
    for member in members {
        push_member(text, member.name, member.value)?;
    }
    Ok(())
}

/// Appends the id and the properties that a geometry has.
pub(crate) fn push_head<A: Allocator + Copy>(
    text: &mut Vec<u8, A>,
    head: &Head<'_, A>,
) -> Result<(), AllocError>
    ensures { OnOk result (text.new.items
        ≡ text.old.items ++ further (map member_text (head_members (view_head head.now)))) }
{
    push_member_if(text, b"\"id\"", head.id)?;
    push_member_if(text, b"\"properties\"", head.properties)?;
    Ok(())
}

/// Appends a collection up to the begin of the list of its geometries (TopoJSON 1.0, 2.2.7).
pub(crate) fn push_opening<A: Allocator + Copy>(
    text: &mut Vec<u8, A>,
    head: &Head<'_, A>,
) -> Result<(), AllocError>
    ensures { OnOk result (text.new.items ≡ text.old.items ++ opening_text (view_head head.now)) }
{
    text.extend_from_slice(b"{\"type\":\"GeometryCollection\"")?;
    push_head(text, head)?;
    text.extend_from_slice(b",\"geometries\":[")
}

/// Appends a collection from the end of the list of its geometries on.
pub(crate) fn push_closing<A: Allocator + Copy>(
    text: &mut Vec<u8, A>,
    head: &Head<'_, A>,
) -> Result<(), AllocError>
    ensures { OnOk result (text.new.items ≡ text.old.items ++ closing_text (view_head head.now)) }
{
    text.extend_from_slice(b"]")?;
    push_kept(text, head.members.as_slice())?;
    text.extend_from_slice(b"}")
}
