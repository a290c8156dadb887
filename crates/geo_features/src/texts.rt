// The pieces of a text (RFC 8259, 4 and 5).
ghost use Rattle.std.specs.Prelude.{◌≡◌, ◌++◌, [], ◌∷◌, map, option_map, OnOk};
ghost use Rattle.topo_outline.specs.Common.{view_kept};
ghost use Rattle.map_text.specs.Common.{comma_if, further, member, member_if, member_text};

use std::alloc::{AllocError, Allocator};
use topo_outline::KeptMember;

/// Appends a comma where something stands before.
pub fn push_comma<A: Allocator>(text: &mut Vec<u8, A>, more: bool) -> Result<(), AllocError>
    ensures { OnOk result (text.new.items ≡ text.old.items ++ comma_if more) }
{
    if more {
        text.push(b',')?;
    }
    Ok(())
}

/// Appends a comma, a name with its quotes, a colon and a value.
pub fn push_member<A: Allocator>(
    text: &mut Vec<u8, A>,
    name: &[u8],
    value: &[u8],
) -> Result<(), AllocError>
    ensures { OnOk result (text.new.items
        ≡ text.old.items ++ further (map member_text (member name.now value.now ∷ []))) }
{
    text.extend_from_slice(b",")?;
    text.extend_from_slice(name)?;
    text.extend_from_slice(b":")?;
    text.extend_from_slice(value)
}

/// Appends a member that need not be there.
pub fn push_member_if<A: Allocator>(
    text: &mut Vec<u8, A>,
    name: &[u8],
    value: Option<&[u8]>,
) -> Result<(), AllocError>
    ensures { OnOk result (text.new.items ≡ text.old.items
        ++ further (map member_text (member_if name.now (option_map (λ t. t.now) value.entry)))) }
{
    match value {
        Some(value) => push_member(text, name, value),
        None => Ok(()),
    }
}

/// Appends members.
pub fn push_members<A: Allocator>(
    text: &mut Vec<u8, A>,
    members: &[KeptMember<'_>],
) -> Result<(), AllocError>
    ensures { OnOk result (text.new.items
        ≡ text.old.items ++ further (map member_text (map view_kept members.now))) }
{
    for member in members {
        push_member(text, member.name, member.value)?;
    }
    Ok(())
}
