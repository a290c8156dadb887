// What features are called.
ghost use Rattle.std.specs.Prelude.{◌≡◌, ◌++◌, ◌==◌, IfOk, OnOk, option_map, slice_index};
ghost use Rattle.json_spans.specs.Common.{nodes};
ghost use Rattle.map_features.specs.Names.{id_behind, id_text, is_called, is_naming_member, name_in, feature_name_text, names_feature, number_text};

use crate::shapes::Shape;
use crate::values::{is_for, value_text};
use json_spans::{Span, members};
use std::alloc::{AllocError, Allocator, Global};

/// Whether the `id` of a feature stands for this text.
pub fn has_id<A: Allocator + Copy>(
    heap: Global,
    shape: &Shape<'_, A>,
    wanted: &str,
) -> Result<bool, AllocError>
    ensures { IfOk result (λ is. is
        ≡ is_called (option_map (λ id. id.now) shape.now.id) wanted.now) }
{
    match shape.id {
        Some(id) => is_for(heap, id, wanted),
        None => Ok(false),
    }
}

/// Whether it is `name`, as a name.
fn is_name(name: &[u8]) -> bool
    ensures { result ≡ is_naming_member name.now }
{
    name == b"\"name\"".as_slice()
        || name == b"\"Name\"".as_slice()
        || name == b"\"NAME\"".as_slice()
}

/// Whether a JSON value is a string.
fn is_text(value: &[u8]) -> bool
    ensures { result ≡ (slice_index value.now 0 == 34) }
{
    !value.is_empty() && value[0] == b'"'
}

/// Whether a member of `properties` names its feature: a string called `name`.
fn names_feature(member: (Span<'_>, Span<'_>)) -> bool
    ensures { result ≡ names_feature (nodes member.entry) }
{
    is_name(member.0.text) && is_text(member.1.text)
}

/// The text of the member of `properties` that names a feature, the first of those.
fn name_of(properties: &[u8]) -> Option<&[u8]>
    ensures { option_map (λ name. name.now) result ≡ name_in properties.now }
{
    let object = Span {
        text: properties,
        at: 0,
    };
    for member in members(object) {
        if names_feature(member) {
            return Some(member.1.text);
        }
    }
    None
}

/// The number of a feature, as it is written in the picture.
pub fn feature_number<A: Allocator + Copy>(
    alloc: A,
    shape: &Shape<'_, A>,
) -> Result<Vec<u8, A>, AllocError>
    ensures { IfOk result (λ text. text.items ≡ number_text shape.now.number) }
{
    Ok(format!(in alloc; "#{}", shape.number)?.into_bytes())
}

/// Appends a space and what an `id` stands for, if there is one.
fn push_id<A: Allocator + Copy>(
    words: &mut Vec<u8, A>,
    alloc: A,
    heap: Global,
    id: Option<&[u8]>,
) -> Result<(), AllocError>
    ensures { OnOk result
        (words.new.items ≡ words.old.items ++ id_behind (option_map (λ id. id.now) id.entry)) }
{
    if let Some(id) = id {
        let id = value_text(alloc, heap, id)?;
        words.push(b' ')?;
        words.extend_from_slice(id.as_slice())?;
    }
    Ok(())
}

/// The number of a feature, and after it what its `id` stands for.
pub fn number_and_id<A: Allocator + Copy>(
    alloc: A,
    heap: Global,
    shape: &Shape<'_, A>,
) -> Result<Vec<u8, A>, AllocError>
    ensures { IfOk result (λ text. text.items
        ≡ number_text shape.now.number ++ id_behind (option_map (λ id. id.now) shape.now.id)) }
{
    let mut words = feature_number(alloc, shape)?;
    push_id(&mut words, alloc, heap, shape.id)?;
    Ok(words)
}

/// What a feature is called: by its property `name`, or without one by its `id`; nothing without both.
pub fn feature_name<A: Allocator + Copy>(
    alloc: A,
    heap: Global,
    shape: &Shape<'_, A>,
) -> Result<Vec<u8, A>, AllocError>
    ensures { IfOk result (λ text. text.items
        ≡ feature_name_text (option_map (λ text. text.now) shape.now.properties)
        (option_map (λ id. id.now) shape.now.id)) }
{
    match shape.properties.and_then(name_of).or(shape.id) {
        Some(value) => value_text(alloc, heap, value),
        None => Ok(Vec::new(alloc)),
    }
}

/// What the `id` of a feature stands for, or that it has none.
pub fn feature_id<A: Allocator + Copy>(
    alloc: A,
    heap: Global,
    shape: &Shape<'_, A>,
) -> Result<Vec<u8, A>, AllocError>
    ensures { IfOk result (λ text. text.items
        ≡ id_text (option_map (λ id. id.now) shape.now.id)) }
{
    match shape.id {
        Some(id) => value_text(alloc, heap, id),
        None => Vec::from_slice(alloc, b"no id"),
    }
}
