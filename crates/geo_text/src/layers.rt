// The layer that is asked for.
ghost use Rattle.std.specs.Prelude.{◌≡◌, ◌≤◌, ◌++◌, [], ◌∷◌, if◌then◌else◌, is_some, map, length, option_map, IfOk, OnOk};
ghost use Rattle.topo_outline.specs.Common.{leaf_of, leaves_in, view_head, view_item, view_layer};
ghost use Rattle.geo_features.specs.Gives.{Gives};
ghost use Rattle.geo_text.specs.Layer.{is_asked, the_only};
ghost use Rattle.geo_text.specs.Found.{asked_texts, head_of_pieces, inside_pieces, is_text, points_of, view_found};

use crate::found::Found;
use geo_features::{ExportFault, is_one_of};
use std::alloc::{AllocError, Allocator, Global};
use topo_outline::{Head, Item, RawLayer};

/// Whether an item is a feature with rings or none.
fn is_leaf<A: Allocator + Copy>(item: &Item<'_, A>) -> bool
    ensures { result ≡ is_some (leaf_of (view_item item.now)) }
{
    matches!(item, Item::Leaf(_))
}

/// Whether an item is a point, or several.
fn is_kept<A: Allocator + Copy>(item: &Item<'_, A>) -> bool
    ensures { result ≡ is_text (view_item item.now) }
{
    matches!(item, Item::Kept(_))
}

/// How many features with rings or none stand in items.
fn leaf_count<A: Allocator + Copy>(items: &[Item<'_, A>]) -> usize
    ensures value { result ≡ length (leaves_in (map view_item items.now)) }
    ensures bound { result ≤ length items.now }
{
    let mut count = 0;
    for item in items {
        if is_leaf(item) {
            count += 1;
        }
    }
    count
}

/// How many points stand in items.
#[tactic(auto, using(crate::proofs::Counted::points_more))]
fn point_count<A: Allocator + Copy>(items: &[Item<'_, A>]) -> usize
    ensures value { result ≡ points_of (map view_item items.now) }
    ensures bound { result ≤ length items.now }
{
    let mut count = 0;
    for item in items {
        if is_kept(item) {
            count += 1;
        }
    }
    count
}

/// Whether a layer is asked for.
fn is_asked<A: Allocator + Copy>(
    heap: Global,
    name: Option<&str>,
    layer: &RawLayer<'_, A>,
) -> Result<bool, AllocError>
    ensures { IfOk result (λ is. is
        ≡ is_asked (option_map (λ t. t.now) name.entry) layer.now.name.now) }
{
    match name {
        Some(name) => is_one_of(heap, &[name], layer.name),
        None => Ok(true),
    }
}

/// Puts a layer to those that are asked for, if it is.
fn push_if<'r, 'a, A: Allocator + Copy>(
    found: &mut Vec<Found<'r, 'a, A>, A>,
    is_asked: bool,
    one: Found<'r, 'a, A>,
) -> Result<(), AllocError>
    ensures { OnOk result (map view_found found.new.items
        ≡ map view_found found.old.items ++ (if is_asked then (view_found one.entry ∷ []) else [])) }
{
    if is_asked {
        found.push(one)?;
    }
    Ok(())
}

/// The layers that are asked for, in their order.
fn asked_layers<'r, 'a, A: Allocator + Copy>(
    alloc: A,
    heap: Global,
    name: Option<&str>,
    layers: &'r [RawLayer<'a, A>],
) -> Result<Vec<Found<'r, 'a, A>, A>, AllocError>
    ensures { IfOk result (λ v. map view_found v.items
        ≡ asked_texts (option_map (λ t. t.now) name.entry) 0 0 (map view_layer layers.now)) }
{
    let mut found = Vec::new(alloc);
    let mut leaves = 0u128;
    let mut points = 0u128;
    for layer in layers {
        let is_asked = is_asked(heap, name, layer)?;
        let one = Found {
            layer,
            leaves,
            points,
        };
        push_if(&mut found, is_asked, one)?;
        leaves += leaf_count(layer.items.as_slice()) as u128;
        points += point_count(layer.items.as_slice()) as u128;
    }
    Ok(found)
}

/// The one layer that is asked for: by its name, or the only one.
pub(crate) fn asked_layer<'r, 'a, A: Allocator + Copy>(
    alloc: A,
    heap: Global,
    name: Option<&str>,
    layers: &'r [RawLayer<'a, A>],
) -> Result<Found<'r, 'a, A>, ExportFault<'a>>
    ensures { Gives view_found result
        (the_only (asked_texts (option_map (λ t. t.now) name.entry) 0 0 (map view_layer layers.now))) }
{
    let mut found = asked_layers(alloc, heap, name, layers)?;
    let Some(one) = found.pop() else {
        return Err(ExportFault::NoLayer);
    };
    if !found.is_empty() {
        return Err(ExportFault::SeveralLayers);
    }
    Ok(one)
}

/// What a collection has beside its geometries, where it begins with this item.
fn head_in<'r, 'a, A: Allocator + Copy>(item: &'r Item<'a, A>) -> Option<&'r Head<'a, A>>
    ensures { option_map (λ h. view_head h.now) result ≡ head_of_pieces (view_item item.now ∷ []) }
{
    match item {
        Item::Open(head) => Some(head),
        _ => None,
    }
}

/// What the layer's collection has beside its geometries, if it is one.
pub(crate) fn head_of<'r, 'a, A: Allocator + Copy>(
    layer: &'r RawLayer<'a, A>,
) -> Option<&'r Head<'a, A>>
    ensures { option_map (λ h. view_head h.now) result
        ≡ head_of_pieces (map view_item layer.now.items.items) }
{
    match layer.items.as_slice() {
        [first, ..] => head_in(first),
        [] => None,
    }
}

/// The geometries of a layer that is a collection; a layer that is one geometry has that one.
pub(crate) fn inside<'r, 'a, A: Allocator + Copy>(layer: &'r RawLayer<'a, A>) -> &'r [Item<'a, A>]
    ensures { map view_item result.now ≡ inside_pieces (map view_item layer.now.items.items) }
{
    let items = layer.items.as_slice();
    let [first, others @ ..] = items else {
        return items;
    };
    if head_in(first).is_none() {
        return items;
    }
    &others[..others.len().saturating_sub(1)]
}
