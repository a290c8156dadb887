// The features of the layers, in the order of the text.
ghost use Rattle.std.specs.Prelude.{◌≡◌, ◌++◌, map, OnOk, IfOk, option_map};
ghost use Rattle.topo_outline.specs.Layers.{leaf_of, leaves, leaves_in, at_most_one};
ghost use Rattle.topo_outline.specs.Views.{view_item, view_layer, view_place};

use crate::document::{Form, Item, RawLayer};
use json_spans::Span;
use std::alloc::{AllocFailed, Allocator};

/// A feature's form, and where its arcs stand.
#[derive(Clone, Copy, Debug)]
pub struct Place<'a> {
    pub form: Form,
    /// The value of `arcs`, or the whole object where its `type` is `null`.
    pub arcs: Span<'a>,
}

fn place_of<'a, A: Allocator + Copy>(item: &Item<'a, A>) -> Option<Place<'a>>
    ensures { option_map view_place result ≡ leaf_of (view_item item.now) }
{
    match item {
        Item::Leaf(feature) => Some(Place {
            form: feature.form,
            arcs: feature.arcs,
        }),
        _ => None,
    }
}

fn push_place<'a, A: Allocator + Copy>(
    out: &mut Vec<Place<'a>, A>,
    place: Option<Place<'a>>,
) -> Result<(), AllocFailed<Place<'a>>>
    ensures { OnOk result (map view_place out.new.items
        ≡ map view_place out.old.items ++ at_most_one (option_map view_place place.entry)) }
{
    match place {
        Some(place) => out.push(place),
        None => Ok(()),
    }
}

fn push_places<'a, A: Allocator + Copy>(
    out: &mut Vec<Place<'a>, A>,
    items: &[Item<'a, A>],
) -> Result<(), AllocFailed<Place<'a>>>
    ensures { OnOk result (map view_place out.new.items
        ≡ map view_place out.old.items ++ leaves_in (map view_item items.now)) }
{
    for item in items {
        push_place(out, place_of(item))?;
    }
    Ok(())
}

/// The features of all layers in the order of the text.
pub(crate) fn places<'a, A: Allocator + Copy>(
    alloc: A,
    layers: &[RawLayer<'a, A>],
) -> Result<Vec<Place<'a>, A>, AllocFailed<Place<'a>>>
    ensures { IfOk result (λ v. map view_place v.items ≡ leaves (map view_layer layers.now)) }
{
    let mut found = Vec::new(alloc);
    for layer in layers {
        push_places(&mut found, layer.items.as_slice())?;
    }
    Ok(found)
}
