// The outline of a topology: what stands in it, before its positions are read.
use crate::pieces::{put_bytes, put_scan_fault};
use json_spans::{Span, at, bytes, scan};
use std::alloc::{AllocError, Global};
use test_aids::fixed_seed;
use topo_outline::{
    Form, Head, Item, KeptMember, Outline, Place, RawFeature, RawLayer, read_outline,
};

fn put_part(out: &mut String, name: &str, part: Option<&[u8]>) -> Result<(), AllocError> {
    match part {
        Some(bytes) => {
            out.push_str(name)?;
            put_bytes(out, bytes)
        }
        None => Ok(()),
    }
}

fn put_kept(out: &mut String, members: &[KeptMember<'_>]) -> Result<(), AllocError> {
    for member in members {
        put_part(out, " ", Some(member.name))?;
        put_part(out, "=", Some(member.value))?;
    }
    Ok(())
}

fn put_head(out: &mut String, head: &Head<'_>) -> Result<(), AllocError> {
    put_part(out, " id=", head.id)?;
    put_part(out, " properties=", head.properties)?;
    put_kept(out, head.members.as_slice())
}

fn form_name(form: Form) -> &'static str {
    match form {
        Form::Polygon => "polygon",
        Form::MultiPolygon => "polygons",
        Form::Null => "null",
    }
}

fn put_feature(out: &mut String, feature: &RawFeature<'_>) -> Result<(), AllocError> {
    out.push_str(form_name(feature.form))?;
    put_head(out, &feature.head)?;
    put_part(out, " arcs=", Some(bytes(feature.arcs)))
}

fn put_item(out: &mut String, item: &Item<'_>) -> Result<(), AllocError> {
    match item {
        Item::Open(head) => {
            out.push_str("(")?;
            put_head(out, head)
        }
        Item::Close => out.push_str(")"),
        Item::Leaf(feature) => put_feature(out, feature),
        Item::Kept(text) => put_bytes(out, *text),
    }
}

fn put_layer(out: &mut String, layer: &RawLayer<'_>) -> Result<(), AllocError> {
    put_part(out, " | layer ", Some(layer.name))?;
    for item in layer.items.as_slice() {
        out.push_str(" | ")?;
        put_item(out, item)?;
    }
    Ok(())
}

fn put_layers(out: &mut String, layers: &[RawLayer<'_>]) -> Result<(), AllocError> {
    for layer in layers {
        put_layer(out, layer)?;
    }
    Ok(())
}

/// Appends where the arcs of each feature stand.
fn put_places(out: &mut String, places: &[Place<'_>]) -> Result<(), AllocError> {
    out.push_str(" | features")?;
    for place in places {
        write!(out, " {} {}", form_name(place.form), at(place.arcs))?;
    }
    Ok(())
}

fn put_outline(out: &mut String, outline: &Outline<'_>) -> Result<(), AllocError> {
    out.push_str("transform ")?;
    put_bytes(out, outline.transform.unwrap_or(b"none"))?;
    put_layers(out, outline.layers.values().as_slice())?;
    put_places(out, outline.places.as_slice())?;
    put_part(out, " | arcs ", Some(bytes(outline.arcs)))?;
    out.push_str(" | members")?;
    put_kept(out, outline.members.as_slice())
}

/// Appends the outline of a topology, or its first fault.
fn put_topology(out: &mut String, alloc: Global, root: Span<'_>) -> Result<(), AllocError> {
    let seed = fixed_seed().ok_or(AllocError)?;
    match read_outline(alloc, alloc, seed, root) {
        Ok(outline) => put_outline(out, &outline),
        Err(fault) => write!(out, "{fault}"),
    }
}

/// Appends the outline of a text, or its first fault.
pub(crate) fn put_outlined(out: &mut String, alloc: Global, text: &[u8]) -> Result<(), AllocError> {
    match scan(alloc, text) {
        Ok(root) => put_topology(out, alloc, root.span()),
        Err(fault) => put_scan_fault(out, &fault),
    }
}
