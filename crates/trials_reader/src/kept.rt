//! What is kept of a map beside its rings.
use crate::maps::map_of;
use crate::told::holds;
use std::alloc::Global;
use test_aids::fixed_seed;
use topo_reader::{RawDoc, read};

/// Whether the transform, a member and a layer of two features were kept.
fn is_kept(raw: &RawDoc<'_>) -> bool {
    raw.transform == Some(br#"{"scale":[0.50,1e-3],"translate":[-1.25,50.0]}"#.as_slice())
        && raw.members.len() == 1
        && raw.layers.len() == 1
        && raw.polygons.len() == 2
}

/// Whether the map opens, and these are kept.
fn opens_with_kept(alloc: Global, map: &[u8]) -> bool {
    match fixed_seed().map(|seed| read(alloc, alloc, seed, map)) {
        Some(Ok(raw)) => is_kept(&raw),
        _ => false,
    }
}

#[test]
fn a_transform_a_member_and_a_layer(rt: HostRuntime) {
    let is_so = opens_with_kept(rt.alloc(), map_of("deltas"));
    holds(&rt, "kept", is_so);
}
