//! The tables of a map: its arcs, its rings, and the arcs of each vertex.
use crate::arc::{Arc, Ring, Stand};
use slab::Slab;
use std::alloc::{Allocator, Global};

/// The arcs, the rings by their uses, and for each vertex the arcs that it stands in.
#[derive(Drop)]
pub struct Tables<A: Allocator + Copy = Global> {
    /// Where the memory of all of them comes from.
    pub alloc: A,
    /// Where the memory of long lists of numbers comes from.
    pub heap: Global,
    /// The arcs by their numbers.
    pub arcs: Slab<Arc<A>, A>,
    /// The rings by their numbers.
    pub rings: Slab<Ring<A>, A>,
    /// The arcs of each vertex, by the index of its key.
    pub stands: Vec<Stand, A>,
    /// Whether new arcs end at a vertex, by the index of its key; at those behind the last they do not.
    pub ends: Vec<bool, A>,
}
