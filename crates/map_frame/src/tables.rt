// The tables of a frame, and the frame as its callers see it.
use crate::feature::{Feature, Stand};
use crate::names::RingName;
use std::alloc::{Allocator, Global};
use std::marker::Model;
use topo_outline::{Head, KeptMember};

/// An item of a layer, in the order of the text. A collection stands from its `Open` to the `Close`
/// that belongs to it (TopoJSON 1.0, 2.2.7).
#[derive(Drop)]
pub(crate) enum Slot<'a, A: Allocator + Copy = Global> {
    Open(Head<'a, A>),
    Close,
    /// The whole text of a Point or a MultiPoint.
    Kept(&'a [u8]),
    /// The numbers of the features that stand where one was opened, in order: this one, those that
    /// were split from it, and those of both that were taken out.
    Leaves(Vec<u32, A>),
}

/// The geometry object of a layer (TopoJSON 1.0, 2.1.5).
#[derive(Drop)]
pub(crate) enum Geometry<'a, A: Allocator + Copy = Global> {
    /// The feature with this number, and an empty collection once it was taken out.
    Alone(u32),
    /// A collection with all that is in it, or a kept text.
    Items(Vec<Slot<'a, A>, A>),
}

/// A member of `objects`: a geometry and its name's token (TopoJSON 1.0, 2.1.5).
#[derive(Drop)]
pub(crate) struct Layer<'a, A: Allocator + Copy = Global> {
    /// The name with its quotes, as it stands.
    pub(crate) name: &'a [u8],
    pub(crate) geometry: Geometry<'a, A>,
}

/// A topology in which each ring stands by its number.
#[derive(Drop)]
pub(crate) struct Tables<'a, A: Allocator + Copy = Global> {
    pub(crate) alloc: A,
    /// The text of the transform, and none where it is missing or `null` (TopoJSON 1.0, 2.1.2).
    pub(crate) transform: Option<&'a [u8]>,
    /// The members of `objects`, in order (TopoJSON 1.0, 2.1.5).
    pub(crate) layers: Vec<Layer<'a, A>, A>,
    /// The members that are neither known nor a `bbox`, in order.
    pub(crate) members: Vec<KeptMember<'a>, A>,
    /// The features by their numbers, `None` where one was taken out.
    pub(crate) features: Vec<Option<Feature<'a, A>>, A>,
    /// Where the feature with a number stands, also where it was taken out.
    pub(crate) stands: Vec<Stand, A>,
    /// How many features there are.
    pub(crate) count: usize,
    /// By a ring's number where it stands; `None` where there is no such ring.
    pub(crate) names: Vec<Option<RingName>, A>,
    /// The items of a collection with no geometries.
    pub(crate) empty: Vec<Slot<'a, A>, A>,
}

/// A topology in which each ring stands by its number. It is seen as its document of ring numbers
/// and the number of the next new feature.
#[derive(Drop)]
pub struct Frame<'a, A: Allocator + Copy = Global> {
    pub(crate) tables: Tables<'a, A>,
}

impl<'a, A: Allocator + Copy> Model for Frame<'a, A> {
    ghost use Rattle.map_frame.specs.Framed.{Framed};
    ghost use Rattle.map_frame.specs.Seen.{framed};
    ghost use Rattle.map_frame.specs.Kept.{IsFramed};

    ghost Value = { Framed };

    ghost view = { λ f. framed f.tables };

    ghost invariant = { λ f. IsFramed f.tables };
}
