// What is kept of a document, as slices of its text.
use indexmap::IndexMap;
use json_spans::Span;
use std::alloc::{Allocator, Global};
use std::hash::RandomState;

/// The kind of a feature's geometry (TopoJSON 1.0, 2.2).
#[derive(Clone, Copy, Debug, PartialEq, Eq)]
pub enum Form {
    Polygon,
    MultiPolygon,
    /// An object whose `type` is `null`.
    Null,
}

/// A member that the editor does not know: its name's token and its value's text, byte for byte.
#[derive(Clone, Copy, Debug, PartialEq, Eq)]
pub struct KeptMember<'a> {
    /// The name with its quotes, as it stands.
    pub name: &'a [u8],
    pub value: &'a [u8],
}

/// What a collection and a feature have beside their geometry (TopoJSON 1.0, 2.2).
#[derive(Drop)]
#[derive_where(Debug)]
pub struct Head<'a, A: Allocator + Copy = Global> {
    /// The text of `id`, any JSON value.
    pub id: Option<&'a [u8]>,
    /// The text of `properties`, any JSON value.
    pub properties: Option<&'a [u8]>,
    /// The members that are neither known nor a `bbox`, in order.
    pub members: Vec<KeptMember<'a>, A>,
}

/// A feature, before its rings are read.
#[derive(Drop)]
#[derive_where(Debug)]
pub struct RawFeature<'a, A: Allocator + Copy = Global> {
    pub form: Form,
    pub head: Head<'a, A>,
    /// The value of `arcs`, or the whole object where its `type` is `null`.
    pub arcs: Span<'a>,
}

/// An item of a layer, in the order of the text. A collection stands from its `Open` to the `Close`
/// that belongs to it (TopoJSON 1.0, 2.2.7).
#[derive(Drop)]
#[derive_where(Debug)]
pub enum Item<'a, A: Allocator + Copy = Global> {
    Open(Head<'a, A>),
    Close,
    Leaf(RawFeature<'a, A>),
    /// The whole text of a point or of several points.
    Kept(&'a [u8]),
}

/// A member of `objects`: a geometry and its name's token (TopoJSON 1.0, 2.1.5).
#[derive(Drop)]
#[derive_where(Debug)]
pub struct RawLayer<'a, A: Allocator + Copy = Global> {
    /// The name with its quotes, as it stands.
    pub name: &'a [u8],
    pub items: Vec<Item<'a, A>, A>,
}

/// The members of `objects` in order, each under the text that its name stands for: `"a"` and
/// `"\u0061"` are one name. The hash has a random seed, since names of one hash could be chosen by
/// whoever writes the text.
pub type Layers<'a, A = Global> = IndexMap<String, RawLayer<'a, A>, RandomState, A>;
