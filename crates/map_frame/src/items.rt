// What a map is beside its rings: its layers, and the items of a layer, one by one.
ghost use Rattle.std.specs.Prelude.{◌≡◌, ◌∷◌, [], MatchOption, map, length, option_map, slice_get};
ghost use Rattle.std.specs.Iterator.{YieldsFirstBy, item_count};
ghost use Rattle.std.specs.Slice.Iter.{iter_rest};
ghost use Rattle.ring_machine.specs.Common.{WellFormed};
ghost use Rattle.topo_outline.specs.Common.{view_kept};
ghost use Rattle.map_frame.specs.Common.{IsFramed, Stands, items_of, shown_frame, shown_item, shown_leaves};
ghost use Rattle.map_frame.specs.Common.{shown_rest, view_item_view};

use crate::feature::Feature;
use crate::reading::live_feature;
use crate::tables::{Frame, Geometry, Slot, Tables};
use std::alloc::{Allocator, Global};
use std::marker::Model;
use std::slice;
use topo_outline::{Head, KeptMember};

/// An item of a layer, in the order of the text. A collection stands from its `Open` to the `Close`
/// that belongs to it (TopoJSON 1.0, 2.2.7).
#[derive(Drop)]
pub enum ItemView<'m, 'a, A: Allocator + Copy = Global> {
    /// A collection begins; what it has beside its geometries.
    Open(&'m Head<'a, A>),
    /// The last collection that began ends.
    Close,
    /// The number of a feature.
    Leaf(u32),
    /// The whole text of a Point or a MultiPoint.
    Kept(&'a [u8]),
}

/// The items of a layer that are still to come. It is seen as the list of these.
#[derive(Drop)]
pub struct ItemIter<'m, 'a, A: Allocator + Copy = Global> {
    features: &'m [Option<Feature<'a, A>>],
    /// The numbers that come before the slots.
    numbers: slice::Iter<'m, u32>,
    slots: slice::Iter<'m, Slot<'a, A>>,
}

impl<'m, 'a, A: Allocator + Copy> Model for ItemIter<'m, 'a, A> {
    ghost use Rattle.std.specs.Prelude.{List};
    ghost use Rattle.std.specs.Slice.Iter.{iter_rest};
    ghost use Rattle.map_frame.specs.Readers.{ShownItem};
    ghost use Rattle.map_frame.specs.Shown.{shown_rest};

    ghost Value = { List ShownItem };

    ghost view = { λ it. shown_rest it.features.now (iter_rest it.numbers) (iter_rest it.slots) };
}

impl<'m, 'a, A: Allocator + Copy> ItemIter<'m, 'a, A> {
    /// The features with these numbers, without those that were taken out, and then these slots.
    pub(crate) fn over(
        features: &'m [Option<Feature<'a, A>>],
        numbers: &'m [u32],
        slots: &'m [Slot<'a, A>],
    ) -> ItemIter<'m, 'a, A>
        ensures { result ≡ shown_rest features.now numbers.now slots.now }
    {
        ItemIter {
            features,
            numbers: numbers.iter(),
            slots: slots.iter(),
        }
    }
}

/// The next of these numbers that a feature has.
fn next_live<'a, A: Allocator + Copy>(
    numbers: &mut slice::Iter<'_, u32>,
    features: &[Option<Feature<'a, A>>],
) -> Option<u32>
    ensures { MatchOption result
        ((shown_leaves features.now (iter_rest numbers.old) ≡ []) × (iter_rest numbers.new ≡ []))
        (λ n. shown_leaves features.now (iter_rest numbers.old)
        ≡ Stands n ∷ shown_leaves features.now (iter_rest numbers.new)) }
{
    while let Some(number) = numbers.next() {
        if live_feature(features, *number).is_some() {
            return Some(*number);
        }
    }
    None
}

impl<'m, 'a, A: Allocator + Copy> Iterator for ItemIter<'m, 'a, A> {
    type Item = ItemView<'m, 'a, A>;

    ghost next_gives = { YieldsFirstBy view_item_view (λ rest. rest) };

    ghost remaining = { item_count (λ rest. rest) };

    fn next(&mut self) -> Option<ItemView<'m, 'a, A>> {
        loop {
            if let Some(number) = next_live(&mut self.numbers, self.features) {
                return Some(ItemView::Leaf(number));
            }
            match self.slots.next()? {
                Slot::Open(head) => return Some(ItemView::Open(head)),
                Slot::Close => return Some(ItemView::Close),
                Slot::Kept(text) => return Some(ItemView::Kept(*text)),
                Slot::Leaves(numbers) => self.numbers = numbers.as_slice().iter(),
            }
        }
    }
}

/// What a map is beside its rings. It is seen as its transform, its layers of items and its members.
#[derive(Drop)]
pub struct FrameView<'m, 'a, A: Allocator + Copy = Global> {
    tables: &'m Tables<'a, A>,
}

impl<'m, 'a, A: Allocator + Copy> Model for FrameView<'m, 'a, A> {
    ghost use Rattle.map_frame.specs.Kept.{IsFramed};
    ghost use Rattle.map_frame.specs.Readers.{ShownFrame, shown_frame};
    ghost use Rattle.map_frame.specs.Seen.{doc_of};

    ghost Value = { ShownFrame };

    ghost view = { λ v. shown_frame (doc_of v.tables.now) };

    ghost invariant = { λ v. IsFramed v.tables.now };
}

/// The items of a layer with this geometry.
fn items_in<'m, 'a, A: Allocator + Copy>(
    tables: &'m Tables<'a, A>,
    geometry: &'m Geometry<'a, A>,
) -> ItemIter<'m, 'a, A>
    requires { IsFramed tables.now }
    ensures { result ≡ map shown_item (items_of tables.now.features.items geometry.now) }
{
    let features = tables.features.as_slice();
    match geometry {
        Geometry::Items(slots) => ItemIter::over(features, &[], slots.as_slice()),
        Geometry::Alone(number) => {
            let empty = tables.empty.as_slice();
            if live_feature(features, *number).is_some() {
                return ItemIter::over(features, slice::from_ref(number), &empty[..0]);
            }
            ItemIter::over(features, &[], empty)
        }
    }
}

impl<'m, 'a, A: Allocator + Copy> FrameView<'m, 'a, A> {
    /// The text of the transform, and none where there is none (TopoJSON 1.0, 2.1.2).
    pub fn transform(&self) -> Option<&'a [u8]>
        ensures { option_map (λ t. t.now) result ≡ self.now.transform }
    {
        self.tables.transform
    }

    /// How many layers there are: members of `objects` (TopoJSON 1.0, 2.1.5).
    pub fn layer_count(&self) -> usize
        ensures { result ≡ length self.now.layers }
    {
        self.tables.layers.as_slice().len()
    }

    /// The name of a layer with its quotes, as it stands; the layers are counted from 0. `None` past
    /// the last layer.
    pub fn layer_name(&self, layer: usize) -> Option<&'a [u8]>
        ensures { option_map (λ t. t.now) result
            ≡ option_map (λ l. l.name) (slice_get self.now.layers layer) }
    {
        let layer = self.tables.layers.get(layer)?;
        Some(layer.name)
    }

    /// The items of a layer, in the order of the text; the layers are counted from 0. `None` past the
    /// last layer. Takes no memory.
    pub fn items(&self, layer: usize) -> Option<ItemIter<'m, 'a, A>>
        ensures { result ≡ option_map (λ l. l.items) (slice_get self.now.layers layer) }
    {
        let tables = self.tables;
        let layer = tables.layers.get(layer)?;
        Some(items_in(tables, &layer.geometry))
    }

    /// The members that are neither known nor a `bbox`, in order.
    pub fn members(&self) -> &'m [KeptMember<'a>]
        ensures { map view_kept result.now ≡ self.now.members }
    {
        self.tables.members.as_slice()
    }
}

impl<'a, A: Allocator + Copy> Frame<'a, A> {
    /// What the map is beside its rings. Its layers are well formed (TopoJSON 1.0, 2.2), and no two
    /// features have one number.
    pub fn view(&self) -> FrameView<'_, 'a, A>
        ensures shown { result ≡ shown_frame self.now.doc }
        ensures formed { WellFormed self.now.doc }
    {
        FrameView {
            tables: &self.tables,
        }
    }
}
