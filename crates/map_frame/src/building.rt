// A frame of what was read.
ghost use Rattle.std.specs.Prelude.{◌≡◌, ◌<◌, List, Option, [], ◌∷◌, length, map, option_map, IfOk};
ghost use Rattle.std.specs.List.{flat_map};
ghost use Rattle.std.specs.Vec.Iter.{into_iter_items};
ghost use Rattle.topo_outline.specs.Outline.{leaves_in, leaves};
ghost use Rattle.topo_outline.specs.Common.{values, view_item, view_kept, view_layer};
ghost use Rattle.ring_machine.specs.Common.{empty_collection};
ghost use Rattle.map_frame.specs.Common.{AreLayers, AreSlots, CanStand, CanTake, Feature, IsNext, IsSlot};
ghost use Rattle.map_frame.specs.Common.{items_at, lone, of_slots, opened, progress};

use crate::feature::{Feature, FeatureTexts, Stand};
use crate::names::name_all;
use crate::tables::{Frame, Geometry, Layer, Slot, Tables};
use std::alloc::{AllocError, Allocator, Global};
use std::vec::IntoIter;
use topo_outline::{Head, Item, KeptMember, Layers, RawFeature};

/// The features that were read so far, where they stand, and the polygons of those to come.
#[derive(Drop)]
struct Gathered<'a, A: Allocator + Copy = Global> {
    alloc: A,
    features: Vec<Option<Feature<'a, A>>, A>,
    stands: Vec<Stand, A>,
    waiting: IntoIter<Vec<Vec<usize, A>, A>, A>,
}

/// Appends the next feature, which stands in this slot of this layer, with the polygons that wait
/// first, and returns its number.
fn push_feature<'a, A: Allocator + Copy>(
    raw: RawFeature<'a, A>,
    layer: usize,
    slot: usize,
    gathered: &mut Gathered<'a, A>,
) -> Result<u32, AllocError>
    requires few { length gathered.old.features.items < 200000 }
    requires there { 0 < length (into_iter_items gathered.old.waiting) }
    requires alike { length gathered.old.stands.items ≡ length gathered.old.features.items }
    ensures number { IfOk result (λ number. number ≡ length gathered.old.features.items) }
    ensures next { IfOk result (λ number. IsNext raw.entry layer slot (progress gathered.old) (progress gathered.new)) }
{
    let number = gathered.features.len() as u32;
    let Some(polygons) = gathered.waiting.next() else {
        unreachable!();
    };
    let texts = FeatureTexts::read(raw.form, raw.head);
    gathered.features.push(Some(Feature { texts, polygons }))?;
    gathered.stands.push(Stand { layer, slot })?;
    Ok(number)
}

/// The slot of an item, with this number in this layer.
fn build_slot<'a, A: Allocator + Copy>(
    item: Item<'a, A>,
    layer: usize,
    slot: usize,
    gathered: &mut Gathered<'a, A>,
) -> Result<Slot<'a, A>, AllocError>
    requires { CanTake (length (leaves_in (view_item item ∷ []))) (progress gathered.old) }
    ensures { IfOk result (λ s. IsSlot layer slot item.entry s (progress gathered.old) (progress gathered.new)) }
{
    match item {
        Item::Open(head) => Ok(Slot::Open(head)),
        Item::Close => Ok(Slot::Close),
        Item::Kept(text) => Ok(Slot::Kept(text)),
        Item::Leaf(raw) => {
            let number = push_feature(raw, layer, slot, gathered)?;
            let mut numbers = Vec::new(gathered.alloc);
            numbers.push(number)?;
            Ok(Slot::Leaves(numbers))
        }
    }
}

/// The slots of the layer with this number, which has these items.
fn build_slots<'a, A: Allocator + Copy>(
    items: Vec<Item<'a, A>, A>,
    layer: usize,
    gathered: &mut Gathered<'a, A>,
) -> Result<Vec<Slot<'a, A>, A>, AllocError>
    requires { CanTake (length (leaves_in (map view_item items.items))) (progress gathered.old) }
    ensures { IfOk result (λ slots. AreSlots layer 0 items.entry.items slots.items
        (progress gathered.old) (progress gathered.new)) }
{
    let mut slots = Vec::new(gathered.alloc);
    for item in items {
        let slot = build_slot(item, layer, slots.len(), gathered)?;
        slots.push(slot)?;
    }
    Ok(slots)
}

/// The number of a feature that stands alone in a layer with these slots.
fn lone_number<'a, A: Allocator + Copy>(slots: &[Slot<'a, A>]) -> Option<u32>
    ensures { result ≡ lone slots.now }
{
    match slots {
        [slot] => match slot {
            Slot::Leaves(numbers) => numbers.first().copied(),
            _ => None,
        },
        _ => None,
    }
}

/// The geometry of a layer with these slots: a feature that stands alone, or all of them.
fn geometry_of<'a, A: Allocator + Copy>(slots: Vec<Slot<'a, A>, A>) -> Geometry<'a, A>
    ensures { result ≡ of_slots slots.entry }
{
    match lone_number(slots.as_slice()) {
        Some(number) => Geometry::Alone(number),
        None => Geometry::Items(slots),
    }
}

/// The layers that were read, with the features numbered in the order of the text. Fails only on
/// allocation failure.
fn build_layers<'a, A: Allocator + Copy>(
    raws: Layers<'a, A>,
    gathered: &mut Gathered<'a, A>,
) -> Result<Vec<Layer<'a, A>, A>, AllocError>
    requires { CanTake (length (leaves (map view_layer (values raws)))) (progress gathered.old) }
    ensures { IfOk result (λ layers. AreLayers 0 (values raws.entry) layers.items
        (progress gathered.old) (progress gathered.new)) }
{
    let mut layers = Vec::new(gathered.alloc);
    for raw in raws.into_values() {
        let slots = build_slots(raw.items, layers.len(), gathered)?;
        layers.push(Layer {
            name: raw.name,
            geometry: geometry_of(slots),
        })?;
    }
    Ok(layers)
}

/// The items of a collection with no geometries (TopoJSON 1.0, 2.2.7).
fn empty_items<'a, A: Allocator + Copy>(alloc: A) -> Result<Vec<Slot<'a, A>, A>, AllocError>
    ensures { IfOk result (λ slots. (features : List (Option (Feature A)))
        → flat_map (items_at features) slots.items ≡ empty_collection) }
{
    let mut items = Vec::new(alloc);
    items.push(Slot::Open(Head {
        id: None,
        properties: None,
        members: Vec::new(alloc),
    }))?;
    items.push(Slot::Close)?;
    Ok(items)
}

impl<'a, A: Allocator + Copy> Frame<'a, A> {
    /// The frame of what was read, where each feature has its polygons, each by the numbers of its
    /// rings: features are numbered from 0 in the order of the text. Fails only on allocation failure.
    pub fn build(
        alloc: A,
        transform: Option<&'a [u8]>,
        layers: Layers<'a, A>,
        members: Vec<KeptMember<'a>, A>,
        polygons: Vec<Vec<Vec<usize, A>, A>, A>,
    ) -> Result<Frame<'a, A>, AllocError>
        requires stands { CanStand (option_map (λ t. t.now) transform) (values layers)
            (map view_kept members.items) polygons.items }
        ensures doc { IfOk result (λ frame. frame.doc ≡ opened (option_map (λ t. t.now) transform.entry)
            (values layers.entry) (map view_kept members.entry.items) polygons.items) }
        ensures next { IfOk result (λ frame. frame.next ≡ length polygons.items) }
    {
        let names = name_all(alloc, polygons.as_slice())?;
        let mut gathered = Gathered {
            alloc,
            features: Vec::new(alloc),
            stands: Vec::new(alloc),
            waiting: polygons.into_iter(),
        };
        let layers = build_layers(layers, &mut gathered)?;
        let empty = empty_items(alloc)?;
        Ok(Frame {
            tables: Tables {
                alloc,
                transform,
                layers,
                members,
                count: gathered.features.len(),
                features: gathered.features,
                stands: gathered.stands,
                names,
                empty,
            },
        })
    }
}
