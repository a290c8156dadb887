// The changes of a frame: another id, a feature out of its place or into it, a new number.
ghost use Rattle.std.specs.Prelude.{◌≡◌, ◌+◌, ◌<◌, ◌≤◌, ◌∷◌, ℕ, [], true, false, Vec, length, map, option_map, slice_get};
ghost use Rattle.std.specs.Prelude.{IfOk, IsTrue, None, OnErr, OnOk, Some};
ghost use Rattle.std.specs.List.{flat_map};
ghost use Rattle.edit_records.specs.Common.{exchanged, grown, with_id};
ghost use Rattle.ring_machine.specs.Common.{FeatureOf, are_distinct, feature, fits_form, has_feature, is_layer, rings};
ghost use Rattle.map_frame.specs.Common.{Feature, IsNumberOf, Layer, Slot, id_or, numbers_under};
ghost use Rattle.map_frame.specs.Common.{polygon_numbers, texts_of, with_number, with_own_id, with_slot, with_texts};
ghost use Rattle.map_frame.specs.declared.tables.Slot.TheVariants.{Leaves};
ghost use Rattle.map_frame.specs.declared.tables.Geometry.TheVariants.{Items};

use crate::feature::{Feature, FeatureTexts, Id};
use crate::names::{forget_feature, make_room, name_polygons};
use crate::tables::{Frame, Geometry, Layer, Slot};
use std::alloc::{AllocError, Allocator};
use std::slice;

/// Gives the feature this id, where one stands, and hands out the id that it had; else hands this id
/// back.
fn give_id<'a, A: Allocator + Copy>(place: &mut Option<Feature<'a, A>>, id: Id<'a, A>) -> Id<'a, A>
    ensures given { place.new ≡ with_own_id id.entry place.old }
    ensures old { result ≡ id_or id.entry place.old }
{
    match place {
        Some(feature) => feature.texts.give_id(id),
        None => id,
    }
}

/// These numbers, in which a new one stands directly after `n`. Fails only on allocation failure.
fn with_number<A: Allocator + Copy>(
    alloc: A,
    numbers: &[u32],
    n: u32,
    number: u32,
) -> Result<Vec<u32, A>, AllocError>
    ensures { IfOk result (λ longer. longer.items ≡ with_number n number numbers.now) }
{
    let mut longer = Vec::new(alloc);
    for m in numbers {
        longer.push(*m)?;
        if *m == n {
            longer.push(number)?;
        }
    }
    Ok(longer)
}

/// The numbers of the features that stand in this slot of this layer, those taken out with them.
fn numbers_in<'m, 'a, A: Allocator + Copy>(
    layers: &'m [Layer<'a, A>],
    layer: usize,
    slot: usize,
) -> &'m [u32]
    ensures { result.now ≡ numbers_under (slice_get layers.now layer) slot }
{
    let Some(layer) = layers.get(layer) else {
        return &[];
    };
    match &layer.geometry {
        Geometry::Alone(number) => slice::from_ref(number),
        Geometry::Items(slots) => match slots.get(slot) {
            Some(Slot::Leaves(numbers)) => numbers.as_slice(),
            _ => &[],
        },
    }
}

/// Puts these numbers into a slot of the layer, where it is no feature alone.
fn put_numbers<'a, A: Allocator + Copy>(layer: &mut Layer<'a, A>, slot: usize, numbers: Vec<u32, A>)
    requires { (slots : Vec (Slot _) _) → layer.old.geometry ≡ Items slots → slot < length slots.items }
    ensures { layer.new ≡ record layer.old {
      geometry = with_slot layer.old.geometry slot (Leaves numbers);
    } }
{
    if let Geometry::Items(slots) = &mut layer.geometry {
        slots[slot] = Slot::Leaves(numbers);
    }
}

impl<'a, A: Allocator + Copy> Frame<'a, A> {
    /// Makes room for the rings with these numbers, so that features of them can be put into their
    /// places without memory. Fails only on allocation failure.
    pub fn reserve_names(&mut self, rings: &[usize]) -> Result<(), AllocError>
        ensures same { self.new ≡ record self.old { room = self.new.room } }
        ensures longer { self.old.room ≤ self.new.room }
        ensures room { OnOk result ((r : ℕ) → IsNumberOf rings.now r → r < self.new.room) }
    {
        make_room(&mut self.tables.names, rings)
    }

    /// Gives feature `n` this id, or none, and hands out the one that it had. A number that no feature
    /// has changes nothing, and then this id is handed back.
    pub fn rename(&mut self, n: u32, id: Id<'a, A>) -> Id<'a, A>
        ensures renamed { self.new ≡ record self.old { doc = with_id self.old.doc n id.entry } }
        ensures old { (f : FeatureOf ℕ) → feature self.old.doc n ≡ Some f → result ≡ f.id }
        ensures none { feature self.old.doc n ≡ None → result ≡ id.entry }
    {
        let at = n as usize;
        if at < self.tables.features.len() {
            give_id(&mut self.tables.features[at], id)
        } else {
            id
        }
    }

    /// Takes feature `n` out: nothing stands in its place, or an empty collection where it is the
    /// geometry of a layer (TopoJSON 1.0, 2.2.7). Hands out what it had beside its number and its
    /// rings; a number that no feature has changes nothing. Takes no memory.
    pub fn take_out(&mut self, n: u32) -> Option<FeatureTexts<'a, A>>
        requires once { IsTrue (are_distinct (rings self.old.doc)) }
        ensures taken { self.new ≡ record self.old {
          doc = exchanged self.old.places ((n, None) ∷ []) self.old.doc;
        } }
        ensures texts { result ≡ option_map texts_of (feature self.old.doc n) }
    {
        let at = n as usize;
        if at >= self.tables.features.len() {
            return None;
        }
        let feature = self.tables.features[at].take()?;
        forget_feature(&mut self.tables.names, feature.polygons.as_slice());
        self.tables.count -= 1;
        Some(feature.texts)
    }

    /// Puts a feature with this number into its place, where none stands: with these texts, and with
    /// these polygons, each by the number of its outer ring and those of its holes. Takes no memory.
    pub fn put(&mut self, n: u32, texts: FeatureTexts<'a, A>, polygons: Vec<Vec<usize, A>, A>)
        requires below { n < self.old.next }
        requires free { feature self.old.doc n ≡ None }
        requires fits { fits_form (with_texts n texts (map polygon_numbers polygons.items)) ≡ true }
        requires room { (r : ℕ) → IsNumberOf (flat_map polygon_numbers polygons.items) r → r < self.old.room }
        ensures { self.new ≡ record self.old {
          doc = exchanged self.old.places
              ((n, Some (with_texts n texts.entry (map polygon_numbers polygons.items))) ∷ []) self.old.doc;
        } }
    {
        name_polygons(&mut self.tables.names, n, polygons.as_slice());
        self.tables.features[n as usize] = Some(Feature { texts, polygons });
        self.tables.count += 1;
    }

    /// The number of the next new feature, which has its place directly after feature `n` from now on;
    /// no feature has it yet. Fails only on allocation failure, and then changes nothing.
    pub fn grow(&mut self, n: u32) -> Result<u32, AllocError>
        requires there { has_feature self.old.doc n ≡ true }
        requires inside { is_layer self.old.doc n ≡ false }
        requires few { self.old.next < 200000 }
        ensures number { IfOk result (λ m. m ≡ self.old.next) }
        ensures ok { OnOk result (self.new ≡ record self.old {
          next = self.old.next + 1;
          places = grown n self.old.next self.old.places;
        }) }
        ensures err { OnErr result (self.new ≡ self.old) }
    {
        let number = self.tables.features.len() as u32;
        let stand = self.tables.stands[n as usize];
        let standing = numbers_in(self.tables.layers.as_slice(), stand.layer, stand.slot);
        let numbers = with_number(self.tables.alloc, standing, n, number)?;
        self.tables.features.reserve(1)?;
        self.tables.stands.push(stand)?;
        self.tables.features.push_reserved(None);
        put_numbers(&mut self.tables.layers[stand.layer], stand.slot, numbers);
        Ok(number)
    }
}
