// What can be read of a frame: its features by their numbers, and where its rings stand.
ghost use Rattle.std.specs.Prelude.{◌≡◌, ◌≢◌, ◌≤◌, ℕ, map, length, option_map, unwrap_or, slice_get, Some, None, IfOk, IfSome};
ghost use Rattle.ring_machine.specs.Common.{feature, features, has_feature, is_layer};
ghost use Rattle.topo_outline.specs.Common.{form_of, view_kept};
ghost use Rattle.map_frame.specs.Common.{ArePlaced, live, number_at, polygon_numbers, frame_ring, shown, texts_of};

use crate::feature::{Feature, FeatureTexts};
use crate::names::RingName;
use crate::tables::{Frame, Geometry};
use std::alloc::{AllocError, Allocator, Global};
use std::marker::Model;
use topo_outline::{Form, KeptMember};

/// A feature of a map beside the positions of its rings.
#[derive(Drop)]
pub struct FeatureView<'m, 'a, A: Allocator + Copy = Global> {
    feature: &'m Feature<'a, A>,
}

impl<'m, 'a, A: Allocator + Copy> Model for FeatureView<'m, 'a, A> {
    ghost use Rattle.map_frame.specs.Readers.{Shown, shown};
    ghost use Rattle.map_frame.specs.Seen.{view_feature};

    ghost Value = { Shown };

    ghost view = { λ v. shown (view_feature 0 v.feature.now) };
}

impl<'m, 'a, A: Allocator + Copy> FeatureView<'m, 'a, A> {
    /// The text of `id`, any JSON value (TopoJSON 1.0, 2.2).
    pub fn id(&self) -> Option<&'m [u8]>
        ensures { option_map (λ t. t.now) result ≡ self.now.id }
    {
        let texts = &self.feature.texts;
        texts.id.text()
    }

    /// The kind of its geometry.
    pub fn form(&self) -> Form
        ensures { form_of result ≡ self.now.form }
    {
        let texts = &self.feature.texts;
        texts.form
    }

    /// The text of `properties`, any JSON value.
    pub fn properties(&self) -> Option<&'a [u8]>
        ensures { option_map (λ t. t.now) result ≡ self.now.properties }
    {
        let texts = &self.feature.texts;
        texts.properties
    }

    /// The members that are neither known nor a `bbox`, in order.
    pub fn members(&self) -> &'m [KeptMember<'a>]
        ensures { map view_kept result.now ≡ self.now.members }
    {
        let texts = &self.feature.texts;
        texts.members.as_slice()
    }

    /// How many polygons it has.
    pub fn polygon_count(&self) -> usize
        ensures { result ≡ length self.now.rings }
    {
        self.feature.polygons.as_slice().len()
    }

    /// How many rings a polygon has: its outer ring and its holes. None where there is no such
    /// polygon.
    pub fn ring_count(&self, polygon: usize) -> usize
        ensures { result ≡ unwrap_or (slice_get self.now.rings polygon) 0 }
    {
        match self.feature.polygons.get(polygon) {
            Some(rings) => rings.as_slice().len(),
            None => 0,
        }
    }
}

/// The feature with this number among these.
pub(crate) fn live_feature<'m, 'a, A: Allocator + Copy>(
    features: &'m [Option<Feature<'a, A>>],
    n: u32,
) -> Option<&'m Feature<'a, A>>
    ensures { option_map (λ f. f.now) result ≡ live features.now n }
{
    match features.get(n as usize) {
        Some(Some(feature)) => Some(feature),
        _ => None,
    }
}

impl<'a, A: Allocator + Copy> Frame<'a, A> {
    /// The feature with this number; `None` where no feature has it. Takes no walk and no memory.
    pub fn feature(&self, n: u32) -> Option<FeatureView<'_, 'a, A>>
        ensures { result ≡ option_map shown (feature self.now.doc n) }
    {
        let feature = live_feature(self.tables.features.as_slice(), n)?;
        Some(FeatureView { feature })
    }

    /// A copy of what feature `n` has beside its number and its rings; `None` where no feature has the
    /// number. Fails only on allocation failure.
    pub fn texts(&self, n: u32) -> Result<Option<FeatureTexts<'a, A>>, AllocError>
        ensures { IfOk result (λ texts. texts ≡ option_map texts_of (feature self.now.doc n)) }
    {
        match live_feature(self.tables.features.as_slice(), n) {
            Some(feature) => Ok(Some(feature.texts.clone()?)),
            None => Ok(None),
        }
    }

    /// The numbers of the rings of the feature with this number: by polygon that of its outer ring,
    /// then those of its holes. `None` where no feature has the number.
    pub fn polygons(&self, n: u32) -> Option<&[Vec<usize, A>]>
        ensures { option_map (λ ps. map polygon_numbers ps.now) result
            ≡ option_map (λ f. f.polygons) (feature self.now.doc n) }
    {
        let feature = live_feature(self.tables.features.as_slice(), n)?;
        Some(feature.polygons.as_slice())
    }

    /// The number of a ring: of the feature with this number the polygon, and of that the ring, where
    /// the outer ring is the first one, each counted from 0. `None` where there is no such ring.
    pub fn ring(&self, n: u32, polygon: usize, ring: usize) -> Option<usize>
        ensures { result ≡ frame_ring self.now.doc n polygon ring }
    {
        let rings = self.polygons(n)?.get(polygon)?;
        match rings.get(ring) {
            Some(number) => Some(*number),
            None => None,
        }
    }

    /// How many features there are.
    pub fn feature_count(&self) -> usize
        ensures { result ≡ length (features self.now.doc) }
    {
        self.tables.count
    }

    /// The number of the next new feature: more than that of any feature there was, and at most
    /// 200,000.
    pub fn next(&self) -> u32
        ensures next { result ≡ self.now.next }
        ensures few { result ≤ 200000 }
        ensures below { (m : ℕ) → self.now.next ≤ m → feature self.now.doc m ≡ None }
        ensures placed { ArePlaced self.now.places self.now.next self.now.doc }
    {
        self.tables.features.as_slice().len() as u32
    }

    /// Whether some feature has this number.
    pub fn has_feature(&self, n: u32) -> bool
        ensures { result ≡ has_feature self.now.doc n }
    {
        live_feature(self.tables.features.as_slice(), n).is_some()
    }

    /// Whether the feature with this number is itself the geometry of a layer (TopoJSON 1.0, 2.1.5).
    pub fn is_alone(&self, n: u32) -> bool
        ensures { result ≡ is_layer self.now.doc n }
    {
        let Some(_feature) = live_feature(self.tables.features.as_slice(), n) else {
            return false;
        };
        let Some(stand) = self.tables.stands.get(n as usize) else {
            return false;
        };
        match self.tables.layers.get(stand.layer) {
            Some(layer) => matches!(layer.geometry, Geometry::Alone(_)),
            None => false,
        }
    }

    /// Where the ring with this number stands; `None` where there is no such ring.
    pub fn name_of(&self, r: usize) -> Option<RingName>
        ensures right { IfSome result (λ name. number_at self.now.doc name ≡ Some r) }
        ensures none { result ≡ None → (name : RingName) → number_at self.now.doc name ≢ Some r }
    {
        match self.tables.names.get(r) {
            Some(Some(name)) => Some(*name),
            _ => None,
        }
    }
}
