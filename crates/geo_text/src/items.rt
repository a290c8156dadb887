// The items of a layer, sent to a device one after another.
ghost use Rattle.std.specs.Prelude.{◌≡◌, ◌<◌, ◌+◌, ◌^◌, ℕ, List, [], ◌∷◌, false, length, map, IsTrue, OnOk};
ghost use Rattle.ring_machine.specs.Common.{Close, Kept, Open};
ghost use Rattle.topo_outline.specs.Common.{at_most_one, items_from, leaf_of, polygons_at, view_head, view_item, view_kept};
ghost use Rattle.topo_outline.specs.declared.document.Item.TheVariants as code_item;
ghost use Rattle.topo_reader.specs.Common.{feature_positions, polygon_positions};
ghost use Rattle.geo_text.specs.Exported.{SendsGiven};
ghost use Rattle.geo_features.specs.Gives.{Appends};
ghost use Rattle.geo_text.specs.Items.{after_item, after_items, after_text, before_text, close_text, item_text};
ghost use Rattle.geo_text.specs.Items.{items_text, items_texts, open_text};
ghost use Rattle.geo_features.specs.Pointed.{IsPoint};
ghost use Rattle.geo_text.specs.Seen.{HasRoom, view_progress};
ghost use Rattle.geo_features.specs.Seen.{view_style};
ghost use Rattle.geo_features.specs.Small.{all_small, each_small};

use crate::lines::{push_line_begin, push_list_end};
use crate::progress::Progress;
use device_io::{Sink, put_all};
use geo_features::{
    ExportFault, NOT_OF_FEATURE, Point, Style, is_bare, is_null, not_of_form,
    push_collection_begin, push_collection_end, push_comma, push_feature_begin, push_own,
    push_point, push_shape,
};
use grid_geometry::Pos;
use std::alloc::{Allocator, Global};
use topo_outline::{Head, Item, KeptMember, RawFeature};

/// What the items of a layer are written with.
#[derive(Drop)]
pub(crate) struct Writer<'r, A: Allocator + Copy> {
    pub(crate) heap: Global,
    pub(crate) style: Style,
    /// Whether collections are taken apart, so that each geometry in them is a Feature.
    pub(crate) flattens: bool,
    /// The polygons of all features of the map.
    pub(crate) polygons: &'r [Vec<Vec<Vec<Pos, A>, A>, A>],
    ghost small: { IsTrue (each_small polygons.now) },
}

impl<'r, A: Allocator + Copy> Writer<'r, A> {
    /// Appends what stands before a geometry: the begin of its Feature, or within a collection a comma. There nothing of
    /// its own may stand beside it.
    fn push_before<'a>(
        &self,
        text: &mut Vec<u8, A>,
        at: &Progress<'_, 'a, A>,
        head: &Head<'a, A>,
        is_null: bool,
    ) -> Result<(), ExportFault<'a>>
        ensures { Appends text.old.items text.new.items result
            (before_text (view_progress at.now) (view_head head.now) is_null) }
    {
        if at.is_outside() {
            push_line_begin(text, at.feature)?;
            push_feature_begin(text, head)?;
            return Ok(());
        }
        let is_bare = is_bare(self.heap, head)?;
        if is_null || !is_bare {
            return Err(ExportFault::Nested {
                feature: at.feature,
            });
        }
        push_comma(text, at.more)?;
        Ok(())
    }

    /// Appends what stands after a geometry: the end of its Feature.
    fn push_after<'a>(
        &self,
        text: &mut Vec<u8, A>,
        at: &Progress<'_, 'a, A>,
        words: &[&str],
        members: &[KeptMember<'a>],
    ) -> Result<(), ExportFault<'a>>
        ensures { Appends text.old.items text.new.items result
            (after_text (view_progress at.now).heads (map (λ word. word.now) words.now) (map view_kept members.now)) }
    {
        if at.is_outside() {
            push_own(text, self.heap, words, members)
        } else {
            Ok(())
        }
    }

    /// The polygons of the feature of the map with this number.
    fn polygons_of(&self, leaf: u128) -> &'r [Vec<Vec<Pos, A>, A>]
        ensures value { map polygon_positions result.now
            ≡ polygons_at (map feature_positions self.now.polygons.now) leaf }
        ensures small { IsTrue (all_small result.now) }
    {
        let Ok(place) = usize::try_from(leaf) else {
            return &[];
        };
        match self.polygons.get(place) {
            Some(polygons) => polygons.as_slice(),
            None => &[],
        }
    }

    /// Appends a feature.
    fn push_leaf<'a>(
        &self,
        text: &mut Vec<u8, A>,
        at: &Progress<'_, 'a, A>,
        feature: &RawFeature<'a, A>,
    ) -> Result<(), ExportFault<'a>>
        ensures { Appends text.old.items text.new.items result (items_texts self.now.flattens
            (view_style self.now.style) (view_progress at.now)
            (items_from at.now.leaf (map feature_positions self.now.polygons.now)
            (view_item (code_item.Leaf feature.now) ∷ []))) }
    {
        let head = &feature.head;
        let polygons = self.polygons_of(at.leaf);
        or_return!(self.push_before(text, at, head, is_null(feature.form)));
        or_return!(push_shape(text, self.heap, &self.style, feature, polygons));
        self.push_after(text, at, not_of_form(feature.form), head.members.as_slice())
    }

    /// Appends a point.
    fn push_kept<'a>(
        &self,
        text: &mut Vec<u8, A>,
        at: &Progress<'_, 'a, A>,
        point: &Point<'a, A>,
    ) -> Result<(), ExportFault<'a>>
        requires { point.now.number ≡ at.now.point }
        ensures { (t : List ℕ) → IsPoint point.now t → Appends text.old.items text.new.items result
            (item_text self.now.flattens (view_style self.now.style) (view_progress at.now) (Kept t)) }
    {
        let head = &point.head;
        or_return!(self.push_before(text, at, head, false));
        or_return!(push_point(text, self.heap, &self.style, point));
        self.push_after(text, at, NOT_OF_FEATURE, head.members.as_slice())
    }

    /// Appends the begin of a collection, which is then the innermost one.
    fn push_open<'m, 'a>(
        &self,
        text: &mut Vec<u8, A>,
        at: &mut Progress<'m, 'a, A>,
        head: &'m Head<'a, A>,
    ) -> Result<(), ExportFault<'a>>
        ensures text { Appends text.old.items text.new.items result
            (open_text (view_progress at.old) (view_head head.now)) }
        ensures after { OnOk result (view_progress at.new
            ≡ after_item false (view_progress at.old) (Open (view_head head.now))) }
        ensures leaf { at.new.leaf ≡ at.old.leaf }
    {
        or_return!(self.push_before(text, at, head, false));
        push_collection_begin(text)?;
        at.heads.push(head)?;
        at.more = false;
        Ok(())
    }

    /// Appends the end of the innermost collection.
    fn push_close<'m, 'a>(
        &self,
        text: &mut Vec<u8, A>,
        at: &mut Progress<'m, 'a, A>,
    ) -> Result<(), ExportFault<'a>>
        requires { HasRoom at.old }
        ensures text { Appends text.old.items text.new.items result
            (close_text (view_progress at.old).heads) }
        ensures after { OnOk result (view_progress at.new
            ≡ after_item false (view_progress at.old) Close) }
        ensures leaf { at.new.leaf ≡ at.old.leaf }
    {
        let Some(head) = at.heads.pop() else {
            return Ok(());
        };
        let members = head.members.as_slice();
        or_return!(push_collection_end(text, self.heap, members));
        or_return!(self.push_after(text, at, NOT_OF_FEATURE, members));
        at.pass();
        Ok(())
    }

    /// Appends an item, and passes it.
    fn push_item<'m, 'a>(
        &self,
        text: &mut Vec<u8, A>,
        at: &mut Progress<'m, 'a, A>,
        item: &'m Item<'a, A>,
    ) -> Result<(), ExportFault<'a>>
        requires { HasRoom at.old }
        ensures text { Appends text.old.items text.new.items result (items_texts self.now.flattens
            (view_style self.now.style) (view_progress at.old)
            (items_from at.old.leaf (map feature_positions self.now.polygons.now) (view_item item.now ∷ []))) }
        ensures after { OnOk result (view_progress at.new ≡ after_items self.now.flattens (view_progress at.old)
            (items_from at.old.leaf (map feature_positions self.now.polygons.now) (view_item item.now ∷ []))) }
        ensures leaf { OnOk result (at.new.leaf ≡ at.old.leaf + length (at_most_one (leaf_of (view_item item.now)))) }
    {
        match item {
            Item::Open(head) => if self.flattens {
                Ok(())
            } else {
                self.push_open(text, at, head)
            },
            Item::Close => if self.flattens {
                Ok(())
            } else {
                self.push_close(text, at)
            },
            Item::Leaf(feature) => {
                or_return!(self.push_leaf(text, at, feature));
                at.leaf += 1;
                at.pass();
                Ok(())
            }
            Item::Kept(kept) => {
                let point = Point::of(*text.allocator(), self.heap, at.point, kept)?;
                or_return!(self.push_kept(text, at, &point));
                at.point += 1;
                at.pass();
                Ok(())
            }
        }
    }

    /// Sends the items of a layer, and the end of the text.
    pub(crate) fn send_items<'m, 'a, W: Sink>(
        &self,
        text: &mut Vec<u8, A>,
        at: &mut Progress<'m, 'a, A>,
        items: &'m [Item<'a, A>],
        out: &mut W,
    ) -> Result<(), ExportFault<'a>>
        requires working { W.has_failed out.old ≡ false }
        requires begin { at.old.feature ≡ 0 }
        requires leaves { at.old.leaf + length items.now < 2 ^ 128 }
        requires points { at.old.point + length items.now < 2 ^ 128 }
        ensures { SendsGiven W.Sink out.old out.new result (items_text self.now.flattens
            (view_style self.now.style) (view_progress at.old)
            (items_from at.old.leaf (map feature_positions self.now.polygons.now) (map view_item items.now))) }
    {
        for item in items {
            text.clear();
            or_return!(self.push_item(text, at, item));
            put_all(out, text.as_slice())?;
        }
        text.clear();
        push_list_end(text, at.feature)?;
        put_all(out, text.as_slice())?;
        Ok(())
    }
}
