// The picture of what an edit did.
ghost use Rattle.std.specs.Prelude.{IfOk, IfSome, OnOk};
ghost use Rattle.map_drawing.specs.Marks.{IsNamedAbove, IsNamedIn};
ghost use Rattle.map_drawing.specs.Names.{AddsList, IsLabelledAbove, IsLabelledIn};

use crate::change_list::{list_text, push_legend, rows_of};
use crate::cutting::cut_line;
use crate::layout::ROW;
use crate::map_picture::{Look, Picture};
use crate::paths::push_line;
use crate::seen::is_change_seen;
use crate::view::View;
use map_features::{
    FeatureChange, Run, Shape, Units, borders_beyond, bounds_of, changes_between, shapes_of,
    straight_features,
};
use std::alloc::{AllocError, Allocator, Global};
use topo_reader::RawDoc;

/// The features whose changes are seen, before and after the edit.
#[derive(Drop)]
struct Seen<'r, A: Allocator + Copy> {
    before: Vec<Shape<'r, A>, A>,
    after: Vec<Shape<'r, A>, A>,
}

impl<'r, A: Allocator + Copy> Seen<'r, A> {
    /// Whether the feature of this number after the edit is among them.
    fn has(&self, number: usize) -> bool {
        self.after.iter().any(|shape| shape.number == number)
    }
}

impl<A: Allocator + Copy> Picture<A> {
    /// Whether a change is seen in the picture. A name that changed leaves the region as it was.
    fn sees(&self, change: &FeatureChange<'_, A>) -> Result<bool, AllocError> {
        match (&change.before, &change.after) {
            (Some(before), Some(after)) => is_change_seen(self.alloc, &self.layout, before, after),
            _ => Ok(true),
        }
    }

    /// The features of the changes that are seen.
    fn seen<'r>(&self, changes: &[FeatureChange<'r, A>]) -> Result<Seen<'r, A>, AllocError> {
        let mut before = Vec::new(self.alloc);
        let mut after = Vec::new(self.alloc);
        for change in changes {
            if self.sees(change)? {
                if let Some(shape) = change.before {
                    before.push(shape)?;
                }
                if let Some(shape) = change.after {
                    after.push(shape)?;
                }
            }
        }
        Ok(Seen { before, after })
    }

    /// Whether the part that is drawn shows some of a feature that changed.
    fn shows(&self, change: &FeatureChange<'_, A>) -> bool {
        self.meets(change.before.as_ref()) || self.meets(change.after.as_ref())
    }

    /// Whether the part that is drawn has a common point with the box of a feature.
    fn meets(&self, shape: Option<&Shape<'_, A>>) -> bool {
        match shape.and_then(|shape| shape.bounds()) {
            Some(bounds) => self.layout.window.meets(&bounds),
            None => self.is_whole && shape.is_some(),
        }
    }

    /// The changes of which the part that is drawn shows some.
    fn in_sight<'r>(
        &self,
        changes: &[FeatureChange<'r, A>],
    ) -> Result<Vec<FeatureChange<'r, A>, A>, AllocError> {
        let mut shown = Vec::new(self.alloc);
        for change in changes {
            if self.shows(change) {
                shown.push(*change)?;
            }
        }
        Ok(shown)
    }

    /// Appends a path of runs.
    fn push_runs(&mut self, look: Look, runs: &[Run]) -> Result<(), AllocError> {
        let sides = self.drawn.sides();
        self.open_lines(look)?;
        for run in runs {
            let (from, to) = (self.drawn.point(run.from), self.drawn.point(run.to));
            if let Some((from, to)) = cut_line(&sides, from, to) {
                push_line(&mut self.text, from, to)?;
            }
        }
        self.text.extend_from_slice(b"\"/>\n")
    }

    /// Appends the borders of features that lie on none of the borders of the other map.
    fn push_borders(
        &mut self,
        look: Look,
        these: &[Shape<'_, A>],
        others: &[Shape<'_, A>],
    ) -> Result<(), AllocError> {
        let runs = borders_beyond(self.alloc, these, others)?;
        self.push_runs(look, runs.as_slice())
    }

    /// Appends the features that are gone.
    fn push_lost(&mut self, changes: &[FeatureChange<'_, A>]) -> Result<(), AllocError> {
        for change in changes {
            if let (Some(before), None) = (&change.before, &change.after) {
                self.push_shape(before, Look::Lost)?;
            }
        }
        Ok(())
    }

    /// Appends the features that are gone, over them the map after the edit, with the features filled whose
    /// change is seen, and over it the borders that are gone and new.
    fn push_edit(
        &mut self,
        old: &[Shape<'_, A>],
        new: &[Shape<'_, A>],
        changes: &[FeatureChange<'_, A>],
    ) -> Result<(), AllocError> {
        let seen = self.seen(changes)?;
        self.push_lost(changes)?;
        for shape in new {
            let look = if seen.has(shape.number) {
                Look::Changed
            } else {
                Look::Kept
            };
            self.push_shape(shape, look)?;
        }
        self.push_borders(Look::Gone, seen.before.as_slice(), new)?;
        self.push_borders(Look::New, seen.after.as_slice(), old)
    }
}

impl<A: Allocator + Copy> Picture<A> {
    /// Appends the list of changes, from the second line below the map down.
    fn push_list(
        &mut self,
        units: &Units,
        changes: &[FeatureChange<'_, A>],
    ) -> Result<(), AllocError>
        ensures { OnOk result (AddsList self.old.text.items self.new.text.items) }
    {
        let top = self.layout.first_line() + ROW;
        push_legend(&mut self.text, top, units)?;
        let list = list_text(self.alloc, self.heap, top, units, changes)?;
        self.text.extend_from_slice(list.as_slice())?;
        Ok(())
    }

    /// Appends what an edit did to features whose regions have corners alone: the map, and the list of changes.
    fn push_features(
        &mut self,
        view: View,
        units: &Units,
        title: &str,
        old: &[Shape<'_, A>],
        new: &[Shape<'_, A>],
    ) -> Result<(), AllocError>
        ensures named { OnOk result (IfSome view.conflict (λ c. IsNamedAbove c self.new.text.items)) }
        ensures labelled { OnOk result
            (IsLabelledAbove view.has_ids view.conflict self.new.text.items) }
    {
        let changes = changes_between(self.alloc, old, new)?;
        let list = self.in_sight(changes.as_slice())?;
        self.open(units, title, rows_of(list.len()) + 1)?;
        self.push_edit(old, new, changes.as_slice())?;
        self.close_map(view, new)?;
        self.push_list(units, list.as_slice())
    }

    /// The same as a whole picture.
    fn with_features(
        self,
        view: View,
        units: &Units,
        title: &str,
        old: &[Shape<'_, A>],
        new: &[Shape<'_, A>],
    ) -> Result<Vec<u8, A>, AllocError>
        ensures named { IfOk result (λ picture. IfSome view.conflict (IsNamedIn picture.items)) }
        ensures labelled { IfOk result (λ picture.
            IsLabelledIn picture.items view.has_ids view.conflict) }
    {
        let mut picture = self;
        picture.push_features(view, units, title, old, new)?;
        picture.close()
    }
}

/// An edit: the map before it, and the map after it.
#[derive_where(Clone, Copy)]
pub struct Edit<'m, 'a, A: Allocator + Copy> {
    /// The map before it.
    pub before: &'m RawDoc<'a, A>,
    /// The map after it.
    pub after: &'m RawDoc<'a, A>,
}

/// The picture of what an edit did: the map after it, the features and borders that are gone and those that are
/// new, the changed features filled, and a list of them. The two segments in conflict that the view
/// names are marked.
///
/// A feature is changed where the other map has none with the same `id` and the same region, wherever
/// their vertices are. One whose change is less than a pixel is listed and not filled. `heap` holds
/// decoded ids; `alloc` all else. An error says that an allocation failed.
pub fn draw_change<A: Allocator + Copy>(
    alloc: A,
    heap: Global,
    edit: Edit<'_, '_, A>,
    view: View,
    title: &str,
) -> Result<Vec<u8, A>, AllocError>
    ensures named { IfOk result (λ picture. IfSome view.conflict (IsNamedIn picture.items)) }
    ensures labelled { IfOk result (λ picture. IsLabelledIn picture.items view.has_ids view.conflict) }
{
    let Edit { before, after } = edit;
    let old_regions = straight_features(alloc, before.polygons.as_slice())?;
    let new_regions = straight_features(alloc, after.polygons.as_slice())?;
    let old = shapes_of(alloc, before, old_regions.as_slice())?;
    let new = shapes_of(alloc, after, new_regions.as_slice())?;
    let bounds = bounds_of(bounds_of(None, old.as_slice()), new.as_slice());
    let units = Units::of(after.transform, bounds, view.part);
    let mut picture = Picture::of_part(alloc, heap, view.part, bounds, &units);
    let positions = picture.positions(old.as_slice());
    let positions = positions.max(picture.positions(new.as_slice()));
    picture.draw_for(positions);
    picture.with_features(view, &units, title, old.as_slice(), new.as_slice())
}
