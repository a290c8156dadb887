// The list of what an edit changed.
ghost use Rattle.std.specs.Prelude.{◌≤◌, ◌≤ℤ◌, pos, OnOk};
ghost use Rattle.map_drawing.specs.Names.{AddsList};

use crate::layout::ROW;
use map_features::{
    FeatureChange, Shape, Units, area, feature_id, feature_name, feature_number, percent,
};
use std::alloc::{AllocError, Allocator, Global};
use svg_text::push_words;

/// The most changes that are listed.
const MOST_CHANGES: usize = 100;

/// How far from the left each column begins; those of numbers end there.
const DONE: i64 = 20;

const NUMBER: i64 = 130;

const FEATURE: i64 = 145;

const BEFORE: i64 = 600;

const AFTER: i64 = 740;

const DIFFERENCE: i64 = 880;

const PERCENT: i64 = 980;

/// How many of so many changes are listed.
fn listed(changes: usize) -> usize
    ensures some { result ≤ changes }
    ensures most { result ≤ 100 }
{
    changes.min(MOST_CHANGES)
}

/// How many lines the list of so many changes has, with its head.
pub(crate) fn rows_of(changes: usize) -> i64
    ensures { (pos 2 ≤ℤ result) × (result ≤ℤ pos 103) }
{
    let rows = listed(changes) as i64 + 2;
    if changes == 0 || MOST_CHANGES < changes {
        rows + 1
    } else {
        rows
    }
}

/// A list of changes that grows.
#[derive(Drop)]
struct Listing<A: Allocator + Copy> {
    /// What holds all but decoded ids.
    alloc: A,
    /// What holds decoded ids.
    heap: Global,
    /// The text so far.
    text: Vec<u8, A>,
}

impl<A: Allocator + Copy> Listing<A> {
    /// Appends the heads of the columns.
    fn push_head(&mut self, y: i64) -> Result<(), AllocError> {
        push_words(&mut self.text, "head", DONE, y, b"edit")?;
        push_words(&mut self.text, "head number", NUMBER, y, b"number")?;
        push_words(&mut self.text, "head", FEATURE, y, b"feature")?;
        push_words(&mut self.text, "head number", BEFORE, y, b"area before")?;
        push_words(&mut self.text, "head number", AFTER, y, b"area after")?;
        push_words(&mut self.text, "head number", DIFFERENCE, y, b"difference")?;
        push_words(&mut self.text, "head number", PERCENT, y, b"%")
    }

    /// Appends the area of a feature where it is known.
    fn push_area(
        &mut self,
        (x, y): (i64, i64),
        units: &Units,
        twice: Option<i128>,
    ) -> Result<(), AllocError> {
        if let Some(twice) = twice {
            let words = units.area_text(self.alloc, twice)?;
            push_words(&mut self.text, "number", x, y, words.as_slice())?;
        }
        Ok(())
    }

    /// Appends how an area changed.
    fn push_difference(
        &mut self,
        y: i64,
        units: &Units,
        (before, after): (i128, i128),
    ) -> Result<(), AllocError> {
        let difference = after.saturating_sub(before);
        if difference != 0 {
            let words = units.signed_area_text(self.alloc, difference)?;
            push_words(&mut self.text, "number", DIFFERENCE, y, words.as_slice())?;
            let words = percent(self.alloc, difference, before)?;
            push_words(&mut self.text, "number", PERCENT, y, words.as_slice())?;
        }
        Ok(())
    }

    /// Appends the areas of a feature before and after.
    fn push_areas(
        &mut self,
        y: i64,
        units: &Units,
        change: &FeatureChange<'_, A>,
    ) -> Result<(), AllocError> {
        let before = change.before.and_then(|shape| area(shape.polygons));
        let after = change.after.and_then(|shape| area(shape.polygons));
        self.push_area((BEFORE, y), units, before)?;
        self.push_area((AFTER, y), units, after)?;
        match (before, after) {
            (Some(before), Some(after)) => self.push_difference(y, units, (before, after)),
            _ => Ok(()),
        }
    }

    /// Appends what became of a feature, and its number.
    fn push_done(
        &mut self,
        y: i64,
        (class, done): (&str, &str),
        shape: &Shape<'_, A>,
    ) -> Result<(), AllocError> {
        push_words(&mut self.text, class, DONE, y, done.as_bytes())?;
        let number = feature_number(self.alloc, shape)?;
        push_words(&mut self.text, "number", NUMBER, y, number.as_slice())
    }

    /// Appends the line of a feature that has another id.
    fn push_renamed(
        &mut self,
        y: i64,
        before: &Shape<'_, A>,
        after: &Shape<'_, A>,
    ) -> Result<(), AllocError> {
        self.push_done(y, ("plain", "renamed"), after)?;
        let mut words = feature_id(self.alloc, self.heap, before)?;
        words.extend_from_slice(" \u{2192} ".as_bytes())?;
        let id = feature_id(self.alloc, self.heap, after)?;
        words.extend_from_slice(id.as_slice())?;
        push_words(&mut self.text, "plain", FEATURE, y, words.as_slice())
    }

    /// Appends what a feature is called, and its areas.
    fn push_called(
        &mut self,
        y: i64,
        units: &Units,
        shape: &Shape<'_, A>,
        change: &FeatureChange<'_, A>,
    ) -> Result<(), AllocError> {
        let name = feature_name(self.alloc, self.heap, shape)?;
        push_words(&mut self.text, "plain", FEATURE, y, name.as_slice())?;
        self.push_areas(y, units, change)
    }

    /// Appends the line of a change.
    fn push_change(
        &mut self,
        y: i64,
        units: &Units,
        change: &FeatureChange<'_, A>,
    ) -> Result<(), AllocError> {
        let (done, shape) = match (&change.before, &change.after) {
            (Some(before), None) => (("gone", "gone"), before),
            (None, Some(after)) => (("new", "new"), after),
            (Some(before), Some(after)) => {
                if before.polygons == after.polygons {
                    return self.push_renamed(y, before, after);
                }
                (("plain", "changed"), after)
            }
            (None, None) => return Ok(()),
        };
        self.push_done(y, done, shape)?;
        self.push_called(y, units, shape, change)
    }

    /// Appends how many changes are not listed, or that there is none.
    fn push_others(&mut self, y: i64, changes: usize) -> Result<(), AllocError> {
        if changes == 0 {
            return push_words(&mut self.text, "plain", DONE, y, b"no feature");
        }
        if MOST_CHANGES < changes {
            let words = format!(in self.alloc; "others: {}", changes - MOST_CHANGES)?;
            push_words(&mut self.text, "plain", DONE, y, words.as_bytes())?;
        }
        Ok(())
    }

    /// Appends the lines of changes, from so far down, and answers how far down the next line is.
    fn push_changes(
        &mut self,
        top: i64,
        units: &Units,
        changes: &[FeatureChange<'_, A>],
    ) -> Result<i64, AllocError> {
        let mut y = top;
        for change in changes {
            self.push_change(y, units, change)?;
            y = y.saturating_add(ROW);
        }
        Ok(y)
    }

    /// Appends the list of changes, of which the line so far down says what its colours mean.
    fn push_list(
        &mut self,
        top: i64,
        units: &Units,
        changes: &[FeatureChange<'_, A>],
    ) -> Result<(), AllocError> {
        self.push_head(top.saturating_add(ROW))?;
        let listed = &changes[..listed(changes.len())];
        let y = self.push_changes(top.saturating_add(2 * ROW), units, listed)?;
        self.push_others(y, changes.len())
    }
}

/// Appends the first line of a list, so far down: what the colours mean, and what the areas are in.
pub(crate) fn push_legend<A: Allocator>(
    text: &mut Vec<u8, A>,
    y: i64,
    units: &Units,
) -> Result<(), AllocError>
    ensures { OnOk result (AddsList text.old.items text.new.items) }
{
    push_words(text, "gone", DONE, y, b"borders gone (dashed)")?;
    push_words(text, "new", 220, y, b"borders new")?;
    push_words(
        text,
        "plain",
        360,
        y,
        b"changed features filled, gone ones pale",
    )?;
    let words = units.unit.square_words();
    push_words(text, "number", PERCENT, y, words.as_bytes())?;
    Ok(())
}

/// The list of changes below its first line, which is so far down in the picture.
pub(crate) fn list_text<A: Allocator + Copy>(
    alloc: A,
    heap: Global,
    top: i64,
    units: &Units,
    changes: &[FeatureChange<'_, A>],
) -> Result<Vec<u8, A>, AllocError> {
    let mut list = Listing {
        alloc,
        heap,
        text: Vec::new(alloc),
    };
    list.push_list(top, units, changes)?;
    let Listing { text, .. } = list;
    Ok(text)
}
