// What an edit did to the features of a map.
use crate::shapes::{Key, Shape};
use crate::sorted::missing;
use std::alloc::{AllocError, Allocator};
use std::cmp::Ordering;

/// What became of a feature.
#[derive_where(Clone, Copy)]
pub struct FeatureChange<'r, A: Allocator + Copy> {
    /// As it was; `None` where it is new.
    pub before: Option<Shape<'r, A>>,
    /// As it is; `None` where it is gone.
    pub after: Option<Shape<'r, A>>,
}

/// What features of two maps are paired by.
#[derive(Clone, Copy)]
enum By {
    /// That they are the same region.
    Region,
    /// That they have the same `id`.
    Id,
}

/// The order of two features by their regions.
fn region_order<A: Allocator + Copy>(one: &Shape<'_, A>, other: &Shape<'_, A>) -> Ordering {
    one.polygons.cmp(&other.polygons)
}

/// The order of two features by their ids.
fn id_order<A: Allocator + Copy>(one: &Shape<'_, A>, other: &Shape<'_, A>) -> Ordering {
    one.id.cmp(&other.id)
}

impl By {
    /// The order of two features by it.
    fn order<A: Allocator + Copy>(self, one: &Shape<'_, A>, other: &Shape<'_, A>) -> Ordering {
        match self {
            By::Region => region_order(one, other),
            By::Id => id_order(one, other),
        }
    }

    /// The order of two features by it, and then by their numbers.
    fn full_order<A: Allocator + Copy>(self, one: &Shape<'_, A>, other: &Shape<'_, A>) -> Ordering {
        let order = self.order(one, other);
        if order.is_eq() {
            one.number.cmp(&other.number)
        } else {
            order
        }
    }

    /// What became of the first of both, where they are a pair, and of the lesser one where they are not.
    fn first_change<'r, A: Allocator + Copy>(
        self,
        before: Option<&Shape<'r, A>>,
        after: Option<&Shape<'r, A>>,
    ) -> FeatureChange<'r, A> {
        let order = match (before, after) {
            (Some(before), Some(after)) => self.order(before, after),
            (Some(_), None) => Ordering::Less,
            (None, _) => Ordering::Greater,
        };
        FeatureChange {
            before: if order.is_le() { before.copied() } else { None },
            after: if order.is_ge() { after.copied() } else { None },
        }
    }

    /// Appends the features in pairs, and those that are in none. Both are in its order, and the first of those
    /// that are alike is paired with the first.
    fn push_pairs<'r, A: Allocator + Copy>(
        self,
        pairs: &mut Vec<FeatureChange<'r, A>, A>,
        before: &[Shape<'r, A>],
        after: &[Shape<'r, A>],
    ) -> Result<(), AllocError> {
        let mut i: usize = 0;
        let mut j: usize = 0;
        for _step in 0..before.len().saturating_add(after.len()) {
            if before.len() <= i && after.len() <= j {
                break;
            }
            let pair = self.first_change(before.get(i), after.get(j));
            i = i.saturating_add(usize::from(pair.before.is_some()));
            j = j.saturating_add(usize::from(pair.after.is_some()));
            pairs.push(pair)?;
        }
        Ok(())
    }
}

/// What features are compared by, in the order of the features.
fn keys<'r, A: Allocator + Copy>(
    alloc: A,
    shapes: &[Shape<'r, A>],
) -> Result<Vec<Key<'r, A>, A>, AllocError> {
    let mut keys = Vec::new(alloc);
    for shape in shapes {
        keys.push(shape.key())?;
    }
    Ok(keys)
}

/// By feature, whether none of the others is the same as it: with the same `id` and region.
fn are_changed<A: Allocator + Copy>(
    alloc: A,
    these: &[Shape<'_, A>],
    others: &[Shape<'_, A>],
) -> Result<Vec<bool, A>, AllocError> {
    let mut keys_of_others = keys(alloc, others)?;
    keys_of_others.sort_unstable();
    let keys_of_these = keys(alloc, these)?;
    missing(alloc, keys_of_these.as_slice(), keys_of_others.as_slice())
}

/// Appends the features with a flag that is on.
fn push_flagged<'r, A: Allocator + Copy>(
    found: &mut Vec<Shape<'r, A>, A>,
    shapes: &[Shape<'r, A>],
    flags: &[bool],
) -> Result<(), AllocError> {
    for (shape, flag) in shapes.iter().zip(flags) {
        if *flag {
            found.push(*shape)?;
        }
    }
    Ok(())
}

/// The features of these that none of the others is the same as, in the order of their regions.
fn changed<'r, A: Allocator + Copy>(
    alloc: A,
    these: &[Shape<'r, A>],
    others: &[Shape<'r, A>],
) -> Result<Vec<Shape<'r, A>, A>, AllocError> {
    let flags = are_changed(alloc, these, others)?;
    let mut found = Vec::new(alloc);
    push_flagged(&mut found, these, flags.as_slice())?;
    found.sort_unstable_by(|one, other| By::Region.full_order(one, other));
    Ok(found)
}

/// Appends the features before of changes that have none after.
fn push_gone<'r, A: Allocator + Copy>(
    gone: &mut Vec<Shape<'r, A>, A>,
    changes: &[FeatureChange<'r, A>],
) -> Result<(), AllocError> {
    for change in changes {
        if let (Some(before), None) = (change.before, change.after) {
            gone.push(before)?;
        }
    }
    gone.sort_unstable_by(|one, other| By::Id.full_order(one, other));
    Ok(())
}

/// Appends the features after of changes that have none before.
fn push_made<'r, A: Allocator + Copy>(
    made: &mut Vec<Shape<'r, A>, A>,
    changes: &[FeatureChange<'r, A>],
) -> Result<(), AllocError> {
    for change in changes {
        if let (None, Some(after)) = (change.before, change.after) {
            made.push(after)?;
        }
    }
    made.sort_unstable_by(|one, other| By::Id.full_order(one, other));
    Ok(())
}

/// Appends the features of pairs.
fn push_both<'r, A: Allocator + Copy>(
    changes: &mut Vec<FeatureChange<'r, A>, A>,
    pairs: &[FeatureChange<'r, A>],
) -> Result<(), AllocError> {
    for pair in pairs {
        if pair.before.is_some() && pair.after.is_some() {
            changes.push(*pair)?;
        }
    }
    Ok(())
}

/// The lists that changes are found with.
#[derive(Drop)]
struct Lists<'r, A: Allocator + Copy> {
    /// The features before that are in no pair of the same region, by `id`.
    gone: Vec<Shape<'r, A>, A>,
    /// Those after.
    made: Vec<Shape<'r, A>, A>,
    /// The features that changed, in pairs of the same region, and those that are in none.
    pairs: Vec<FeatureChange<'r, A>, A>,
}

impl<'r, A: Allocator + Copy> Lists<'r, A> {
    /// Appends what became of features that changed, which are in the order of their regions.
    fn push_changes(
        &mut self,
        changes: &mut Vec<FeatureChange<'r, A>, A>,
        old: &[Shape<'r, A>],
        new: &[Shape<'r, A>],
    ) -> Result<(), AllocError> {
        By::Region.push_pairs(&mut self.pairs, old, new)?;
        push_both(changes, self.pairs.as_slice())?;
        push_gone(&mut self.gone, self.pairs.as_slice())?;
        push_made(&mut self.made, self.pairs.as_slice())?;
        By::Id.push_pairs(changes, self.gone.as_slice(), self.made.as_slice())
    }
}

/// Appends what became of features that changed, which are in the order of their regions.
fn push_between<'r, A: Allocator + Copy>(
    changes: &mut Vec<FeatureChange<'r, A>, A>,
    alloc: A,
    old: &[Shape<'r, A>],
    new: &[Shape<'r, A>],
) -> Result<(), AllocError> {
    let mut lists = Lists {
        gone: Vec::new(alloc),
        made: Vec::new(alloc),
        pairs: Vec::new(alloc),
    };
    lists.push_changes(changes, old, new)
}

impl<'r, A: Allocator + Copy> FeatureChange<'r, A> {
    /// The number that it is listed by: that of the map after the edit where the feature is there.
    pub fn number(&self) -> usize {
        match (&self.after, &self.before) {
            (Some(shape), _) | (None, Some(shape)) => shape.number,
            (None, None) => 0,
        }
    }
}

/// What became of the features, by their numbers. Of those that changed, the same region under another `id`
/// was renamed, and another region under the same `id` was changed.
pub fn changes_between<'r, A: Allocator + Copy>(
    alloc: A,
    before: &[Shape<'r, A>],
    after: &[Shape<'r, A>],
) -> Result<Vec<FeatureChange<'r, A>, A>, AllocError> {
    let old = changed(alloc, before, after)?;
    let new = changed(alloc, after, before)?;
    let mut changes = Vec::new(alloc);
    push_between(&mut changes, alloc, old.as_slice(), new.as_slice())?;
    changes.sort_unstable_by_key(|change| (change.number(), change.after.is_some()));
    Ok(changes)
}
