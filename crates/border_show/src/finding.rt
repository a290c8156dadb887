//! The feature that `--feature` names.
ghost use Rattle.std.specs.Prelude.{◌≡◌, ◌++◌, ◌∷◌, [], if◌then◌else◌, option_map, IfOk, OnOk};
ghost use Rattle.std.specs.List.{filter};
ghost use Rattle.border_show.specs.Found.{is_shape_called, IsEarlier, IsNamed, IsNamedBefore, IsShownBefore, IsShownEarlier, IsShownFeature};

use map_features::{Shape, Window, has_id, shapes_of};
use std::alloc::{AllocError, Global};
use topo_reader::RawDoc;

/// Appends a feature if its `id` stands for this text.
fn push_called<'r>(
    heap: Global,
    found: &mut Vec<Shape<'r, Global>>,
    shape: &Shape<'r, Global>,
    id: &str,
) -> Result<(), AllocError>
    ensures { OnOk result (found.new.items
        ≡ found.old.items ++ (if is_shape_called id.now shape.now then shape.now ∷ [] else [])) }
{
    if has_id(heap, shape, id)? {
        found.push(*shape)?;
    }
    Ok(())
}

/// The features whose `id` stands for this text, in their order.
fn features_called<'r>(
    heap: Global,
    shapes: &[Shape<'r, Global>],
    id: &str,
) -> Result<Vec<Shape<'r, Global>>, AllocError>
    ensures { IfOk result (λ found. found.items ≡ filter (is_shape_called id.now) shapes.now) }
{
    let mut found = Vec::new(heap);
    for shape in shapes {
        push_called(heap, &mut found, shape, id)?;
    }
    Ok(found)
}

/// The feature whose number this text is, with or without the `#` that pictures write before it, as a list.
fn features_numbered<'s, 'r>(
    shapes: &'s [Shape<'r, Global>],
    text: &str,
) -> &'s [Shape<'r, Global>] {
    let digits = text.strip_prefix('#').unwrap_or(text);
    match digits.parse::<usize>() {
        Ok(number) if number < shapes.len() => &shapes[number..number + 1],
        _ => &[],
    }
}

/// Why the surroundings of no feature can be drawn.
#[derive(Clone, Copy)]
pub(crate) enum NoFeature {
    /// No feature has this id or number.
    Unknown,
    /// Several features have this id.
    Several,
    /// The feature has no ring.
    Empty,
}

impl NoFeature {
    /// The reason, as the program says it.
    pub(crate) fn reason(self) -> &'static str {
        match self {
            NoFeature::Unknown => "none has this id or number",
            NoFeature::Several => "several have this id",
            NoFeature::Empty => "it has no ring",
        }
    }
}

/// A feature that is drawn with its surroundings.
#[derive(Clone, Copy)]
pub(crate) struct Shown {
    /// The part of the grid about it.
    pub(crate) part: Window,
    /// Its number in the map that is drawn, if it is there.
    pub(crate) number: Option<usize>,
}

/// The feature that a search found with its surroundings, if it found a single one.
fn single_feature(found: &[Shape<'_, Global>]) -> Result<Shown, NoFeature>
    ensures { IfOk result (IsShownFeature found.now) }
{
    match found {
        [] => Err(NoFeature::Unknown),
        [shape] => match shape.surroundings() {
            Some(part) => Ok(Shown {
                part,
                number: Some(shape.number),
            }),
            None => Err(NoFeature::Empty),
        },
        _ => Err(NoFeature::Several),
    }
}

/// The same, of a map before an edit.
fn earlier_feature(found: &[Shape<'_, Global>]) -> Result<Shown, NoFeature>
    ensures { IfOk result (IsShownEarlier found.now) }
{
    let shown = single_feature(found)?;
    Ok(Shown {
        number: None,
        ..shown
    })
}

/// The feature of a map before an edit that a search found, or another answer where it found none.
fn earlier_or(
    found: &[Shape<'_, Global>],
    other: Result<Shown, NoFeature>,
) -> Result<Shown, NoFeature>
    ensures { IfOk result (IsShownBefore found.now) }
{
    if found.is_empty() {
        other
    } else {
        earlier_feature(found)
    }
}

/// The feature that this text names by an `id` of the map before an edit, or else by a number of these features.
fn named_before(
    heap: Global,
    before: &RawDoc<'_, Global>,
    shapes: &[Shape<'_, Global>],
    name: &str,
) -> Result<Result<Shown, NoFeature>, AllocError>
    ensures { IfOk result (λ shown. IfOk shown (IsNamedBefore before.now name.now)) }
{
    let earlier = shapes_of(heap, before, before.polygons.as_slice())?;
    let found = features_called(heap, earlier.as_slice(), name)?;
    let numbered = single_feature(features_numbered(shapes, name));
    Ok(earlier_or(found.as_slice(), numbered))
}

/// The same, where there may be no map before.
fn named_elsewhere(
    heap: Global,
    before: Option<&RawDoc<'_, Global>>,
    shapes: &[Shape<'_, Global>],
    name: &str,
) -> Result<Result<Shown, NoFeature>, AllocError>
    ensures { IfOk result (λ shown. IfOk shown
        (IsEarlier (option_map (λ b. b.now) before.entry) name.now)) }
{
    match before {
        Some(before) => named_before(heap, before, shapes, name),
        None => Ok(single_feature(features_numbered(shapes, name))),
    }
}

/// The feature that this text names: by an `id` of the map, by an `id` of the map before an edit, or by a
/// number of the map.
pub(crate) fn named_feature(
    heap: Global,
    before: Option<&RawDoc<'_, Global>>,
    map: &RawDoc<'_, Global>,
    name: &str,
) -> Result<Result<Shown, NoFeature>, AllocError>
    ensures { IfOk result (λ shown. IfOk shown
        (IsNamed (option_map (λ b. b.now) before.entry) map.now name.now)) }
{
    let shapes = shapes_of(heap, map, map.polygons.as_slice())?;
    let found = features_called(heap, shapes.as_slice(), name)?;
    if found.is_empty() {
        named_elsewhere(heap, before, shapes.as_slice(), name)
    } else {
        Ok(single_feature(found.as_slice()))
    }
}
