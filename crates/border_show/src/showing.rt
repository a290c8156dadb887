//! From the bytes of maps to the bytes of a picture.
ghost use Rattle.std.specs.Prelude.{◌≡◌, option_map, IfErr, IfOk, IfSome, IsSomeAnd, OnErr};
ghost use Rattle.map_drawing.specs.Marks.{IsNamedIn};
ghost use Rattle.map_drawing.specs.Names.{IsLabelledIn};
ghost use Rattle.ring_machine.specs.Common.{Document};
ghost use Rattle.topo_reader.specs.Common.{document_of, IsFault, IsOfRings, Reads, view_raw};
ghost use Rattle.border_show.specs.Conflicts.{IsFirstConflict};
ghost use Rattle.border_show.specs.Maps.{bytes_before, bytes_drawn, file_bytes};
ghost use Rattle.border_show.specs.Shown.{IsDrawing, IsFeaturePart, IsFeatureView, IsLabelledAsAsked, IsMarked, IsRead};
ghost use Rattle.border_show.specs.Shown.{IsReadBefore, IsShowFault, IsViewAsked};

use crate::arguments::{Arguments, Part};
use crate::conflicts::first_conflict;
use crate::finding::{NoFeature, named_feature};
use crate::maps::{MapFile, MapFiles};
use map_drawing::{Conflict, Edit, View, draw_change, draw_map};
use std::alloc::{AllocError, Global};
use std::hash::RandomState;
use topo_outline::OpenFault;
use topo_reader::{RawDoc, read};

/// Why there is no picture.
#[derive(Drop)]
pub(crate) enum ShowFault<'a> {
    /// A map can't be read, or an allocation failed.
    Open(OpenFault<'a>),
    /// The surroundings of no feature can be drawn.
    Feature(NoFeature),
}

impl<'a> From<AllocError> for ShowFault<'a> {
    ghost use Rattle.std.specs.Prelude.{◌≡◌};
    ghost use Rattle.topo_outline.specs.declared.fault.OpenFault.TheVariants.{OutOfMemory};
    ghost use Rattle.border_show.specs.declared.showing.ShowFault.TheVariants.{Open};

    ghost from_gives = { λ _ e. e ≡ Open OutOfMemory };

    fn from(_error: AllocError) -> ShowFault<'a> {
        ShowFault::Open(OpenFault::OutOfMemory)
    }
}

/// The map that a file holds.
fn read_map<'a>(
    heap: Global,
    seed: RandomState,
    file: &'a MapFile<'_>,
) -> Result<RawDoc<'a, Global>, OpenFault<'a>>
    ensures reads { IfOk result (IsRead (file_bytes file.now)) }
    ensures only { IfOk result (λ map. (d : Document) → Reads (file_bytes file.now) d →
        d ≡ document_of (view_raw map)) }
    ensures of_rings { IfOk result (λ map. IsOfRings (view_raw map)) }
    ensures refused { IfErr result (λ fault. IsFault (file_bytes file.now) fault) }
{
    read(heap, heap, seed, file.bytes.as_slice())
}

/// The first conflict of the map that a file holds. It is read anew: a map that is opened is taken apart.
fn conflict_of<'a>(
    heap: Global,
    seed: RandomState,
    file: &'a MapFile<'_>,
) -> Result<Option<Conflict>, OpenFault<'a>>
    ensures first { IfOk result (IsFirstConflict (file_bytes file.now)) }
    ensures refused { IfErr result (λ fault. IsFault (file_bytes file.now) fault) }
{
    let map = match read_map(heap, seed, file) {
        Ok(map) => map,
        Err(fault) => return Err(fault),
    };
    Ok(first_conflict(heap, seed, map)?)
}

/// The view of the surroundings of the feature that this text names.
fn feature_view(
    heap: Global,
    before: Option<&RawDoc<'_, Global>>,
    map: &RawDoc<'_, Global>,
    name: &str,
    all: View,
) -> Result<Result<View, NoFeature>, AllocError>
    ensures { IfOk result (λ view. IfOk view
        (IsFeatureView (option_map (λ b. b.now) before.entry) map.now name.now all)) }
{
    match named_feature(heap, before, map, name)? {
        Ok(shown) => Ok(Ok(View {
            part: Some(shown.part),
            feature: shown.number,
            ..all
        })),
        Err(fault) => Ok(Err(fault)),
    }
}

/// What is drawn of a map, as the arguments ask.
fn view_of(
    heap: Global,
    before: Option<&RawDoc<'_, Global>>,
    map: &RawDoc<'_, Global>,
    arguments: &Arguments,
) -> Result<Result<View, NoFeature>, AllocError>
    ensures shown { IfOk result (λ view. IfOk view
        (IsViewAsked (option_map (λ b. b.now) before.entry) map.now arguments.now)) }
    ensures named { IfOk result (λ view. OnErr view (IsFeaturePart arguments.now.part)) }
{
    let all = View {
        part: None,
        has_ids: arguments.has_ids,
        feature: None,
        conflict: None,
    };
    match &arguments.part {
        Part::Whole => Ok(Ok(all)),
        Part::Square(square) => Ok(Ok(View {
            part: Some(*square),
            ..all
        })),
        Part::Feature(name) => feature_view(heap, before, map, name.as_str(), all),
    }
}

/// The map before an edit, where there is one.
fn read_before<'a>(
    heap: Global,
    seed: RandomState,
    maps: &'a MapFiles<'_>,
) -> Result<Option<RawDoc<'a, Global>>, OpenFault<'a>>
    ensures before { IfOk result (IsReadBefore (bytes_before maps.now)) }
    ensures refused { IfErr result (λ fault. IsSomeAnd (bytes_before maps.now) (λ b. IsFault b fault)) }
{
    match &maps.before {
        Some(file) => match read_map(heap, seed, file) {
            Ok(map) => Ok(Some(map)),
            Err(fault) => Err(fault),
        },
        None => Ok(None),
    }
}

/// What is drawn: a map, the map before it where there is an edit, and how.
#[derive(Drop)]
struct Drawing<'a> {
    before: Option<RawDoc<'a, Global>>,
    map: RawDoc<'a, Global>,
    view: View,
}

/// What is drawn as the arguments ask. The map before an edit is read first; the first conflict of the map is to
/// be marked.
fn drawing_of<'a>(
    heap: Global,
    seed: RandomState,
    maps: &'a MapFiles<'_>,
    arguments: &Arguments,
) -> Result<Drawing<'a>, ShowFault<'a>>
    ensures drawn { IfOk result (IsDrawing maps.now arguments.now) }
    ensures fault { IfErr result (IsShowFault maps.now arguments.now.part) }
{
    let before = or_return!(read_before(heap, seed, maps));
    let conflict = or_return!(conflict_of(heap, seed, &maps.map));
    let map = or_return!(read_map(heap, seed, &maps.map));
    match view_of(heap, before.as_ref(), &map, arguments)? {
        Ok(view) => Ok(Drawing {
            before,
            map,
            view: View { conflict, ..view },
        }),
        Err(fault) => Err(ShowFault::Feature(fault)),
    }
}

impl<'a> Drawing<'a> {
    /// The edit that made the map, where there is a map before it.
    fn edit(&self) -> Option<Edit<'_, 'a, Global>>
        ensures before { option_map (λ edit. edit.before.now) result ≡ self.now.before }
        ensures after { IfSome result (λ edit. edit.after.now ≡ self.now.map) }
    {
        match &self.before {
            Some(before) => Some(Edit {
                before,
                after: &self.map,
            }),
            None => None,
        }
    }

    /// The picture of the map, or of what an edit made of the map before it.
    fn picture(&self, heap: Global, title: &str) -> Result<Vec<u8>, AllocError>
        ensures named { IfOk result (λ picture.
            IfSome self.now.view.conflict (IsNamedIn picture.items)) }
        ensures labelled { IfOk result (λ picture.
            IsLabelledIn picture.items self.now.view.has_ids self.now.view.conflict) }
    {
        match self.edit() {
            Some(edit) => draw_change(heap, heap, edit, self.view, title),
            None => draw_map(heap, heap, &self.map, self.view, title),
        }
    }
}

/// The picture of a map, or, where there is one before it, of what an edit did.
pub(crate) fn show<'a>(
    heap: Global,
    seed: RandomState,
    maps: &'a MapFiles<'_>,
    arguments: &Arguments,
    title: &str,
) -> Result<Vec<u8>, ShowFault<'a>>
    ensures marked { IfOk result (λ picture. IsMarked (bytes_drawn maps.now) picture.items) }
    ensures labelled { IfOk result (λ picture.
        IsLabelledAsAsked maps.now arguments.now picture.items) }
    ensures fault { IfErr result (IsShowFault maps.now arguments.now.part) }
{
    match drawing_of(heap, seed, maps, arguments) {
        Ok(drawing) => Ok(drawing.picture(heap, title)?),
        Err(fault) => Err(fault),
    }
}
