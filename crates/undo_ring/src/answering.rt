// What a command makes of a map, whatever its history.
ghost use Rattle.std.specs.Prelude.{◌≡◌, ◌≤◌, ◌∷◌, length, List, None, IfOk, IfSome, OnOk};
ghost use Rattle.ring_machine.specs.Common.{Split, Rename, Thin, Area, At, Neighbours, Document};
ghost use Rattle.ring_machine.specs.Common.{rings, border_at, inside_at};
ghost use Rattle.edit_records.specs.Common.{string_text};
ghost use Rattle.point_queries.specs.Common.{CoversRings};
ghost use Rattle.undo_ring.specs.Boxed.{CoversSince, HasComing};
ghost use Rattle.edit_records.specs.Commands.{command_of, IsSound};
ghost use Rattle.undo_ring.specs.Answered.{AnswersMap, done_of, made_of};

use crate::answer::Answer;
use crate::near::Near;
use arc_store::{EditFault, Map};
use edit_records::{Command, IdText, Path};
use edit_vertex::{insert_vertex, move_vertex, remove_vertex, thin};
use grid_geometry::Pos;
use point_queries::{At as Found, QueryFault, RingBoxes, area2_of, at, at_near, neighbours};
use segment_index::SegIndex;
use split_merge::{delete, merge, rename, split};
use std::alloc::{AllocError, Allocator};

/// The same text in the memory of the map.
fn id_in<A: Allocator + Copy>(alloc: A, id: &IdText) -> Result<IdText<A>, AllocError>
    ensures { IfOk result (λ copy. copy ≡ id.now) }
{
    let text = String::from_str(alloc, id.0.as_str())?;
    Ok(IdText(text))
}

/// The same positions in the memory of the map.
fn path_in<A: Allocator + Copy>(alloc: A, path: &Path) -> Result<Path<A>, AllocError>
    ensures { IfOk result (λ copy. copy ≡ path.now) }
{
    let mut positions = Vec::new(alloc);
    positions.extend_from_slice(path.0.as_slice())?;
    Ok(Path(positions))
}

/// The answer to an edit.
fn done<A: Allocator + Copy>(outcome: Result<(), EditFault>) -> Result<Answer<A>, EditFault>
    ensures { result ≡ done_of outcome }
{
    match outcome {
        Ok(()) => Ok(Answer::Done),
        Err(fault) => Err(fault),
    }
}

/// The answer to a split.
fn made<A: Allocator + Copy>(outcome: Result<u32, EditFault>) -> Result<Answer<A>, EditFault>
    ensures { result ≡ made_of outcome }
{
    match outcome {
        Ok(number) => Ok(Answer::Made(number)),
        Err(fault) => Err(fault),
    }
}

/// Cuts a feature.
fn cut<'a, I: SegIndex, A: Allocator + Copy>(
    alloc: A,
    map: &mut Map<'a, I, A>,
    feature: u32,
    id: &IdText,
    path: &Path,
) -> Result<Answer<A>, EditFault>
    requires taken { map.old.last ≡ None }
    requires long { 2 ≤ length path.now }
    requires short { length path.now ≤ 256 }
    ensures { AnswersMap map.old map.new (Split feature (string_text id.now) path.now) result }
{
    let Ok(id) = id_in(alloc, id) else {
        return Err(EditFault::OutOfMemory);
    };
    let Ok(path) = path_in(alloc, path) else {
        return Err(EditFault::OutOfMemory);
    };
    made(split(map, feature, id, path))
}

/// Gives a feature another id.
fn name<'a, I: SegIndex, A: Allocator + Copy>(
    alloc: A,
    map: &mut Map<'a, I, A>,
    feature: u32,
    id: &IdText,
) -> Result<Answer<A>, EditFault>
    requires { map.old.last ≡ None }
    ensures { AnswersMap map.old map.new (Rename feature (string_text id.now)) result }
{
    let Ok(id) = id_in(alloc, id) else {
        return Err(EditFault::OutOfMemory);
    };
    done(rename(map, feature, id))
}

/// Leaves flat vertices out.
fn leave_out<'a, I: SegIndex, A: Allocator + Copy>(
    map: &mut Map<'a, I, A>,
    bound: i128,
) -> Result<Answer<A>, EditFault>
    requires { map.old.last ≡ None }
    ensures { AnswersMap map.old map.new (Thin bound) result }
{
    match thin(map, bound) {
        Ok(removed) => Ok(Answer::Thinned(removed)),
        Err(_) => Err(EditFault::OutOfMemory),
    }
}

/// Twice the area of a feature.
fn area_on<'a, I: SegIndex, A: Allocator + Copy>(
    map: &Map<'a, I, A>,
    feature: u32,
) -> Result<Answer<A>, EditFault>
    ensures { AnswersMap map.now map.now (Area feature) result }
{
    match area2_of(map, feature) {
        Ok(area) => Ok(Answer::Area(area)),
        Err(_) => Err(EditFault::NoFeature),
    }
}

/// The features at a position, found near it where the boxes of the rings are given.
fn found_at<'a, I: SegIndex, A: Allocator + Copy>(
    alloc: A,
    map: &Map<'a, I, A>,
    boxes: Option<&RingBoxes<A>>,
    position: Pos,
) -> Result<Found<A>, AllocError>
    requires { IfSome boxes (λ b. CoversRings b.now (rings map.now.doc)) }
    ensures inside { IfOk result (λ at. at.inside ≡ inside_at map.now.doc position) }
    ensures border { IfOk result (λ at. at.border ≡ border_at map.now.doc position) }
{
    match boxes {
        Some(boxes) => at_near(alloc, map, boxes, position),
        None => at(alloc, map, position),
    }
}

/// The features at a position.
fn at_on<'a, I: SegIndex, A: Allocator + Copy>(
    alloc: A,
    map: &Map<'a, I, A>,
    boxes: Option<&RingBoxes<A>>,
    position: Pos,
) -> Result<Answer<A>, EditFault>
    requires { IfSome boxes (λ b. CoversRings b.now (rings map.now.doc)) }
    ensures { AnswersMap map.now map.now (At position) result }
{
    match found_at(alloc, map, boxes, position) {
        Ok(found) => Ok(Answer::At(found)),
        Err(_) => Err(EditFault::OutOfMemory),
    }
}

/// The features beside a feature.
fn neighbours_on<'a, I: SegIndex, A: Allocator + Copy>(
    alloc: A,
    map: &Map<'a, I, A>,
    feature: u32,
) -> Result<Answer<A>, EditFault>
    ensures { AnswersMap map.now map.now (Neighbours feature) result }
{
    match neighbours(alloc, map, feature) {
        Ok(found) => Ok(Answer::Neighbours(found)),
        Err(QueryFault::NoFeature) => Err(EditFault::NoFeature),
        Err(QueryFault::OutOfMemory) => Err(EditFault::OutOfMemory),
    }
}

/// Makes an edit of a map, or answers a query of it.
fn answer<'a, I: SegIndex, A: Allocator + Copy>(
    alloc: A,
    map: &mut Map<'a, I, A>,
    boxes: Option<&RingBoxes<A>>,
    command: Command,
) -> Result<Answer<A>, EditFault>
    requires covered { IfSome boxes (λ b. CoversRings b.now (rings map.old.doc)) }
    requires taken { map.old.last ≡ None }
    requires sound { IsSound command }
    ensures { AnswersMap map.old map.new (command_of command) result }
{
    match command {
        Command::Move(from, to) => done(move_vertex(map, from, to)),
        Command::Insert(a, b, new) => done(insert_vertex(map, a, b, new)),
        Command::Remove(vertex) => done(remove_vertex(map, vertex)),
        Command::Thin(bound) => leave_out(map, bound),
        Command::Split(feature, id, path) => cut(alloc, map, feature, &id, &path),
        Command::Merge(stays, goes) => done(merge(map, stays, goes)),
        Command::Rename(feature, id) => name(alloc, map, feature, &id),
        Command::Delete(feature) => done(delete(map, feature)),
        Command::Area(feature) => area_on(map, feature),
        Command::At(position) => at_on(alloc, map, boxes, position),
        Command::Neighbours(feature) => neighbours_on(alloc, map, feature),
    }
}

/// Makes an edit of a map, or answers a query of it, and has the boxes of its rings ready for that.
pub(crate) fn answer_near<'a, I: SegIndex, A: Allocator + Copy>(
    alloc: A,
    map: &mut Map<'a, I, A>,
    near: &mut Near<A>,
    command: Command,
) -> Result<Answer<A>, EditFault>
    requires known { (docs : List Document) × CoversSince near.old (map.old.doc ∷ docs) }
    requires taken { map.old.last ≡ None }
    requires sound { IsSound command }
    ensures answers { AnswersMap map.old map.new (command_of command) result }
    ensures known { (docs : List Document) → CoversSince near.old (map.old.doc ∷ docs)
        → CoversSince near.new (map.old.doc ∷ docs) }
    ensures ready { OnOk result ((docs : List Document) → CoversSince near.old (map.old.doc ∷ docs)
        → IfSome near.new.boxes (HasComing map.old.doc (command_of command))) }
{
    near.prepare(alloc, map, &command)?;
    answer(alloc, map, near.boxes.as_ref(), command)
}
