// The answers to commands, and their texts.
ghost use Rattle.std.specs.Prelude.{◌≡◌, ◌++◌, codes, decimal, OnOk, IfOk};
ghost use Rattle.ring_machine.specs.Common.{Undo};
ghost use Rattle.undo_ring.specs.Common.{answer_of};
ghost use Rattle.edit_records.specs.Common.{command_of, IsSound};
ghost use Rattle.script_runner.specs.Answers.{position_text, segment_text};
ghost use Rattle.script_runner.specs.Answers.{answer_text, at_text, neighbours_text};
ghost use Rattle.script_runner.specs.Replies.{Replied, TellsFault};

use crate::texts::{push_features, push_number, push_position, push_segment};
use arc_store::EditFault;
use edit_records::Command;
use grid_geometry::{Pos, Seg};
use itoa::Integer;
use point_queries::{At, Numbers};
use segment_index::TreeIndex;
use std::alloc::{AllocError, Allocator};
use undo_ring::{Answer, Editor, UndoFault};

/// Appends the pair of segments in conflict.
fn push_conflict<A: Allocator + Copy>(
    text: &mut Vec<u8, A>,
    s: Seg,
    t: Seg,
) -> Result<(), AllocError>
    ensures { OnOk result (text.new.items ≡ text.old.items
        ++ (codes "conflict " ++ (segment_text s ++ (codes " / " ++ segment_text t)))) }
{
    text.extend_from_slice(b"conflict ")?;
    push_segment(text, s)?;
    text.extend_from_slice(b" / ")?;
    push_segment(text, t)
}

/// Appends how many runs the common segments form.
fn push_runs<A: Allocator + Copy>(text: &mut Vec<u8, A>, n: usize) -> Result<(), AllocError>
    ensures { OnOk result (text.new.items ≡ text.old.items ++ (codes "runs " ++ decimal n)) }
{
    text.extend_from_slice(b"runs ")?;
    push_number(text, n)
}

/// Appends the least common position off the run.
fn push_common<A: Allocator + Copy>(text: &mut Vec<u8, A>, pos: Pos) -> Result<(), AllocError>
    ensures { OnOk result
        (text.new.items ≡ text.old.items ++ (codes "common else " ++ position_text pos)) }
{
    text.extend_from_slice(b"common else ")?;
    push_position(text, pos)
}

/// Appends the text of a refusal; allocation failure is none.
fn push_refusal<A: Allocator + Copy>(
    text: &mut Vec<u8, A>,
    fault: EditFault,
) -> Result<(), AllocError>
    ensures { OnOk result (TellsFault fault text.old.items text.new.items) }
{
    text.extend_from_slice(b"refused ")?;
    match fault {
        EditFault::NoFeature => text.extend_from_slice(b"no feature")?,
        EditFault::NoVertex => text.extend_from_slice(b"no vertex")?,
        EditFault::NoSegment => text.extend_from_slice(b"no segment")?,
        EditFault::Occupied => text.extend_from_slice(b"occupied")?,
        EditFault::Junction => text.extend_from_slice(b"junction")?,
        EditFault::RingShort => text.extend_from_slice(b"ring short")?,
        EditFault::SegmentExists => text.extend_from_slice(b"segment exists")?,
        EditFault::NoCollection => text.extend_from_slice(b"no collection")?,
        EditFault::NotOnOuterRing => text.extend_from_slice(b"not on outer ring")?,
        EditFault::RepeatedPoint => text.extend_from_slice(b"repeated point")?,
        EditFault::WrongSide => text.extend_from_slice(b"wrong side")?,
        EditFault::TooLarge => text.extend_from_slice(b"too large")?,
        EditFault::SameFeature => text.extend_from_slice(b"same feature")?,
        EditFault::NotOnePolygon => text.extend_from_slice(b"not one polygon")?,
        EditFault::NotNeighbours => text.extend_from_slice(b"not neighbours")?,
        EditFault::Runs { n } => push_runs(text, n)?,
        EditFault::CommonElse { pos } => push_common(text, pos)?,
        EditFault::SameSide => text.extend_from_slice(b"same side")?,
        EditFault::Sweeps => text.extend_from_slice(b"sweeps")?,
        EditFault::Conflict { s, t } => push_conflict(text, s, t)?,
        EditFault::OutOfMemory => return Err(AllocError),
    }
    Ok(())
}

/// Appends `ok` and a number.
fn push_ok<A: Allocator + Copy, I: Integer>(
    text: &mut Vec<u8, A>,
    number: I,
) -> Result<(), AllocError>
    ensures { OnOk result (text.new.items ≡ text.old.items ++ (codes "ok " ++ I.text number)) }
{
    text.extend_from_slice(b"ok ")?;
    push_number(text, number)?;
    Ok(())
}

/// Appends the features that hold a position, and those on whose borders it lies.
fn push_at<A: Allocator + Copy>(text: &mut Vec<u8, A>, found: &At<A>) -> Result<(), AllocError>
    ensures { OnOk result
        (text.new.items ≡ text.old.items ++ at_text found.now.inside found.now.border) }
{
    text.extend_from_slice(b"inside:")?;
    push_features(text, &found.inside)?;
    text.extend_from_slice(b" border:")?;
    push_features(text, &found.border)?;
    Ok(())
}

/// Appends the features that have a segment in common with a feature.
fn push_neighbours<A: Allocator + Copy>(
    text: &mut Vec<u8, A>,
    found: &Numbers<A>,
) -> Result<(), AllocError>
    ensures { OnOk result (text.new.items ≡ text.old.items ++ neighbours_text found.now) }
{
    text.extend_from_slice(b"neighbours:")?;
    push_features(text, found)?;
    Ok(())
}

/// Appends the text of an answer that is no refusal.
fn push_answer<A: Allocator + Copy>(
    text: &mut Vec<u8, A>,
    answer: &Answer<A>,
) -> Result<(), AllocError>
    ensures { OnOk result
        (text.new.items ≡ text.old.items ++ answer_text (answer_of answer.now)) }
{
    match answer {
        Answer::Done => text.extend_from_slice(b"ok")?,
        Answer::Thinned(removed) => push_ok(text, *removed)?,
        Answer::Made(number) => push_ok(text, *number)?,
        Answer::Area(area) => push_number(text, *area)?,
        Answer::At(found) => push_at(text, found)?,
        Answer::Neighbours(found) => push_neighbours(text, found)?,
    }
    Ok(())
}

/// Answers a command. Answers whether it was refused.
pub(crate) fn reply_to<A: Allocator + Copy>(
    editor: &mut Editor<'_, TreeIndex<A>, A>,
    command: Command,
    text: &mut Vec<u8, A>,
) -> Result<bool, AllocError>
    requires { IsSound command }
    ensures { IfOk result (λ refuses. Replied editor.old editor.new (command_of command)
        text.old.items text.new.items refuses) }
{
    match editor.apply(command) {
        Ok(answer) => {
            push_answer(text, &answer)?;
            Ok(false)
        }
        Err(fault) => {
            push_refusal(text, fault)?;
            Ok(true)
        }
    }
}

/// Takes the newest change back. Answers whether it was refused.
pub(crate) fn reply_to_undo<A: Allocator + Copy>(
    editor: &mut Editor<'_, TreeIndex<A>, A>,
    text: &mut Vec<u8, A>,
) -> Result<bool, AllocError>
    ensures { IfOk result (λ refuses.
        Replied editor.old editor.new Undo text.old.items text.new.items refuses) }
{
    match editor.undo() {
        Ok(()) => {
            text.extend_from_slice(b"ok")?;
            Ok(false)
        }
        Err(UndoFault::NothingToUndo) => {
            text.extend_from_slice(b"refused nothing to undo")?;
            Ok(true)
        }
        Err(UndoFault::OutOfMemory) => Err(AllocError),
    }
}
