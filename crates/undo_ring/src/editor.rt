ghost use Rattle.std.specs.Prelude.{◌≡◌, ◌≤◌, OnOk, IfOk, IfErr};
ghost use Rattle.ring_machine.specs.Common.{KeepsSides};
ghost use Rattle.edit_records.specs.Commands.{command_of, IsSound};
ghost use Rattle.undo_ring.specs.Edited.{with_no_history, Applies, EditsVertices, CommandFails, IsUndone, StaysDone};
ghost use Rattle.undo_ring.specs.Trails.{records_kept};

use crate::answer::Answer;
use crate::answering::answer_near;
use crate::near::{Near, touched_by};
use arc_store::{EditFault, Map, Record};
use circular_buffer::HeapCircularBuffer;
use edit_records::Command;
use segment_index::SegIndex;
use std::alloc::{Allocator, Global};
use std::marker::Model;

/// Why nothing was taken back.
#[derive(Clone, Copy, Debug, PartialEq, Eq)]
pub enum UndoFault {
    /// No change is kept.
    NothingToUndo,
    /// There was no memory. Nothing was changed but the count of tests.
    OutOfMemory,
}

/// Puts a record before the others, where there is one.
fn keep<'a, A: Allocator + Copy>(
    records: &mut HeapCircularBuffer<Record<'a, A>, A>,
    made: Option<Record<'a, A>>,
)
    ensures { records.new ≡ records_kept records.old made.entry }
{
    if let Some(made) = made {
        let _ = records.push_front(made);
    }
}

/// A map and the history of its newest changes. It is seen as the map, the documents from before these
/// changes, the newest one first, and how many changes are kept at most. No copy of the map is made:
/// a change costs the record of what it changed.
#[derive(Drop)]
pub struct Editor<'a, I: SegIndex, A: Allocator + Copy = Global> {
    alloc: A,
    held: Map<'a, I, A>,
    records: HeapCircularBuffer<Record<'a, A>, A>,
    near: Near<A>,
}

impl<'a, I: SegIndex, A: Allocator + Copy> Model for Editor<'a, I, A> {
    ghost use Rattle.std.specs.Prelude.{map};
    ghost use Rattle.arc_store.specs.Recorded.{record_seen};
    ghost use Rattle.undo_ring.specs.Edited.{Edited};
    ghost use Rattle.undo_ring.specs.Trails.{edited_by, IsEditor};

    ghost Value = { Edited };

    ghost view = { λ e. edited_by record_seen e.held e.records };

    ghost invariant = { λ e. IsEditor e.held (map record_seen e.records.items) e.near };
}

impl<'a, I: SegIndex, A: Allocator + Copy> Editor<'a, I, A> {
    /// A map with no history yet, of which so many changes will be kept. Fails only on allocation
    /// failure, and then hands the map back.
    pub fn new(alloc: A, mut map: Map<'a, I, A>, depth: usize) -> Result<Self, Map<'a, I, A>>
        requires least { 1 ≤ depth }
        requires most { depth ≤ 1000 }
        ensures made { IfOk result (λ editor. editor ≡ with_no_history map.entry depth) }
        ensures back { IfErr result (λ back. back ≡ map.entry) }
    {
        match HeapCircularBuffer::with_capacity(alloc, depth) {
            Ok(records) => {
                let _ = map.take_record();
                Ok(Editor {
                    alloc,
                    held: map,
                    records,
                    near: Near::new(),
                })
            }
            Err(_) => Err(map),
        }
    }

    /// The map.
    pub fn map(&self) -> &Map<'a, I, A>
        ensures { result.now ≡ self.now.map }
    {
        &self.held
    }

    /// Answers a command: it is a step of the machine. An edit that is not refused is one change, a
    /// thinning where it left something out. A refusal changes nothing but the count of tests.
    /// Allocation failure may stop a thinning on the way: what was left out so far is one change then.
    /// An edit of vertices leaves every position on its side of every ring. The first question for what
    /// is at a position walks the map; the others look near the position.
    pub fn apply(&mut self, command: Command) -> Result<Answer<A>, EditFault>
        requires { IsSound command }
        ensures applied { IfOk result
            (λ answer. Applies self.old self.new (command_of command) answer) }
        ensures failed { IfErr result
            (λ fault. CommandFails fault self.old self.new (command_of command)) }
        ensures sides { EditsVertices (command_of command)
            → KeepsSides self.old.map.doc self.new.map.doc }
    {
        let touched = touched_by(&command, self.held.next_number());
        let answer = answer_near(self.alloc, &mut self.held, &mut self.near, command);
        let made = self.held.take_record();
        self.near.follow(&self.held, touched, made.is_some());
        keep(&mut self.records, made);
        answer
    }

    /// Takes the newest change back that is kept. The next number stays.
    pub fn undo(&mut self) -> Result<(), UndoFault>
        ensures undone { OnOk result (IsUndone self.old self.new) }
        ensures failed { IfErr result (λ fault. StaysDone fault self.old self.new) }
    {
        let _kept = self.records.len();
        let Some(made) = self.records.pop_front() else {
            return Err(UndoFault::NothingToUndo);
        };
        match self.held.restore(made) {
            Ok(()) => {
                self.near.step_back();
                Ok(())
            }
            Err(made) => {
                let _ = self.records.push_front(made);
                Err(UndoFault::OutOfMemory)
            }
        }
    }
}
