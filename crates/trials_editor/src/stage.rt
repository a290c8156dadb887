//! An editor under test: it is given lines, and its map is looked at.
use crate::answers::{Said, Wanted, command_of, said_of};
use crate::maps::{GridEditor, GridMap, Heap};
use device_io::ToWriter;
use grid_geometry::{Pos, Seg};
use std::alloc::Global;
use topo_writer::write;
use undo_ring::UndoFault;

/// How many features, vertices, segments and positions a map has, and how many rings have each side of
/// each outer ring, all added up.
pub(crate) type Counts = (usize, usize, usize, usize, usize);

/// How a map is written, and its counts.
#[derive(Drop)]
pub(crate) struct State {
    pub(crate) text: Vec<u8>,
    pub(crate) counts: Counts,
}

impl State {
    /// Whether the other one is the same, and both were written.
    pub(crate) fn is_same(&self, other: &State) -> bool {
        let is_alike = self.text.as_slice() == other.text.as_slice();
        is_alike & (self.counts == other.counts) & !self.text.is_empty()
    }
}

/// An editor in a heap that may refuse an allocation. A heap that refuses none writes its map, and the
/// test itself takes memory elsewhere.
#[derive(Drop)]
pub(crate) struct Stage<'h> {
    pub(crate) alloc: Global,
    pub(crate) heap: Heap<'h>,
    pub(crate) calm: Heap<'h>,
    pub(crate) editor: GridEditor<'h>,
    /// Whether none is refused. Where one is, the map is as where none is until then, and is looked at
    /// from then on: so no look takes the memory that is refused.
    pub(crate) is_calm: bool,
}

/// What an editor is asked to do.
#[derive(Clone, Copy)]
pub(crate) enum Step<'s> {
    Say(&'s str, &'s Wanted),
    Undo,
}

impl<'h> Stage<'h> {
    /// Gives a line to the editor; what it is answered.
    fn say(&mut self, line: &str, wanted: &Wanted) -> Said {
        match command_of(self.alloc, line) {
            Some(command) => said_of(&self.editor.apply(command), wanted),
            None => Said::Other,
        }
    }

    /// Has the editor do this.
    pub(crate) fn take(&mut self, step: &Step<'_>) -> Said {
        match step {
            Step::Say(line, wanted) => self.say(line, wanted),
            Step::Undo => match self.editor.undo() {
                Ok(()) => Said::Wanted,
                Err(UndoFault::OutOfMemory) => Said::NoMemory,
                Err(UndoFault::NothingToUndo) => Said::Other,
            },
        }
    }

    /// The state of the editor's map.
    pub(crate) fn state(&self) -> State {
        state_of(self.alloc, self.calm, self.editor.map())
    }

    /// Whether this is the state of the editor's map, where it is looked at.
    pub(crate) fn is_in(&self, state: &State) -> bool {
        if self.is_calm || self.heap.was_refused() {
            is_in(self.alloc, self.calm, self.editor.map(), state)
        } else {
            true
        }
    }
}

/// How many rings have the segment of these positions.
fn users_of(map: &GridMap<'_>, p: Pos, q: Pos) -> usize {
    match Seg::new(p, q) {
        Some(side) => map.uses(side),
        None => 0,
    }
}

/// How many rings have each side of the first outer ring of this feature but its last, added up.
fn users_along(map: &GridMap<'_>, n: u32) -> usize {
    let Some(positions) = map.ring(n, 0, 0) else {
        return 0;
    };
    let (mut users, mut last): (usize, Option<Pos>) = (0, None);
    for p in positions {
        if let Some(before) = last {
            users = users.wrapping_add(users_of(map, before, p));
        }
        last = Some(p);
    }
    users
}

/// The counts of the map.
pub(crate) fn counts_of(map: &GridMap<'_>) -> Counts {
    let mut users = 0usize;
    for n in 0..map.next_number() {
        users = users.wrapping_add(users_along(map, n));
    }
    (
        map.feature_count(),
        map.vertex_count(),
        map.segment_count(),
        map.position_count(),
        users,
    )
}

/// The text of the map; empty where there is no memory for it.
fn text_of<'h>(alloc: Global, calm: Heap<'h>, map: &GridMap<'h>) -> Vec<u8> {
    let mut out = ToWriter::new(Vec::new(alloc));
    match write(calm, map, &mut out) {
        Ok(()) => out.writer,
        Err(_) => Vec::new(alloc),
    }
}

/// The state of the map.
pub(crate) fn state_of<'h>(alloc: Global, calm: Heap<'h>, map: &GridMap<'h>) -> State {
    State {
        text: text_of(alloc, calm, map),
        counts: counts_of(map),
    }
}

/// Whether this is the state of the map.
pub(crate) fn is_in<'h>(alloc: Global, calm: Heap<'h>, map: &GridMap<'h>, state: &State) -> bool {
    let found = state_of(alloc, calm, map);
    found.is_same(state)
}
