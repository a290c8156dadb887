//! What tests do with the editor of a map, of which an allocation may be refused.
use crate::copies::copy_again;
use crate::edited::{gives_an_id, moves_a_corner, sees_squares};
use crate::maps::{GridEditor, GridMap, Heap, map_of};
use crate::refused::{Row, Tally, Usual, learn, there_and_back};
use crate::stage::{Stage, is_in};
use std::alloc::Global;
use test_aids::Refusing;
use undo_ring::Editor;

/// How many changes an editor keeps.
pub(crate) const DEPTH: usize = 9;

/// What a test does with an editor.
#[derive(Clone, Copy)]
pub(crate) enum Job {
    /// It does nothing.
    Open,
    /// It gives it these lines, and keeps what they make of the map.
    Learn(&'static [Row]),
    /// It gives it the usual lines and takes them back.
    Lines,
    /// It gives it the first of two usual lines, and a copy of its map the second.
    Copies,
    MoveACorner,
    SeeSquares,
    GiveAnId,
}

/// What came of a job.
#[derive(Clone, Copy)]
pub(crate) enum Came {
    /// There was no memory for the map.
    NoMap,
    /// There was none for the history; whether the map was handed back as it is before the first of the
    /// usual lines.
    HandedBack(bool),
    /// How many allocations were refused; `None` where something was not as it should be.
    Done(Option<Tally>),
}

/// No allocation was refused, where it is so.
fn none_refused(is_so: bool) -> Option<Tally> {
    if is_so { Some([0, 0, 0]) } else { None }
}

/// Whether the map is as it is before the first of the usual lines.
fn is_as_before<'h>(alloc: Global, calm: Heap<'h>, map: &GridMap<'h>, usuals: &[Usual]) -> bool {
    match usuals.first() {
        Some(usual) => is_in(alloc, calm, map, &usual.before),
        None => false,
    }
}

/// Does the job.
fn work(stage: &mut Stage<'_>, job: Job, usuals: &mut Vec<Usual>) -> Option<Tally> {
    match job {
        Job::Open => none_refused(true),
        Job::Learn(rows) => none_refused(learn(stage, rows, usuals)),
        Job::Lines => there_and_back(stage, usuals.as_slice()),
        Job::Copies => copy_again(stage, usuals.as_slice()),
        Job::MoveACorner => none_refused(moves_a_corner(stage)),
        Job::SeeSquares => none_refused(sees_squares(stage.editor.map())),
        Job::GiveAnId => none_refused(gives_an_id(stage)),
    }
}

/// What a test has beside the map.
#[derive(Clone, Copy)]
struct Given<'h> {
    alloc: Global,
    heap: Heap<'h>,
    calm: Heap<'h>,
    is_calm: bool,
    job: Job,
}

/// Does the job with this editor.
fn with_editor<'h>(given: &Given<'h>, editor: GridEditor<'h>, usuals: &mut Vec<Usual>) -> Came {
    let mut stage = Stage {
        alloc: given.alloc,
        heap: given.heap,
        calm: given.calm,
        editor,
        is_calm: given.is_calm,
    };
    let done = work(&mut stage, given.job, usuals);
    drop(stage);
    Came::Done(done)
}

/// Does the job with an editor of this map.
fn with_map<'h>(given: &Given<'h>, map: GridMap<'h>, usuals: &mut Vec<Usual>) -> Came {
    match Editor::new(given.heap, map, DEPTH) {
        Ok(editor) => with_editor(given, editor, usuals),
        Err(map) => {
            let is_so = is_as_before(given.alloc, given.calm, &map, usuals.as_slice());
            drop(map);
            Came::HandedBack(is_so)
        }
    }
}

/// Opens the map of the text, and does the job with its editor.
fn with_text(given: &Given<'_>, text: &'static str, usuals: &mut Vec<Usual>) -> Came {
    match map_of(given.heap, given.alloc, text) {
        Some(map) => with_map(given, map, usuals),
        None => Came::NoMap,
    }
}

/// Opens the map of the text, and does the job with its editor; the allocation of this number is
/// refused, and none where it is 0. Gives what came of it, and whether there was such an allocation.
pub(crate) fn on_editor(
    alloc: Global,
    text: &'static str,
    nth: u64,
    job: Job,
    usuals: &mut Vec<Usual>,
) -> (Came, bool) {
    let (heap, calm) = (Refusing::new(alloc, nth), Refusing::new(alloc, 0));
    let given = Given {
        alloc,
        heap: &heap,
        calm: &calm,
        is_calm: nth == 0,
        job,
    };
    let came = with_text(&given, text, usuals);
    (came, heap.was_refused())
}
