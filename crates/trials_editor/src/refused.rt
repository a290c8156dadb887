//! Growths that are refused in turn: those of opening, of each command and of its undo. A command that
//! was refused one has changed nothing, or is a thinning that left some out, which is one change; an
//! undo that was refused one has changed nothing. Made again, each has its usual answer. A map of which
//! the history was refused one is handed back.
ghost use Rattle.std.specs.Prelude.{◌≤◌};

use crate::answers::{Said, Wanted};
use crate::jobs::{Came, Job, on_editor};
use crate::stage::{Stage, State, Step};
use std::alloc::Global;
use std::slice;

/// More than the allocations of any run below.
const MANY: u64 = 4000;

/// A line, what is wanted of it where there is memory, and how many allocations are refused at least: of
/// the call, of a thinning that was made in part, and of the undo. None is where none is to be. The
/// first line of a history has the numbers of all of it.
pub(crate) type Row = (&'static str, Wanted, Tally);

/// How many calls, calls that were made in part, and undos were refused an allocation.
pub(crate) type Tally = [u32; 3];

/// A line, what was said of it where there was memory, and the map before and after it.
#[derive(Drop)]
pub(crate) struct Usual {
    row: &'static Row,
    said: Said,
    pub(crate) before: State,
    pub(crate) after: State,
}

impl Usual {
    /// The line, as a step.
    pub(crate) fn step(&self) -> Step<'_> {
        Step::Say(self.row.0, &self.row.1)
    }

    /// Whether the line changes the map.
    fn is_change(&self) -> bool {
        self.before.text.as_slice() != self.after.text.as_slice()
    }
}

// ---- where there is memory

/// Gives the line of a row to the editor; what it makes of the map.
fn usual_of(stage: &mut Stage<'_>, row: &'static Row) -> Usual {
    let before = stage.state();
    let said = stage.take(&Step::Say(row.0, &row.1));
    let after = stage.state();
    Usual {
        row,
        said,
        before,
        after,
    }
}

/// Gives the lines of the rows to the editor, and appends what they make of the map; whether each is
/// answered as is wanted.
pub(crate) fn learn(stage: &mut Stage<'_>, rows: &'static [Row], usuals: &mut Vec<Usual>) -> bool {
    let mut are_so = true;
    for row in rows {
        let usual = usual_of(stage, row);
        are_so &= usual.said.is_wanted();
        are_so &= usuals.push(usual).is_ok();
    }
    are_so
}

// ---- where an allocation is refused

/// What came of a step where an allocation may be refused.
#[derive(Clone, Copy)]
enum Outcome {
    /// It had its answer.
    Usual,
    /// It was refused one, and changed nothing.
    Refused,
    /// It was refused one, and was made in part.
    Part,
    Wrong,
}

/// What came of a step that was refused memory, and of the same step again.
fn outcome_of(step: &Step<'_>, was_same: bool, again: Said) -> Outcome {
    match (again, step) {
        (Said::Wanted, _) if was_same => Outcome::Refused,
        (Said::Other, Step::Say(_, Wanted::Thinned(_))) => Outcome::Part,
        _ => Outcome::Wrong,
    }
}

/// Takes a step again that was refused memory, where the map was in this state, with this next number.
fn take_again(stage: &mut Stage<'_>, step: &Step<'_>, here: &State, next: u32) -> Outcome {
    let was_same = stage.is_in(here);
    let is_next = stage.editor.map().next_number() == next;
    let again = stage.take(step);
    outcome_of(step, was_same & is_next, again)
}

/// Takes a step, again where it was refused memory. Until then the map was in this state, with the same
/// next number.
fn take_twice(stage: &mut Stage<'_>, step: &Step<'_>, here: &State) -> Outcome {
    let next = stage.editor.map().next_number();
    match stage.take(step) {
        Said::Wanted => Outcome::Usual,
        Said::Other => Outcome::Wrong,
        Said::NoMemory => take_again(stage, step, here, next),
    }
}

/// Counts what came of a line; whether it is one that may come.
fn count_line(tally: &mut Tally, outcome: Outcome) -> bool {
    let [calls, parts, undos] = *tally;
    match outcome {
        Outcome::Usual => (),
        Outcome::Refused => *tally = [calls.wrapping_add(1), parts, undos],
        Outcome::Part => *tally = [calls, parts.wrapping_add(1), undos],
        Outcome::Wrong => return false,
    }
    true
}

/// Counts what came of an undo; whether it is one that may come.
fn count_undo(tally: &mut Tally, outcome: Outcome) -> bool {
    let [calls, parts, undos] = *tally;
    match outcome {
        Outcome::Usual => (),
        Outcome::Refused => *tally = [calls, parts, undos.wrapping_add(1)],
        _ => return false,
    }
    true
}

/// Gives a line to the editor; whether the map is then as it usually is.
fn go(stage: &mut Stage<'_>, usual: &Usual, tally: &mut Tally) -> bool {
    let outcome = take_twice(stage, &usual.step(), &usual.before);
    let is_after = stage.is_in(&usual.after);
    count_line(tally, outcome) & is_after
}

/// Whether the map is as before the line. A thinning that was made in part, and then to its end, is two
/// changes, and the first of them is taken back here.
fn is_back(stage: &mut Stage<'_>, usual: &Usual, is_in_part: bool) -> bool {
    let is_whole = !is_in_part || stage.take(&Step::Undo).is_wanted();
    stage.is_in(&usual.before) & is_whole
}

/// Takes a change back; whether the map is then as before it. An undo tests nothing.
fn come_back(stage: &mut Stage<'_>, usual: &Usual, tally: &mut Tally) -> bool {
    if !usual.is_change() {
        return true;
    }
    let [_, parts, _] = *tally;
    let outcome = take_twice(stage, &Step::Undo, &usual.after);
    let is_untested = stage.editor.map().tests() == 0;
    let is_back = is_back(stage, usual, 0 < parts);
    count_undo(tally, outcome) & is_untested & is_back
}

/// Gives a line to the editor once more, and takes it back. The number of a new feature is another one.
fn goes_again(stage: &mut Stage<'_>, usual: &Usual) -> bool {
    if !usual.is_change() {
        return true;
    }
    let said = stage.take(&usual.step());
    let is_after = stage.is_in(&usual.after);
    let is_undone = stage.take(&Step::Undo).is_wanted();
    let is_back = stage.is_in(&usual.before);
    !matches!(said, Said::NoMemory) & is_after & is_undone & is_back
}

/// Gives the lines to the editor.
fn go_all(stage: &mut Stage<'_>, usuals: &[Usual], tally: &mut Tally) -> bool {
    let mut are_so = true;
    for usual in usuals {
        are_so &= go(stage, usual, tally);
    }
    are_so
}

/// Takes all changes back, the newest first.
fn come_back_all(stage: &mut Stage<'_>, usuals: &[Usual], tally: &mut Tally) -> bool {
    let mut are_so = true;
    for usual in usuals.iter().rev() {
        are_so &= come_back(stage, usual, tally);
    }
    are_so
}

/// A single line is given to the editor once more where an allocation was refused by then.
fn goes_on(stage: &mut Stage<'_>, usuals: &[Usual]) -> bool {
    match usuals {
        [usual] if stage.heap.was_refused() => goes_again(stage, usual),
        _ => true,
    }
}

/// Gives the lines to the editor and takes all changes back; a single line once more where an allocation
/// was refused by then. No other change is kept.
pub(crate) fn there_and_back(stage: &mut Stage<'_>, usuals: &[Usual]) -> Option<Tally> {
    let mut tally = [0u32; 3];
    let is_there = go_all(stage, usuals, &mut tally);
    let is_back = come_back_all(stage, usuals, &mut tally);
    let is_again = goes_on(stage, usuals);
    let no_other = matches!(stage.take(&Step::Undo), Said::Other);
    if is_there & is_back & is_again & no_other {
        Some(tally)
    } else {
        None
    }
}

// ---- each in turn

/// The number of the first allocation after the editor of the text is there. Each one before is refused
/// in turn, the last of them to the history, and then there is none. `None` where it is not so.
fn first_growth(alloc: Global, text: &'static str, usuals: &mut Vec<Usual>) -> Option<u64> {
    let mut was_handed_back = false;
    for nth in 1..MANY {
        match on_editor(alloc, text, nth, Job::Open, usuals) {
            (Came::NoMap, true) if !was_handed_back => (),
            (Came::HandedBack(true), true) if !was_handed_back => was_handed_back = true,
            (Came::Done(Some(_)), false) if was_handed_back => return Some(nth),
            _ => return None,
        }
    }
    None
}

/// Adds what was refused.
fn add(sum: &mut Tally, tally: Tally) {
    let ([calls, parts, undos], [more_calls, more_parts, more_undos]) = (*sum, tally);
    *sum = [
        calls.wrapping_add(more_calls),
        parts.wrapping_add(more_parts),
        undos.wrapping_add(more_undos),
    ];
}

/// Does the job with each allocation from this one on refused in turn; how many were. `None` where
/// something is not as it should be, also where memory was wanting and no allocation was refused.
fn refuse_each(
    alloc: Global,
    text: &'static str,
    job: Job,
    usuals: &mut Vec<Usual>,
    first: u64,
) -> Option<Tally> {
    let mut sum = [0u32; 3];
    for after in 0..MANY {
        let (came, was_refused) = on_editor(alloc, text, first.saturating_add(after), job, usuals);
        let Came::Done(Some(tally)) = came else {
            return None;
        };
        if !was_refused {
            return if tally == [0u32; 3] { Some(sum) } else { None };
        }
        add(&mut sum, tally);
    }
    None
}

/// Whether there were at least so many, and none where there are to be none.
fn is_enough(count: u32, least: u32) -> bool {
    least <= count && (0 < least || count == 0)
}

/// The same of each number.
fn are_enough(tally: Tally, least: Tally) -> bool {
    let ([calls, parts, undos], [least_calls, least_parts, least_undos]) = (tally, least);
    is_enough(calls, least_calls) && is_enough(parts, least_parts) && is_enough(undos, least_undos)
}

/// What the lines make of the map of the text where there is memory; `None` where one is answered
/// otherwise than is wanted.
fn learnt(alloc: Global, text: &'static str, rows: &'static [Row]) -> Option<Vec<Usual>> {
    let mut usuals = Vec::new(alloc);
    match on_editor(alloc, text, 0, Job::Learn(rows), &mut usuals) {
        (Came::Done(Some(_)), false) => Some(usuals),
        _ => None,
    }
}

/// Whether the job goes as usual where no allocation is refused.
fn goes_as_usual(alloc: Global, text: &'static str, job: Job, usuals: &mut Vec<Usual>) -> bool {
    match on_editor(alloc, text, 0, job, usuals) {
        (Came::Done(Some(tally)), false) => tally == [0u32; 3],
        _ => false,
    }
}

/// Whether a job is as it should be with these lines, where no allocation is refused, and where each from
/// this one on is in turn.
fn is_right(alloc: Global, text: &'static str, rows: &'static [Row], job: Job, first: u64) -> bool {
    let Some(row) = rows.first() else {
        return false;
    };
    let Some(mut usuals) = learnt(alloc, text, rows) else {
        return false;
    };
    let is_usual = goes_as_usual(alloc, text, job, &mut usuals);
    match refuse_each(alloc, text, job, &mut usuals, first) {
        Some(tally) => are_enough(tally, row.2) & is_usual,
        None => false,
    }
}

/// The number of the first allocation after the editor of the text is there, by the first of these
/// lines.
fn opening(alloc: Global, text: &'static str, rows: &'static [Row]) -> Option<u64> {
    let mut usuals = learnt(alloc, text, slice::from_ref(rows.first()?))?;
    first_growth(alloc, text, &mut usuals)
}

/// The first line of the first of these histories, of so many lines each, with which something is not as
/// it should be.
pub(crate) fn first_wrong(
    alloc: Global,
    text: &'static str,
    rows: &'static [Row],
    size: usize,
    job: Job,
) -> Option<&'static str>
    requires { 1 ≤ size }
{
    let Some(first) = opening(alloc, text, rows) else {
        return Some("opening");
    };
    for history in rows.chunks(size) {
        if !is_right(alloc, text, history, job, first) {
            return Some(history.first()?.0);
        }
    }
    None
}
