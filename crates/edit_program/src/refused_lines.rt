//! The lines of a script that were refused, seen while the script is read and answered.
use crate::notes::Notes;
use crate::rows::push_row;
use crate::script_line::ScriptLine;
use std::alloc::{AllocError, AllocFailed, Global};
use std::collections::VecDeque;
use std::io::Error;
use std::mem;

/// What came can't be listed: there was no memory, or an answer came before its line.
#[derive(Clone, Copy, Debug, PartialEq, Eq)]
pub struct NotListed;

impl From<AllocError> for NotListed {
    fn from(_error: AllocError) -> NotListed {
        NotListed
    }
}

impl<T: Drop> From<AllocFailed<T>> for NotListed {
    fn from(_error: AllocFailed<T>) -> NotListed {
        NotListed
    }
}

impl From<Error> for NotListed {
    fn from(_error: Error) -> NotListed {
        NotListed
    }
}

/// The refused lines of a script, of which each piece is seen before the answers to the lines that end
/// in it. Of the script it keeps only lines that wait for their answer, and the one that has not ended.
#[derive(Drop)]
pub struct RefusedLines {
    alloc: Global,
    /// The line that has not ended.
    open: ScriptLine,
    /// The lines whose answer has not come, in order.
    waiting: VecDeque<ScriptLine>,
    notes: Notes,
    /// The list: a row for each refused line.
    rows: Vec<u8>,
}

impl RefusedLines {
    ghost use Rattle.std.specs.Prelude.{◌≡◌, [], OnOk};
    ghost use Rattle.edit_program.specs.Listing.{Awaits, EndsLine, Lists, ListsFirst, rows_of, waiting_of};

    /// Nothing was seen.
    pub fn new(alloc: Global) -> RefusedLines
        ensures waiting { waiting_of result ≡ [] }
        ensures rows { rows_of result ≡ [] }
    {
        RefusedLines {
            alloc,
            open: ScriptLine::new(alloc, 1),
            waiting: VecDeque::new(alloc),
            notes: Notes::new(alloc),
            rows: Vec::new(alloc),
        }
    }

    /// The rows of the refused lines, in order: `NUMBER<TAB>ANSWER<TAB>LINE<TAB>WHY<LF>`.
    pub fn rows(&self) -> &[u8]
        ensures { result.now ≡ rows_of self.now }
    {
        self.rows.as_slice()
    }

    /// The same, which the list then has no longer.
    pub(crate) fn take_rows(&mut self) -> Vec<u8>
        ensures { result.items ≡ rows_of self.old }
    {
        mem::replace(&mut self.rows, Vec::new(self.alloc))
    }

    /// The line that was open has ended. It waits for its answer, where it has one.
    fn end_line(&mut self) -> Result<(), NotListed>
        ensures { OnOk result (EndsLine self.old self.new) }
    {
        let next = ScriptLine::new(self.alloc, self.open.number.saturating_add(1));
        let line = mem::replace(&mut self.open, next);
        if !line.is_skipped() {
            self.waiting.push_back(line)?;
        }
        Ok(())
    }

    /// Takes the next bytes of the open line, and the line feed after them where it has come.
    fn take_part(&mut self, part: &[u8]) -> Result<(), NotListed>
        ensures { OnOk result (Awaits self.old self.new) }
    {
        match part.strip_suffix(b"\n") {
            Some(bytes) => {
                self.open.gain(bytes)?;
                self.open.is_ended = true;
                self.end_line()
            }
            None => {
                self.open.gain(part)?;
                Ok(())
            }
        }
    }

    /// Takes the next piece of the script. After an error the list lacks something.
    pub fn take_script(&mut self, piece: &[u8]) -> Result<(), NotListed>
        ensures { OnOk result (Awaits self.old self.new) }
    {
        for part in piece.split_inclusive(|byte| *byte == b'\n') {
            self.take_part(part)?;
        }
        Ok(())
    }

    /// The script has ended. A last line without a line feed counts where it is not empty.
    pub fn end_script(&mut self) -> Result<(), NotListed>
        ensures { OnOk result (Awaits self.old self.new) }
    {
        if self.open.bytes.is_empty() {
            return Ok(());
        }
        self.end_line()
    }

    /// The first line that waits has an answer, and a row where that is a refusal.
    fn answer(&mut self) -> Result<(), NotListed>
        ensures { OnOk result (ListsFirst self.old self.new) }
    {
        let Some(line) = self.waiting.pop_front() else {
            return Err(NotListed);
        };
        match self.notes.refusal() {
            Some(answer) => {
                push_row(self.alloc, &mut self.rows, &line, answer)?;
                Ok(())
            }
            None => Ok(()),
        }
    }

    /// Takes the next bytes of the answers. After an error the list lacks something.
    #[tactic(auto, using(crate::proofs::ListingLemmas::lists_none))]
    pub fn take_answers(&mut self, piece: &[u8]) -> Result<(), NotListed>
        ensures { OnOk result (Lists self.old self.new) }
    {
        for byte in piece {
            if self.notes.take(*byte)? {
                self.answer()?;
            }
        }
        Ok(())
    }
}
