//! Answers that are noted while they are written.
ghost use Rattle.std.specs.Prelude.{◌≡◌, ◌||◌, true, false, OnOk, OnErr};
ghost use Rattle.std.specs.Io.KnownBytes.{Keeps};

use crate::refused_lines::RefusedLines;
use crate::taken::{Taken, passed};
use device_io::{Failed, Sink};
use std::cell::RefCell;

/// A sink that passes answers on to another, and shows them to the list of refused lines. Where
/// answers can't be noted there, the next call fails.
#[derive(Drop)]
pub struct NotedAnswers<'a, W> {
    /// The sink that the bytes go to.
    sink: W,
    list: &'a RefCell<RefusedLines>,
    is_short: bool,
    failed: bool,
}

impl<'a, W> NotedAnswers<'a, W> {
    ghost use Rattle.edit_program.specs.Keeping.{sink_of, is_cut, fails_alone};

    /// A sink over this one, which no answer has gone to.
    pub fn new(list: &'a RefCell<RefusedLines>, sink: W) -> Self
        ensures sink { sink_of result ≡ sink }
        ensures whole { is_cut result ≡ false }
        ensures works { fails_alone result ≡ false }
    {
        NotedAnswers {
            sink,
            list,
            is_short: false,
            failed: false,
        }
    }

    /// Whether some answers were not noted.
    pub fn is_short(&self) -> bool
        ensures { result ≡ is_cut self.now }
    {
        self.is_short
    }

    /// Fails where answers were not noted.
    fn pass(&mut self) -> Result<(), Failed>
        ensures sink { sink_of self.new ≡ sink_of self.old }
        ensures short { is_cut self.new ≡ is_cut self.old }
        ensures whole { OnOk result (is_cut self.new ≡ false) }
        ensures works { OnOk result (fails_alone self.new ≡ fails_alone self.old) }
        ensures failed { OnErr result (fails_alone self.new ≡ true) }
    {
        if self.is_short {
            self.failed = true;
            return Err(Failed);
        }
        Ok(())
    }

    /// Notes the bytes that the sink has taken, or that they could not be noted. What was not noted once stays
    /// so.
    fn note(&mut self, taken: Taken<'_>)
        ensures sink { sink_of self.new ≡ sink_of self.old }
        ensures works { fails_alone self.new ≡ fails_alone self.old }
        ensures short { is_cut self.old ≡ true → is_cut self.new ≡ true }
    {
        let piece = taken.bytes();
        let noted = match self.list.try_borrow_mut() {
            Ok(mut list) => list.take_answers(piece).is_ok(),
            Err(_) => false,
        };
        self.is_short |= !noted;
    }
}

impl<W: Sink> Sink for NotedAnswers<'_, W> {
    ghost use Rattle.edit_program.specs.Keeping.{sink_of, is_cut, fails_alone};

    ghost taken = { λ s. W.taken (sink_of s) };

    ghost has_failed = { λ s. fails_alone s || W.has_failed (sink_of s) };

    ghost is_flushed = { λ s. W.is_flushed (sink_of s) };

    fn put(&mut self, piece: &[u8]) -> Result<usize, Failed> {
        self.pass()?;
        let taken = passed(&mut self.sink, piece)?;
        let n = taken.count();
        self.note(taken);
        Ok(n)
    }

    fn flush(&mut self) -> Result<(), Failed>
        requires { (fails_alone self.old || W.has_failed (sink_of self.old)) ≡ false }
        ensures kept { Keeps (W.taken (sink_of self.old)) (W.taken (sink_of self.new)) }
        ensures sent { OnOk result (W.is_flushed (sink_of self.new) ≡ true) }
        ensures works { OnOk result
            ((fails_alone self.new || W.has_failed (sink_of self.new)) ≡ false) }
        ensures failed { OnErr result
            ((fails_alone self.new || W.has_failed (sink_of self.new)) ≡ true) }

        // Answers are not sent on as whole where some of them were not noted.
        ensures whole { OnOk result (is_cut self.new ≡ false) }
    {
        self.pass()?;
        self.sink.flush()
    }
}
