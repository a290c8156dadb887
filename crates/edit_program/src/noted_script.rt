//! A script that is noted while it is read.
ghost use Rattle.std.specs.Prelude.{◌≡◌, ◌||◌, ◌<◌, ◌≤◌, false, true, take, length, IfOk, OnOk, OnErr};
ghost use Rattle.std.specs.Io.KnownBytes.{Keeps, Consumes, IsAtEnd};

use crate::refused_lines::RefusedLines;
use device_io::{Failed, Source};
use std::cell::RefCell;

/// A source that gives what another gives, and shows it to the list of refused lines. Where a piece
/// can't be noted there, the next call fails.
#[derive(Drop)]
pub struct NotedScript<'a, R> {
    /// The source that the bytes come from.
    source: R,
    list: &'a RefCell<RefusedLines>,
    is_short: bool,
    failed: bool,
}

impl<'a, R> NotedScript<'a, R> {
    ghost use Rattle.edit_program.specs.Keeping.{source_of, is_short, fails_noted};

    /// A source over this one, of which nothing is noted yet.
    pub fn new(list: &'a RefCell<RefusedLines>, source: R) -> Self
        ensures source { source_of result ≡ source }
        ensures whole { is_short result ≡ false }
        ensures works { fails_noted result ≡ false }
    {
        NotedScript {
            source,
            list,
            is_short: false,
            failed: false,
        }
    }

    /// The source that the bytes come from.
    pub fn source(&self) -> &R
        ensures { result.now ≡ source_of self.now }
    {
        &self.source
    }

    /// Whether some piece was not noted.
    pub fn is_short(&self) -> bool
        ensures { result ≡ is_short self.now }
    {
        self.is_short
    }

    /// Fails where a piece was not noted.
    fn pass(&mut self) -> Result<(), Failed>
        ensures source { source_of self.new ≡ source_of self.old }
        ensures short { is_short self.new ≡ is_short self.old }
        ensures whole { OnOk result (is_short self.old ≡ false) }
        ensures works { OnOk result (fails_noted self.new ≡ fails_noted self.old) }
        ensures failed { OnErr result (fails_noted self.new ≡ true) }
    {
        if self.is_short {
            self.failed = true;
            return Err(Failed);
        }
        Ok(())
    }

    /// Notes a piece, or the end of the script, or that it could not be noted. What was not noted once stays
    /// so.
    fn note(&mut self, piece: &[u8], is_end: bool)
        ensures source { source_of self.new ≡ source_of self.old }
        ensures works { fails_noted self.new ≡ fails_noted self.old }
        ensures short { is_short self.old ≡ true → is_short self.new ≡ true }
    {
        let noted = match self.list.try_borrow_mut() {
            Ok(mut list) if is_end => list.end_script().is_ok(),
            Ok(mut list) => list.take_script(piece).is_ok(),
            Err(_) => false,
        };
        self.is_short |= !noted;
    }
}

impl<R: Source> Source for NotedScript<'_, R> {
    ghost use Rattle.edit_program.specs.Keeping.{source_of, is_short, fails_noted};

    ghost coming = { λ s. R.coming (source_of s) };

    ghost has_failed = { λ s. fails_noted s || R.has_failed (source_of s) };

    fn get(&mut self, room: &mut [u8]) -> Result<usize, Failed>
        requires { (fails_noted self.old || R.has_failed (source_of self.old)) ≡ false }
        ensures within { IfOk result (λ n. n ≤ length room.new) }
        ensures ok { IfOk result (λ n. Consumes (R.coming (source_of self.old))
            (R.coming (source_of self.new)) (take n room.new)) }
        ensures end { IfOk result (λ n.
            n ≡ 0 → 0 < length room.new → IsAtEnd (R.coming (source_of self.new))) }
        ensures works { OnOk result
            ((fails_noted self.new || R.has_failed (source_of self.new)) ≡ false) }
        ensures err { OnErr result
            (Keeps (R.coming (source_of self.old)) (R.coming (source_of self.new))) }
        ensures failed { OnErr result
            ((fails_noted self.new || R.has_failed (source_of self.new)) ≡ true) }

        // A piece comes only where each one before it was noted.
        ensures whole { OnOk result (is_short self.old ≡ false) }
    {
        self.pass()?;
        let n = self.source.get(room)?;
        let is_end = n == 0 && !room.is_empty();
        self.note(&room[..n], is_end);
        Ok(n)
    }
}
