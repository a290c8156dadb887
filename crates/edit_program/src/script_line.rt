//! A line of a script, as its bytes come.
ghost use Rattle.std.specs.Prelude.{◌≡◌, ◌≤◌, length};

use script_lines::without_return;
use std::alloc::{AllocError, Global};
use std::str;

/// The most bytes of a line that are kept.
const MAX_LINE: usize = 8192;

/// A line of a script.
#[derive(Drop)]
pub(crate) struct ScriptLine {
    /// Its number, from 1.
    pub(crate) number: u64,
    /// Its bytes up to its line feed; of a longer line the first 8,192.
    pub(crate) bytes: Vec<u8>,
    /// Whether its line feed has come.
    pub(crate) is_ended: bool,
    /// Whether it has more than 8,192 bytes.
    pub(crate) is_over: bool,
    ghost within: { length bytes.items ≤ 8192 },
}

impl ScriptLine {
    ghost use Rattle.std.specs.Prelude.{[], false, MatchBool, OnOk};
    ghost use Rattle.edit_program.specs.Listing.{TakesMore, IsSkipped, listed_text};

    /// A line of this number that has no bytes yet.
    pub(crate) fn new(alloc: Global, number: u64) -> ScriptLine
        ensures number { result.number ≡ number }
        ensures bytes { result.bytes.items ≡ [] }
        ensures ended { result.is_ended ≡ false }
        ensures over { result.is_over ≡ false }
    {
        ScriptLine {
            number,
            bytes: Vec::new(alloc),
            is_ended: false,
            is_over: false,
        }
    }

    /// Gains its next bytes, none of them a line feed.
    pub(crate) fn gain(&mut self, bytes: &[u8]) -> Result<(), AllocError>
        ensures { OnOk result (TakesMore self.old bytes.now self.new) }
    {
        let kept = bytes.len().min(MAX_LINE - self.bytes.len());
        self.bytes.extend_from_slice(&bytes[..kept])?;
        self.is_over |= kept < bytes.len();
        Ok(())
    }

    /// What of it is read: its bytes without the carriage return before its line feed. Of a line that
    /// was cut all that is kept.
    pub(crate) fn text(&self) -> &[u8]
        ensures text { result.now ≡ listed_text self.now }
        ensures within { length result.now ≤ 8192 }
    {
        let bytes = self.bytes.as_slice();
        if self.is_ended && !self.is_over {
            without_return(bytes)
        } else {
            bytes
        }
    }

    /// Whether the line has no answer: it is empty, or a comment.
    pub(crate) fn is_skipped(&self) -> bool
        ensures { MatchBool result (IsSkipped self.now) (¬ IsSkipped self.now) }
    {
        if self.is_over {
            return false;
        }
        let text = self.text();
        match text {
            [] => true,
            [first, ..] => *first == b'#' && str::from_utf8(text).is_ok(),
        }
    }
}
