//! How a script ends.
ghost use Rattle.std.specs.Prelude.{◌≡◌, ◌<◌, ◌≤◌, false, true, take, length, IfOk, OnOk, OnErr};
ghost use Rattle.std.specs.Io.KnownBytes.{Keeps, Consumes, IsAtEnd};

use device_io::{Failed, Source};

/// A source that gives what another gives, and knows whether the last byte of it is a line feed.
#[derive(Drop)]
pub struct ScriptTail<R> {
    /// The source that the bytes come from.
    source: R,
    is_whole: bool,
}

impl<R> ScriptTail<R> {
    ghost use Rattle.edit_program.specs.Tail.{script_of, is_whole};

    /// A source over this one, which has given nothing yet.
    pub fn new(source: R) -> Self
        ensures source { script_of result ≡ source }
        ensures whole { is_whole result ≡ true }
    {
        ScriptTail {
            source,
            is_whole: true,
        }
    }

    /// Whether the last byte that came is a line feed, or none came.
    pub fn is_whole(&self) -> bool
        ensures { result ≡ is_whole self.now }
    {
        self.is_whole
    }
}

impl<R: Source> Source for ScriptTail<R> {
    ghost use Rattle.edit_program.specs.Tail.{script_of, is_whole, whole_after};

    ghost coming = { λ s. R.coming (script_of s) };

    ghost has_failed = { λ s. R.has_failed (script_of s) };

    fn get(&mut self, room: &mut [u8]) -> Result<usize, Failed>
        requires { R.has_failed (script_of self.old) ≡ false }
        ensures within { IfOk result (λ n. n ≤ length room.new) }
        ensures ok { IfOk result (λ n. Consumes (R.coming (script_of self.old))
            (R.coming (script_of self.new)) (take n room.new)) }
        ensures end { IfOk result (λ n.
            n ≡ 0 → 0 < length room.new → IsAtEnd (R.coming (script_of self.new))) }
        ensures works { OnOk result (R.has_failed (script_of self.new) ≡ false) }
        ensures err { OnErr result
            (Keeps (R.coming (script_of self.old)) (R.coming (script_of self.new))) }
        ensures failed { OnErr result (R.has_failed (script_of self.new) ≡ true) }

        // The last byte of what was given tells; where no byte came it stays.
        ensures whole { IfOk result (λ n.
            is_whole self.new ≡ whole_after (is_whole self.old) (take n room.new)) }
        ensures unread { OnErr result (is_whole self.new ≡ is_whole self.old) }
    {
        let n = self.source.get(room)?;
        if n > 0 {
            self.is_whole = room[n - 1] == b'\n';
        }
        Ok(n)
    }
}
