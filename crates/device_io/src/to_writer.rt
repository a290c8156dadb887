//! A sink over a writer of std.
ghost use Rattle.std.specs.Prelude.{◌≡◌, false};

use crate::{Failed, Sink};
use std::io::Write;

/// A sink over a writer of std. An error of the writer is a failure, an interrupted write
/// included; so is a writer that takes no byte of a piece that is not empty.
#[derive(Drop)]
pub struct ToWriter<W> {
    /// The writer that the bytes went to.
    pub writer: W,
    failed: bool,
    flushed: bool,
}

impl<W: Write> ToWriter<W> {
    /// A sink that has taken what the writer holds, and has not failed. What the writer holds may be
    /// still to be sent on.
    pub fn new(writer: W) -> Self
        ensures writer { result.writer ≡ writer }
        ensures taken { ⟦<ToWriter<W> as Sink>⟧.taken result ≡ W.contents writer }
        ensures works { ⟦<ToWriter<W> as Sink>⟧.has_failed result ≡ false }
        ensures unsent { ⟦<ToWriter<W> as Sink>⟧.is_flushed result ≡ false }
    {
        ToWriter {
            writer,
            failed: false,
            flushed: false,
        }
    }
}

impl<W: Write> Sink for ToWriter<W> {
    ghost use Rattle.device_io.specs.Flags.{writer_failed, writer_flushed};

    ghost taken = { λ s. W.contents s.writer };

    ghost has_failed = { writer_failed };

    ghost is_flushed = { writer_flushed };

    fn put(&mut self, piece: &[u8]) -> Result<usize, Failed> {
        self.flushed = false;
        match self.writer.write(piece) {
            Ok(n) if n > 0 || piece.is_empty() => Ok(n),
            _ => {
                self.failed = true;
                Err(Failed)
            }
        }
    }

    fn flush(&mut self) -> Result<(), Failed> {
        let sent = self.writer.flush();
        self.flushed |= sent.is_ok();
        self.failed = sent.is_err();
        sent.map_err(|_| Failed)
    }
}
