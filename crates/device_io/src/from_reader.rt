//! A source over a reader of std.
ghost use Rattle.std.specs.Prelude.{◌≡◌, false};

use crate::{Failed, Source};
use std::io::Read;

/// A source over a reader of std. An error of the reader is a failure, an interrupted read
/// included.
#[derive(Drop)]
pub struct FromReader<R> {
    /// The reader that the bytes come from.
    pub reader: R,
    failed: bool,
}

impl<R: Read> FromReader<R> {
    /// A source that gives what the reader has left, and has not failed.
    pub fn new(reader: R) -> Self
        ensures reader { result.reader ≡ reader }
        ensures coming { ⟦<FromReader<R> as Source>⟧.coming result ≡ R.remaining reader }
        ensures works { ⟦<FromReader<R> as Source>⟧.has_failed result ≡ false }
    {
        FromReader {
            reader,
            failed: false,
        }
    }
}

impl<R: Read> Source for FromReader<R> {
    ghost use Rattle.device_io.specs.Flags.{reader_failed};

    ghost coming = { λ s. R.remaining s.reader };

    ghost has_failed = { reader_failed };

    fn get(&mut self, room: &mut [u8]) -> Result<usize, Failed> {
        let read = self.reader.read(room);
        self.failed = read.is_err();
        read.map_err(|_| Failed)
    }
}
