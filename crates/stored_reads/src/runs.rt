// Answers to texts that come one after another, each run of the same answers told once.
use std::alloc::{AllocError, Global};
use std::fmt::{Display, Error, Formatter, Write};

/// The answer that is not told: most bytes can't stand where they were put in.
const USUAL: &str = "+0";

/// What a text of a run is called: by the byte that was put in, or by the count of bytes that are left.
#[derive(Clone, Copy, PartialEq, Eq)]
pub(crate) enum Key {
    Byte(u8),
    Length(usize),
}

impl Display for Key {
    fn fmt<W: Write>(&self, f: &mut Formatter<W>) -> Result<(), Error> {
        match self {
            Key::Byte(byte) => write!(f, "{byte:02x}"),
            Key::Length(length) => write!(f, "{length}"),
        }
    }
}

/// The runs that ended, and the last one, which may go on.
#[derive(Drop)]
pub(crate) struct Runs {
    told: String,
    first: Option<Key>,
    last: Key,
    answer: String,
}

impl Runs {
    pub(crate) fn new(alloc: Global) -> Runs {
        Runs {
            told: String::new(alloc),
            first: None,
            last: Key::Length(0),
            answer: String::new(alloc),
        }
    }

    /// Appends the keys of the last run.
    fn put_keys(&mut self, first: Key) -> Result<(), AllocError> {
        if first == self.last {
            return write!(self.told, "{first} ");
        }
        write!(self.told, "{first}-{} ", self.last)
    }

    /// Appends the last run, if its answer is reported: its keys, and its answer.
    fn end(&mut self) -> Result<(), AllocError> {
        let Some(first) = self.first else {
            return Ok(());
        };
        if self.answer.as_str() == USUAL {
            return Ok(());
        }
        if !self.told.is_empty() {
            self.told.push_str("; ")?;
        }
        self.put_keys(first)?;
        self.told.push_str(self.answer.as_str())
    }

    /// One text more has this answer.
    pub(crate) fn take(&mut self, key: Key, answer: &str) -> Result<(), AllocError> {
        if self.first.is_none() || self.answer.as_str() != answer {
            self.end()?;
            self.first = Some(key);
            self.answer.clear();
            self.answer.push_str(answer)?;
        }
        self.last = key;
        Ok(())
    }

    /// All runs that are reported.
    pub(crate) fn finish(mut self) -> Result<String, AllocError> {
        self.end()?;
        if self.told.is_empty() {
            self.told.push_str("none")?;
        }
        Ok(self.told)
    }
}
