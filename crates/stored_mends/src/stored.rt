// Answers to a case, beside those that are stored with it.
use crate::cases::Case;
use std::alloc::{AllocError, Global};

/// A case, and what differs of its answers.
#[derive(Drop)]
pub(crate) struct Stored<'t> {
    pub(crate) alloc: Global,
    pub(crate) case: Case<'t>,
    differences: String,
}

impl<'t> Stored<'t> {
    /// A case without answers so far.
    pub(crate) fn new(alloc: Global, case: Case<'t>) -> Stored<'t> {
        Stored {
            alloc,
            case,
            differences: String::new(alloc),
        }
    }

    /// A line for each answer that differs.
    pub(crate) fn differences(&self) -> &str {
        self.differences.as_str()
    }

    /// What is given with the case under this word, or nothing.
    pub(crate) fn given(&self, word: &str) -> Result<String, AllocError> {
        match self.case.text(self.alloc, word)? {
            Some(text) => Ok(text),
            None => Ok(String::new(self.alloc)),
        }
    }

    fn put_difference(&mut self, word: &str, answer: &[u8]) -> Result<(), AllocError> {
        let name = self.case.name();
        let answer = str::from_utf8(answer).unwrap_or("no text");
        writeln!(self.differences, "{name}: {word} is {answer}")
    }

    /// Compares an answer with the one that is stored under this word. Without one it differs.
    pub(crate) fn compare(&mut self, word: &str, answer: &[u8]) -> Result<(), AllocError> {
        match self.case.text(self.alloc, word)? {
            Some(text) if text.as_str().as_bytes() == answer => Ok(()),
            _ => self.put_difference(word, answer),
        }
    }

    /// The same of an answer of one line, which may be any of those that are stored.
    pub(crate) fn compare_any(&mut self, word: &str, answer: &[u8]) -> Result<(), AllocError> {
        if self.case.has_line(word, answer) {
            return Ok(());
        }
        self.put_difference(word, answer)
    }

    /// The same of lines, each of which ends with a line feed.
    pub(crate) fn compare_lines(&mut self, word: &str, answer: &[u8]) -> Result<(), AllocError> {
        match answer {
            [lines @ .., b'\n'] => self.compare(word, lines),
            _ => self.put_difference(word, answer),
        }
    }

    /// The same of a number.
    pub(crate) fn compare_number(&mut self, word: &str, answer: usize) -> Result<(), AllocError> {
        let text = format!(in self.alloc; "{answer}")?;
        self.compare(word, text.as_str().as_bytes())
    }
}
