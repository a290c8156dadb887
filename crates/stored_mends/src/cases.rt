// Cases as a file has them. An empty line stands between two. Each line is a word, and a text after a
// space; the name of a case follows `=`. A line that begins with `#` is a remark.
use std::alloc::{AllocError, Global};

/// A case: its lines.
#[derive(Clone, Copy)]
pub(crate) struct Case<'t> {
    lines: &'t str,
}

/// The text of a line, if this is its word.
fn behind<'t>(line: &'t str, word: &str) -> Option<&'t str> {
    let (first, text) = line.split_once(' ').unwrap_or((line, ""));
    if first == word { Some(text) } else { None }
}

impl<'t> Case<'t> {
    /// The case that has these lines. Remarks alone are none.
    pub(crate) fn new(lines: &'t str) -> Option<Case<'t>> {
        let case = Case { lines };
        if case.has("=") { Some(case) } else { None }
    }

    /// The text of the first line with this word.
    fn line(&self, word: &str) -> Option<&'t str> {
        for line in self.lines.lines() {
            if let Some(text) = behind(line, word) {
                return Some(text);
            }
        }
        None
    }

    /// The name.
    pub(crate) fn name(&self) -> &'t str {
        self.line("=").unwrap_or("")
    }

    /// Whether a line has this word.
    pub(crate) fn has(&self, word: &str) -> bool {
        self.line(word).is_some()
    }

    /// Whether a line has this word and this text.
    pub(crate) fn has_line(&self, word: &str, text: &[u8]) -> bool {
        self.lines.lines().any(|line| behind(line, word).is_some_and(|stored| stored.as_bytes()
            == text))
    }

    /// The number of the line with this word, or the usual one without it.
    pub(crate) fn number(&self, word: &str, usual: usize) -> usize {
        match self.line(word) {
            Some(text) => text.parse::<usize>().unwrap_or(usual),
            None => usual,
        }
    }

    /// The number of the line with this word, if there is one.
    pub(crate) fn wide_number(&self, word: &str) -> Option<u128> {
        self.line(word)?.parse::<u128>().ok()
    }

    /// The text of the lines with this word, with a line feed between two of them.
    pub(crate) fn text(&self, alloc: Global, word: &str) -> Result<Option<String>, AllocError> {
        if !self.has(word) {
            return Ok(None);
        }
        let mut texts = Vec::new(alloc);
        for line in self.lines.lines() {
            if let Some(text) = behind(line, word) {
                texts.push(text)?;
            }
        }
        Ok(Some(joined(alloc, texts.as_slice())?))
    }
}

/// The texts with a line feed between two of them.
fn joined(alloc: Global, texts: &[&str]) -> Result<String, AllocError> {
    let mut all = String::new(alloc);
    for (k, text) in texts.iter().enumerate() {
        if k != 0 {
            all.push_str("\n")?;
        }
        all.push_str(*text)?;
    }
    Ok(all)
}
