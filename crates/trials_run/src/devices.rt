// Readers and writers that fail, and scripts at their limits.
use crate::maps::TWO_SQUARES;
use crate::told::{Told, holds, is_answered, tell_by, tell_to, tell_unwritten};
use device_io::{FailAt, FromReader, ToWriter};
use script_runner::RunFault;
use std::alloc::{AllocError, Global};
use std::cell::Cell;
use std::io::{Error, ErrorKind, Read, Result as IoResult, Write};
use std::process::Abort;

const SCRIPT: &[u8] = b"area 0\nmove 10 10 12 12\r\nx\narea 0\nundo\narea 0";

const ANSWERS: &[u8] = b"200\nok\nbad line\n240\nok\n200\n";

/// After how many calls the reader fails, the answers to the lines before, and how the run ends.
const READ: &[(u64, &[u8], &str)] = &[
    (0, b"", "script fault"),
    (1, b"200\nok\nbad line\n240\nok\n", "script fault"),
    (2, ANSWERS, "answered 6, refused 1"),
    (3, ANSWERS, "answered 6, refused 1"),
];

/// Whether these are the answers, and the map is saved unless the reader failed.
pub(crate) fn is_left(told: &Told, answers: &[u8], end: &str) -> bool {
    let is_saved = end != "script fault";
    told.answers.as_slice() == answers
        && told.end.as_str() == end
        && told.saved.is_empty() != is_saved
}

/// That this is left of the script where its reader fails after so many calls.
fn leaves<R: Abort>(rt: &R, alloc: Global, calls: u64, answers: &[u8], end: &str) {
    let mut source = FailAt::new(FromReader::new(SCRIPT), calls);
    let told = tell_by(rt, alloc, alloc, TWO_SQUARES.as_bytes(), &mut source, 100);
    holds(rt, end, is_left(&told, answers, end));
}

#[test]
fn a_reader_that_fails(rt: HostRuntime) {
    for (calls, answers, end) in READ {
        leaves(&rt, rt.alloc(), *calls, answers, end);
    }
}

/// After how many calls the writer fails, and how many bytes it has then: each answer is one call, and
/// so is each flush: after the piece that the script is, and at its end.
const WRITTEN: &[(u64, usize)] = &[
    (0, 0),
    (1, 4),
    (2, 7),
    (3, 16),
    (4, 20),
    (5, 23),
    (6, 23),
    (7, 27),
];

/// Whether the writer of the answers failed after so many bytes, and nothing is saved.
fn is_cut(told: &Told, length: usize) -> bool {
    told.end.as_str() == "write fault"
        && told.answers.len() == length
        && ANSWERS.starts_with(told.answers.as_slice())
        && told.saved.is_empty()
}

/// That a writer that fails after so many calls has this many bytes of the answers.
fn cuts<R: Abort>(rt: &R, alloc: Global, calls: u64, length: usize) {
    let told = tell_unwritten(rt, alloc, TWO_SQUARES.as_bytes(), SCRIPT, calls);
    holds(rt, "a front of the answers", is_cut(&told, length));
}

#[test]
fn a_writer_that_fails(rt: HostRuntime) {
    for (calls, length) in WRITTEN {
        cuts(&rt, rt.alloc(), *calls, *length);
    }
}

/// A writer that notes in a cell whether it was flushed since it last took bytes.
#[derive(Drop)]
struct Noting<'a> {
    bytes: Vec<u8>,
    is_flushed: &'a Cell<bool>,
}

impl Write for Noting<'_> {
    fn write(&mut self, piece: &[u8]) -> IoResult<usize> {
        self.is_flushed.set(false);
        self.bytes.extend_from_slice(piece)?;
        Ok(piece.len())
    }

    fn flush(&mut self) -> IoResult<()> {
        self.is_flushed.set(true);
        Ok(())
    }
}

/// A reader that gives at most so many bytes a call, and fails where the writer was not flushed.
#[derive(Drop)]
struct Watching<'a> {
    script: &'a [u8],
    length: usize,
    is_flushed: &'a Cell<bool>,
}

impl Read for Watching<'_> {
    fn read(&mut self, room: &mut [u8]) -> IoResult<usize> {
        if !self.is_flushed.get() {
            return Err(Error::from(ErrorKind::Other));
        }
        let length = self.length.min(room.len());
        self.script.read(&mut room[..length])
    }
}

/// That each answer was sent on before more of the script was read, in pieces of so many bytes.
fn sends_on<R: Abort>(rt: &R, alloc: Global, length: usize) {
    let is_flushed = Cell::new(true);
    let mut source = FromReader::new(Watching {
        script: SCRIPT,
        length,
        is_flushed: &is_flushed,
    });
    let bytes = Vec::new(alloc);
    let mut sink = ToWriter::new(Noting {
        bytes,
        is_flushed: &is_flushed,
    });
    let ended = tell_to(rt, alloc, TWO_SQUARES.as_bytes(), &mut source, &mut sink);
    holds(rt, "the end", ended.end.as_str() == "answered 6, refused 1");
    holds(rt, "the answers", sink.writer.bytes.as_slice() == ANSWERS);
}

#[test]
fn answers_are_sent_on_before_more_is_read(rt: HostRuntime) {
    for length in [1usize, 7, 8, 30, 4096] {
        sends_on(&rt, rt.alloc(), length);
    }
}

/// Appends so many comment signs, and the end.
fn put_comment(script: &mut Vec<u8>, length: usize, end: &[u8]) -> Result<(), AllocError> {
    for _ in 0..length {
        script.extend_from_slice(b"#")?;
    }
    script.extend_from_slice(end)
}

/// Appends a comment of 8,192 bytes, which is skipped, one of 8,193, which is a bad line, and a question.
fn put_comments(script: &mut Vec<u8>) -> Result<(), AllocError> {
    put_comment(script, 8192, b"\n")?;
    put_comment(script, 8193, b"\narea 0")
}

#[test]
fn long_lines(rt: HostRuntime) {
    let mut script = Vec::new(rt.alloc());
    put_comments(&mut script).expect(&rt, "memory");
    let want = b"bad line\n200\nanswered 2, refused 1";
    let map = TWO_SQUARES.as_bytes();
    is_answered(&rt, rt.alloc(), "long lines", map, script.as_slice(), want);
}

/// A carriage return before a line feed is dropped, and no other.
#[test]
fn carriage_returns(rt: HostRuntime) {
    let script = b"area 0\r\n\r\narea 0\r\r\narea 0\r";
    let want = b"200\nbad line\nbad line\nanswered 3, refused 2";
    is_answered(
        &rt,
        rt.alloc(),
        "carriage returns",
        TWO_SQUARES.as_bytes(),
        script,
        want,
    );
}

/// That the fault has this text.
fn has_text<R: Abort>(rt: &R, alloc: Global, fault: &RunFault<'_>, want: &str) {
    let text = format!(in alloc; "{fault}").expect(rt, "memory");
    holds(rt, want, text.as_str() == want);
}

/// What the program says on standard error of a run that ended early.
#[test]
fn texts_of_failures(rt: HostRuntime) {
    let rows = [
        (RunFault::Read, "script fault"),
        (RunFault::Write, "write fault"),
        (RunFault::Save, "save fault"),
        (RunFault::OutOfMemory, "out of memory"),
    ];
    for (fault, want) in &rows[..] {
        has_text(&rt, rt.alloc(), fault, want);
    }
}
