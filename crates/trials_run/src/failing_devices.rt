// What a device answers over writers and readers of std, and over ones that fail.
ghost use Rattle.std.specs.Prelude.{◌≡◌, false};

use crate::told::holds;
use device_io::{FailAt, Failed, FromReader, Sink, Source, ToWriter, put_all};
use std::alloc::Global;
use std::io::{BufWriter, Error, ErrorKind, Read, Result as IoResult, Write};
use std::process::Abort;

/// A writer that takes one byte at a time.
#[derive(Drop)]
struct OneByOne {
    bytes: Vec<u8>,
}

impl Write for OneByOne {
    fn write(&mut self, piece: &[u8]) -> IoResult<usize> {
        match piece.first() {
            Some(byte) => {
                self.bytes.push(*byte)?;
                Ok(1)
            }
            None => Ok(0),
        }
    }

    fn flush(&mut self) -> IoResult<()> {
        Ok(())
    }
}

/// A writer and a reader that answer an error of this kind at every call.
#[derive(Drop)]
struct Answers {
    kind: ErrorKind,
}

impl Write for Answers {
    fn write(&mut self, _piece: &[u8]) -> IoResult<usize> {
        Err(Error::from(self.kind))
    }

    fn flush(&mut self) -> IoResult<()> {
        Err(Error::from(self.kind))
    }
}

impl Read for Answers {
    fn read(&mut self, _room: &mut [u8]) -> IoResult<usize> {
        Err(Error::from(self.kind))
    }
}

/// How many bytes are taken of two pieces; then a third is put and sent on.
fn put_pieces<W: Sink>(sink: &mut W) -> Result<[usize; 2], Failed>
    requires { W.has_failed sink.old ≡ false }
{
    let counts = [sink.put(b"bor")?, sink.put(b"")?];
    put_all(sink, b"ders")?;
    sink.flush()?;
    Ok(counts)
}

#[test]
fn a_vec_never_fails(rt: HostRuntime) {
    let mut sink = ToWriter::new(Vec::new(rt.alloc()));
    let counts = put_pieces(&mut sink);
    holds(&rt, "counts", counts == Ok([3, 0]));
    holds(
        &rt,
        "all bytes",
        sink.writer.as_slice() == b"borders".as_slice(),
    );
}

#[test]
fn a_flush_reaches_the_writer(rt: HostRuntime) {
    let writer = BufWriter::new(rt.alloc(), Vec::new(rt.alloc())).expect(&rt, "memory");
    let mut sink = ToWriter::new(writer);
    put_all(&mut sink, b"map").expect(&rt, "a buffer");
    holds(&rt, "kept", sink.writer.get_ref().is_empty());
    sink.flush().expect(&rt, "a flush");
    holds(
        &rt,
        "sent on",
        sink.writer.get_ref().as_slice() == b"map".as_slice(),
    );
}

/// How many bytes come of a piece that has no room, and of four of two bytes each.
fn get_pieces<S: Source>(source: &mut S, room: &mut [u8; 8]) -> Result<[usize; 5], Failed>
    requires { S.has_failed source.old ≡ false }
{
    Ok([
        source.get(&mut [])?,
        source.get(&mut room[..2])?,
        source.get(&mut room[2..4])?,
        source.get(&mut room[4..6])?,
        source.get(&mut room[6..])?,
    ])
}

#[test]
fn a_slice_never_fails(rt: HostRuntime) {
    let mut room = [0u8; 8];
    let counts = get_pieces(&mut FromReader::new(b"map".as_slice()), &mut room);
    holds(&rt, "counts", counts == Ok([0, 2, 1, 0, 0]));
    holds(&rt, "bytes", room.starts_with(b"map"));
}

/// How many bytes are taken of a piece; the others are put, and a piece of none.
fn put_each<W: Sink>(sink: &mut W) -> Result<usize, Failed>
    requires { W.has_failed sink.old ≡ false }
{
    let count = sink.put(b"ab")?;
    put_all(sink, b"bcdef")?;
    put_all(sink, b"")?;
    Ok(count)
}

#[test]
fn all_bytes_reach_a_writer_that_takes_one_at_a_time(rt: HostRuntime) {
    let mut sink = ToWriter::new(OneByOne {
        bytes: Vec::new(rt.alloc()),
    });
    let count = put_each(&mut sink);
    holds(&rt, "one", count == Ok(1));
    holds(
        &rt,
        "all bytes",
        sink.writer.bytes.as_slice() == b"abcdef".as_slice(),
    );
}

/// That a device that takes a byte a call and fails after so many calls has taken as many, and no more.
fn takes_so_many<R: Abort>(rt: &R, alloc: Global, calls: usize) {
    let bytes = Vec::new(alloc);
    let mut sink = FailAt::new(ToWriter::new(OneByOne { bytes }), calls as u64);
    let outcome = put_all(&mut sink, b"abcde");
    let whole = b"abcde".as_slice();
    holds(rt, "the outcome", outcome.is_ok() == (calls >= 5));
    let taken = sink.device.writer.bytes.as_slice();
    holds(rt, "what is taken", taken == &whole[..calls.min(5)]);
}

#[test]
fn so_many_pieces_are_put_and_no_more(rt: HostRuntime) {
    for calls in 0..8usize {
        takes_so_many(&rt, rt.alloc(), calls);
    }
}

/// Puts a byte, sends it on, and does both again.
fn put_and_flush<W: Sink>(sink: &mut W) -> Result<(), Failed>
    requires { W.has_failed sink.old ≡ false }
{
    sink.put(b"a")?;
    sink.flush()?;
    sink.put(b"b")?;
    sink.flush()
}

/// After how many calls a device fails, what it has then, and whether none of four calls failed.
const PUT: &[(u64, &[u8], bool)] = &[
    (0, b"", false),
    (1, b"a", false),
    (2, b"a", false),
    (3, b"ab", false),
    (4, b"ab", true),
    (5, b"ab", true),
];

/// That a device that fails after so many calls has these bytes.
fn passes<R: Abort>(rt: &R, alloc: Global, calls: u64, written: &[u8], is_ok: bool) {
    let mut sink = FailAt::new(ToWriter::new(Vec::new(alloc)), calls);
    let outcome = put_and_flush(&mut sink);
    holds(rt, "the outcome", outcome.is_ok() == is_ok);
    holds(
        rt,
        "what is written",
        sink.device.writer.as_slice() == written,
    );
}

#[test]
fn so_many_calls_pass_and_the_next_fails(rt: HostRuntime) {
    for (calls, written, is_ok) in PUT {
        passes(&rt, rt.alloc(), *calls, written, *is_ok);
    }
}

/// Gets three bytes, one at a time, and meets the end.
fn get_three<S: Source>(source: &mut S, room: &mut [u8; 3]) -> Result<usize, Failed>
    requires { S.has_failed source.old ≡ false }
{
    source.get(&mut room[..1])?;
    source.get(&mut room[1..2])?;
    source.get(&mut room[2..])?;
    let mut more = [0u8; 4];
    source.get(&mut more)
}

/// After how many calls a device fails, what came, what is left, and what the last call gives.
const GOT: &[(u64, &[u8; 3], &[u8], Result<usize, Failed>)] = &[
    (0, b"\0\0\0", b"map", Err(Failed)),
    (1, b"m\0\0", b"ap", Err(Failed)),
    (2, b"ma\0", b"p", Err(Failed)),
    (3, b"map", b"", Err(Failed)),
    (4, b"map", b"", Ok(0)),
    (5, b"map", b"", Ok(0)),
];

/// That this comes from a device that fails after so many calls, and this is left.
fn gives<R: Abort>(rt: &R, row: &(u64, &[u8; 3], &[u8], Result<usize, Failed>)) {
    let (calls, came, left, last) = row;
    let mut source = FailAt::new(FromReader::new(b"map".as_slice()), *calls);
    let mut room = [0u8; 3];
    let outcome = get_three(&mut source, &mut room);
    holds(rt, "the last call", outcome == *last);
    holds(
        rt,
        "what came",
        room == **came && source.device.reader == *left,
    );
}

#[test]
fn so_many_pieces_come_and_the_next_fails(rt: HostRuntime) {
    for row in GOT {
        gives(&rt, row);
    }
}

/// Whether each call fails where the device below answers this error.
fn all_fail(kind: ErrorKind) -> bool {
    ToWriter::new(Answers { kind }).put(b"a") == Err(Failed)
        && ToWriter::new(Answers { kind }).put(b"") == Err(Failed)
        && ToWriter::new(Answers { kind }).flush() == Err(Failed)
        && put_all(&mut ToWriter::new(Answers { kind }), b"a") == Err(Failed)
        && FromReader::new(Answers { kind }).get(&mut [0u8; 2]) == Err(Failed)
}

#[test]
fn an_error_is_a_failure(rt: HostRuntime) {
    holds(&rt, "a broken pipe", all_fail(ErrorKind::BrokenPipe));
    holds(&rt, "interrupted", all_fail(ErrorKind::Interrupted));
    holds(&rt, "out of memory", all_fail(ErrorKind::OutOfMemory));
}

/// How many bytes are taken where two fit, then of none; and then what a byte more is answered.
fn fill<W: Sink>(sink: &mut W) -> Result<([usize; 2], Result<usize, Failed>), Failed>
    requires { W.has_failed sink.old ≡ false }
{
    let counts = [sink.put(b"abc")?, sink.put(b"")?];
    Ok((counts, sink.put(b"c")))
}

#[test]
fn a_writer_that_takes_nothing_has_failed(rt: HostRuntime) {
    let mut room = [0u8; 2];
    let filled = fill(&mut ToWriter::new(room.as_mut_slice()));
    holds(
        &rt,
        "two bytes of room",
        filled == Ok(([2, 0], Err(Failed))),
    );
    let mut sink = ToWriter::new(&mut [] as &mut [u8]);
    holds(&rt, "no room", put_all(&mut sink, b"c") == Err(Failed));
}
