// How a run is reported, to be compared.
ghost use Rattle.std.specs.Prelude.{◌≡◌, ◌≤◌, false};

use device_io::{FailAt, FromReader, Sink, Source, ToWriter};
use script_runner::{RunFault, Summary, run};
use std::alloc::{Allocator, Global};
use std::process::Abort;
use test_aids::fixed_seed;

/// What a run gave to its two writers, and how it ended: the counts, or the line of the fault.
#[derive(Drop)]
pub(crate) struct Told {
    pub(crate) answers: Vec<u8>,
    pub(crate) end: String,
    pub(crate) saved: Vec<u8>,
}

/// How a run ended, and what it gave to the writer of the saved map.
#[derive(Drop)]
pub(crate) struct Ended {
    pub(crate) end: String,
    pub(crate) saved: Vec<u8>,
}

/// That it is so.
pub(crate) fn holds<R: Abort>(rt: &R, what: &str, is_so: bool) {
    assert!(rt; is_so, "{what}");
}

/// The counts, or the line of the fault.
fn end_of<R: Abort>(rt: &R, alloc: Global, outcome: &Result<Summary, RunFault<'_>>) -> String {
    let end = match outcome {
        Ok(Summary { answered, refused }) => {
            format!(in alloc; "answered {answered}, refused {refused}")
        }
        Err(fault) => format!(in alloc; "{fault}"),
    };
    end.expect(rt, "memory")
}

/// The run of what comes from this source, whose map stands in the heap, and of which so many changes
/// are kept.
pub(crate) fn tell_by<R: Abort, A: Allocator + Copy, S: Source>(
    rt: &R,
    heap: A,
    alloc: Global,
    map: &[u8],
    source: &mut S,
    depth: usize,
) -> Told
    requires least { 1 ≤ depth }
    requires most { depth ≤ 1000 }
    requires reader { S.has_failed source.old ≡ false }
{
    let mut sink = ToWriter::new(Vec::new(alloc));
    let mut saved = ToWriter::new(Vec::new(alloc));
    let seed = fixed_seed().expect(rt, "a seed");
    let outcome = run(heap, alloc, seed, map, source, depth, &mut sink, &mut saved);
    let end = end_of(rt, alloc, &outcome);
    Told {
        answers: sink.writer,
        end,
        saved: saved.writer,
    }
}

/// The run of the script on the map.
pub(crate) fn tell<R: Abort>(rt: &R, alloc: Global, map: &[u8], script: &[u8]) -> Told {
    tell_by(rt, alloc, alloc, map, &mut FromReader::new(script), 100)
}

/// How the run ends of what comes from this source, whose answers go to this sink, and what it saves.
pub(crate) fn tell_to<R: Abort, S: Source, W: Sink>(
    rt: &R,
    alloc: Global,
    map: &[u8],
    source: &mut S,
    sink: &mut W,
) -> Ended
    requires reader { S.has_failed source.old ≡ false }
    requires writer { W.has_failed sink.old ≡ false }
{
    let mut saved = ToWriter::new(Vec::new(alloc));
    let seed = fixed_seed().expect(rt, "a seed");
    let outcome = run(alloc, alloc, seed, map, source, 100, sink, &mut saved);
    let end = end_of(rt, alloc, &outcome);
    Ended {
        end,
        saved: saved.writer,
    }
}

/// The same where the writer of the answers fails after so many calls.
pub(crate) fn tell_unwritten<R: Abort>(
    rt: &R,
    alloc: Global,
    map: &[u8],
    script: &[u8],
    calls: u64,
) -> Told {
    let mut sink = FailAt::new(ToWriter::new(Vec::new(alloc)), calls);
    let ended = tell_to(rt, alloc, map, &mut FromReader::new(script), &mut sink);
    Told {
        answers: sink.device.writer,
        end: ended.end,
        saved: ended.saved,
    }
}

/// The same where the writer of the saved map fails after so many calls.
pub(crate) fn tell_unsaved<R: Abort>(
    rt: &R,
    alloc: Global,
    map: &[u8],
    script: &[u8],
    calls: u64,
) -> Told {
    let mut sink = ToWriter::new(Vec::new(alloc));
    let mut saved = FailAt::new(ToWriter::new(Vec::new(alloc)), calls);
    let mut source = FromReader::new(script);
    let seed = fixed_seed().expect(rt, "a seed");
    let outcome = run(
        alloc,
        alloc,
        seed,
        map,
        &mut source,
        100,
        &mut sink,
        &mut saved,
    );
    let end = end_of(rt, alloc, &outcome);
    Told {
        answers: sink.writer,
        end,
        saved: saved.device.writer,
    }
}

/// Whether these are the answers with the end after them.
fn is_said(told: &Told, want: &[u8]) -> bool {
    match want.strip_prefix(told.answers.as_slice()) {
        Some(end) => end == told.end.as_bytes(),
        None => false,
    }
}

/// That the run is reported so.
pub(crate) fn says<R: Abort>(rt: &R, what: &str, told: &Told, want: &[u8]) {
    assert!(rt;
        is_said(told, want),
        "{what}: {:?} {}",
        told.answers,
        told.end
    );
}

/// The script has these answers on the map, and this end.
pub(crate) fn is_answered<R: Abort>(
    rt: &R,
    alloc: Global,
    what: &str,
    map: &[u8],
    script: &[u8],
    want: &[u8],
) {
    let told = tell(rt, alloc, map, script);
    says(rt, what, &told, want);
}
