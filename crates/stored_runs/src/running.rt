//! What a run gives.
ghost use Rattle.std.specs.Prelude.{◌≤◌};

use device_io::{FromReader, ToWriter};
use script_runner::{RunFault, Summary, run};
use std::alloc::{AllocError, Global};
use std::hash::RandomState;

/// What a run gave to its two writers, and how it ended: the counts, or the line of the fault.
#[derive(Drop)]
pub(crate) struct Told {
    pub(crate) answers: Vec<u8>,
    pub(crate) end: String,
    pub(crate) saved: Vec<u8>,
}

/// The counts, or the line of the fault.
fn end_of(alloc: Global, outcome: &Result<Summary, RunFault<'_>>) -> Result<String, AllocError> {
    match outcome {
        Ok(Summary { answered, refused }) => {
            format!(in alloc; "answered {answered}, refused {refused}")
        }
        Err(fault) => format!(in alloc; "{fault}"),
    }
}

/// The run of the script on the map, of which so many changes are kept.
pub(crate) fn tell(
    alloc: Global,
    seed: RandomState,
    map: &[u8],
    script: &[u8],
    depth: usize,
) -> Result<Told, AllocError>
    requires least { 1 ≤ depth }
    requires most { depth ≤ 1000 }
{
    let mut source = FromReader::new(script);
    let mut sink = ToWriter::new(Vec::new(alloc));
    let mut saved = ToWriter::new(Vec::new(alloc));
    let outcome = run(
        alloc,
        alloc,
        seed,
        map,
        &mut source,
        depth,
        &mut sink,
        &mut saved,
    );
    let end = end_of(alloc, &outcome)?;
    Ok(Told {
        answers: sink.writer,
        end,
        saved: saved.writer,
    })
}
