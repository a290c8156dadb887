//! What each program does beside its own work: its words are given, its map is read, its ending is said.
ghost use Rattle.std.specs.Prelude.{◌≡◌, ◌⊎◌, ◌≤◌, length, IfErr, IfOk};
ghost use Rattle.program_ends.specs.Stops.{stop_status};

use crate::ending::Ending;
use crate::stop::Stop;
use std::env;
use std::fs::File;
use std::hash::RandomState;
use std::io::{self, Read, Write};

/// The words that the program was called with, its name first. They have to be UTF-8.
pub fn given_words(rt: &HostRuntime) -> Result<Vec<String>, Stop>
    ensures { IfErr result (λ stop. (stop ≡ Stop.NotUtf8) ⊎ (stop ≡ Stop.NoMemory)) }
{
    let mut given = Vec::new(rt.alloc());
    for word in env::args(rt).map_err(|e| Stop::of_file(e, Stop::NotUtf8))? {
        given.push(word)?;
    }
    Ok(given)
}

/// A seed of the operating system, by which what a file holds is hashed.
pub fn hash_seed(rt: &HostRuntime) -> Result<RandomState, Stop>
    ensures { IfErr result (λ stop. stop ≡ Stop.NoSeed) }
{
    RandomState::new(rt).map_err(|_| Stop::NoSeed)
}

/// One byte more than a map may have, so that a longer one is found too large.
const READ_AT_MOST: u64 = 67_108_865;

/// The bytes of a map, whole but for what is over the limit.
pub fn map_bytes(rt: &HostRuntime, path: &str) -> Result<Vec<u8>, Stop>
    ensures { IfErr result (λ stop. (stop ≡ Stop.Map) ⊎ (stop ≡ Stop.NoMemory)) }
{
    let mut bytes = Vec::new(rt.alloc());
    let file = File::open(rt, path).map_err(|e| Stop::of_file(e, Stop::Map))?;
    io::copy(&mut file.take(READ_AT_MOST), &mut bytes).map_err(|e| Stop::of_file(e, Stop::Map))?;
    Ok(bytes)
}

/// Says the line of an ending, and answers its status.
pub fn end<E: Write>(ending: Ending<'_>, errors: &mut E) -> u8
    ensures { result ≡ ending.entry.status }
{
    if let Some(line) = ending.line {
        let _ = writeln!(errors, "{line}");
    }
    ending.status
}

/// Says why no work began, and answers the status.
pub fn end_stopped(rt: &HostRuntime, stop: &Stop) -> u8
    ensures { result ≡ stop_status stop.now }
{
    if let Stop::Words(error) = stop {
        // Help and the version go to standard output, and what is wrong with the words to standard error.
        let _ = error.print(rt);
    }
    end(Ending::of_stop(stop), &mut rt.stderr())
}
