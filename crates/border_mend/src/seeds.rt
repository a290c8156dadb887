//! The seed of a report.
use program_ends::{Stop, hash_seed};
use std::hash::RandomState;
use std::io::Result as IoResult;
use std::random::RandomSource;

/// Gives the same bytes at each call.
struct Fixed;

impl RandomSource for Fixed {
    fn fill_bytes(&self, bytes: &mut [u8]) -> IoResult<()> {
        bytes.fill(0);
        Ok(())
    }
}

/// A seed of hashes for a report: one of the operating system or, where that gives none, a fixed one.
/// A report is the same under each seed. Under the fixed one a map with many names of one hash takes
/// longer, and nothing is saved.
pub(crate) fn report_seed(rt: &HostRuntime) -> Result<RandomState, Stop> {
    match hash_seed(rt) {
        Ok(seed) => Ok(seed),
        Err(_) => RandomState::new(&Fixed).map_err(|_| Stop::NoSeed),
    }
}
