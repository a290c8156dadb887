//! A seed for tests, by which positions are hashed alike in each run.
use std::hash::RandomState;
use std::io::Result as IoResult;
use std::random::RandomSource;

/// Gives the same bytes at each call.
struct Fixed;

impl RandomSource for Fixed {
    fn fill_bytes(&self, bytes: &mut [u8]) -> IoResult<()> {
        bytes.fill(7);
        Ok(())
    }
}

/// The seed. It is always there.
pub fn fixed_seed() -> Option<RandomState> {
    RandomState::new(&Fixed).ok()
}
