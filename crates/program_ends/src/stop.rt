//! What ends a program before its work begins, and the statuses that it ends with then.
ghost use Rattle.std.specs.Prelude.{◌≡◌, ◌≢◌};
ghost use Rattle.std.specs.IoError.{error_kind};

use clap::error::ErrorKind as Mistake;
use std::alloc::{AllocError, AllocFailed};
use std::io::{Error, ErrorKind};

/// What ends a program before its work begins.
#[derive(Debug, Drop)]
pub enum Stop {
    /// The words ask for help, or do not parse.
    Words(clap::Error),
    /// An argument is not UTF-8.
    NotUtf8,
    /// Two arguments name one file, and may not.
    OneFile {
        first: &'static str,
        second: &'static str,
    },
    /// The file of a map can't be read.
    Map,
    /// The file of a script can't be opened.
    Script,
    /// The operating system gave no random seed.
    NoSeed,
    /// An allocation failed.
    NoMemory,
}

impl Stop {
    ghost use Rattle.program_ends.specs.Stops.{stop_status};

    /// What an error of a file stops for: a failed allocation, or else what the file is.
    pub fn of_file(error: Error, file: Stop) -> Stop
        ensures no_memory { error_kind error ≡ ErrorKind.OutOfMemory → result ≡ Stop.NoMemory }
        ensures file { error_kind error ≢ ErrorKind.OutOfMemory → result ≡ file }
    {
        match error.kind() {
            ErrorKind::OutOfMemory => Stop::NoMemory,
            _ => file,
        }
    }

    /// The status that the program ends with.
    pub fn status(&self) -> u8
        ensures { result ≡ stop_status self.now }
    {
        match self {
            Stop::Words(error) => match error.kind() {
                Mistake::DisplayHelp | Mistake::DisplayVersion => 0,
                _ => 64,
            },
            Stop::NotUtf8 | Stop::OneFile { .. } => 64,
            Stop::Map | Stop::Script | Stop::NoSeed | Stop::NoMemory => 3,
        }
    }
}

impl From<clap::Error> for Stop {
    ghost use Rattle.std.specs.Prelude.{◌≡◌};
    ghost use Rattle.program_ends.specs.Stops.{words_stop};

    ghost from_gives = { λ error stop. stop ≡ words_stop error };

    fn from(error: clap::Error) -> Stop {
        match error.kind() {
            Mistake::OutOfMemory => Stop::NoMemory,
            _ => Stop::Words(error),
        }
    }
}

impl From<AllocError> for Stop {
    ghost use Rattle.std.specs.Prelude.{◌≡◌};
    ghost use Rattle.program_ends.specs.declared.stop.Stop.TheVariants.{NoMemory};

    ghost from_gives = { λ _ stop. stop ≡ NoMemory };

    fn from(_error: AllocError) -> Stop {
        Stop::NoMemory
    }
}

impl<T: Drop> From<AllocFailed<T>> for Stop {
    ghost use Rattle.std.specs.Prelude.{◌≡◌};
    ghost use Rattle.program_ends.specs.declared.stop.Stop.TheVariants.{NoMemory};

    ghost from_gives = { λ _ stop. stop ≡ NoMemory };

    fn from(_error: AllocFailed<T>) -> Stop {
        Stop::NoMemory
    }
}
