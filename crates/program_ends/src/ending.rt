//! How a program ends: with which status, with what in FILE, and with which line on standard error.
ghost use Rattle.std.specs.Prelude.{◌≡◌, None, Some, true, false, OnOk, OnErr, IfErr};
ghost use Rattle.std.specs.IoError.{error_kind};
ghost use Rattle.program_ends.specs.Stops.{stop_status};
ghost use Rattle.program_ends.specs.Endings.{stop_line, unsaved_line, unlisted_line, unprinted_line};

use crate::diagnostic::Diagnostic;
use crate::stop::Stop;
use std::io::Error;

/// How a program ends.
#[derive(Clone, Copy, Debug)]
pub struct Ending<'a> {
    /// The status.
    pub status: u8,
    /// What FILE gets, and in a program that has none standard output. Without it FILE stays as it is.
    pub file: Option<&'a [u8]>,
    /// The line on standard error.
    pub line: Option<Diagnostic<'a>>,
}

impl<'a> Ending<'a> {
    /// The ending after a fault, of which this line tells: FILE stays as it is.
    pub fn of_fault(status: u8, line: Diagnostic<'a>) -> Ending<'a>
        ensures { result ≡ record { status = status; file = None; line = Some line.entry } }
    {
        Ending {
            status,
            file: None,
            line: Some(line),
        }
    }

    /// The ending, but where there was no memory for what the program keeps beside its work: the work
    /// ended for that, and FILE stays as it is.
    pub fn unless_short(self, is_short: bool) -> Ending<'a>
        ensures whole { is_short ≡ false → result ≡ self.entry }
        ensures status { is_short ≡ true → result.status ≡ 3 }
        ensures kept { is_short ≡ true → result.file ≡ None }
        ensures told { is_short ≡ true → result.line ≡ Some Diagnostic.NoMemory }
    {
        if is_short {
            Ending::of_fault(3, Diagnostic::NoMemory)
        } else {
            self
        }
    }

    /// The ending where no work began. What clap says of the words is no line of the program's.
    pub fn of_stop(stop: &'a Stop) -> Ending<'a>
        ensures status { result.status ≡ stop_status stop.now }
        ensures kept { result.file ≡ None }
        ensures told { result.line ≡ stop_line stop.now }
    {
        let line = match stop {
            Stop::Words(_) => None,
            Stop::NotUtf8 => Some(Diagnostic::NotUtf8),
            Stop::OneFile { first, second } => Some(Diagnostic::OneFile { first, second }),
            Stop::Map => Some(Diagnostic::Map),
            Stop::Script => Some(Diagnostic::Script),
            Stop::NoSeed => Some(Diagnostic::NoSeed),
            Stop::NoMemory => Some(Diagnostic::NoMemory),
        };
        Ending {
            status: stop.status(),
            file: None,
            line,
        }
    }

    /// The same ending, with a fault of a file that was to be written.
    fn with_fault(self, line: Diagnostic<'a>) -> Ending<'a>
        ensures { result ≡ record self.entry { status = 3; line = Some line.entry } }
    {
        Ending {
            status: 3,
            file: self.file,
            line: Some(line),
        }
    }

    /// The ending once FILE was written, or could not be, whatever the answers were.
    pub fn once_written(self, written: Result<(), Error>) -> Ending<'a>
        ensures written { OnOk written (result ≡ self.entry) }
        ensures status { OnErr written (result.status ≡ 3) }
        ensures told { IfErr written (λ error. result.line ≡ Some (unsaved_line (error_kind error))) }
    {
        match written {
            Ok(()) => self,
            Err(error) => self.with_fault(Diagnostic::unsaved(error)),
        }
    }

    /// The ending once FILE2 was written too, or could not be. FILE holds the map in both cases.
    pub fn once_listed(self, listed: Result<(), Error>) -> Ending<'a>
        ensures listed { OnOk listed (result ≡ self.entry) }
        ensures status { OnErr listed (result.status ≡ 3) }
        ensures told { IfErr listed (λ error. result.line ≡ Some (unlisted_line (error_kind error))) }
    {
        match listed {
            Ok(()) => self,
            Err(error) => self.with_fault(Diagnostic::unlisted(error)),
        }
    }

    /// The ending once standard output was written, or could not be.
    pub fn once_printed(self, printed: Result<(), Error>) -> Ending<'a>
        ensures printed { OnOk printed (result ≡ self.entry) }
        ensures status { OnErr printed (result.status ≡ 3) }
        ensures told { IfErr printed (λ error. result.line ≡ Some (unprinted_line (error_kind error))) }
    {
        match printed {
            Ok(()) => self,
            Err(error) => self.with_fault(Diagnostic::unprinted(error)),
        }
    }
}
