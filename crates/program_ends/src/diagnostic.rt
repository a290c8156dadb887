//! The lines on standard error that say why a program ends.
ghost use Rattle.std.specs.Prelude.{◌≡◌};
ghost use Rattle.std.specs.IoError.{error_kind};

use grid_geometry::Seg;
use std::fmt;
use std::io::{Error, ErrorKind};
use topo_outline::{Limit, OpenFault};

/// The line on standard error that says why a program ends.
#[derive(Clone, Copy, Debug)]
pub enum Diagnostic<'a> {
    /// A map can't be opened or read as a topology: `open: ` and its fault.
    Open(&'a OpenFault<'a>),
    /// More keeps a map from opening than can be listed: `open: too many findings`.
    Findings,
    /// A mended map would be over a limit: `open: too large `, and what is too large.
    TooLarge(Limit),
    /// Two segments of a mended map still conflict: `unmended X Y X Y / X Y X Y`.
    Unmended { s: &'a Seg, t: &'a Seg },
    /// A polygon was not taken apart into rings: `unparted F P`.
    Unparted { feature: usize, polygon: usize },
    /// The file of a map can't be read: `map fault`.
    Map,
    /// The file of a script can't be opened or read: `script fault`.
    Script,
    /// The answers, or a report, can't be written: `write fault`.
    Write,
    /// What the program makes can't be saved, or FILE not be written: `save fault`.
    Save,
    /// The refused lines can't be written in FILE2: `refused fault`.
    Refused,
    /// The operating system gave no random seed: `no random seed`.
    NoSeed,
    /// An allocation failed: `out of memory`.
    NoMemory,
    /// An argument is not UTF-8: `an argument is not UTF-8`.
    NotUtf8,
    /// Two arguments name one file: `--refused and MAP name the same file`.
    OneFile { first: &'a str, second: &'a str },
    /// No feature, or several, are the one that was asked for: `no feature: ` and why.
    NoFeature { reason: &'a str },
    /// Each line was to be accepted, and so many were refused or bad: `not saved: N lines were refused`.
    LinesRefused(u64),
    /// A script's last line was to have its line feed: `not saved: the last line of the script has no line feed`.
    CutOff,
}

impl<'a> Diagnostic<'a> {
    ghost use Rattle.program_ends.specs.Endings.{unwritten_line, unsaved_line, unlisted_line, unprinted_line};

    /// Why a file could not be written: a failed allocation, or else what the file's own line says.
    fn unwritten(error: Error, line: Diagnostic<'a>) -> Diagnostic<'a>
        ensures { result ≡ unwritten_line (error_kind error) line.entry }
    {
        match error.kind() {
            ErrorKind::OutOfMemory => Diagnostic::NoMemory,
            _ => line,
        }
    }

    /// Why FILE could not be written: a failed allocation, or else FILE itself.
    pub fn unsaved(error: Error) -> Diagnostic<'a>
        ensures { result ≡ unsaved_line (error_kind error) }
    {
        Diagnostic::unwritten(error, Diagnostic::Save)
    }

    /// Why FILE2 could not be written: a failed allocation, or else FILE2 itself.
    pub fn unlisted(error: Error) -> Diagnostic<'a>
        ensures { result ≡ unlisted_line (error_kind error) }
    {
        Diagnostic::unwritten(error, Diagnostic::Refused)
    }

    /// Why standard output could not be written: a failed allocation, or else standard output itself.
    pub fn unprinted(error: Error) -> Diagnostic<'a>
        ensures { result ≡ unprinted_line (error_kind error) }
    {
        Diagnostic::unwritten(error, Diagnostic::Write)
    }
}

impl<'a> fmt::Display for Diagnostic<'a> {
    ghost use Rattle.program_ends.specs.Endings.{line_text};

    ghost output = { line_text };

    fn fmt<W: fmt::Write>(&self, f: &mut fmt::Formatter<W>) -> fmt::Result {
        match self {
            Diagnostic::Open(fault) => write!(f, "open: {fault}"),
            Diagnostic::Findings => f.write_str("open: too many findings"),
            Diagnostic::TooLarge(what) => {
                let fault = OpenFault::TooLarge { what: *what };
                write!(f, "open: {fault}")
            }
            Diagnostic::Unmended { s, t } => write!(f, "unmended {s} / {t}"),
            Diagnostic::Unparted { feature, polygon } => {
                write!(f, "unparted {feature} {polygon}")
            }
            Diagnostic::Map => f.write_str("map fault"),
            Diagnostic::Script => f.write_str("script fault"),
            Diagnostic::Write => f.write_str("write fault"),
            Diagnostic::Save => f.write_str("save fault"),
            Diagnostic::Refused => f.write_str("refused fault"),
            Diagnostic::NoSeed => f.write_str("no random seed"),
            Diagnostic::NoMemory => f.write_str("out of memory"),
            Diagnostic::NotUtf8 => f.write_str("an argument is not UTF-8"),
            Diagnostic::OneFile { first, second } => {
                write!(f, "{first} and {second} name the same file")
            }
            Diagnostic::NoFeature { reason } => write!(f, "no feature: {reason}"),
            Diagnostic::LinesRefused(1) => f.write_str("not saved: 1 line was refused"),
            Diagnostic::LinesRefused(count) => write!(f, "not saved: {count} lines were refused"),
            Diagnostic::CutOff => {
                f.write_str("not saved: the last line of the script has no line feed")
            }
        }
    }
}
