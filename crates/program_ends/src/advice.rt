//! What a person at a terminal is reported beside the line on standard error: the file that it is
//! about, and what can be done.
ghost use Rattle.std.specs.Prelude.{◌≡◌};
ghost use Rattle.program_ends.specs.Advice.{subject_of};

use crate::diagnostic::Diagnostic;
use crate::ending::Ending;
use std::io::Write;
use topo_outline::OpenFault;

/// The file that a line is about, by what it is to the run.
#[derive(Clone, Copy, Debug, PartialEq, Eq)]
pub enum Subject {
    /// The map that is read.
    Map,
    /// The script.
    Script,
    /// The file that is saved.
    File,
    /// The list of refused lines.
    List,
}

/// The paths of a run's files, each empty where the run has none, or more than one.
#[derive(Clone, Copy, Debug)]
pub struct Paths<'a> {
    pub map: &'a str,
    pub script: &'a str,
    pub file: &'a str,
    pub list: &'a str,
    /// Whether the run mends the map, so that this is no advice.
    pub mends: bool,
}

impl Paths<'_> {
    /// The path of a file.
    fn path(&self, subject: Subject) -> &str {
        match subject {
            Subject::Map => self.map,
            Subject::Script => self.script,
            Subject::File => self.file,
            Subject::List => self.list,
        }
    }
}

/// How mending helps a map with this fault.
fn mending(fault: &OpenFault<'_>) -> Option<&'static str> {
    match fault {
        OpenFault::NotWhole { .. } | OpenFault::OutOfRange { .. } => {
            Some("`border_mend MAP --out NEW` puts its coordinates on a grid of whole numbers")
        }
        OpenFault::RingShort { .. } | OpenFault::RingRepeats { .. } | OpenFault::Conflict { .. } =>
            {
                Some(
                    "`border_mend MAP` lists all that keeps it from opening; with `--out NEW` it mends the map",
                )
            }
        _ => None,
    }
}

/// What is wrong with a map of this fault.
fn damage(fault: &OpenFault<'_>) -> &'static str {
    match fault {
        OpenFault::NotJson { .. } => "it is cut off or damaged there, or is no JSON file",
        OpenFault::NotTopology => "it is no TopoJSON topology, whose `type` is `Topology`",
        _ => "docs/FORMATS.md says what a map may have",
    }
}

/// What can be done about a map with this fault, by mending it unless that is what is done.
fn map_advice(fault: &OpenFault<'_>, mends: bool) -> &'static str {
    match mending(fault) {
        Some(advice) if !mends => advice,
        _ => damage(fault),
    }
}

impl Diagnostic<'_> {
    /// The file that the line is about, where it is about one.
    pub fn subject(&self) -> Option<Subject>
        ensures { result ≡ subject_of self.now }
    {
        match self {
            Diagnostic::Open(_) | Diagnostic::Map => Some(Subject::Map),
            Diagnostic::Script => Some(Subject::Script),
            Diagnostic::Save => Some(Subject::File),
            Diagnostic::Refused => Some(Subject::List),
            _ => None,
        }
    }

    /// What can be done about the file that the line is about.
    fn advice(&self, mends: bool) -> &'static str {
        match self {
            Diagnostic::Open(fault) => map_advice(fault, mends),
            Diagnostic::Map | Diagnostic::Script =>
                "can it be read? Look at its name and its permissions",
            _ => "can it be written? Look at its folder, its permissions and the space on the disk",
        }
    }
}

/// Standard error, which may be a terminal.
#[derive(Drop)]
pub struct Errors<'e, E> {
    pub writer: &'e mut E,
    pub is_terminal: bool,
}

impl<E: Write> Errors<'_, E> {
    /// Writes the path of the file that a line is about, and what can be done; nothing where it is about none of these.
    fn advise(&mut self, line: &Diagnostic<'_>, paths: &Paths<'_>) {
        let path = match line.subject() {
            Some(subject) => paths.path(subject),
            None => "",
        };
        if !path.is_empty() {
            let _ = writeln!(self.writer, "{path}: {}", line.advice(paths.mends));
        }
    }

    /// Writes the line of an ending and, on a terminal, a second one: the path of the file that the line is about, and
    /// what can be done. Answers the status.
    pub fn end(&mut self, ending: Ending<'_>, paths: &Paths<'_>) -> u8
        ensures { result ≡ ending.entry.status }
    {
        if let Some(line) = ending.line {
            let _ = writeln!(self.writer, "{line}");
            if self.is_terminal {
                self.advise(&line, paths);
            }
        }
        ending.status
    }
}
