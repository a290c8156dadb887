use std::fmt::{Display, Error, Formatter, Write};
use topo_outline::OpenFault;

/// What ended a run. Its text is the line that the program writes on standard error.
#[derive(Clone, Copy, Debug)]
pub enum RunFault<'a> {
    /// The map was not opened, and nothing was read or written: `open: ` and the fault's text.
    Open(OpenFault<'a>),
    /// The script's reader failed, or gave more than 1,073,741,824 bytes: `script fault`.
    Read,
    /// The writer of the answers failed: `write fault`.
    Write,
    /// The writer of the saved text failed, after all lines were answered: `save fault`.
    Save,
    /// An allocation failed, in opening too: `out of memory`.
    OutOfMemory,
}

impl<'a> Display for RunFault<'a> {
    fn fmt<W: Write>(&self, f: &mut Formatter<W>) -> Result<(), Error> {
        match self {
            RunFault::Open(fault) => write!(f, "open: {fault}"),
            RunFault::Read => write!(f, "script fault"),
            RunFault::Write => write!(f, "write fault"),
            RunFault::Save => write!(f, "save fault"),
            RunFault::OutOfMemory => write!(f, "out of memory"),
        }
    }
}
