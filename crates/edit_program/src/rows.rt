//! The rows of the list of refused lines.
ghost use Rattle.std.specs.Prelude.{OnOk};
ghost use Rattle.edit_program.specs.Listing.{AddsRow};

use crate::script_line::ScriptLine;
use crate::why::why_of;
use std::alloc::Global;
use std::io::{Result as IoResult, Write};

/// Appends the row of a line that has this answer: `NUMBER<TAB>ANSWER<TAB>LINE<TAB>WHY<LF>`.
pub(crate) fn push_row(
    heap: Global,
    rows: &mut Vec<u8>,
    line: &ScriptLine,
    answer: &[u8],
) -> IoResult<()>
    ensures { OnOk result (AddsRow line.now answer.now rows.old.items rows.new.items) }
{
    let number = line.number;
    let why = why_of(heap, line, answer)?;
    write!(rows, "{number}\t")?;
    rows.extend_from_slice(answer)?;
    rows.push(b'\t')?;
    rows.extend_from_slice(line.text())?;
    writeln!(rows, "\t{why}")
}
