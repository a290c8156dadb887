//! The program: a map, or what an edit did to it, is drawn in a file.
#![tactic(auto)]

// The value of a result, or a return of the fault of a map: what `?` does by a conversion. The checker
// has no rule for the conversion of a fault that holds a position.
macro_rules! or_return {
    ($result:expr) => {
        match $result {
            Ok(value) => value,
            Err(fault) => return Err(crate::showing::ShowFault::Open(fault)),
        }
    };
}

mod arguments;
mod command_line;
mod conflicts;
mod drawing;
mod ending;
mod finding;
mod help;
mod maps;
mod showing;

use arguments::Arguments;
use command_line::arguments_of;
use drawing::draw;
use program_ends::{Errors, Stop, check_apart, end_stopped, given_words};
use std::io::IsTerminal;
use std::process::ExitCode;

/// What the arguments that the program was called with ask for.
fn given_arguments(rt: &HostRuntime) -> Result<Arguments, Stop> {
    let given = given_words(rt)?;
    let arguments = arguments_of(rt.alloc(), given.as_slice())?;
    check_apart(rt, &arguments.files())?;
    Ok(arguments)
}

fn main(rt: HostRuntime) -> ExitCode {
    let status = match given_arguments(&rt) {
        Ok(arguments) => {
            let mut writer = rt.stderr();
            let is_terminal = writer.is_terminal();
            let mut errors = Errors {
                writer: &mut writer,
                is_terminal,
            };
            draw(&rt, &arguments, &mut errors)
        }
        Err(stop) => end_stopped(&rt, &stop),
    };
    ExitCode::from(status)
}
