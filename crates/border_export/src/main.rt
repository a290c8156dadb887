//! The program: a layer of a map is written in a file as GeoJSON.
#![tactic(auto)]

mod arguments;
mod command_line;
mod ending;
mod exporting;
mod help;
mod writing;

use arguments::Arguments;
use command_line::arguments_of;
use program_ends::{Errors, Stop, check_apart, end_stopped, given_words};
use std::io::IsTerminal;
use std::process::ExitCode;
use writing::write_layer;

/// What the arguments that the program was called with ask for.
fn given_arguments(rt: &HostRuntime) -> Result<Arguments, Stop> {
    let given = given_words(rt)?;
    let arguments = arguments_of(rt.alloc(), given.as_slice())?;
    check_apart(rt, &arguments.files())?;
    Ok(arguments)
}

fn main(rt: HostRuntime) -> ExitCode {
    let status = match given_arguments(&rt) {
        Ok(arguments) => {
            let mut writer = rt.stderr();
            let is_terminal = writer.is_terminal();
            let mut errors = Errors {
                writer: &mut writer,
                is_terminal,
            };
            write_layer(&rt, &arguments, &mut errors)
        }
        Err(stop) => end_stopped(&rt, &stop),
    };
    ExitCode::from(status)
}
