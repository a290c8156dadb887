//! The program: all that keeps a map from opening in the editor is found, and told, a fact a line; and
//! the map is mended, so that it opens.
#![tactic(auto)]

mod asked;
mod command_line;
mod ending;
mod geojson;
mod help;
mod looking;
mod points;
mod seeds;
mod telling;
mod told;

use asked::Words;
use command_line::words;
use program_ends::{Errors, Role, Stop, check_apart, end_stopped, given_words};
use std::io::IsTerminal;
use std::process::ExitCode;
use telling::tell;

/// What the words that the program was called with ask for.
fn words_given(rt: &HostRuntime) -> Result<Words, Stop> {
    let given = given_words(rt)?;
    let words = words(rt.alloc(), given.as_slice())?;
    check_apart(rt, &words.files(Role::Edited))?;
    Ok(words)
}

fn main(rt: HostRuntime) -> ExitCode {
    let status = match words_given(&rt) {
        Ok(words) => {
            let mut writer = rt.stderr();
            let is_terminal = writer.is_terminal();
            let mut errors = Errors {
                writer: &mut writer,
                is_terminal,
            };
            tell(&rt, &words, &mut rt.stdout(), &mut errors)
        }
        Err(stop) => end_stopped(&rt, &stop),
    };
    ExitCode::from(status)
}
