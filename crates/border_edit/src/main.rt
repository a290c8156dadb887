//! The program: a script of editing commands is run on a map, its answers go to standard output, one
//! a line, and the map goes to a file.
#![tactic(auto)]

mod editing;
mod ending;

use edit_program::{Words, words};
use editing::{STANDARD_INPUT, edit};
use program_ends::{FileArgument, Role, Stop, check_apart, end_stopped, given_words};
use std::io::IsTerminal;
use std::process::ExitCode;

/// The file that a SCRIPT of standard input comes from, where it comes from one.
const STANDARD_INPUT_FILE: &str = "/dev/stdin";

/// The files that the words name, those that are written first.
fn files_of(words: &Words) -> [FileArgument<'_>; 4] {
    let script = match words.script.as_str() {
        STANDARD_INPUT => STANDARD_INPUT_FILE,
        path => path,
    };
    [
        FileArgument {
            argument: "--refused",
            path: words.refused.as_ref().map(|path| path.as_str()),
            role: Role::Written,
        },
        FileArgument {
            argument: "--out",
            path: Some(words.out.as_str()),
            role: Role::Saved,
        },
        FileArgument {
            argument: "MAP",
            path: Some(words.map.as_str()),
            role: Role::Edited,
        },
        FileArgument {
            argument: "SCRIPT",
            path: Some(script),
            role: Role::Read,
        },
    ]
}

/// What these words ask for, the program's name first, where no file is written that another of them
/// names.
fn words_of(rt: &HostRuntime, given: &[String]) -> Result<Words, Stop> {
    let words = words(rt.alloc(), given)?;
    check_apart(rt, &files_of(&words))?;
    Ok(words)
}

/// What the words that the program was called with ask for.
fn words_given(rt: &HostRuntime) -> Result<Words, Stop> {
    let given = given_words(rt)?;
    words_of(rt, given.as_slice())
}

fn main(rt: HostRuntime) -> ExitCode {
    let status = match words_given(&rt) {
        Ok(words) => {
            let mut errors = rt.stderr();
            let is_terminal = errors.is_terminal();
            edit(&rt, &words, is_terminal, rt.stdout(), &mut errors)
        }
        Err(stop) => end_stopped(&rt, &stop),
    };
    ExitCode::from(status)
}
