//! Stored runs: scripts on maps, with the answers and the saved texts that the runs must give.
//!
//! They are in `data/`, and CASES.md says how. `families.txt` names the files of cases, `maps.txt` has
//! small maps and texts by name, and `saved_maps.txt` names maps with the numbers of their features.
//! Each case is run, and a line says whether it is as it is stored, or where it differs first. What a
//! run saves must open again and be saved as the same bytes. Of a map of `saved_maps.txt` the counts
//! and all rings must be the same then.
#![tactic(auto)]

mod cases;
mod comparing;
mod running;
mod saving;

use cases::{answer_count, field, text_of};
use comparing::{AS_STORED, verdict};
use saving::said_of_saved;
use std::hash::RandomState;
use std::process::ExitCode;
use std::rt::Files;
use std::{fs, io};

/// Names the files of cases, one a line.
const FAMILIES: &str = "families.txt";

/// Has small maps and texts by name.
const NAMED: &str = "maps.txt";

/// Names maps, after the numbers of their features.
const SAVED_MAPS: &str = "saved_maps.txt";

/// What was run so far.
#[derive(Clone, Copy)]
struct Tally {
    cases: u64,
    answers: u64,
    differ: u64,
}

/// Nothing yet.
const NOTHING: Tally = Tally {
    cases: 0,
    answers: 0,
    differ: 0,
};

impl Tally {
    /// Counts a case with so many answers.
    fn count(&mut self, answers: u64, is_as_stored: bool) {
        self.cases = self.cases.saturating_add(1);
        self.answers = self.answers.saturating_add(answers);
        self.differ = self.differ.saturating_add(u64::from(!is_as_stored));
    }
}

/// The bytes of a map, which is in a file, or named, or written out.
fn map_of<R: AllocGlobal + Files>(rt: &R, named: &str, map: &str) -> io::Result<Vec<u8>> {
    if map.ends_with(".json") {
        return fs::read(rt, map);
    }
    let bytes = text_of(named, map).as_bytes().to_vec(rt.alloc())?;
    Ok(bytes)
}

/// Runs a case on its map, and prints what is said of it.
fn show_on<R: Print + AllocGlobal>(
    rt: &R,
    seed: RandomState,
    named: &str,
    map: &[u8],
    case: &str,
    tally: &mut Tally,
) -> io::Result<()> {
    let said = verdict(rt.alloc(), seed, named, map, case)?;
    let said = said.as_str();
    tally.count(answer_count(case), said == AS_STORED);
    let name = field(case, "# ").unwrap_or("no name");
    println!(rt; "  {name}: {said}")
}

/// Runs a case, and prints what is said of it.
fn show_case<R: Print + AllocGlobal + Files>(
    rt: &R,
    seed: RandomState,
    named: &str,
    case: &str,
    tally: &mut Tally,
) -> io::Result<()> {
    let map = map_of(rt, named, field(case, "map: ").unwrap_or(""))?;
    show_on(rt, seed, named, map.as_slice(), case, tally)
}

/// Runs the cases of a file, between which there is an empty line.
fn show_family<R: Print + AllocGlobal + Files>(
    rt: &R,
    seed: RandomState,
    named: &str,
    file: &str,
    tally: &mut Tally,
) -> io::Result<()> {
    println!(rt; "{file}")?;
    let cases = fs::read_to_string(rt, file)?;
    for case in cases.as_str().split("\n\n") {
        show_case(rt, seed, named, case, tally)?;
    }
    Ok(())
}

/// Saves a map, which follows the number of its features, and prints what is said of it.
fn show_saved<R: Print + AllocGlobal + Files>(
    rt: &R,
    seed: RandomState,
    named: &str,
    line: &str,
) -> io::Result<()> {
    let (features, name) = line.split_once(" ").unwrap_or(("", line));
    let map = map_of(rt, named, name)?;
    let features = features.parse::<u32>().unwrap_or(0);
    let said = said_of_saved(rt.alloc(), seed, map.as_slice(), features)?;
    println!(rt; "  {name}, features {features}: {said}")
}

/// Saves each map of a list.
fn show_all_saved<R: Print + AllocGlobal + Files>(
    rt: &R,
    seed: RandomState,
    named: &str,
) -> io::Result<()> {
    println!(rt; "{SAVED_MAPS}")?;
    let maps = fs::read_to_string(rt, SAVED_MAPS)?;
    for line in maps.as_str().lines() {
        show_saved(rt, seed, named, line)?;
    }
    Ok(())
}

/// Runs the cases of all files. Gives whether there are any, and all are as stored.
fn show_families<R: Print + AllocGlobal + Files>(
    rt: &R,
    seed: RandomState,
    named: &str,
) -> io::Result<bool> {
    let mut tally = NOTHING;
    let files = fs::read_to_string(rt, FAMILIES)?;
    for file in files.as_str().lines() {
        show_family(rt, seed, named, file, &mut tally)?;
    }
    let Tally {
        cases,
        answers,
        differ,
    } = tally;
    println!(rt; "cases {cases}, answers {answers}, not as stored {differ}")?;
    Ok(0 < cases && differ == 0)
}

/// Runs all that is stored. Gives whether all cases are as stored.
fn show_all<R: Print + AllocGlobal + Files>(rt: &R, seed: RandomState) -> io::Result<bool> {
    let named = fs::read_to_string(rt, NAMED)?;
    show_all_saved(rt, seed, named.as_str())?;
    show_families(rt, seed, named.as_str())
}

fn main(rt: HostRuntime) -> ExitCode {
    let Ok(seed) = RandomState::new(&rt) else {
        return ExitCode::from(1);
    };
    match show_all(&rt, seed) {
        Ok(is_as_stored) => ExitCode::from(u8::from(!is_as_stored)),
        Err(fault) => {
            let _ = println!(rt; "stopped: {fault}");
            ExitCode::from(1)
        }
    }
}
