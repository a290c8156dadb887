//! A test: the texts of `data/`, and what the scanner and the readers answer to each. An answer that is
//! not the stored one is reported, and each family of texts with the count of them.
#![tactic(auto)]

mod damage;
mod geo;
mod opening;
mod outline;
mod pieces;
mod runs;
mod spans;
mod tables;

use std::process::ExitCode;
use std::{fs, io};
use tables::{Counts, Door, told};

/// The files, and what answers to the texts of each.
const FILES: [(&str, Door); 11] = [
    ("scans.txt", Door::Scan),
    ("spans.txt", Door::Spans),
    ("drawn.txt", Door::Spans),
    ("outlines.txt", Door::Outline),
    ("topologies.txt", Door::Read),
    ("walks.txt", Door::ReadBoth),
    ("geojson.txt", Door::Geo),
    ("geojson_read.txt", Door::GeoRead),
    ("damaged.txt", Door::Damaged),
    ("pairs.txt", Door::Pairs),
    ("damaged_maps.txt", Door::DamagedMaps),
];

/// Tells of the texts of a file, and gives their counts.
fn told_file(rt: &HostRuntime, name: &str, door: Door) -> io::Result<Counts> {
    let text = fs::read_to_string(rt, name)?;
    let mut page = String::new(rt.alloc());
    let counts = told(rt.alloc(), door, text.as_str(), &mut page)?;
    println!(rt; "{name}")?;
    rt.print(page.as_str())?;
    Ok(counts)
}

fn told_files(rt: &HostRuntime) -> io::Result<Counts> {
    let mut counts = Counts::new();
    for (name, door) in FILES {
        counts.add(told_file(rt, name, door)?);
    }
    println!(rt; "in all {counts}")?;
    Ok(counts)
}

fn main(rt: HostRuntime) -> ExitCode {
    match told_files(&rt) {
        Ok(counts) if counts.are_as_stored() => ExitCode::from(0),
        _ => ExitCode::from(1),
    }
}
