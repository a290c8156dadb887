//! A file is replaced whole, whatever call fails.
use crate::disk::{Disk, FOLDER, Kind, Shelf};
use program_ends::replace_file;
use std::alloc::{AllocError, Global};
use std::io::Result as IoResult;

const FILE: &str = "map.json";

const OLD: &[u8] = b"the old map";

const NEW: &[u8] = b"the new map, a longer one";

/// What FILE is before it is written.
#[derive(Clone, Copy)]
enum Before {
    Old,
    Absent,
    LinkToOld,
    LinkToNone,
}

/// The name that is written through, and the one that holds the bytes.
fn names_of(before: Before) -> (&'static str, &'static str) {
    match before {
        Before::Old | Before::Absent => (FILE, FILE),
        Before::LinkToOld | Before::LinkToNone => ("link", FILE),
    }
}

/// A disk with a folder, and FILE as it is before.
fn disk_with(
    alloc: Global,
    before: Before,
    failing: u32,
    lasting: bool,
) -> Result<Disk, AllocError> {
    let disk = Disk::new(alloc, failing, lasting);
    disk.add(FOLDER, Kind::Device, b"")?;
    match before {
        Before::Old | Before::LinkToOld => {
            disk.add(FILE, Kind::File, OLD)?;
        }
        Before::Absent | Before::LinkToNone => {}
    }
    match before {
        Before::LinkToOld | Before::LinkToNone => {
            disk.add("link", Kind::Link, FILE.as_bytes())?;
        }
        Before::Old | Before::Absent => {}
    }
    Ok(disk)
}

/// Whether FILE is as it was.
fn is_old(disk: &Disk, before: Before) -> bool {
    match before {
        Before::Old | Before::LinkToOld => disk.has(FILE, Kind::File, OLD),
        Before::Absent | Before::LinkToNone => !disk.is_there(FILE),
    }
}

/// How many names there are where nothing but FILE, a link to it and their folder is there.
fn names_without_more(disk: &Disk, before: Before) -> usize {
    let links = match before {
        Before::LinkToOld | Before::LinkToNone => 2usize,
        Before::Old | Before::Absent => 1usize,
    };
    if disk.is_there(FILE) {
        links + 1
    } else {
        links
    }
}

/// Whether the link to FILE is still one, where there was one.
fn keeps_link(disk: &Disk, before: Before) -> bool {
    match before {
        Before::LinkToOld | Before::LinkToNone => disk.has("link", Kind::Link, FILE.as_bytes()),
        Before::Old | Before::Absent => true,
    }
}

/// Whether FILE is whole after a write. It holds the new bytes after a fault only where the last call
/// failed, which passes the new name on to the device.
fn is_whole(disk: &Disk, before: Before, failing: u32, written: &IoResult<()>) -> bool {
    let is_new = disk.has(FILE, Kind::File, NEW);
    match written {
        Ok(()) => is_new,
        Err(_) if is_new => disk.calls() == failing.saturating_add(1),
        Err(_) => is_old(disk, before),
    }
}

/// What a write came to.
#[derive(Clone, Copy, PartialEq, Eq)]
struct Written {
    is_told: bool,
    is_right: bool,
    calls: u32,
}

/// Writes FILE with a fault, and tells whether all that has to stand stands.
fn write_with(
    alloc: Global,
    before: Before,
    failing: u32,
    is_lasting: bool,
) -> Result<Written, AllocError> {
    let disk = disk_with(alloc, before, failing, is_lasting)?;
    let written = replace_file(&Shelf { disk: &disk }, names_of(before).0, NEW);
    let is_alone = is_lasting || disk.names() == names_without_more(&disk, before);
    Ok(Written {
        is_told: written.is_err(),
        is_right: is_alone
            && is_whole(&disk, before, failing, &written)
            && keeps_link(&disk, before),
        calls: disk.calls(),
    })
}

/// How many calls failed and were told, if all stands after each fault. Each call fails in turn, and there
/// are at least the 13 that open, make, fill in nine pieces, sync and rename a file.
fn told_of_each(alloc: Global, before: Before, is_lasting: bool) -> Option<(u32, u32)> {
    let whole = write_with(alloc, before, u32::MAX, false).ok()?;
    if whole.is_told || !whole.is_right || whole.calls < 13 {
        return None;
    }
    let mut told = 0u32;
    for failing in 0..whole.calls {
        let written = write_with(alloc, before, failing, is_lasting).ok()?;
        if !written.is_right {
            return None;
        }
        if written.is_told {
            told = told.saturating_add(1);
        }
    }
    Some((told, whole.calls))
}

/// Whether each fault is reported but that of opening the folder, and all stands after each.
fn stands(alloc: Global, before: Before, is_lasting: bool) -> bool {
    match told_of_each(alloc, before, is_lasting) {
        Some((told, calls)) => told.saturating_add(1) == calls,
        None => false,
    }
}

#[test]
fn one_fault(rt: HostRuntime) {
    for before in [
        Before::Old,
        Before::Absent,
        Before::LinkToOld,
        Before::LinkToNone,
    ] {
        let stands = stands(rt.alloc(), before, false);
        assert!(rt; stands);
    }
}

#[test]
fn lasting_faults(rt: HostRuntime) {
    for before in [
        Before::Old,
        Before::Absent,
        Before::LinkToOld,
        Before::LinkToNone,
    ] {
        let stands = stands(rt.alloc(), before, true);
        assert!(rt; stands);
    }
}

/// Writes a file of this kind, and tells whether that worked, and what it is then.
fn written_over(alloc: Global, kind: Kind, after: &[u8]) -> Result<(bool, bool), AllocError> {
    let disk = Disk::new(alloc, u32::MAX, false);
    disk.add(FOLDER, Kind::Device, b"")?;
    disk.add(FILE, kind, OLD)?;
    let written = replace_file(&Shelf { disk: &disk }, FILE, NEW);
    Ok((
        written.is_ok(),
        disk.has(FILE, kind, after) && disk.names() == 2,
    ))
}

#[test]
fn device_in_place(rt: HostRuntime) {
    // A device takes what is written after what it has taken.
    let after = b"the old mapthe new map, a longer one";
    let written = written_over(rt.alloc(), Kind::Device, after);
    assert!(rt; written == Ok((true, true)));
}

#[test]
fn locked_file_stays(rt: HostRuntime) {
    let written = written_over(rt.alloc(), Kind::Locked, OLD);
    assert!(rt; written == Ok((false, true)));
}

/// The mode that a file has once it was replaced.
fn mode_after(alloc: Global) -> Result<u32, AllocError> {
    let disk = disk_with(alloc, Before::Old, u32::MAX, false)?;
    let _ = replace_file(&Shelf { disk: &disk }, FILE, NEW);
    Ok(disk.mode(FILE))
}

#[test]
fn mode_stays(rt: HostRuntime) {
    // That of a file of the fake is 0o644, with the bit of a regular file.
    let mode = mode_after(rt.alloc());
    assert!(rt; mode == Ok(0o100644));
}

/// Writes FILE where this many names of new files are taken. Tells whether it was written, and whether
/// the files of these names are as they were.
fn written_beside(alloc: Global, taken: usize) -> Result<(bool, bool), AllocError> {
    let disk = disk_with(alloc, Before::Old, u32::MAX, false)?;
    for number in 0..taken {
        let name = format!(in alloc; ".map.json.border_edit-{number}.tmp")?;
        disk.add(name.as_str(), Kind::File, b"another's")?;
    }
    let written = replace_file(&Shelf { disk: &disk }, FILE, NEW).is_ok();
    let is_kept = disk.names() == taken.saturating_add(2);
    Ok((written, is_kept))
}

#[test]
fn taken_names_are_passed_over(rt: HostRuntime) {
    let few = written_beside(rt.alloc(), 99);
    assert!(rt; few == Ok((true, true)));
    let all = written_beside(rt.alloc(), 100);
    assert!(rt; all == Ok((false, true)));
}
