//! No file is written that another argument names.
use crate::disk::{Disk, FOLDER, Kind, Shelf};
use program_ends::{FileArgument, Role, Stop, check_apart};
use std::alloc::{AllocError, Global};

/// The paths of FILE2, FILE, MAP and SCRIPT, and the two arguments that clash.
#[derive(Clone, Copy)]
struct Row {
    refused: Option<&'static str>,
    out: &'static str,
    map: &'static str,
    script: &'static str,
    clash: Option<(&'static str, &'static str)>,
}

/// No file called out.json, new.txt or new.json is there, and no folder called gone.
const ROWS: &[Row] = &[
    // Four files.
    Row {
        refused: None,
        out: "out.json",
        map: "map.json",
        script: "script.txt",
        clash: None,
    },
    // FILE may be MAP.
    Row {
        refused: None,
        out: "map.json",
        map: "map.json",
        script: "script.txt",
        clash: None,
    },
    // Also by another name.
    Row {
        refused: None,
        out: "link",
        map: "map.json",
        script: "script.txt",
        clash: None,
    },
    Row {
        refused: Some("map.json"),
        out: "out.json",
        map: "map.json",
        script: "script.txt",
        clash: Some(("--refused", "MAP")),
    },
    Row {
        refused: Some("link"),
        out: "out.json",
        map: "map.json",
        script: "script.txt",
        clash: Some(("--refused", "MAP")),
    },
    Row {
        refused: Some("map.json"),
        out: "out.json",
        map: "link",
        script: "script.txt",
        clash: Some(("--refused", "MAP")),
    },
    Row {
        refused: Some("./map.json"),
        out: "out.json",
        map: "map.json",
        script: "script.txt",
        clash: Some(("--refused", "MAP")),
    },
    Row {
        refused: Some("map.json"),
        out: "map.json",
        map: "map.json",
        script: "script.txt",
        clash: Some(("--refused", "--out")),
    },
    Row {
        refused: Some("script.txt"),
        out: "out.json",
        map: "map.json",
        script: "script.txt",
        clash: Some(("--refused", "SCRIPT")),
    },
    Row {
        refused: None,
        out: "script.txt",
        map: "map.json",
        script: "./script.txt",
        clash: Some(("--out", "SCRIPT")),
    },
    Row {
        refused: None,
        out: "script.txt",
        map: "script.txt",
        script: "script.txt",
        clash: Some(("--out", "SCRIPT")),
    },
    // Both are read.
    Row {
        refused: None,
        out: "out.json",
        map: "map.json",
        script: "map.json",
        clash: None,
    },
    // Neither is there.
    Row {
        refused: Some("new.txt"),
        out: "new.txt",
        map: "map.json",
        script: "script.txt",
        clash: Some(("--refused", "--out")),
    },
    Row {
        refused: Some("new.txt"),
        out: "to_new",
        map: "map.json",
        script: "script.txt",
        clash: Some(("--refused", "--out")),
    },
    Row {
        refused: Some("new.txt"),
        out: "new.json",
        map: "map.json",
        script: "script.txt",
        clash: None,
    },
    // Nor is the folder.
    Row {
        refused: Some("gone/new.txt"),
        out: "gone/new.txt",
        map: "map.json",
        script: "script.txt",
        clash: Some(("--refused", "--out")),
    },
    Row {
        refused: Some("gone/new.txt"),
        out: "new.txt",
        map: "map.json",
        script: "script.txt",
        clash: None,
    },
    // Nothing in a pipe is lost.
    Row {
        refused: Some("pipe"),
        out: "pipe",
        map: "map.json",
        script: "script.txt",
        clash: None,
    },
    Row {
        refused: Some("pipe"),
        out: "out.json",
        map: "pipe",
        script: "pipe",
        clash: None,
    },
];

/// A disk with a map, a script, a pipe, and links to the map and to a file that is not there.
fn disk_of(alloc: Global) -> Result<Disk, AllocError> {
    let disk = Disk::new(alloc, u32::MAX, false);
    disk.add(FOLDER, Kind::Device, b"")?;
    disk.add("map.json", Kind::File, b"{}")?;
    disk.add("script.txt", Kind::File, b"count")?;
    disk.add("pipe", Kind::Device, b"")?;
    disk.add("link", Kind::Link, b"map.json")?;
    disk.add("to_new", Kind::Link, b"new.txt")?;
    Ok(disk)
}

/// The arguments of a row.
fn arguments(row: &Row) -> [FileArgument<'static>; 4] {
    [
        FileArgument {
            argument: "--refused",
            path: row.refused,
            role: Role::Written,
        },
        FileArgument {
            argument: "--out",
            path: Some(row.out),
            role: Role::Saved,
        },
        FileArgument {
            argument: "MAP",
            path: Some(row.map),
            role: Role::Edited,
        },
        FileArgument {
            argument: "SCRIPT",
            path: Some(row.script),
            role: Role::Read,
        },
    ]
}

/// Whether the arguments of a row clash as it says, and nothing was changed.
fn holds(disk: &Disk, row: &Row) -> bool {
    let checked = check_apart(&Shelf { disk }, &arguments(row));
    let is_right = match (&checked, row.clash) {
        (Ok(()), None) => true,
        (Err(Stop::OneFile { first, second }), Some(clash)) => {
            *first == clash.0 && *second == clash.1
        }
        _ => false,
    };
    is_right && disk.names() == 6
}

#[test]
fn clashes(rt: HostRuntime) {
    let disk = disk_of(rt.alloc());
    assert!(rt; disk.is_ok());
    let Ok(disk) = disk else {
        return;
    };
    for row in ROWS {
        let holds = holds(&disk, row);
        assert!(rt; holds);
    }
}
