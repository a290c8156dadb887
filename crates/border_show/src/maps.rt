//! The maps that are drawn: the files that they are read from, and in which order.
ghost use Rattle.std.specs.Prelude.{◌≡◌, option_map, IfOk};
ghost use Rattle.border_show.specs.Maps.{path_before, path_drawn, file_path};

use crate::arguments::{Arguments, Part};
use program_ends::{Stop, map_bytes};
use std::alloc::{AllocError, Global};

/// A map that was read.
#[derive(Drop)]
pub(crate) struct MapFile<'a> {
    /// The path of its file.
    pub(crate) path: &'a str,
    /// The bytes of its file.
    pub(crate) bytes: Vec<u8>,
}

/// The maps that are drawn.
#[derive(Drop)]
pub(crate) struct MapFiles<'a> {
    /// The map before an edit, where there is one.
    pub(crate) before: Option<MapFile<'a>>,
    /// The map, or the one after the edit.
    pub(crate) map: MapFile<'a>,
}

/// Reads a map.
fn read_file<'a>(rt: &HostRuntime, path: &'a str) -> Result<MapFile<'a>, Stop>
    ensures { IfOk result (λ file. file_path file ≡ path.now) }
{
    let bytes = map_bytes(rt, path)?;
    Ok(MapFile { path, bytes })
}

/// Reads the maps that the arguments name, first the one that they name first: where they name two, it is the
/// one before the edit.
pub(crate) fn read_files<'a>(
    rt: &HostRuntime,
    arguments: &'a Arguments,
) -> Result<MapFiles<'a>, Stop>
    ensures before { IfOk result (λ maps. option_map file_path maps.before ≡ path_before arguments.now) }
    ensures drawn { IfOk result (λ maps. file_path maps.map ≡ path_drawn arguments.now) }
{
    let first = read_file(rt, arguments.before.as_str())?;
    match &arguments.after {
        Some(after) => {
            let map = read_file(rt, after.as_str())?;
            Ok(MapFiles {
                before: Some(first),
                map,
            })
        }
        None => Ok(MapFiles {
            before: None,
            map: first,
        }),
    }
}

/// The last part of a path.
fn file_name(path: &str) -> &str {
    match path.rsplit_once('/') {
        Some((_, name)) => name,
        None => path,
    }
}

impl MapFiles<'_> {
    /// The names of their files.
    fn names(&self, alloc: Global) -> Result<String, AllocError> {
        let map = file_name(self.map.path);
        match &self.before {
            Some(before) => {
                let before = file_name(before.path);
                format!(in alloc; "{before} \u{2192} {map}")
            }
            None => String::from_str(alloc, map),
        }
    }

    /// The title of the picture: the names of the files, and what `--feature` names.
    pub(crate) fn title(&self, alloc: Global, part: &Part) -> Result<String, AllocError> {
        let files = self.names(alloc)?;
        match part {
            Part::Feature(name) => format!(in alloc; "{files}: {name}"),
            Part::Whole | Part::Square(_) => Ok(files),
        }
    }
}
