//! Which file an argument of a program names, and that none is written which another argument names.
ghost use Rattle.std.specs.Prelude.{◌≡◌, ◌⊎◌, option_map, string_bytes, IfErr};
ghost use Rattle.program_ends.specs.Stops.{IsOneFile};
ghost use Rattle.program_ends.specs.Clashes.{are_one, clash, first_with, first_clash, harms};

use crate::replacing::{folder_of, followed, name_in};
use crate::stop::Stop;
use std::alloc::AllocError;
use std::fs::{self, Files};
use std::io::{ErrorKind, Result as IoResult};
use std::os::unix::fs::MetadataExt;

/// How a program uses a file.
#[derive(Clone, Copy, Debug)]
pub enum Role {
    /// It is read, and may be the file that is saved.
    Edited,
    /// It is read.
    Read,
    /// It is saved, and may be the file that is edited.
    Saved,
    /// It is written.
    Written,
}

/// A file that an argument of a program names.
#[derive(Clone, Copy, Debug)]
pub struct FileArgument<'a> {
    /// The argument, as a user knows it.
    pub argument: &'static str,
    /// The path that it was given, if it was.
    pub path: Option<&'a str>,
    /// How the program uses the file.
    pub role: Role,
}

/// A file that an argument of a program names, by what the system calls it.
#[derive(Debug, Drop)]
pub struct NamedFile {
    /// The argument, as a user knows it.
    pub argument: &'static str,
    /// What the system calls the file; none where it is no regular one.
    pub name: Option<String>,
    /// How the program uses the file.
    pub role: Role,
}

/// Whether two arguments with these roles may not name one file.
fn harms(role: Role, other: Role) -> bool
    ensures { result ≡ harms role other }
{
    match (role, other) {
        (Role::Edited, Role::Saved) | (Role::Saved, Role::Edited) => false,
        (Role::Edited | Role::Read, Role::Edited | Role::Read) => false,
        _ => true,
    }
}

/// Whether both are there, and are the same text.
fn are_one(name: Option<&str>, other: Option<&str>) -> bool
    ensures { result ≡ are_one (option_map (λ text. text.now) name.entry)
        (option_map (λ text. text.now) other.entry) }
{
    match (name, other) {
        (Some(name), Some(other)) => name == other,
        _ => false,
    }
}

/// The text of a name.
fn text_of(name: &Option<String>) -> Option<&str>
    ensures { option_map (λ text. text.now) result ≡ option_map string_bytes name.now }
{
    match name {
        Some(text) => Some(text.as_str()),
        None => None,
    }
}

/// Whether two arguments name one file, and may not.
fn clash(file: &NamedFile, other: &NamedFile) -> bool
    ensures { result ≡ clash file.now other.now }
{
    harms(file.role, other.role) && are_one(text_of(&file.name), text_of(&other.name))
}

/// The first argument that clashes with one.
fn first_with(file: &NamedFile, rest: &[NamedFile]) -> Option<&'static str>
    ensures { result ≡ first_with file.now rest.now }
{
    for other in rest {
        if clash(file, other) {
            return Some(other.argument);
        }
    }
    None
}

/// The first two arguments that name one file, and may not: one of them is written, and they are not
/// FILE and MAP.
#[tactic(auto, using(crate::proofs::ClashLemmas::clash_passed, crate::proofs::ClashLemmas::clash_found))]
pub fn first_clash(files: &[NamedFile]) -> Option<(&'static str, &'static str)>
    ensures { result ≡ first_clash files.now }
{
    for (at, file) in files.iter().enumerate() {
        if let Some(other) = first_with(file, &files[at + 1..]) {
            return Some((file.argument, other));
        }
    }
    None
}

/// A file by the numbers of its folder, which has no path from the root that is UTF-8.
fn numbered<R: Files + Alloc>(rt: &R, at: &str) -> IoResult<String<R::A>> {
    let folder = fs::metadata(rt, folder_of(at))?;
    let (device, number, name) = (folder.dev(), folder.ino(), name_in(at));
    Ok(format!(in rt.alloc(); "{device} {number} {name}")?)
}

/// A file, which need not be there, by its folder and its name in it, without symbolic links.
fn placed<R: Files + Alloc>(rt: &R, path: &str) -> IoResult<String<R::A>> {
    let at = followed(rt, path)?;
    match fs::canonicalize(rt, folder_of(at.as_str())) {
        Ok(mut folder) => {
            folder.push(name_in(at.as_str()))?;
            Ok(folder.into_string())
        }
        Err(error) if error.kind() == ErrorKind::OutOfMemory => Err(error),
        Err(_) => numbered(rt, at.as_str()),
    }
}

/// What the system calls a file. What is no regular file, as a device or a pipe, has no such name, since
/// nothing in it can be lost. A file in a folder that is not there goes by its path.
fn name_of<R: Files + AllocGlobal>(rt: &R, path: &str) -> Result<Option<String>, AllocError> {
    if let Ok(there) = fs::metadata(rt, path) {
        if !there.is_file() {
            return Ok(None);
        }
    }
    match placed(rt, path) {
        Ok(name) => Ok(Some(name)),
        Err(error) if error.kind() == ErrorKind::OutOfMemory => Err(AllocError),
        Err(_) => Ok(Some(String::from_str(rt.alloc(), path)?)),
    }
}

/// Stops a program that would write a file which another of its arguments names. It looks, and reads and
/// writes nothing.
pub fn check_apart<R: Files + AllocGlobal>(rt: &R, files: &[FileArgument<'_>]) -> Result<(), Stop>
    ensures { IfErr result (λ stop. (stop ≡ Stop.NoMemory) ⊎ IsOneFile stop) }
{
    let mut named = Vec::new(rt.alloc());
    for file in files {
        let name = match file.path {
            Some(path) => name_of(rt, path)?,
            None => None,
        };
        named.push(NamedFile {
            argument: file.argument,
            name,
            role: file.role,
        })?;
    }
    match first_clash(named.as_slice()) {
        Some((first, second)) => Err(Stop::OneFile { first, second }),
        None => Ok(()),
    }
}
