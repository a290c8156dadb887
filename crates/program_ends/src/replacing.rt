//! A file that is written is replaced whole: the bytes go to a new file beside it, which then takes its name.
use std::alloc::{AllocError, Allocator};
use std::fs::{self, Files, Metadata, OpenFile, OpenOptions};
use std::io::{Error, ErrorKind, Result as IoResult, Write};
use std::os::unix::fs::MetadataExt;

/// The most symbolic links that are followed one after another, as by the system.
const MOST_LINKS: usize = 40;

/// The most names that are tried for a new file.
const MOST_TRIES: u8 = 100;

/// The most bytes of a file's name that stand in the name of the new file beside it. What stands about
/// them has at most 20, and a name has at most 255.
const MOST_NAME: usize = 235;

/// The name of a file in its folder.
pub(crate) fn name_in(path: &str) -> &str {
    match path.rsplit_once('/') {
        Some((_, name)) => name,
        None => path,
    }
}

/// The folder of a file.
pub(crate) fn folder_of(path: &str) -> &str {
    match path.rsplit_once('/') {
        Some(("", _)) => "/",
        Some((folder, _)) => folder,
        None => ".",
    }
}

/// The path of a name in the folder of another file.
fn beside<A: Allocator>(alloc: A, path: &str, name: &str) -> Result<String<A>, AllocError> {
    let mut beside = String::new(alloc);
    if let Some((folder, _)) = path.rsplit_once('/') {
        beside.push_str(folder)?;
        beside.push('/')?;
    }
    beside.push_str(name)?;
    Ok(beside)
}

/// What a symbolic link at a path leads to.
fn led<A: Allocator>(alloc: A, path: &str, link: &str) -> Result<String<A>, AllocError> {
    if link.starts_with('/') {
        String::from_str(alloc, link)
    } else {
        beside(alloc, path, link)
    }
}

/// The path that symbolic links at the end of a path lead to, also where no file is there.
pub(crate) fn followed<R: Files + Alloc>(rt: &R, path: &str) -> IoResult<String<R::A>> {
    let mut at = String::from_str(rt.alloc(), path)?;
    for _ in 0..MOST_LINKS {
        match fs::symlink_metadata(rt, at.as_str()) {
            Ok(there) if there.is_symlink() => {
                let link = fs::read_link(rt, at.as_str())?;
                at = led(rt.alloc(), at.as_str(), link.as_str())?;
            }
            Ok(_) => return Ok(at),
            Err(error) if error.kind() == ErrorKind::NotFound => return Ok(at),
            Err(error) => return Err(error),
        }
    }
    Err(Error::from(ErrorKind::FilesystemLoop))
}

/// The name of the new file beside one of this name. It tells whose it is.
fn new_name<A: Allocator>(alloc: A, name: &str, number: u8) -> Result<String<A>, AllocError> {
    let kept = &name[..name.floor_char_boundary(MOST_NAME)];
    format!(in alloc; ".{kept}.border_edit-{number}.tmp")
}

/// A new file beside one, and its path. A number that another file has is passed over.
fn new_beside<R: Files + Alloc>(rt: &R, target: &str) -> IoResult<(R::File, String<R::A>)> {
    for number in 0..MOST_TRIES {
        let name = new_name(rt.alloc(), name_in(target), number)?;
        let path = beside(rt.alloc(), target, name.as_str())?;
        match OpenOptions::new()
            .write(true)
            .create_new(true)
            .open(rt, path.as_str())
        {
            Ok(file) => return Ok((file, path)),
            Err(error) if error.kind() == ErrorKind::AlreadyExists => {}
            Err(error) => return Err(error),
        }
    }
    Err(Error::from(ErrorKind::AlreadyExists))
}

/// Gives a new file the mode of the one that it is to replace, and its group and owner where the system
/// lets the user give a file to them.
fn dress<R: Files>(rt: &R, file: &R::File, path: &str, there: &Metadata) -> IoResult<()> {
    let _ = rt.chown(path, None, Some(there.gid()));
    let _ = rt.chown(path, Some(there.uid()), None);
    file.set_permissions(there.permissions())
}

/// Writes all of a file, and passes it on to the device.
fn fill<W: Write + OpenFile>(file: &mut W, bytes: &[u8]) -> IoResult<()> {
    file.write_all(bytes)?;
    file.flush()?;
    file.sync_all()
}

/// Fills a new file, and gives it the name of the one that it replaces.
fn fill_and_rename<R: Files>(
    rt: &R,
    file: R::File,
    path: &str,
    target: &str,
    there: Option<Metadata>,
    bytes: &[u8],
) -> IoResult<()> {
    let mut file = file;
    if let Some(there) = there {
        dress(rt, &file, path, &there)?;
    }
    fill(&mut file, bytes)?;
    drop(file);
    fs::rename(rt, path, target)
}

/// Passes the new name on to the device, where the system lets a folder be opened and passed on.
fn sync_folder<R: Files>(rt: &R, target: &str) -> IoResult<()> {
    let Ok(folder) = fs::open(rt, folder_of(target)) else {
        return Ok(());
    };
    match folder.sync_all() {
        Ok(()) => Ok(()),
        Err(error) => match error.kind() {
            ErrorKind::InvalidInput | ErrorKind::Unsupported => Ok(()),
            _ => Err(error),
        },
    }
}

/// Whether a path names the file that was found, and not one that has lost its name.
fn is_named<R: Files>(rt: &R, target: &str, there: &Metadata) -> bool {
    match fs::symlink_metadata(rt, target) {
        Ok(named) => { named.is_file() && named.dev() == there.dev() && named.ino() == there.ino() }
        Err(_) => false,
    }
}

/// Replaces the regular file that a path names, or makes one where none is there.
fn replace<R: Files + Alloc>(
    rt: &R,
    path: &str,
    there: Option<Metadata>,
    bytes: &[u8],
) -> IoResult<()> {
    let target = followed(rt, path)?;
    if let Some(there) = &there {
        if !is_named(rt, target.as_str(), there) {
            return Err(Error::from(ErrorKind::NotFound));
        }
    }
    let (file, new) = new_beside(rt, target.as_str())?;
    match fill_and_rename(rt, file, new.as_str(), target.as_str(), there, bytes) {
        Ok(()) => sync_folder(rt, target.as_str()),
        Err(error) => {
            let _ = fs::remove_file(rt, new.as_str());
            Err(error)
        }
    }
}

/// Writes a file. A regular file is replaced whole: after a fault, and also where the run is killed, it
/// holds its old bytes or the new ones. A symbolic link stays, and what it names is replaced. What is no
/// regular file, as a device or a pipe, is written in place. A file that can't be written, or beside
/// which no other one can be made, is a fault.
pub fn replace_file<R: Files + Alloc>(rt: &R, path: &str, bytes: &[u8]) -> IoResult<()> {
    match OpenOptions::new().write(true).open(rt, path) {
        Ok(mut file) => {
            let there = file.metadata()?;
            if there.is_file() {
                drop(file);
                return replace(rt, path, Some(there), bytes);
            }
            file.write_all(bytes)?;
            file.flush()
        }
        Err(error) if error.kind() == ErrorKind::NotFound => replace(rt, path, None, bytes),
        Err(error) => Err(error),
    }
}
