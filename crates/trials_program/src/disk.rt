//! A file system in memory, with one folder, of which one call fails, or all from one on.
use std::alloc::{AllocError, Allocator, Global};
use std::cell::{Cell, RefCell};
use std::fs::{Files, Metadata, OpenFile, OpenOptions, Permissions};
use std::io::{Error, ErrorKind, Read, Result as IoResult, Seek, SeekFrom, Write};
use std::os::unix::fs::PermissionsExt;
use std::path::PathBuf;

/// The most bytes that a file takes at a time.
const PIECE: usize = 3;

/// The folder of all files.
pub(crate) const FOLDER: &str = ".";

/// What a name stands for.
#[derive(Clone, Copy, PartialEq, Eq)]
pub(crate) enum Kind {
    File,
    /// A file that may not be written.
    Locked,
    /// A symbolic link; its bytes are the name that it leads to.
    Link,
    /// No regular file.
    Device,
}

/// A file, with its name where it still has one.
#[derive(Drop)]
struct Entry {
    name: Option<String>,
    kind: Kind,
    bytes: Vec<u8>,
    mode: u32,
}

/// The files, and which calls fail.
#[derive(Drop)]
pub(crate) struct Disk {
    alloc: Global,
    entries: RefCell<Vec<Entry>>,
    calls: Cell<u32>,
    failing: u32,
    is_lasting: bool,
}

impl Disk {
    /// No file; the call of this number fails, counted from 0, and where it lasts each one after it.
    pub(crate) fn new(alloc: Global, failing: u32, is_lasting: bool) -> Disk {
        Disk {
            alloc,
            entries: RefCell::new(Vec::new(alloc)),
            calls: Cell::new(0),
            failing,
            is_lasting,
        }
    }

    /// How many calls were made.
    pub(crate) fn calls(&self) -> u32 {
        self.calls.get()
    }

    /// Adds a file.
    pub(crate) fn add(&self, name: &str, kind: Kind, bytes: &[u8]) -> Result<usize, AllocError> {
        let entry = Entry {
            name: Some(String::from_str(self.alloc, name)?),
            kind,
            bytes: bytes.to_vec(self.alloc)?,
            mode: 0,
        };
        let Ok(mut entries) = self.entries.try_borrow_mut() else {
            return Err(AllocError);
        };
        let entries = &mut *entries;
        entries.push(entry).map_err(|_| AllocError)?;
        Ok(entries.len() - 1)
    }

    /// Counts a call, and fails where it is to.
    fn pass(&self) -> IoResult<()> {
        let number = self.calls.get();
        self.calls.set(number.saturating_add(1));
        if number == self.failing || (self.is_lasting && self.failing < number) {
            return Err(Error::from(ErrorKind::StorageFull));
        }
        Ok(())
    }

    /// The number of the file with a name.
    fn named(&self, name: &str) -> Option<usize> {
        let Ok(entries) = self.entries.try_borrow() else {
            return None;
        };
        for (at, entry) in entries.iter().enumerate() {
            if let Some(own) = &entry.name {
                if own.as_str() == name {
                    return Some(at);
                }
            }
        }
        None
    }

    /// The kind of a file.
    fn kind(&self, at: usize) -> Option<Kind> {
        let entries = self.entries.try_borrow().ok()?;
        Some(entries.get(at)?.kind)
    }

    /// How many names there are.
    pub(crate) fn names(&self) -> usize {
        let Ok(entries) = self.entries.try_borrow() else {
            return 0;
        };
        let mut names = 0usize;
        for entry in entries.iter() {
            if entry.name.is_some() {
                names = names.saturating_add(1);
            }
        }
        names
    }

    /// Whether a file has the name.
    pub(crate) fn is_there(&self, name: &str) -> bool {
        self.named(name).is_some()
    }

    /// Whether a file of this kind has the name, with these bytes.
    pub(crate) fn has(&self, name: &str, kind: Kind, bytes: &[u8]) -> bool {
        let Some(at) = self.named(name) else {
            return false;
        };
        let Ok(entries) = self.entries.try_borrow() else {
            return false;
        };
        match entries.get(at) {
            Some(entry) => entry.kind == kind && entry.bytes.as_slice() == bytes,
            None => false,
        }
    }

    /// The mode that a file was given, or 0.
    pub(crate) fn mode(&self, name: &str) -> u32 {
        let Some(at) = self.named(name) else {
            return 0;
        };
        match self.entries.try_borrow() {
            Ok(entries) => entries.get(at).map_or(0, |entry| entry.mode),
            Err(_) => 0,
        }
    }

    /// The text of a file, as of a link.
    fn text<B: Allocator>(&self, alloc: B, at: usize) -> IoResult<String<B>> {
        let Ok(entries) = self.entries.try_borrow() else {
            return Err(Error::from(ErrorKind::ResourceBusy));
        };
        let Some(entry) = entries.get(at) else {
            return Err(Error::from(ErrorKind::NotFound));
        };
        let bytes = entry.bytes.as_slice().to_vec(alloc)?;
        String::from_utf8(bytes).map_err(|_| Error::from(ErrorKind::InvalidData))
    }

    /// The number of the file that a name leads to.
    fn reached(&self, name: &str) -> Option<usize> {
        let at = self.named(name)?;
        if self.kind(at)? != Kind::Link {
            return Some(at);
        }
        let text = self.text(self.alloc, at).ok()?;
        self.named(text.as_str())
    }

    /// What is known of a file.
    fn told(&self, at: Option<usize>) -> IoResult<Metadata> {
        let Some(kind) = at.and_then(|at| self.kind(at)) else {
            return Err(Error::from(ErrorKind::NotFound));
        };
        Ok(match kind {
            Kind::File | Kind::Locked => Metadata::of_file(0),
            Kind::Link => Metadata::of_symlink(0),
            Kind::Device => Metadata::of_dir(),
        })
    }

    /// Gives a file another name, or none, and takes it from the file that had it.
    fn rename(&self, from: &str, to: Option<&str>) -> IoResult<()> {
        let Some(at) = self.named(from) else {
            return Err(Error::from(ErrorKind::NotFound));
        };
        let replaced = to.and_then(|to| self.named(to));
        let name = match to {
            Some(to) => Some(String::from_str(self.alloc, to)?),
            None => None,
        };
        let Ok(mut entries) = self.entries.try_borrow_mut() else {
            return Err(Error::from(ErrorKind::ResourceBusy));
        };
        let entries = &mut *entries;
        if let Some(entry) = replaced.and_then(|at| entries.get_mut(at)) {
            entry.name = None;
        }
        if let Some(entry) = entries.get_mut(at) {
            entry.name = name;
        }
        Ok(())
    }
}

/// The file system that a disk is.
#[derive(Clone, Copy)]
pub(crate) struct Shelf<'a> {
    pub(crate) disk: &'a Disk,
}

/// An open file of a disk.
#[derive(Drop)]
pub(crate) struct Open<'a> {
    disk: &'a Disk,
    at: usize,
}

impl Alloc for Shelf<'_> {
    type A = Global;

    fn alloc(&self) -> Global {
        self.disk.alloc
    }
}

impl Read for Open<'_> {
    fn read(&mut self, _buf: &mut [u8]) -> IoResult<usize> {
        Err(Error::from(ErrorKind::Unsupported))
    }
}

impl Seek for Open<'_> {
    fn seek(&mut self, _to: SeekFrom) -> IoResult<u64> {
        Err(Error::from(ErrorKind::Unsupported))
    }
}

impl Write for Open<'_> {
    fn write(&mut self, buf: &[u8]) -> IoResult<usize> {
        self.disk.pass()?;
        let taken = buf.len().min(PIECE);
        let Ok(mut entries) = self.disk.entries.try_borrow_mut() else {
            return Err(Error::from(ErrorKind::ResourceBusy));
        };
        let entries = &mut *entries;
        let Some(entry) = entries.get_mut(self.at) else {
            return Err(Error::from(ErrorKind::NotFound));
        };
        entry.bytes.extend_from_slice(&buf[..taken])?;
        Ok(taken)
    }

    fn flush(&mut self) -> IoResult<()> {
        self.disk.pass()
    }
}

impl OpenFile for Open<'_> {
    fn metadata(&self) -> IoResult<Metadata> {
        self.disk.pass()?;
        self.disk.told(Some(self.at))
    }

    fn set_len(&self, _size: u64) -> IoResult<()> {
        Err(Error::from(ErrorKind::Unsupported))
    }

    fn sync_all(&self) -> IoResult<()> {
        self.disk.pass()
    }

    fn sync_data(&self) -> IoResult<()> {
        Err(Error::from(ErrorKind::Unsupported))
    }

    fn set_permissions(&self, perm: Permissions) -> IoResult<()> {
        self.disk.pass()?;
        let Ok(mut entries) = self.disk.entries.try_borrow_mut() else {
            return Err(Error::from(ErrorKind::ResourceBusy));
        };
        let entries = &mut *entries;
        if let Some(entry) = entries.get_mut(self.at) {
            entry.mode = perm.mode();
        }
        Ok(())
    }
}

impl<'a> Files for Shelf<'a> {
    type File = Open<'a>;

    type Dir = Open<'a>;

    fn open_file(&self, how: &OpenOptions, path: &str) -> IoResult<Open<'a>> {
        self.disk.pass()?;
        how.check()?;
        let disk = self.disk;
        if how.asks_create_new() {
            if disk.named(path).is_some() {
                return Err(Error::from(ErrorKind::AlreadyExists));
            }
            let at = disk.add(path, Kind::File, b"")?;
            return Ok(Open { disk, at });
        }
        let Some(at) = disk.reached(path) else {
            return Err(Error::from(ErrorKind::NotFound));
        };
        if how.asks_write() && disk.kind(at) == Some(Kind::Locked) {
            return Err(Error::from(ErrorKind::PermissionDenied));
        }
        Ok(Open { disk, at })
    }

    fn open_dir(&self, _path: &str) -> IoResult<Open<'a>> {
        Err(Error::from(ErrorKind::Unsupported))
    }

    fn metadata(&self, path: &str) -> IoResult<Metadata> {
        self.disk.pass()?;
        self.disk.told(self.disk.reached(path))
    }

    fn symlink_metadata(&self, path: &str) -> IoResult<Metadata> {
        self.disk.pass()?;
        self.disk.told(self.disk.named(path))
    }

    fn copy(&self, _from: &str, _to: &str) -> IoResult<u64> {
        Err(Error::from(ErrorKind::Unsupported))
    }

    fn rename(&self, from: &str, to: &str) -> IoResult<()> {
        self.disk.pass()?;
        self.disk.rename(from, Some(to))
    }

    fn remove_file(&self, path: &str) -> IoResult<()> {
        self.disk.pass()?;
        self.disk.rename(path, None)
    }

    fn create_dir(&self, _path: &str) -> IoResult<()> {
        Err(Error::from(ErrorKind::Unsupported))
    }

    fn remove_dir(&self, _path: &str) -> IoResult<()> {
        Err(Error::from(ErrorKind::Unsupported))
    }

    fn remove_dir_all<B: Allocator>(&self, _alloc: B, _path: &str) -> IoResult<()> {
        Err(Error::from(ErrorKind::Unsupported))
    }

    fn canonicalize<B: Allocator>(&self, alloc: B, path: &str) -> IoResult<PathBuf<B>> {
        self.disk.pass()?;
        if path != FOLDER {
            return Err(Error::from(ErrorKind::NotFound));
        }
        Ok(PathBuf::from_str(alloc, "/")?)
    }

    fn read_link<B: Allocator>(&self, alloc: B, path: &str) -> IoResult<PathBuf<B>> {
        self.disk.pass()?;
        let Some(at) = self.disk.named(path) else {
            return Err(Error::from(ErrorKind::NotFound));
        };
        Ok(PathBuf::from(self.disk.text(alloc, at)?))
    }
}
