//! The files of the system, and the calls that rewrite a file.
ghost use Rattle.yf_files.specs.Tree.{unknown};

use crate::files::Links;
use crate::guarded_text::NoNewText;
use std::alloc::Global;
use std::fs::{File, Metadata, OpenFile, OpenOptions, Permissions, TryLockError};
use std::io::{ErrorKind, Write};
use std::os::unix::fs::{MetadataExt, OpenOptionsExt, PermissionsExt, fchown};
use std::rt::Files;
use std::{fs, io};
use yf_files::{Failed, FileSystem, ReadError, RewriteError};
use yf_lines::fault::Fault;
use yf_lines::watched::Watched;
use yf_rules::input::read_all;
use yf_rules::run::INPUT_LIMIT;

/// The permissions of a file that only its owner may read.
const PRIVATE: u32 = 0o600;

/// Calls on an open file, besides reading and writing.
pub trait Held: OpenFile {
    /// Locks the file until it is closed. Returns whether the file system has locks. Fails if another run holds the
    /// file.
    fn hold(&self) -> io::Result<bool>;

    /// Gives the file to an owner and to a group, each only if it is given.
    fn give_to(&self, owner: Option<u32>, group: Option<u32>) -> io::Result<()>;
}

impl Held for File {
    fn hold(&self) -> io::Result<bool> {
        match self.try_lock() {
            Ok(()) => Ok(true),
            Err(TryLockError::WouldBlock) => Err(io::Error::from(ErrorKind::WouldBlock)),
            Err(TryLockError::Error(_)) => Ok(false),
        }
    }

    fn give_to(&self, owner: Option<u32>, group: Option<u32>) -> io::Result<()> {
        fchown(self, owner, group)
    }
}

/// A regular file that is open for reading, with its metadata at that time.
#[derive(Drop)]
pub struct Opened<F> {
    pub file: F,
    pub metadata: Metadata,
}

/// Opens a regular file, or a link to one. Fails for anything else without opening it, since opening a FIFO would wait
/// for its other end.
pub fn open_regular<R: Files>(rt: &R, path: &str) -> io::Result<Opened<R::File>> {
    require(fs::metadata(rt, path)?.is_file())?;
    regular(File::open(rt, path)?)
}

// Returns the open file with its metadata if it is a regular file.
fn regular<F: OpenFile + Drop>(file: F) -> io::Result<Opened<F>> {
    match file.metadata() {
        Ok(metadata) if metadata.is_file() => Ok(Opened { file, metadata }),
        Ok(_) => Err(io::Error::from(ErrorKind::InvalidInput)),
        Err(error) => Err(error),
    }
}

fn require(condition: bool) -> io::Result<()> {
    if condition {
        return Ok(());
    }
    Err(io::Error::from(ErrorKind::InvalidInput))
}

// Returns the result of a system call without its error.
fn answer(outcome: io::Result<()>) -> Result<(), Failed> {
    match outcome {
        Ok(()) => Ok(()),
        Err(_) => Err(Failed),
    }
}

/// The files of the system: the file that was read last, and the file that was made last.
///
/// Each method makes the system calls that its name says. The contents of the system's files are not known, so the
/// contracts say nothing about them. It is trusted that the calls do what `FileSystem` says.
#[derive(Drop)]
pub struct SystemFiles<R: Files + Drop> {
    rt: R,
    opened: Option<Opened<R::File>>,
    made: Option<R::File>,
    /// Whether no other run works on the file, or the entry at the new name is ours.
    is_alone: bool,
}

impl<R: Files + Drop> SystemFiles<R> {
    pub fn new(rt: R) -> SystemFiles<R> {
        SystemFiles {
            rt,
            opened: None,
            made: None,
            is_alone: false,
        }
    }
}

impl<R: Files + Drop> FileSystem for SystemFiles<R>
where
    R::File: Held,
{
    ghost tells = { ⊥ };

    ghost state = { λ _. unknown };

    ghost sound = { λ _ told. absurd told };

    fn read(&mut self, alloc: Global, name: &str) -> Result<Vec<u8>, ReadError> {
        let Ok(Opened { file, metadata }) = open_regular(&self.rt, name) else {
            return Err(ReadError::Failed);
        };
        let mut reader = Watched::new(file);
        let bytes = match read_all(alloc, &mut reader, INPUT_LIMIT) {
            Ok(bytes) => bytes,
            Err(Fault::Memory) => return Err(ReadError::Memory),
            Err(_) => return Err(ReadError::Failed),
        };
        let file = reader.into_inner();
        self.opened = Some(Opened { file, metadata });
        Ok(bytes)
    }

    fn lock(&mut self) -> Result<(), Failed> {
        let Some(opened) = &self.opened else {
            return Err(Failed);
        };
        if opened.metadata.permissions().readonly() {
            return Err(Failed);
        }
        match opened.file.hold() {
            Ok(is_alone) => {
                self.is_alone = is_alone;
                Ok(())
            }
            Err(_) => Err(Failed),
        }
    }

    fn confirm(&mut self, name: &str) -> Result<(), Failed> {
        match &self.opened {
            Some(opened) => answer(require_unchanged(&self.rt, name, &opened.metadata)),
            None => Err(Failed),
        }
    }

    fn remove(&mut self, name: &str) -> Result<(), Failed> {
        answer(clear(&self.rt, name, self.is_alone))
    }

    fn make(&mut self, name: &str) -> Result<(), Failed> {
        match make(&self.rt, name) {
            Ok(file) => {
                self.made = Some(file);
                self.is_alone = true;
                Ok(())
            }
            Err(_) => Err(Failed),
        }
    }

    fn write(&mut self, bytes: &[u8]) -> Result<(), Failed> {
        match &mut self.made {
            Some(file) => answer(file.write_all(bytes)),
            None => Err(Failed),
        }
    }

    fn adopt(&mut self) -> Result<(), Failed> {
        match (&self.made, &self.opened) {
            (Some(made), Some(opened)) => answer(give(made, &opened.metadata)),
            _ => Err(Failed),
        }
    }

    fn store(&mut self) -> Result<(), Failed> {
        match &self.made {
            Some(file) => answer(file.sync_all()),
            None => Err(Failed),
        }
    }

    fn rename(&mut self, from: &str, to: &str) -> Result<(), Failed> {
        answer(fs::rename(&self.rt, from, to))
    }

    fn store_folder(&mut self, name: &str) -> Result<(), Failed> {
        match File::open(&self.rt, folder_of(name)) {
            Ok(folder) => answer(folder.sync_all()),
            Err(_) => Err(Failed),
        }
    }
}

impl<R: Files + Drop> Links for SystemFiles<R>
where
    R::File: Held,
{
    ghost leads = { λ _ _ _. Unit {0} };

    fn followed(
        &self,
        alloc: Global,
        name: &str,
    ) -> Result<Option<String>, RewriteError<NoNewText>> {
        match resolved(&self.rt, alloc, name) {
            Ok(found) => Ok(found),
            Err(error) if error.kind() == ErrorKind::OutOfMemory => Err(RewriteError::Memory),
            Err(_) => Err(RewriteError::Unreadable),
        }
    }
}

// Returns the path of the file to which a link leads, or `None` if the path is not a link.
fn resolved<R: Files>(rt: &R, alloc: Global, path: &str) -> io::Result<Option<String>> {
    if !fs::symlink_metadata(rt, path)?.is_symlink() {
        return Ok(None);
    }
    let file = rt.canonicalize(alloc, path)?;
    Ok(Some(String::from_str(alloc, file.as_str())?))
}

// Returns the path of a file's folder.
fn folder_of(path: &str) -> &str {
    match path.rsplit_once('/') {
        Some(("", _)) => "/",
        Some((folder, _)) => folder,
        None => ".",
    }
}

// Fails if another file or a link is at the path, or if the file was written since it was read.
fn require_unchanged<R: Files>(rt: &R, path: &str, metadata: &Metadata) -> io::Result<()> {
    let now = fs::symlink_metadata(rt, path)?;
    require(is_same_file(&now, metadata))?;
    require(is_same_text(&now, metadata))
}

fn is_same_file(left: &Metadata, right: &Metadata) -> bool {
    left.dev() == right.dev() && left.ino() == right.ino()
}

fn is_same_text(left: &Metadata, right: &Metadata) -> bool {
    left.len() == right.len()
        && left.mtime() == right.mtime()
        && left.mtime_nsec() == right.mtime_nsec()
}

// Removes the entry at the path of the new file, if there is one. Without a lock, a regular file may belong to another
// run, and so the call fails.
fn clear<R: Files>(rt: &R, new_path: &str, is_alone: bool) -> io::Result<()> {
    match fs::symlink_metadata(rt, new_path) {
        Ok(metadata) => {
            require(is_alone || !metadata.is_file())?;
            fs::remove_file(rt, new_path)
        }
        Err(error) if error.kind() == ErrorKind::NotFound => Ok(()),
        Err(error) => Err(error),
    }
}

// Makes the new file. Fails if something is at its path.
fn make<R: Files>(rt: &R, new_path: &str) -> io::Result<R::File> {
    OpenOptions::new()
        .write(true)
        .create_new(true)
        .mode(PRIVATE)
        .open(rt, new_path)
}

// Gives the new file the owner, the group and the permissions of the old one.
fn give<F: Held>(new_file: &F, old: &Metadata) -> io::Result<()> {
    let has_group = keep_owner(new_file, old)?;
    let mode = mode_of(old.mode(), has_group);
    new_file.set_permissions(Permissions::from_mode(mode))
}

// Gives the new file the owner of the old one, and its group if the system allows that. Returns whether it has that
// group.
fn keep_owner<F: Held>(new_file: &F, old: &Metadata) -> io::Result<bool> {
    let new = new_file.metadata()?;
    if new.uid() == old.uid() && new.gid() == old.gid() {
        return Ok(true);
    }
    if new_file.give_to(Some(old.uid()), Some(old.gid())).is_ok() {
        return Ok(true);
    }
    if new.uid() != old.uid() {
        new_file.give_to(Some(old.uid()), None)?;
    }
    Ok(new.gid() == old.gid() || new_file.give_to(None, Some(old.gid())).is_ok())
}

/// Returns the permissions of the new file: those of the old one without its set-user, set-group and sticky bits. If
/// the new file has another group, that group may do no more than everyone may.
pub fn mode_of(mode: u32, has_group: bool) -> u32 {
    if has_group {
        return mode & 0o777;
    }
    mode & 0o707 | mode & 0o070 & ((mode & 0o007) << 3)
}
