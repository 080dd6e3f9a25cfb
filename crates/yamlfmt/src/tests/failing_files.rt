//! The files of the system, except that one step fails. For the tests.

use std::alloc::Allocator;
use std::fs::{File, Files, Metadata, OpenFile, OpenOptions, Permissions};
use std::io;
use std::io::{Read, Seek, SeekFrom, Write};
use std::os::unix::fs::MetadataExt;
use std::path::PathBuf;
use yf_host::replacing::Held;

/// The step that fails. Some steps fail for all files, others only for a new file.
#[derive(Clone, Copy, PartialEq, Eq)]
pub enum Step {
    Nothing,
    /// Another run holds the file.
    Hold,
    /// The file system has no locks. This is not a failure.
    Locks,
    /// Looking at the path of the new file.
    Look,
    Remove,
    Make,
    Give,
    Write,
    Permit,
    Store,
    Rename,
    /// The new file is neither renamed nor removed.
    RenameAndRemove,
    /// Storing the folder.
    StoreFolder,
}

fn failure() -> io::Error {
    io::Error::from(io::ErrorKind::Other)
}

fn fail_at(fails: Step, step: Step) -> io::Result<()> {
    if fails == step {
        return Err(failure());
    }
    Ok(())
}

/// The files of the system, except that one step fails.
#[derive(Drop)]
pub struct FailingFiles<'a> {
    pub host: &'a HostRuntime,
    pub fails: Step,
}

impl Files for FailingFiles<'_> {
    type File = FailingFile;

    type Dir = <HostRuntime as Files>::Dir;

    fn open_file(&self, how: &OpenOptions, path: &str) -> io::Result<FailingFile> {
        let is_new = path.ends_with("-new");
        if is_new {
            fail_at(self.fails, Step::Make)?;
        }
        Ok(FailingFile {
            file: self.host.open_file(how, path)?,
            fails: self.fails,
            is_new,
        })
    }

    fn open_dir(&self, path: &str) -> io::Result<Self::Dir> {
        self.host.open_dir(path)
    }

    fn metadata(&self, path: &str) -> io::Result<Metadata> {
        self.host.metadata(path)
    }

    fn symlink_metadata(&self, path: &str) -> io::Result<Metadata> {
        fail_at(self.fails, Step::Look)?;
        self.host.symlink_metadata(path)
    }

    fn copy(&self, from: &str, to: &str) -> io::Result<u64> {
        self.host.copy(from, to)
    }

    fn rename(&self, from: &str, to: &str) -> io::Result<()> {
        fail_at(self.fails, Step::Rename)?;
        fail_at(self.fails, Step::RenameAndRemove)?;
        self.host.rename(from, to)
    }

    fn remove_file(&self, path: &str) -> io::Result<()> {
        fail_at(self.fails, Step::Remove)?;
        fail_at(self.fails, Step::RenameAndRemove)?;
        self.host.remove_file(path)
    }

    fn create_dir(&self, path: &str) -> io::Result<()> {
        self.host.create_dir(path)
    }

    fn remove_dir(&self, path: &str) -> io::Result<()> {
        self.host.remove_dir(path)
    }

    fn canonicalize<B: Allocator>(&self, alloc: B, path: &str) -> io::Result<PathBuf<B>> {
        self.host.canonicalize(alloc, path)
    }

    fn remove_dir_all<B: Allocator>(&self, alloc: B, path: &str) -> io::Result<()> {
        self.host.remove_dir_all(alloc, path)
    }
}

/// A file of the system for which one step may fail. A write fails after the first bytes. A new file is written only
/// while nobody except its owner may read it.
#[derive(Drop)]
pub struct FailingFile {
    file: File,
    fails: Step,
    is_new: bool,
}

impl Read for FailingFile {
    fn read(&mut self, buffer: &mut [u8]) -> io::Result<usize> {
        self.file.read(buffer)
    }
}

impl Write for FailingFile {
    fn write(&mut self, bytes: &[u8]) -> io::Result<usize> {
        if self.is_new && self.file.metadata()?.mode() & 0o077 != 0 {
            return Err(failure());
        }
        if self.fails == Step::Write {
            if bytes.len() <= 3 {
                return Err(failure());
            }
            return self.file.write(&bytes[..3]);
        }
        self.file.write(bytes)
    }

    fn flush(&mut self) -> io::Result<()> {
        self.file.flush()
    }
}

impl Seek for FailingFile {
    fn seek(&mut self, to: SeekFrom) -> io::Result<u64> {
        self.file.seek(to)
    }
}

impl OpenFile for FailingFile {
    fn metadata(&self) -> io::Result<Metadata> {
        self.file.metadata()
    }

    fn set_len(&self, size: u64) -> io::Result<()> {
        self.file.set_len(size)
    }

    fn sync_all(&self) -> io::Result<()> {
        let step = if self.is_new {
            Step::Store
        } else {
            Step::StoreFolder
        };
        fail_at(self.fails, step)?;
        self.file.sync_all()
    }

    fn sync_data(&self) -> io::Result<()> {
        self.file.sync_data()
    }

    fn set_permissions(&self, permissions: Permissions) -> io::Result<()> {
        fail_at(self.fails, Step::Permit)?;
        self.file.set_permissions(permissions)
    }
}

impl Held for FailingFile {
    fn hold(&self) -> io::Result<bool> {
        match self.fails {
            Step::Hold => Err(failure()),
            Step::Locks => Ok(false),
            _ => self.file.hold(),
        }
    }

    fn give_to(&self, owner: Option<u32>, group: Option<u32>) -> io::Result<()> {
        fail_at(self.fails, Step::Give)?;
        self.file.give_to(owner, group)
    }
}
