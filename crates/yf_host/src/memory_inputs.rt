//! Inputs in memory, with known contents.
ghost use Rattle.std.specs.Prelude.{◌≡◌, option_map};
ghost use Rattle.yf_host.specs.MemoryInputs.{held};

use crate::inputs::{Again, Inputs};
use std::alloc::{AllocError, Global};
use std::io;
use std::io::Read;
use yf_discovery::folders::There;
use yf_lines::fault::Fault;
use yf_lines::watched::Source;

/// A file in memory.
#[derive(Clone, Copy)]
pub struct Stored {
    /// The name of the file.
    pub name: &'static str,
    /// The contents of the file.
    pub bytes: &'static [u8],
}

/// A reader of bytes in memory, which never fails.
#[derive(Drop)]
pub struct MemoryReader {
    rest: &'static [u8],
}

impl Read for MemoryReader {
    ghost use Rattle.std.specs.Prelude.{Some};

    ghost remaining = { λ reader. Some reader.rest.now };

    fn read(&mut self, buffer: &mut [u8]) -> io::Result<usize> {
        let count = self.rest.len().min(buffer.len());
        let (given, rest) = self.rest.split_at(count);
        buffer[..count].copy_from_slice(given);
        self.rest = rest;
        Ok(count)
    }
}

impl Source for MemoryReader {
    ghost use Rattle.std.specs.Prelude.{false};

    ghost has_failed = { λ _. false };

    fn read_watched(&mut self, buffer: &mut [u8]) -> io::Result<usize> {
        let count = self.rest.len().min(buffer.len());
        let (given, rest) = self.rest.split_at(count);
        buffer[..count].copy_from_slice(given);
        self.rest = rest;
        Ok(count)
    }

    fn failed(&self) -> bool {
        false
    }
}

// Returns the contents of the file with this name.
fn found(files: &'static [Stored], name: &str) -> Option<&'static [u8]>
    ensures { option_map (λ bytes. bytes.now) result ≡ held files.now name.now }
{
    for file in files {
        if file.name == name {
            return Some(file.bytes);
        }
    }
    None
}

/// Inputs in memory, with known contents. A file that is not among `files` can't be opened, and no read fails.
#[derive(Drop)]
pub struct MemoryInputs {
    /// The files.
    pub files: &'static [Stored],
    /// The contents of standard input.
    pub standard: &'static [u8],
    /// The path of the current folder. Names are relative to that folder, and only files have names.
    pub current: &'static [u8],
    /// The names of the inputs that were opened, each with a space after it. A name is missing if memory was refused.
    pub opened: Vec<u8>,
}

impl MemoryInputs {
    // Notes that the input with this name is opened.
    fn note(&mut self, name: &str)
        ensures files { self.new.files ≡ self.old.files }
        ensures standard { self.new.standard ≡ self.old.standard }
        ensures current { self.new.current ≡ self.old.current }
    {
        let _ = self.opened.extend_from_slice(name.as_bytes());
        let _ = self.opened.push(b' ');
    }
}

impl Inputs for MemoryInputs {
    type File = MemoryReader;

    type Standard = MemoryReader;

    ghost use Rattle.std.specs.Prelude.{[]};
    ghost use Rattle.yf_host.specs.MemoryInputs.{memory_claim};

    ghost claim = { λ inputs. memory_claim inputs.files.now inputs.standard.now inputs.current.now };

    ghost opened = { λ _. [] };

    fn open_file(&mut self, name: &str) -> Result<MemoryReader, Fault> {
        self.note(name);
        match found(self.files, name) {
            Some(rest) => Ok(MemoryReader { rest }),
            None => Err(Fault::ReadFailed),
        }
    }

    fn read_again(&self, alloc: Global, name: &str) -> Result<Again, AllocError> {
        match found(self.files, name) {
            Some(bytes) => Ok(Again::Bytes(Vec::from_slice(alloc, bytes)?)),
            None => Ok(Again::Words(String::from_str(alloc, "no such file")?)),
        }
    }

    fn look(&self, name: &str) -> There {
        match found(self.files, name) {
            Some(_) => There::File,
            None => There::Nothing,
        }
    }

    fn current_path(&self, alloc: Global) -> Result<Option<Vec<u8>>, AllocError> {
        Ok(Some(Vec::from_slice(alloc, self.current)?))
    }

    fn open_standard(&mut self) -> MemoryReader {
        self.note("-");
        MemoryReader {
            rest: self.standard,
        }
    }
}
