//! A reader of bytes that have been read already.

use std::io;
use std::io::Read;
use yf_lines::watched::Source;

/// A reader of bytes in memory, which never fails.
#[derive(Drop)]
pub struct Held<'a> {
    /// The bytes that it has still to return.
    pub rest: &'a [u8],
}

impl Read for Held<'_> {
    ghost use Rattle.std.specs.Prelude.{Some};

    ghost remaining = { λ reader. Some reader.rest.now };

    fn read(&mut self, buffer: &mut [u8]) -> io::Result<usize> {
        let count = self.rest.len().min(buffer.len());
        let (given, rest) = self.rest.split_at(count);
        buffer[..count].copy_from_slice(given);
        self.rest = rest;
        Ok(count)
    }
}

impl Source for Held<'_> {
    ghost use Rattle.std.specs.Prelude.{false};

    ghost has_failed = { λ _. false };

    fn read_watched(&mut self, buffer: &mut [u8]) -> io::Result<usize> {
        let count = self.rest.len().min(buffer.len());
        let (given, rest) = self.rest.split_at(count);
        buffer[..count].copy_from_slice(given);
        self.rest = rest;
        Ok(count)
    }

    fn failed(&self) -> bool {
        false
    }
}
