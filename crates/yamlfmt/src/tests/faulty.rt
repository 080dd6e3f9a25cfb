//! Readers and writers that fail once, for the tests.

use std::io;
use std::io::{Read, Write};

/// The greatest number of bytes that a faulty reader or writer moves in one call.
const STEP: usize = 7;

fn failure() -> io::Error {
    io::Error::from(io::ErrorKind::Other)
}

/// A reader that gives its bytes a few at a time. After `reads_left` reads, one read fails.
#[derive(Drop)]
pub struct FaultyReader<'a> {
    pub rest: &'a [u8],
    pub reads_left: usize,
}

impl Read for FaultyReader<'_> {
    fn read(&mut self, buffer: &mut [u8]) -> io::Result<usize> {
        if self.reads_left == 0 {
            self.reads_left = usize::MAX;
            return Err(failure());
        }
        self.reads_left -= 1;
        let count = self.rest.len().min(buffer.len()).min(STEP);
        let (given, rest) = self.rest.split_at(count);
        buffer[..count].copy_from_slice(given);
        self.rest = rest;
        Ok(count)
    }
}

/// A writer that takes a few bytes at a time. After `writes_left` writes, one write fails.
#[derive(Drop)]
pub struct FaultyWriter {
    pub taken: Vec<u8>,
    pub writes_left: usize,
}

impl Write for FaultyWriter {
    fn write(&mut self, bytes: &[u8]) -> io::Result<usize> {
        if self.writes_left == 0 {
            self.writes_left = usize::MAX;
            return Err(failure());
        }
        self.writes_left -= 1;
        let count = bytes.len().min(STEP);
        self.taken.extend_from_slice(&bytes[..count])?;
        Ok(count)
    }

    fn flush(&mut self) -> io::Result<()> {
        Ok(())
    }
}
