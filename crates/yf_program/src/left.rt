//! Standard output with a reader that may leave before the end of the output, as `head` does.
ghost use Rattle.std.specs.Prelude.{None};

use std::cell::Cell;
use std::io;
use std::io::{ErrorKind, Write};

/// The exit status that a shell reports for a program after its reader has left.
pub const LEFT: u8 = 141;

/// A writer that notes when its reader has left.
#[derive(Drop)]
pub struct Noting<'a, W> {
    pub inner: W,
    pub has_left: &'a Cell<bool>,
}

impl<W: Write> Write for Noting<'_, W> {
    ghost contents = { λ _. None };

    fn write(&mut self, bytes: &[u8]) -> io::Result<usize> {
        match self.inner.write(bytes) {
            Ok(count) => Ok(count),
            Err(error) => {
                if error.kind() == ErrorKind::BrokenPipe {
                    self.has_left.set(true);
                }
                Err(error)
            }
        }
    }

    fn flush(&mut self) -> io::Result<()> {
        self.inner.flush()
    }
}

/// A writer that drops all bytes once the reader of another writer has left.
#[derive(Drop)]
pub struct Silenced<'a, W> {
    pub inner: W,
    pub has_left: &'a Cell<bool>,
}

impl<W: Write> Write for Silenced<'_, W> {
    ghost contents = { λ _. None };

    fn write(&mut self, bytes: &[u8]) -> io::Result<usize> {
        if self.has_left.get() {
            return Ok(bytes.len());
        }
        self.inner.write(bytes)
    }

    fn flush(&mut self) -> io::Result<()> {
        self.inner.flush()
    }
}
