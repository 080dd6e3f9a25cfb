//! Readers and writers that remember a failure.
ghost use Rattle.std.specs.Prelude.{◌≡◌, Bool, true, false};
ghost use Rattle.std.specs.Io.{ReadsAtMost, WritesAtMost};
ghost use Rattle.std.specs.Io.KnownBytes.{ReadConsumes, WriteAppends, Keeps};

use std::io;
use std::io::{Read, Write};

/// A reader that remembers whether one of its reads has failed.
pub trait Source: Read {
    ghost use Rattle.yf_lines.specs.Watched.{Notes};

    // A read has failed.
    ghost has_failed: { Self → Bool };

    /// Reads like `read`, and notes a failure.
    fn read_watched(&mut self, buffer: &mut [u8]) -> io::Result<usize>
        ensures bound { ReadsAtMost result buffer.new }
        ensures bytes { ReadConsumes (Self.remaining self.old) (Self.remaining self.new) result buffer.new }
        ensures note { Notes (has_failed self.old) (has_failed self.new) result };

    /// Returns whether a read has failed.
    fn failed(&self) -> bool
        ensures { result ≡ has_failed self.now };
}

/// A writer that remembers whether one of its calls has failed. A write that takes none of its bytes is a failure.
pub trait Sink: Write {
    ghost use Rattle.yf_lines.specs.Watched.{Notes, WriteNotes};

    // A call has failed.
    ghost has_failed: { Self → Bool };

    /// Writes like `write`, and notes a failure.
    fn write_watched(&mut self, bytes: &[u8]) -> io::Result<usize>
        ensures bound { WritesAtMost result bytes.now }
        ensures bytes { WriteAppends (Self.contents self.old) (Self.contents self.new) result bytes.now }
        ensures note { WriteNotes (has_failed self.old) (has_failed self.new) result bytes.now };

    /// Flushes like `flush`, and notes a failure.
    fn flush_watched(&mut self) -> io::Result<()>
        ensures bytes { Keeps (Self.contents self.old) (Self.contents self.new) }
        ensures note { Notes (has_failed self.old) (has_failed self.new) result };

    /// Returns whether a call has failed.
    fn failed(&self) -> bool
        ensures { result ≡ has_failed self.now };
}

/// Makes a `Source` from any reader and a `Sink` from any writer.
#[derive(Drop)]
pub struct Watched<T> {
    inner: T,
    failed: bool,
}

impl<T> Watched<T> {
    ghost use Rattle.yf_lines.specs.Watched.{watched_inner, watched_failed};

    /// Watches a reader or a writer from now on.
    pub fn new(inner: T) -> Watched<T>
        ensures inner { watched_inner result ≡ inner }
        ensures none_failed { watched_failed result ≡ false }
    {
        Watched {
            inner,
            failed: false,
        }
    }

    /// Returns the reader or writer.
    pub fn get_ref(&self) -> &T
        ensures { result.now ≡ watched_inner self.now }
    {
        &self.inner
    }

    // Notes a failure.
    fn note_failure(&mut self)
        ensures inner { watched_inner self.new ≡ watched_inner self.old }
        ensures failed { watched_failed self.new ≡ true }
    {
        self.failed = true;
    }

    /// Unwraps the reader or writer.
    pub fn into_inner(self) -> T
        ensures { result ≡ watched_inner self }
    {
        self.inner
    }
}

impl<T: Read> Read for Watched<T> {
    ghost use Rattle.yf_lines.specs.Watched.{Notes, watched_inner, watched_failed};

    ghost remaining = { λ watched. T.remaining (watched_inner watched) };

    fn read(&mut self, buffer: &mut [u8]) -> io::Result<usize>
        ensures bound { ReadsAtMost result buffer.new }
        ensures bytes { ReadConsumes (T.remaining (watched_inner self.old)) (T.remaining (watched_inner self.new)) result buffer.new }
        ensures note { Notes (watched_failed self.old) (watched_failed self.new) result }
    {
        match self.inner.read(buffer) {
            Ok(count) => Ok(count),
            Err(error) => {
                self.note_failure();
                Err(error)
            }
        }
    }
}

impl<T: Write> Write for Watched<T> {
    ghost use Rattle.yf_lines.specs.Watched.{Notes, WriteNotes, watched_inner, watched_failed};

    ghost contents = { λ watched. T.contents (watched_inner watched) };

    fn write(&mut self, bytes: &[u8]) -> io::Result<usize>
        ensures bound { WritesAtMost result bytes.now }
        ensures bytes { WriteAppends (T.contents (watched_inner self.old)) (T.contents (watched_inner self.new)) result bytes.now }
        ensures note { WriteNotes (watched_failed self.old) (watched_failed self.new) result bytes.now }
    {
        match self.inner.write(bytes) {
            Ok(count) => {
                if count == 0 && !bytes.is_empty() {
                    self.note_failure();
                }
                Ok(count)
            }
            Err(error) => {
                self.note_failure();
                Err(error)
            }
        }
    }

    fn flush(&mut self) -> io::Result<()>
        ensures bytes { Keeps (T.contents (watched_inner self.old)) (T.contents (watched_inner self.new)) }
        ensures note { Notes (watched_failed self.old) (watched_failed self.new) result }
    {
        match self.inner.flush() {
            Ok(()) => Ok(()),
            Err(error) => {
                self.note_failure();
                Err(error)
            }
        }
    }
}

impl<T: Read> Source for Watched<T> {
    ghost use Rattle.yf_lines.specs.Watched.{watched_failed};

    ghost has_failed = { λ watched. watched_failed watched };

    fn read_watched(&mut self, buffer: &mut [u8]) -> io::Result<usize> {
        self.read(buffer)
    }

    fn failed(&self) -> bool {
        self.failed
    }
}

impl<T: Write> Sink for Watched<T> {
    ghost use Rattle.yf_lines.specs.Watched.{watched_failed};

    ghost has_failed = { λ watched. watched_failed watched };

    fn write_watched(&mut self, bytes: &[u8]) -> io::Result<usize> {
        self.write(bytes)
    }

    fn flush_watched(&mut self) -> io::Result<()> {
        self.flush()
    }

    fn failed(&self) -> bool {
        self.failed
    }
}
