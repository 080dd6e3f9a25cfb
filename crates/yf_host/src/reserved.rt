//! The numbers of the three standard streams, which no other file may take.

use std::fs::{File, OpenOptions};
use std::io;
use std::os::fd::{AsFd, AsRawFd};
use std::rt::Files;

/// A file that keeps nothing, and the folder that is opened if there is no such file.
const NULL: &str = "/dev/null";

const ROOT: &str = "/";

/// The numbers of standard input, standard output and standard error.
const INPUT: i32 = 0;

const OUTPUT: i32 = 1;

const ERROR: i32 = 2;

/// The system's error for a number that no open file has (`EBADF`).
const NO_FILE: i32 = 9;

/// The files that have the numbers of the standard streams that were closed when the program started.
#[derive(Drop)]
pub struct Reserved<F> {
    input: Option<F>,
    output: Option<F>,
    error: Option<F>,
}

/// Opens a file for each standard stream that is closed. If all three are open, no file is opened.
///
/// The system gives each file that is opened the lowest free number. So if standard error is closed, the first file
/// that the program opens takes its number, and messages are written into that file. To prevent this, call this
/// function before any other file is opened, and keep the result as long as the program runs.
///
/// The file for standard input can't be read, and the other files can't be written to. So such a stream still fails
/// like a closed stream.
///
/// # Errors
///
/// Returns the system's error if a stream is closed and no file can be opened.
pub fn reserve<R: Files, I: AsFd, O: AsFd, E: AsFd>(
    rt: &R,
    input: &I,
    output: &O,
    error: &E,
) -> io::Result<Reserved<R::File>>
where
    R::File: AsRawFd,
{
    if is_open(input) && is_open(output) && is_open(error) {
        return Ok(Reserved {
            input: None,
            output: None,
            error: None,
        });
    }
    fill(rt)
}

// Returns whether a stream is open. Duplicating a closed stream fails with `NO_FILE`.
fn is_open<S: AsFd>(stream: &S) -> bool {
    match stream.as_fd().try_clone_to_owned() {
        Ok(_) => true,
        Err(error) => error.raw_os_error() != Some(NO_FILE),
    }
}

// Opens a file for each free number of a standard stream.
fn fill<R: Files>(rt: &R) -> io::Result<Reserved<R::File>>
where
    R::File: AsRawFd,
{
    let mut to_write = OpenOptions::new();
    to_write.write(true);
    let mut to_read = OpenOptions::new();
    to_read.read(true);
    let input = if_among(open_null(rt, &to_write)?, INPUT, INPUT);
    let output = if_among(open_null(rt, &to_read)?, OUTPUT, ERROR);
    let error = if_among(open_null(rt, &to_read)?, OUTPUT, ERROR);
    Ok(Reserved {
        input,
        output,
        error,
    })
}

// Opens a file that is neither read nor written.
fn open_null<R: Files>(rt: &R, options: &OpenOptions) -> io::Result<R::File> {
    match options.open(rt, NULL) {
        Ok(file) => Ok(file),
        Err(_) => File::open(rt, ROOT),
    }
}

// Returns the file if its number is in the range, and closes it otherwise.
fn if_among<F: AsRawFd + Drop>(file: F, least: i32, greatest: i32) -> Option<F> {
    let number = file.as_raw_fd();
    if least <= number && number <= greatest {
        return Some(file);
    }
    None
}
