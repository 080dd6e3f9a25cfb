//! Makes streams of YAML from the pieces of a file and a seed, runs one command on each, and prints a digest of the
//! output. `bench/run` times it.
//!
//! The arguments are `events`, `check` or `fmt`; the number of streams; the number of pieces of the largest stream; and
//! the seed. Standard input contains the pieces, with lines `%%` between them. In a piece, `@w` means a word, `@n` a
//! number, and `@i` a number that occurs nowhere else in the streams.
#![tactic(auto)]

mod command;
mod digest;
mod pieces;
mod streams;
mod work;

use command::{Command, read_command};
use std::alloc::{AllocError, Global};
use std::process::ExitCode;
use std::{env, io};
use streams::Streams;
use work::Work;

/// The status if words or pieces can't be read, or if memory is refused.
const REFUSED: u8 = 3;

fn main(rt: HostRuntime) -> ExitCode {
    match done(&rt) {
        Ok(()) => ExitCode::from(0),
        Err(_) => {
            let _ = eprintln!(rt; "error: the words, the pieces or memory");
            ExitCode::from(REFUSED)
        }
    }
}

/// Does the work that the words describe, and prints its amount.
fn done(rt: &HostRuntime) -> io::Result<()> {
    let mut words = env::args(rt)?;
    let _program = words.next();
    let words: Vec<String> = words.collect(rt.alloc())?;
    let Some(command) = read_command(words.as_slice()) else {
        return Err(io::Error::from(io::ErrorKind::InvalidInput));
    };
    let pieces = io::read_to_string(rt.alloc(), rt.reader())?;
    let work = all_done(rt.alloc(), command, pieces.as_str())?;
    let streams = work.streams;
    let bytes = work.bytes;
    let refused = work.refused;
    let value = work.digest.value();
    println!(rt; "{streams} streams, {bytes} bytes, {refused} refused, digest {value:016x}")
}

/// Does the command on all its streams.
fn all_done(alloc: Global, command: Command, pieces: &str) -> Result<Work, AllocError> {
    let mut streams = Streams::new(alloc, pieces, command.seed)?;
    let mut work = Work::new(alloc);
    for k in 0..command.count {
        let text = streams.next_text(command.size_of(k))?;
        work.take(alloc, command.verb, text)?;
    }
    Ok(work)
}
