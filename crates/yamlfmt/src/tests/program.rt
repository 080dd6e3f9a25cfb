//! The results of a usage, and of a writer that fails at the end.

use crate::tests::faulty::FaultyWriter;
use std::alloc::Global;
use std::io::BufWriter;
use yf_command_line::usage::Usage;
use yf_host::streams::{Streams, in_memory};
use yf_lines::watched::{Sink, Watched};
use yf_program::program::{answer_usage, written_out};

/// Returns whether a usage has this status and these texts on the two streams.
fn answers(alloc: Global, usage: &Usage, status: u8, output: &str, line: &str) -> bool {
    let mut streams = in_memory(alloc);
    answer_usage(usage, &mut streams) == status
        && streams.output.get_ref().as_slice() == output.as_bytes()
        && streams.errors.get_ref().as_slice() == line.as_bytes()
}

/// Returns whether a successful run with one byte in its buffer ends with this status and this line on standard error.
fn ends_before(alloc: Global, held_back: BufWriter<FaultyWriter>, status: u8, line: &str) -> bool {
    let mut streams = Streams {
        output: Watched::new(held_back),
        errors: Watched::new(Vec::new(alloc)),
    };
    let _ = streams.output.write_watched(b"a");
    let answer = written_out(0, &mut streams);
    answer == status && streams.errors.get_ref().as_slice() == line.as_bytes()
}

/// Returns whether such a run ends with this status and this line if the writer fails after `writes_left` writes.
fn ends(alloc: Global, writes_left: usize, status: u8, line: &str) -> bool {
    let taken = Vec::new(alloc);
    match BufWriter::with_capacity(alloc, 8, FaultyWriter { taken, writes_left }) {
        Ok(held_back) => ends_before(alloc, held_back, status, line),
        Err(_) => false,
    }
}

#[test]
fn tells_what_fails_at_the_ends(rt: HostRuntime) {
    // memory for the command line; `answer` tests other usages
    assert!(rt; answers(rt.alloc(), &Usage::Memory, 3, "", "no memory\n"));
    // a flush that fails is reported as a write that fails
    assert!(rt; ends(rt.alloc(), 0, 3, "write failed\n"));
    assert!(rt; ends(rt.alloc(), 1, 0, ""));
}
