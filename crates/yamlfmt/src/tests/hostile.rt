//! Readers, writers and memory that fail, and streams that are cut. Each run gives its whole result, or says why it
//! can't.

use crate::tests::answers::{Answer, Asked, answer_over, answer_to, task};
use crate::tests::events::{ACCEPTED, REFUSED};
use crate::tests::faulty::{FaultyReader, FaultyWriter};
use std::alloc::Global;
use yf_forms::style::Style;
use yf_host::streams::Streams;
use yf_lines::watched::{Sink, Source, Watched};
use yf_program::program::run;

static COMMANDS: [Asked; 3] = [Asked::Events, Asked::Check, Asked::Fmt];

/// Accepted streams that together hold each kind of node, comments, marks and directives.
static INPUTS: [&str; 5] = [
    "\u{FEFF}a: 'x'  # c \r\nb: |\r\n  y \r\na: 1\r\n",
    "[a, # c\n # d\n b, {k: # e\n v}] # f\n",
    "? [a, {b: }]\n: - c\n  - d\n? |\n  x\n: y\n",
    "a\n...\n# c\n%YAML 1.1\n--- b\n",
    "- |2\n    x\n\n- >\n a\n b\n\n   c\n- |\n\n",
];

/// Returns the deepest sequence in a sequence: 1,024 times `- `, and `a`.
fn nested_dashes() -> [u8; 2049] {
    let mut bytes = [b' '; 2049];
    for i in 0..1024 {
        bytes[2 * i] = b'-';
    }
    bytes[2048] = b'a';
    bytes
}

/// The operation that fails.
#[derive(Clone, Copy)]
enum Failing {
    Reads,
    Writes,
    Memory,
}

/// Returns whether each command reports the right fault for each input that fails.
fn holds(alloc: Global, failing: Failing) -> bool {
    for input in &INPUTS {
        if !holds_on(alloc, failing, input.as_bytes()) {
            return false;
        }
    }
    let dashes = nested_dashes();
    // The deepest text takes thousands of writes. So only a part of it is tested there.
    let deep = match failing {
        Failing::Reads | Failing::Memory => &dashes[..],
        Failing::Writes => &dashes[1984..],
    };
    holds_on(alloc, failing, deep)
}

/// Returns whether each command reports the right fault for an input that fails.
fn holds_on(alloc: Global, failing: Failing, input: &[u8]) -> bool {
    for asked in &COMMANDS {
        let trial = Trial {
            alloc,
            asked: *asked,
            input,
        };
        let good = match failing {
            Failing::Reads | Failing::Writes => {
                let style = Style::house();
                is_refused_by_each(trial, failing, &answer_to(alloc, *asked, &style, input))
            }
            Failing::Memory => is_refused_by_memory_alone(trial),
        };
        if !good {
            return false;
        }
    }
    true
}

/// A command and an input.
#[derive(Clone, Copy)]
struct Trial<'a> {
    alloc: Global,
    asked: Asked,
    input: &'a [u8],
}

/// How a command ends if a read or a write may fail.
#[derive(Clone, Copy)]
enum Ended {
    /// It failed, and reported that.
    Refused,
    /// It did not fail, and gave its whole result.
    Whole,
    /// It gave another result.
    Wrong,
}

/// Returns how a command ended, given whether it failed and whether its result is right.
fn ending(has_failed: bool, holds: bool) -> Ended {
    match (has_failed, holds) {
        (true, true) => Ended::Refused,
        (false, true) => Ended::Whole,
        _ => Ended::Wrong,
    }
}

/// Returns how the command ends if the read after the first `reads` ones fails.
fn ended_after_reads(trial: Trial, reads: usize, full: &Answer) -> Ended {
    let mut reader = Watched::new(FaultyReader {
        rest: trial.input,
        reads_left: reads,
    });
    let writer = Watched::new(Vec::new(trial.alloc));
    let (status, writer, line) = answer_over(trial.alloc, trial.asked, &mut reader, writer);
    let output = writer.get_ref().as_slice();
    let holds = if reader.failed() {
        status == 3 && line.as_slice() == b"read failed\n".as_slice() && output.is_empty()
    } else {
        status == full.status && output == full.output.as_slice()
    };
    ending(reader.failed(), holds)
}

/// Returns how the command ends if the write after the first `writes` ones fails.
fn ended_after_writes(trial: Trial, writes: usize, full: &Answer) -> Ended {
    let writer = Watched::new(FaultyWriter {
        taken: Vec::new(trial.alloc),
        writes_left: writes,
    });
    let mut reader = Watched::new(trial.input);
    let (status, writer, line) = answer_over(trial.alloc, trial.asked, &mut reader, writer);
    let taken = writer.get_ref().taken.as_slice();
    let wanted = full.output.as_slice();
    let holds = if writer.failed() {
        status == 3 && line.as_slice() == b"write failed\n".as_slice() && wanted.starts_with(taken)
    } else {
        status == full.status && taken == wanted
    };
    ending(writer.failed(), holds)
}

/// Returns whether the command ends with the right fault for each call that fails, up to the first run in which no call
/// fails.
fn is_refused_by_each(trial: Trial, failing: Failing, full: &Answer) -> bool {
    // more than the number of calls
    let most = full.output.len().max(trial.input.len() + 1);
    for count in 0..=most {
        let outcome = match failing {
            Failing::Writes => ended_after_writes(trial, count, full),
            Failing::Reads | Failing::Memory => ended_after_reads(trial, count, full),
        };
        match outcome {
            Ended::Refused => {}
            Ended::Whole => return true,
            Ended::Wrong => return false,
        }
    }
    false
}

/// The greatest number of bytes that a command may write here.
const ROOM: usize = 16_384;

/// The results of a run. They are held without memory of their own, and zeros follow the bytes that were written.
#[derive(Drop)]
struct Held {
    status: u8,
    output: [u8; ROOM],
    line: [u8; 32],
}

fn held_answer(trial: Trial) -> Held {
    let mut output = [0; ROOM];
    let mut line = [0; 32];
    let mut streams = Streams {
        output: Watched::new(output.as_mut_slice()),
        errors: Watched::new(line.as_mut_slice()),
    };
    let status = run(
        trial.alloc,
        &task(trial.alloc, trial.asked, &Style::house()),
        "-",
        &mut Watched::new(trial.input),
        &mut streams,
    );
    Held {
        status,
        output,
        line,
    }
}

/// Returns whether memory was refused, and nothing was written.
fn is_without_memory(held: &Held) -> bool {
    held.status == 3
        && held.line.starts_with(b"no memory\n")
        && held.output.iter().all(|byte| *byte == 0)
}

/// Returns whether two runs have equal results if at most one allocation of both is refused. A run may also end because
/// of that refusal.
///
/// No allocation is refused here. `bench/refusals.py` refuses each of them in turn.
fn is_refused_by_memory_alone(trial: Trial) -> bool {
    let first = held_answer(trial);
    let second = held_answer(trial);
    if is_without_memory(&first) {
        return second.status < 2;
    }
    if is_without_memory(&second) {
        return first.status < 2;
    }
    first.status < 2 && first.status == second.status && first.output == second.output
}

#[test]
fn answers_where_reads_and_writes_fail(rt: HostRuntime) {
    assert!(rt; holds(rt.alloc(), Failing::Reads));
    assert!(rt; holds(rt.alloc(), Failing::Writes));
}

#[test]
fn answers_where_memory_is_refused(rt: HostRuntime) {
    assert!(rt; holds(rt.alloc(), Failing::Memory));
}

/// Returns whether a command writes this prefix to a writer that has room for three bytes.
fn writes_a_front(alloc: Global, asked: Asked, front: &[u8]) -> bool {
    let mut room = [0; 3];
    let mut reader = Watched::new(b"- a\n- b\n".as_slice());
    let writer = Watched::new(room.as_mut_slice());
    let (status, _, line) = answer_over(alloc, asked, &mut reader, writer);
    status == 3 && line.as_slice() == b"write failed\n".as_slice() && room.as_slice() == front
}

#[test]
fn writes_a_front_for_a_writer_that_takes_no_more(rt: HostRuntime) {
    assert!(rt; writes_a_front(rt.alloc(), Asked::Fmt, b"---"));
    assert!(rt; writes_a_front(rt.alloc(), Asked::Events, b"+ST"));
}

/// More streams, accepted and refused.
static STREAMS: [(&str, &str); 5] = [
    ("\"\u{1F600}\u{FEFF}\u{E9}\\0\"\n", ""),
    ("k: [aaaaaaaaaaaaaaaaaaaaaaaaaaaaaaaaaaaaaaaa]\n", ""),
    ("---\n- |\n  ---\n\n- b\n", ""),
    ("{a: [1, 2], *a : # c\n &b x}\n", ""),
    ("\u{FEFF}a: 'x'  # c \r\nb: |\r\n  y \r\na: 1\r\n", ""),
];

/// Returns whether a stream was accepted, or was refused and nothing was written.
fn is_good(answer: &Answer) -> bool {
    match answer.status {
        0 | 1 => answer.line.is_empty(),
        2 => answer.output.is_empty(),
        _ => false,
    }
}

/// Returns whether each command accepts each prefix of a stream, or refuses it and writes nothing.
fn answers_each_front(alloc: Global, stream: &[u8]) -> bool {
    for end in 0..=stream.len() {
        for asked in &COMMANDS {
            if !is_good(&answer_to(alloc, *asked, &Style::house(), &stream[..end])) {
                return false;
            }
        }
    }
    true
}

#[test]
fn answers_each_front_of_a_stream(rt: HostRuntime) {
    for table in [ACCEPTED.as_slice(), REFUSED.as_slice(), STREAMS.as_slice()] {
        for (stream, _) in table {
            assert!(rt;
                answers_each_front(rt.alloc(), stream.as_bytes()),
                "{stream}"
            );
        }
    }
}
