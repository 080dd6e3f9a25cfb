//! The output for one file among several. It is collected in memory and then written with the file's name.
ghost use Rattle.std.specs.Prelude.{◌≡◌, ◌⊎◌, true, false};
ghost use Rattle.yf_host.specs.Ends.{AreTold};
ghost use Rattle.yf_host.specs.Memory.{IsLine, ToldErrors, ToldFaults, ToldMemory, ToldNamed, memory_stream};
ghost use Rattle.yf_host.specs.Named.{named_lines, named_output};
ghost use Rattle.yf_rules.specs.Runs.ByteStream.{stream_of};

use crate::named::{is_diff, named_lines};
use crate::report::report;
use crate::streams::Streams;
use std::alloc::Global;
use yf_lines::fault::Fault;
use yf_lines::output::write_text;
use yf_lines::watched::{Sink, Watched};

/// Writes the contents of memory with a name before each line that is not part of a diff, and returns the status. If a
/// part of the contents is missing, or memory is refused, it writes only `no memory`.
pub fn tell_memory<W: Sink, E: Sink>(
    alloc: Global,
    name: &str,
    status: u8,
    memory: &Streams<Watched<Vec<u8>>, Watched<Vec<u8>>>,
    streams: &mut Streams<W, E>,
) -> u8
    ensures { ToldMemory name.now status result memory.now streams.old streams.new }
{
    let output = memory.output.get_ref().as_slice();
    let faults = memory.errors.get_ref().as_slice();
    let is_whole = is_whole(memory.output.failed(), memory.errors.failed(), faults);
    if is_diff(output) {
        return tell_diff(alloc, name, status, output, faults, is_whole, streams);
    }
    tell_named(alloc, name, status, output, faults, is_whole, streams)
}

// Returns whether memory holds everything that was written for one file: its whole output, and its line for the error
// stream. Lines that explain that line may be missing.
fn is_whole(is_broken: bool, is_deaf: bool, faults: &[u8]) -> bool
    ensures broken { result ≡ true → is_broken ≡ false }
    ensures deaf { result ≡ true → (is_deaf ≡ false) ⊎ IsLine faults.now }
{
    if is_broken {
        return false;
    }
    if is_deaf {
        return ends_line(faults);
    }
    true
}

// Returns whether a text ends with a complete line. The line of a fault is written first, and the lines that explain it
// follow. Each text is written whole or not at all.
fn ends_line(text: &[u8]) -> bool
    ensures { result ≡ true → IsLine text.now }
{
    match text.last() {
        Some(byte) => *byte == b'\n',
        None => false,
    }
}

// Writes the diff of one file among several, and returns its status. If a part of the output is missing, or memory for
// the names is refused, it writes only `no memory`.
fn tell_diff<W: Sink, E: Sink>(
    alloc: Global,
    name: &str,
    status: u8,
    diff: &[u8],
    faults: &[u8],
    is_whole: bool,
    streams: &mut Streams<W, E>,
) -> u8
    ensures { ToldNamed (is_whole ≡ true) status result diff.now (named_lines name.now faults.now) streams.old
        streams.new }
{
    if !is_whole {
        return report(&Fault::Memory, &mut streams.errors);
    }
    match named_lines(alloc, name, faults) {
        Ok(faults) => tell(status, diff, faults.as_slice(), streams),
        Err(_) => report(&Fault::Memory, &mut streams.errors),
    }
}

// Writes the lines of one file among several, and returns its status. If a part of the output is missing, or memory for
// the names is refused, it writes only `no memory`.
fn tell_named<W: Sink, E: Sink>(
    alloc: Global,
    name: &str,
    status: u8,
    output: &[u8],
    faults: &[u8],
    is_whole: bool,
    streams: &mut Streams<W, E>,
) -> u8
    ensures { ToldNamed (is_whole ≡ true) status result (named_lines name.now output.now)
        (named_lines name.now faults.now) streams.old streams.new }
{
    if !is_whole {
        return report(&Fault::Memory, &mut streams.errors);
    }
    match named_lines(alloc, name, output) {
        Ok(output) => match named_lines(alloc, name, faults) {
            Ok(faults) => tell(status, output.as_slice(), faults.as_slice(), streams),
            Err(_) => report(&Fault::Memory, &mut streams.errors),
        },
        Err(_) => report(&Fault::Memory, &mut streams.errors),
    }
}

/// Writes two texts to the two streams. Returns the status, or the status of a failed write.
pub fn tell<W: Sink, E: Sink>(
    status: u8,
    output: &[u8],
    faults: &[u8],
    streams: &mut Streams<W, E>,
) -> u8
    ensures { AreTold status result output.now faults.now streams.old streams.new }
{
    match write_text(&mut streams.output, output) {
        Ok(()) => {
            let _ = write_text(&mut streams.errors, faults);
            status
        }
        Err(fault) => report(&fault, &mut streams.errors),
    }
}

/// Writes what memory holds for the stream of faults, with a name before each line, and returns the status. If the line
/// of a fault is missing, or memory is refused, it writes only `no memory`.
pub fn tell_errors<E: Sink>(
    alloc: Global,
    name: &str,
    status: u8,
    memory: &Watched<Vec<u8>>,
    error_stream: &mut E,
) -> u8
    ensures { ToldErrors name.now status result (memory_stream memory.now)
        (stream_of E.contents E.has_failed error_stream.old) (stream_of E.contents E.has_failed error_stream.new) }
{
    let faults = memory.get_ref().as_slice();
    if is_whole(false, memory.failed(), faults) {
        return tell_faults(alloc, name, status, faults, error_stream);
    }
    report(&Fault::Memory, error_stream)
}

// Writes a text to the stream of faults with a name before each line, and returns the status. If memory for the names
// is refused, it writes only `no memory`.
fn tell_faults<E: Sink>(
    alloc: Global,
    name: &str,
    status: u8,
    faults: &[u8],
    error_stream: &mut E,
) -> u8
    ensures { ToldFaults status result (named_lines name.now faults.now)
        (stream_of E.contents E.has_failed error_stream.old) (stream_of E.contents E.has_failed error_stream.new) }
{
    match named_lines(alloc, name, faults) {
        Ok(faults) => {
            let _ = write_text(error_stream, faults.as_slice());
            status
        }
        Err(_) => report(&Fault::Memory, error_stream),
    }
}
