//! The two streams that the program writes to.
ghost use Rattle.std.specs.Prelude.{◌≡◌};
ghost use Rattle.yf_host.specs.Memory.{empty_memory, empty_stream, memory_stream};

use std::alloc::Global;
use std::marker::Model;
use yf_lines::watched::{Sink, Watched};

/// The two streams that the program writes to. Contracts refer to the bytes that each was given, and to whether a call
/// of it failed.
#[derive(Drop)]
pub struct Streams<W: Sink, E: Sink> {
    /// Standard output.
    pub output: W,
    /// Standard error, the stream for faults.
    pub errors: E,
}

impl<W: Sink, E: Sink> Model for Streams<W, E> {
    ghost use Rattle.yf_host.specs.World.{OutputStreams, streams_of};
    ghost use Rattle.yf_rules.specs.Runs.ByteStream.{stream_of};

    ghost Value = { OutputStreams };

    ghost view = { λ s. streams_of (stream_of W.contents W.has_failed s.output)
        (stream_of E.contents E.has_failed s.errors) };
}

/// Returns two empty streams in memory.
pub fn in_memory(alloc: Global) -> Streams<Watched<Vec<u8>>, Watched<Vec<u8>>>
    ensures { result ≡ empty_memory }
{
    Streams {
        output: Watched::new(Vec::new(alloc)),
        errors: Watched::new(Vec::new(alloc)),
    }
}

/// Returns an empty stream in memory.
pub fn stream_in_memory(alloc: Global) -> Watched<Vec<u8>>
    ensures { memory_stream result ≡ empty_stream }
{
    Watched::new(Vec::new(alloc))
}
