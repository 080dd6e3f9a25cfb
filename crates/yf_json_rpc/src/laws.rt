//! Consequences of the definitions.
ghost use Rattle.yf_json_rpc.specs.Streams.{FramesAreOne, StreamsRead};

/// Messages that are written one after the other are read as these messages, in order.
pub fn streams_read()
    ensures { StreamsRead }
{}

/// Bytes are the messages of only one list.
pub fn frames_are_one()
    ensures { FramesAreOne }
{}
