//! Consequences of the definitions.
ghost use Rattle.yf_server.specs.Laws.{EachIsAnswered};

/// In every phase, the server responds to exactly the messages that need a response: requests, and invalid messages.
pub fn each_is_answered()
    ensures { EachIsAnswered }
{}
