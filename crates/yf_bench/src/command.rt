//! The words of the command line.

/// The work on each stream.
#[derive(Clone, Copy)]
pub enum Verb {
    Events,
    Check,
    Fmt,
}

/// The command that the words give.
#[derive(Clone, Copy)]
pub struct Command {
    pub verb: Verb,
    /// The number of streams.
    pub count: u32,
    /// The most pieces of the largest stream.
    pub pieces: u32,
    pub seed: u64,
}

impl Command {
    /// Returns the number of pieces of the stream with that index: every sixth stream is largest, the others have a
    /// half, a quarter and so on.
    pub fn size_of(&self, index: u32) -> u32 {
        (self.pieces >> (index % 6)).max(1)
    }
}

fn read_verb(word: &str) -> Option<Verb> {
    match word {
        "events" => Some(Verb::Events),
        "check" => Some(Verb::Check),
        "fmt" => Some(Verb::Fmt),
        _ => None,
    }
}

/// Returns the command of four words, or `None`.
pub fn read_command(words: &[String]) -> Option<Command> {
    let [verb, count, pieces, seed] = words else {
        return None;
    };
    Some(Command {
        verb: read_verb(verb.as_str())?,
        count: count.as_str().parse::<u32>().ok()?,
        pieces: pieces.as_str().parse::<u32>().ok()?,
        seed: seed.as_str().parse::<u64>().ok()?,
    })
}
