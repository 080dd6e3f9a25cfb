//! Streams that are made of pieces by a seed.

use crate::pieces::{Preamble, TextPart, pieces_of};
use itoa::Buffer;
use rand_core::Rng;
use rand_pcg::Pcg32;
use std::alloc::{AllocError, Global};

/// The words that replace a slot of a piece.
const WORDS: [&str; 32] = [
    "web",
    "database",
    "cache",
    "worker",
    "frontend",
    "api-gateway",
    "billing",
    "search",
    "mail-relay",
    "metrics",
    "ingest",
    "scheduler",
    "auth",
    "session-store",
    "images",
    "reports",
    "exporter",
    "queue",
    "proxy",
    "backup",
    "primary",
    "replica",
    "staging",
    "production",
    "europe-west",
    "us-east",
    "internal",
    "public",
    "nightly",
    "release",
    "canary",
    "legacy",
];

/// A maker of streams.
#[derive(Drop)]
pub struct Streams<'a> {
    pieces: Vec<Vec<TextPart<'a>>>,
    generator: Pcg32,
    count: u64,
    text: String,
}

impl<'a> Streams<'a> {
    /// Returns a maker of streams of the pieces of a text.
    pub fn new(alloc: Global, pieces: &'a str, seed: u64) -> Result<Streams<'a>, AllocError> {
        Ok(Streams {
            pieces: pieces_of(alloc, pieces)?,
            generator: Pcg32::new(seed, 54),
            count: 0,
            text: String::new(alloc),
        })
    }

    /// Returns the next stream, of `pieces` pieces.
    pub fn next_text(&mut self, pieces: u32) -> Result<&str, AllocError> {
        self.text.clear();
        for _ in 0..pieces {
            self.append_piece()?;
        }
        Ok(self.text.as_str())
    }

    /// Appends one of the pieces with its slots filled.
    fn append_piece(&mut self) -> Result<(), AllocError> {
        let index = self.generator.next_u32() as usize;
        let count = self.pieces.len();
        if count == 0 {
            return Ok(());
        }
        for part in self.pieces[index % count].as_slice() {
            match part.slot {
                Preamble::Nothing => {}
                Preamble::Sign => self.text.push('@')?,
                Preamble::Word => {
                    let word = self.generator.next_u32() as usize;
                    self.text.push_str(WORDS[word % WORDS.len()])?;
                }
                Preamble::Number => {
                    let number = self.generator.next_u32() >> 18;
                    self.text.push_str(Buffer::new().format(number))?;
                }
                Preamble::Count => {
                    self.count = self.count.wrapping_add(1);
                    self.text.push_str(Buffer::new().format(self.count))?;
                }
            }
            self.text.push_str(part.text)?;
        }
        Ok(())
    }
}
