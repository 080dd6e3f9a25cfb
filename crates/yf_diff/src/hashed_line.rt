//! The lines of a text.
ghost use Rattle.std.specs.Prelude.{◌≡◌, ◌<◌, ◌≤◌, ◌∷◌, length, take, drop, IfOk};
ghost use Rattle.yf_diff.specs.Texts.{lines_of};

use memchr::memchr;
use std::alloc::{AllocError, Global};
use std::marker::Model;

/// A line of a text with its line feed, and a hash for quick comparison.
#[derive(Drop)]
pub struct HashedLine<'a> {
    text: &'a [u8],
    hash: u64,
}

impl<'a> Model for HashedLine<'a> {
    ghost use Rattle.std.specs.Prelude.{List, ℕ};

    ghost Value = { List ℕ };

    ghost view = { λ line. line.text.now };
}

impl<'a> HashedLine<'a> {
    pub fn new(text: &'a [u8]) -> HashedLine<'a>
        ensures { result ≡ text.now }
    {
        let mut hash: u64 = 0xCBF2_9CE4_8422_2325;
        for byte in text {
            hash = (hash ^ *byte as u64).wrapping_mul(0x100_0000_01B3);
        }
        HashedLine { text, hash }
    }

    pub fn text(&self) -> &'a [u8]
        ensures { result.now ≡ self.now }
    {
        self.text
    }

    /// Returns the hash: equal lines have equal hashes, and other lines rarely do.
    pub fn hash(&self) -> u64 {
        self.hash
    }
}

/// Returns the length of the first line of a text, in bytes.
fn first_line(text: &[u8]) -> usize
    requires { 0 < length text.now }
    ensures low { 0 < result }
    ensures high { result ≤ length text.now }
    ensures line { lines_of text.now ≡ take result text.now ∷ lines_of (drop result text.now) }
{
    match memchr(b'\n', text) {
        Some(at) => at + 1,
        None => text.len(),
    }
}

/// Returns the lines of a text, in order.
pub fn hashed_lines<'a>(alloc: Global, text: &'a [u8]) -> Result<Vec<HashedLine<'a>>, AllocError>
    ensures { IfOk result (λ lines. lines.items ≡ lines_of text.now) }
{
    let mut lines = Vec::new(alloc);
    let mut rest = text;
    while !rest.is_empty() {
        let size = first_line(rest);
        lines.push(HashedLine::new(&rest[..size]))?;
        rest = &rest[size..];
    }
    Ok(lines)
}
