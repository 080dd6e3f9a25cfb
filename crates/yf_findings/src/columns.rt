//! A walk over the characters of a text, up to a column.
ghost use Rattle.std.specs.Prelude.{◌≡◌, ◌+◌, ◌<◌, ◌≤◌, ℕ, List, length};
ghost use Rattle.std.specs.Str.{IsCharBoundary};
ghost use Rattle.yf_chars.specs.Chain.{Many};
ghost use Rattle.yf_lines.specs.Lines.{is_char};

use yf_chars::text::peek;

/// The end of a walk.
#[derive(Clone, Copy)]
pub(crate) struct Walked {
    pub(crate) at: usize,
    pub(crate) column: usize,
}

/// Returns the offset of a column, by a walk from an offset with a known column. If the text ends before that column,
/// it returns the end of the text with its column.
pub(crate) fn walk(text: &str, from: usize, column: usize, wanted: usize) -> Walked
    requires from { IsCharBoundary text.now from }
    requires order { column ≤ wanted }
    requires room { column ≤ from + 1 }
    ensures characters { (x : List ℕ) × Many text.now is_char from result.at x × (result.column ≡ column + length x) }
    ensures boundary { IsCharBoundary text.now result.at }
    ensures room { result.column ≤ result.at + 1 }
    ensures order { result.column ≤ wanted }
    ensures whole { result.column < wanted → result.at ≡ length text.now }
{
    let mut at = from;
    let mut reached = column;
    while reached < wanted {
        match peek(text, at) {
            Some((_, next)) => {
                at = next;
                reached += 1;
            }
            None => {
                return Walked {
                    at,
                    column: reached,
                };
            }
        }
    }
    Walked {
        at,
        column: reached,
    }
}
