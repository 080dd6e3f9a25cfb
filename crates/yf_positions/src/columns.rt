//! The units and bytes of one line.
ghost use Rattle.std.specs.Prelude.{◌≡◌, ◌≤◌, length};
ghost use Rattle.yf_positions.specs.Offsets.{character_start, column_at, offset_in};
ghost use Rattle.yf_positions.specs.Units.{continues};

use crate::encoding::{Encoding, byte_units, is_break};

/// Returns the offset that is `character` units after the start of a line: the line's end if the line is shorter, and
/// the start of a character if the position is inside it.
#[tactic(auto, using(crate::proofs::ColumnLemmas::within_steps))]
pub fn offset_in(bytes: &[u8], start: usize, character: usize, encoding: Encoding) -> usize
    requires { start ≤ length bytes.now }
    ensures exact { result ≡ offset_in encoding bytes.now start character }
    ensures bound { result ≤ length bytes.now }
{
    let mut at = start;
    let mut left = character;
    while at < bytes.len() {
        let byte = bytes[at];
        if is_break(byte) {
            return at;
        }
        let units = byte_units(encoding, byte);
        if left < units {
            return at;
        }
        left -= units;
        at += 1;
    }
    at
}

/// Returns the units from the start of a line to an offset, and at most to the line's end.
#[tactic(auto, using(crate::proofs::ColumnLemmas::column_steps))]
pub fn column_at(text: &str, start: usize, offset: usize, encoding: Encoding) -> usize
    requires order { start ≤ offset }
    requires bound { offset ≤ length text.now }
    ensures { result ≡ column_at encoding text.now start offset }
{
    let bytes = text.as_bytes();
    let mut units = 0;
    let mut at = start;
    while at < offset {
        let byte = bytes[at];
        if is_break(byte) {
            return units;
        }
        units += byte_units(encoding, byte);
        at += 1;
    }
    units
}

/// Returns whether the byte continues a character.
#[inline(always)]
fn continues(byte: u8) -> bool
    ensures { result ≡ continues byte }
{
    byte >= 128 && byte < 192
}

/// Returns the start of the character with the byte at the offset, or the offset itself at the end of the text.
#[tactic(auto, using(crate::proofs::ColumnLemmas::start_steps))]
pub fn character_start(bytes: &[u8], offset: usize) -> usize
    requires { offset ≤ length bytes.now }
    ensures exact { result ≡ character_start bytes.now offset }
    ensures bound { result ≤ offset }
{
    let mut at = offset;
    while at > 0 {
        if at >= bytes.len() {
            return at;
        }
        if !continues(bytes[at]) {
            return at;
        }
        at -= 1;
    }
    0
}
