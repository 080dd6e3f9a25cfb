//! The units that a position counts on a line.
ghost use Rattle.std.specs.Prelude.{◌≡◌};
ghost use Rattle.yf_positions.specs.Units.{byte_units, is_break};

/// The unit that a position counts (`PositionEncodingKind` of LSP 3.17).
#[derive(Clone, Copy)]
pub enum Encoding {
    /// Bytes.
    Utf8,
    /// UTF-16 code units: two for a character above U+FFFF, one for any other. This is the protocol's default.
    Utf16,
    /// Characters.
    Utf32,
}

/// The UTF-16 code units of a character above U+FFFF.
const SURROGATE_PAIR: usize = 2;

/// Returns the number of units of the character that begins with the byte, or 0 for a byte that continues a character.
#[inline(always)]
pub fn byte_units(encoding: Encoding, byte: u8) -> usize
    ensures { result ≡ byte_units encoding byte }
{
    if byte < 128 {
        return 1;
    }
    if byte < 192 {
        return 0;
    }
    match encoding {
        Encoding::Utf8 => {
            if byte < 224 {
                return 2;
            }
            if byte < 240 {
                return 3;
            }
            4
        }
        Encoding::Utf16 => {
            if byte < 240 {
                return 1;
            }
            SURROGATE_PAIR
        }
        Encoding::Utf32 => 1,
    }
}

/// Returns whether the byte is a line feed or a carriage return.
#[inline(always)]
pub fn is_break(byte: u8) -> bool
    ensures { result ≡ is_break byte }
{
    byte == b'\n' || byte == b'\r'
}
