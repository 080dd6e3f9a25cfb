//! Classes of bytes.

use std::marker::PhantomData;

/// A class of bytes.
pub trait ByteClass {
    ghost use Rattle.std.specs.Prelude.{ℕ, Bool, ◌≡◌};

    ghost members: { ℕ → Bool };

    /// Returns whether the class contains the byte.
    fn has(byte: u8) -> bool
        ensures { result ≡ members byte };
}

/// The bytes of another class, and `_`.
pub struct OrUnderscore<C>(PhantomData<C>);

impl<C: ByteClass> ByteClass for OrUnderscore<C> {
    ghost use Rattle.yf_types.specs.OlderSchema.{or_underscore};

    ghost members = { or_underscore C.members };

    fn has(byte: u8) -> bool {
        C::has(byte) || byte == b'_'
    }
}

/// The digits from 0 to 9.
pub struct Digit;

impl ByteClass for Digit {
    ghost use Rattle.yf_lines.specs.CoreSchema.{is_digit};

    ghost members = { is_digit };

    fn has(byte: u8) -> bool {
        b'0' <= byte && byte <= b'9'
    }
}

/// The digits from 0 to 7.
pub struct OctalDigit;

impl ByteClass for OctalDigit {
    ghost use Rattle.yf_lines.specs.CoreSchema.{is_octal};

    ghost members = { is_octal };

    fn has(byte: u8) -> bool {
        b'0' <= byte && byte <= b'7'
    }
}

/// The digits from 0 to 9, and the letters from a to f.
pub struct HexadecimalDigit;

impl ByteClass for HexadecimalDigit {
    ghost use Rattle.yf_lines.specs.CoreSchema.{is_hexadecimal};

    ghost members = { is_hexadecimal };

    fn has(byte: u8) -> bool {
        (b'0' <= byte && byte <= b'9')
            || ((b'a' <= byte && byte <= b'f') || (b'A' <= byte && byte <= b'F'))
    }
}

/// 0 and 1.
pub struct BinaryDigit;

impl ByteClass for BinaryDigit {
    ghost use Rattle.yf_types.specs.OlderSchema.{is_binary};

    ghost members = { is_binary };

    fn has(byte: u8) -> bool {
        byte == b'0' || byte == b'1'
    }
}

/// The digits from 1 to 9.
pub struct OneToNine;

impl ByteClass for OneToNine {
    ghost use Rattle.yf_types.specs.OlderSchema.{is_one_to_nine};

    ghost members = { is_one_to_nine };

    fn has(byte: u8) -> bool {
        b'1' <= byte && byte <= b'9'
    }
}

/// The digits from 0 to 5.
pub struct ZeroToFive;

impl ByteClass for ZeroToFive {
    ghost use Rattle.yf_types.specs.OlderSchema.{is_zero_to_five};

    ghost members = { is_zero_to_five };

    fn has(byte: u8) -> bool {
        b'0' <= byte && byte <= b'5'
    }
}

/// 0.
pub struct Zero;

impl ByteClass for Zero {
    ghost use Rattle.yf_types.specs.OlderSchema.{is_zero};

    ghost members = { is_zero };

    fn has(byte: u8) -> bool {
        byte == b'0'
    }
}

/// `+` and `-`.
pub struct Sign;

impl ByteClass for Sign {
    ghost use Rattle.yf_lines.specs.CoreSchema.{is_sign};

    ghost members = { is_sign };

    fn has(byte: u8) -> bool {
        byte == b'+' || byte == b'-'
    }
}

/// `e` and `E`.
pub struct ExponentMark;

impl ByteClass for ExponentMark {
    ghost use Rattle.yf_lines.specs.CoreSchema.{is_exponent};

    ghost members = { is_exponent };

    fn has(byte: u8) -> bool {
        byte == b'e' || byte == b'E'
    }
}

/// `.`.
pub struct Point;

impl ByteClass for Point {
    ghost use Rattle.yf_types.specs.OlderSchema.{is_point};

    ghost members = { is_point };

    fn has(byte: u8) -> bool {
        byte == b'.'
    }
}

/// `:`.
pub struct Colon;

impl ByteClass for Colon {
    ghost use Rattle.yf_types.specs.OlderSchema.{is_colon};

    ghost members = { is_colon };

    fn has(byte: u8) -> bool {
        byte == b':'
    }
}

/// `-`.
pub struct Dash;

impl ByteClass for Dash {
    ghost use Rattle.yf_types.specs.OlderSchema.{is_dash};

    ghost members = { is_dash };

    fn has(byte: u8) -> bool {
        byte == b'-'
    }
}

/// `b`.
pub struct LetterB;

impl ByteClass for LetterB {
    ghost use Rattle.yf_types.specs.OlderSchema.{is_letter_b};

    ghost members = { is_letter_b };

    fn has(byte: u8) -> bool {
        byte == b'b'
    }
}

/// `o`.
pub struct LetterO;

impl ByteClass for LetterO {
    ghost use Rattle.yf_types.specs.OlderSchema.{is_letter_o};

    ghost members = { is_letter_o };

    fn has(byte: u8) -> bool {
        byte == b'o'
    }
}

/// `x`.
pub struct LetterX;

impl ByteClass for LetterX {
    ghost use Rattle.yf_types.specs.OlderSchema.{is_letter_x};

    ghost members = { is_letter_x };

    fn has(byte: u8) -> bool {
        byte == b'x'
    }
}

/// `T` and `t`.
pub struct LetterT;

impl ByteClass for LetterT {
    ghost use Rattle.yf_types.specs.OlderSchema.{is_letter_t};

    ghost members = { is_letter_t };

    fn has(byte: u8) -> bool {
        byte == b'T' || byte == b't'
    }
}

/// `Z`.
pub struct LetterZ;

impl ByteClass for LetterZ {
    ghost use Rattle.yf_types.specs.OlderSchema.{is_letter_z};

    ghost members = { is_letter_z };

    fn has(byte: u8) -> bool {
        byte == b'Z'
    }
}

/// Spaces and tabs.
pub struct Blank;

impl ByteClass for Blank {
    ghost use Rattle.yf_types.specs.OlderSchema.{is_blank};

    ghost members = { is_blank };

    fn has(byte: u8) -> bool {
        byte == b' ' || byte == b'\t'
    }
}
