//! Atoms, the pieces of a segment, and the bytes that they take.
ghost use Rattle.std.specs.Prelude.{◌↔◌, ◌≤◌, Any, IsTrue};

use crate::spans::Piece;

/// The bytes from the first to the last; none if the first is above the last.
#[derive(Clone, Copy)]
pub struct ByteRange {
    pub first: u8,
    pub last: u8,
}

/// A class, as `[a-z]` or `[!a-z]`: the bytes of its ranges, or if it is negated all other bytes.
#[derive(Drop)]
pub struct Class {
    pub negated: bool,
    pub ranges: Vec<ByteRange>,
}

/// A piece of a segment.
#[derive(Drop)]
pub enum Atom {
    /// This byte.
    Byte(u8),
    /// `?`: one byte, whichever it is.
    AnyByte,
    /// `*`: any number of bytes.
    AnyRun,
    /// `[..]`: a byte of the class.
    OneOf(Class),
}

// Returns whether a byte is in one of the ranges.
fn has_byte(ranges: &[ByteRange], byte: u8) -> bool
    ensures { IsTrue result ↔ Any (λ r. (r.first ≤ byte) × (byte ≤ r.last)) ranges.now }
{
    ranges.iter().any(|r| r.first <= byte && byte <= r.last)
}

impl Class {
    ghost use Rattle.yf_excludes.specs.Atoms.{ClassTakes};

    /// Returns whether the byte is of the class.
    pub fn takes(&self, byte: u8) -> bool
        ensures { IsTrue result ↔ ClassTakes self.now byte }
    {
        if self.negated {
            !has_byte(self.ranges.as_slice(), byte)
        } else {
            has_byte(self.ranges.as_slice(), byte)
        }
    }
}

impl Piece<u8> for Atom {
    ghost use Rattle.yf_excludes.specs.Atoms.{AtomTakes, atom_is_run};

    ghost is_run = { atom_is_run };

    ghost takes = { AtomTakes };

    fn is_run(&self) -> bool {
        match self {
            Atom::AnyRun => true,
            Atom::Byte(_) => false,
            Atom::AnyByte => false,
            Atom::OneOf(_) => false,
        }
    }

    fn takes(&self, item: &u8) -> bool {
        match self {
            Atom::AnyRun => false,
            Atom::Byte(byte) => *byte == *item,
            Atom::AnyByte => true,
            Atom::OneOf(class) => class.takes(*item),
        }
    }
}
