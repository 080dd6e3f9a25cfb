//! Runs of characters of one class.
ghost use Rattle.std.specs.Prelude.{◌≡◌, ◌≤◌, ℕ, List, false};
ghost use Rattle.std.specs.Str.{IsCharBoundary};
ghost use Rattle.yf_chars.specs.Chain.{Many};
ghost use Rattle.yf_chars.specs.Text.{code};

use crate::classes;
use crate::text::peek;

/// A class of characters that doesn't contain `no_char`.
pub trait CharClass {
    ghost use Rattle.std.specs.Prelude.{◌≡◌, ℕ, Bool, false};
    ghost use Rattle.yf_chars.specs.Text.{no_char};

    ghost members: { ℕ → Bool };

    /// Returns whether the class contains the character.
    fn holds(c: char) -> bool
        ensures { result ≡ members c };

    ghost none: { members no_char ≡ false };
}

/// The characters within a line, except byte order marks (nb-char, production 27).
pub struct NbChars;

impl CharClass for NbChars {
    ghost use Rattle.yf_chars.specs.Class as Class;
    ghost use Rattle.yf_chars.specs.ClassEnds as ClassEnds;

    ghost members = { Class.is_nb_char };

    ghost none = { ClassEnds.no_nb_char };

    #[inline]
    fn holds(c: char) -> bool {
        classes::is_nb_char(c)
    }
}

/// The characters of an anchor's name (ns-anchor-char, production 102).
pub struct AnchorChars;

impl CharClass for AnchorChars {
    ghost use Rattle.yf_chars.specs.Class as Class;
    ghost use Rattle.yf_chars.specs.ClassEnds as ClassEnds;

    ghost members = { Class.is_anchor_char };

    ghost none = { ClassEnds.no_anchor_char };

    #[inline]
    fn holds(c: char) -> bool {
        classes::is_anchor_char(c)
    }
}

/// The characters of words (ns-word-char, production 38).
pub struct WordChars;

impl CharClass for WordChars {
    ghost use Rattle.yf_chars.specs.Class as Class;
    ghost use Rattle.yf_chars.specs.ClassEnds as ClassEnds;

    ghost members = { Class.is_word_char };

    ghost none = { ClassEnds.no_word_char };

    #[inline]
    fn holds(c: char) -> bool {
        classes::is_word_char(c)
    }
}

/// The characters of content that aren't white space (ns-char, production 34).
pub struct NsChars;

impl CharClass for NsChars {
    ghost use Rattle.yf_chars.specs.Class as Class;
    ghost use Rattle.yf_chars.specs.ClassEnds as ClassEnds;

    ghost members = { Class.is_ns_char };

    ghost none = { ClassEnds.no_ns_char };

    #[inline]
    fn holds(c: char) -> bool {
        classes::is_ns_char(c)
    }
}

/// The digits of numbers (ns-dec-digit, production 35).
pub struct Digits;

impl CharClass for Digits {
    ghost use Rattle.yf_chars.specs.Class as Class;
    ghost use Rattle.yf_chars.specs.ClassEnds as ClassEnds;

    ghost members = { Class.is_digit };

    ghost none = { ClassEnds.no_digit };

    #[inline]
    fn holds(c: char) -> bool {
        classes::is_digit(c)
    }
}

/// Returns the offset after all characters of the class at the offset.
#[inline]
pub fn skip_while<C: CharClass>(s: &str, at: usize) -> usize
    requires { IsCharBoundary s.now at }
    ensures chars { (x : List ℕ) × Many s.now C.members at result x }
    ensures all { C.members (code s.now result) ≡ false }
    ensures boundary { IsCharBoundary s.now result }
    ensures order { at ≤ result }
{
    let mut end = at;
    'chars: loop {
        match peek(s, end) {
            Some((c, next)) => {
                if C::holds(c) {
                    end = next;
                } else {
                    return end;
                }
            }
            None => return end,
        }
    }
}
