//! Parts in base 60, each after a colon.
ghost use Rattle.std.specs.Prelude.{◌≡◌, MatchOption, None, Some};
ghost use Rattle.yf_types.specs.Sixties as Parts;

use crate::classes::{ByteClass, Colon, Digit, Point, ZeroToFive};
use crate::texts::{End, One, Test};
use std::marker::PhantomData;

/// A test that fails if the text begins with a digit.
pub trait NoDigit: Test {
    ghost use Rattle.std.specs.Prelude.{ℕ, List, ◌∷◌, ◌≡◌, true, false};
    ghost use Rattle.yf_lines.specs.CoreSchema.{is_digit};

    ghost no_digit: { (b : ℕ) (t : List ℕ) → is_digit b ≡ true → Self.test (b ∷ t) ≡ false };
}

impl NoDigit for End {
    ghost use Rattle.std.specs.Prelude.{refl};

    ghost no_digit = { λ b t e. refl };
}

impl<K: Test> NoDigit for One<Point, K> {
    ghost use Rattle.yf_types.specs.Sixties.{no_point};

    ghost no_digit = { λ b t e. no_point K.test b t e };
}

/// Returns the text after a colon and one or two digits, as many as one part may have.
fn after_sixty(bytes: &[u8]) -> Option<&[u8]>
    ensures { MatchOption result (Parts.after_sixty bytes.now ≡ None)
        (λ rest. Parts.after_sixty bytes.now ≡ Some rest.now) }
{
    match bytes {
        [c, d, e, rest @ ..] => {
            if Colon::has(*c) {
                if ZeroToFive::has(*d) && Digit::has(*e) {
                    return Some(rest);
                }
                if Digit::has(*d) {
                    return Some(&bytes[2..]);
                }
            }
            None
        }
        [c, d] => {
            if Colon::has(*c) && Digit::has(*d) {
                return Some(&bytes[2..]);
            }
            None
        }
        [_] => None,
        [] => None,
    }
}

/// The text passes after any number of parts.
pub struct Sixties<K>(PhantomData<K>);

impl<K: NoDigit> Test for Sixties<K> {
    ghost use Rattle.yf_types.specs.Tests.{after_match};
    ghost use Rattle.yf_types.specs.OlderSchema.{sixty};
    ghost use Rattle.yf_lines.specs.CoreSchema.{repeated};

    ghost test = { after_match (repeated sixty) K.test };

    fn passes(bytes: &[u8]) -> bool {
        let mut rest = bytes;
        'parts: loop {
            if K::passes(rest) {
                return true;
            }
            match after_sixty(rest) {
                Some(others) => rest = others,
                None => return false,
            }
        }
    }
}
