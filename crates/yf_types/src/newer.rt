//! The form of a text in the core schema of YAML 1.2.
ghost use Rattle.std.specs.Prelude.{◌≡◌};
ghost use Rattle.yf_types.specs.NewerSchema as Schema;
ghost use Rattle.yf_types.specs.OlderSchema as Older;
ghost use Rattle.yf_types.specs.Tests.{is_match};

use crate::classes::{
    Digit, ExponentMark, HexadecimalDigit, LetterO, LetterX, OctalDigit, Point, Sign, Zero,
};
use crate::form::Form;
use crate::texts::{Either, End, Many, Maybe, One, Test};
use crate::words::{is_core_false, is_core_true, is_infinity, is_not_a_number, is_null};

type Digits<K> = One<Digit, Many<Digit, K>>;

type MaybeExponent<K> = Either<One<ExponentMark, Maybe<Sign, Digits<K>>>, K>;

type Mantissa<K> = Either<One<Point, Digits<K>>, Digits<Either<One<Point, Many<Digit, K>>, K>>>;

fn is_decimal(text: &[u8]) -> bool
    ensures { result ≡ is_match Schema.core_decimal_pattern text.now }
{
    Maybe::<Sign, Digits<End>>::passes(text)
}

fn is_octal(text: &[u8]) -> bool
    ensures { result ≡ is_match Schema.core_octal_pattern text.now }
{
    One::<Zero, One<LetterO, One<OctalDigit, Many<OctalDigit, End>>>>::passes(text)
}

fn is_hexadecimal(text: &[u8]) -> bool
    ensures { result ≡ is_match Schema.core_hexadecimal_pattern text.now }
{
    One::<Zero, One<LetterX, One<HexadecimalDigit, Many<HexadecimalDigit, End>>>>::passes(text)
}

fn is_number(text: &[u8]) -> bool
    ensures { result ≡ is_match Schema.core_number_pattern text.now }
{
    Maybe::<Sign, Mantissa<MaybeExponent<End>>>::passes(text)
}

fn form_of_number(text: &[u8]) -> Form
    ensures { result ≡ Older.first_form Schema.core_number_patterns text.now }
{
    if is_decimal(text) {
        return Form::Decimal;
    }
    if is_octal(text) {
        return Form::PrefixedOctal;
    }
    if is_hexadecimal(text) {
        return Form::Hexadecimal;
    }
    if is_number(text) {
        return Form::Number;
    }
    if is_infinity(text) {
        return Form::Infinity;
    }
    if is_not_a_number(text) {
        return Form::NotANumber;
    }
    Form::Text
}

/// Returns the form of a plain scalar in the core schema of YAML 1.2.
pub fn newer_form(text: &[u8]) -> Form
    ensures { result ≡ Schema.newer_form text.now }
{
    if is_null(text) {
        return Form::Null;
    }
    if is_core_true(text) {
        return Form::True;
    }
    if is_core_false(text) {
        return Form::False;
    }
    form_of_number(text)
}
