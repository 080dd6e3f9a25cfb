//! The form of a text in YAML 1.1, as PyYAML resolves it.
ghost use Rattle.std.specs.Prelude.{◌≡◌};
ghost use Rattle.yf_types.specs.OlderSchema as Schema;
ghost use Rattle.yf_types.specs.Tests.{is_match};

use crate::classes::{
    BinaryDigit, Colon, Digit, ExponentMark, HexadecimalDigit, LetterB, LetterX, OctalDigit,
    OneToNine, OrUnderscore, Point, Sign, Zero, ZeroToFive,
};
use crate::form::Form;
use crate::sixties::Sixties;
use crate::texts::{Either, End, Many, Maybe, One, Test};
use crate::timestamps::{is_date, is_date_time};
use crate::words::{
    is_default, is_false, is_infinity, is_merge, is_not_a_number, is_null, is_true,
};

type AtLeastOnce<C, K> = One<OrUnderscore<C>, Many<OrUnderscore<C>, K>>;

type MoreDigits<K> = Many<OrUnderscore<Digit>, K>;

type Digits<K> = One<Digit, Many<Digit, K>>;

type MaybeExponent<K> = Either<One<ExponentMark, One<Sign, Digits<K>>>, K>;

type Places<K> = One<Digit, MoreDigits<MaybeExponent<K>>>;

type Whole<K> = One<Digit, MoreDigits<One<Point, MoreDigits<MaybeExponent<K>>>>>;

type Parts<K> = One<Colon, Maybe<ZeroToFive, One<Digit, Sixties<K>>>>;

fn is_number(text: &[u8]) -> bool
    ensures { result ≡ is_match Schema.number_pattern text.now }
{
    Maybe::<Sign, Whole<End>>::passes(text) || One::<Point, Places<End>>::passes(text)
}

fn is_sixties_number(text: &[u8]) -> bool
    ensures { result ≡ is_match Schema.sixties_number_pattern text.now }
{
    Maybe::<Sign, One<Digit, MoreDigits<Parts<One<Point, MoreDigits<End>>>>>>::passes(text)
}

fn is_binary(text: &[u8]) -> bool
    ensures { result ≡ is_match Schema.binary_pattern text.now }
{
    Maybe::<Sign, One<Zero, One<LetterB, AtLeastOnce<BinaryDigit, End>>>>::passes(text)
}

fn is_octal(text: &[u8]) -> bool
    ensures { result ≡ is_match Schema.octal_pattern text.now }
{
    Maybe::<Sign, One<Zero, AtLeastOnce<OctalDigit, End>>>::passes(text)
}

fn is_decimal(text: &[u8]) -> bool
    ensures { result ≡ is_match Schema.decimal_pattern text.now }
{
    Maybe::<Sign, Either<One<Zero, End>, One<OneToNine, MoreDigits<End>>>>::passes(text)
}

fn is_hexadecimal(text: &[u8]) -> bool
    ensures { result ≡ is_match Schema.hexadecimal_pattern text.now }
{
    Maybe::<Sign, One<Zero, One<LetterX, AtLeastOnce<HexadecimalDigit, End>>>>::passes(text)
}

fn is_sixties(text: &[u8]) -> bool
    ensures { result ≡ is_match Schema.sixties_pattern text.now }
{
    Maybe::<Sign, One<OneToNine, MoreDigits<Parts<End>>>>::passes(text)
}

fn form_of_rest(text: &[u8]) -> Form
    ensures { result ≡ Schema.first_form Schema.rest_patterns text.now }
{
    if is_merge(text) {
        return Form::Merge;
    }
    if is_null(text) {
        return Form::Null;
    }
    if is_date(text) {
        return Form::Timestamp;
    }
    if is_date_time(text) {
        return Form::Timestamp;
    }
    if is_default(text) {
        return Form::Default;
    }
    Form::Text
}

fn form_of_integer(text: &[u8]) -> Form
    ensures { result ≡ Schema.first_form Schema.integer_patterns text.now }
{
    if is_binary(text) {
        return Form::Binary;
    }
    if is_octal(text) {
        return Form::Octal;
    }
    if is_decimal(text) {
        return Form::Decimal;
    }
    if is_hexadecimal(text) {
        return Form::Hexadecimal;
    }
    if is_sixties(text) {
        return Form::Sixties;
    }
    form_of_rest(text)
}

fn form_of_number(text: &[u8]) -> Form
    ensures { result ≡ Schema.first_form Schema.number_patterns text.now }
{
    if is_number(text) {
        return Form::Number;
    }
    if is_sixties_number(text) {
        return Form::SixtiesNumber;
    }
    if is_infinity(text) {
        return Form::Infinity;
    }
    if is_not_a_number(text) {
        return Form::NotANumber;
    }
    form_of_integer(text)
}

/// Returns the form of a plain scalar in YAML 1.1, as PyYAML resolves it.
pub fn older_form(text: &[u8]) -> Form
    ensures { result ≡ Schema.older_form text.now }
{
    if is_true(text) {
        return Form::True;
    }
    if is_false(text) {
        return Form::False;
    }
    form_of_number(text)
}
