//! Words in three spellings.
ghost use Rattle.std.specs.Prelude.{◌≡◌};
ghost use Rattle.yf_lines.specs.CoreSchema.{bytes, cased, null_pattern};
ghost use Rattle.yf_types.specs.NewerSchema.{core_false_pattern, core_true_pattern};
ghost use Rattle.yf_types.specs.OlderSchema.{default_pattern, false_pattern, infinity_pattern, merge_pattern};
ghost use Rattle.yf_types.specs.OlderSchema.{not_a_number_pattern, true_pattern};
ghost use Rattle.yf_types.specs.Tests.{is_match};

use crate::classes::Sign;
use crate::texts::{Maybe, Test};

fn is_word(text: &[u8], word: &[u8]) -> bool
    ensures { result ≡ is_match (bytes word.now) text.now }
{
    text == word
}

fn is_cased(text: &[u8], lower: &[u8], capital: &[u8], upper: &[u8]) -> bool
    ensures { result ≡ is_match (cased lower.now capital.now upper.now) text.now }
{
    is_word(text, lower) || (is_word(text, capital) || is_word(text, upper))
}

pub fn is_null(text: &[u8]) -> bool
    ensures { result ≡ is_match null_pattern text.now }
{
    is_cased(text, b"null", b"Null", b"NULL") || (is_word(text, b"~") || is_word(text, b""))
}

pub fn is_core_true(text: &[u8]) -> bool
    ensures { result ≡ is_match core_true_pattern text.now }
{
    is_cased(text, b"true", b"True", b"TRUE")
}

pub fn is_core_false(text: &[u8]) -> bool
    ensures { result ≡ is_match core_false_pattern text.now }
{
    is_cased(text, b"false", b"False", b"FALSE")
}

pub fn is_true(text: &[u8]) -> bool
    ensures { result ≡ is_match true_pattern text.now }
{
    is_cased(text, b"yes", b"Yes", b"YES")
        || (is_core_true(text) || is_cased(text, b"on", b"On", b"ON"))
}

pub fn is_false(text: &[u8]) -> bool
    ensures { result ≡ is_match false_pattern text.now }
{
    is_cased(text, b"no", b"No", b"NO")
        || (is_core_false(text) || is_cased(text, b"off", b"Off", b"OFF"))
}

/// `.inf` without a sign, in three spellings.
struct InfinityWord;

impl Test for InfinityWord {
    ghost use Rattle.std.specs.Prelude.{codes};
    ghost use Rattle.yf_lines.specs.CoreSchema.{cased};
    ghost use Rattle.yf_types.specs.Tests.{is_match};

    ghost test = { is_match (cased (codes ".inf") (codes ".Inf") (codes ".INF")) };

    fn passes(bytes: &[u8]) -> bool {
        is_cased(bytes, b".inf", b".Inf", b".INF")
    }
}

pub fn is_infinity(text: &[u8]) -> bool
    ensures { result ≡ is_match infinity_pattern text.now }
{
    Maybe::<Sign, InfinityWord>::passes(text)
}

pub fn is_not_a_number(text: &[u8]) -> bool
    ensures { result ≡ is_match not_a_number_pattern text.now }
{
    is_cased(text, b".nan", b".NaN", b".NAN")
}

pub fn is_merge(text: &[u8]) -> bool
    ensures { result ≡ is_match merge_pattern text.now }
{
    is_word(text, b"<<")
}

pub fn is_default(text: &[u8]) -> bool
    ensures { result ≡ is_match default_pattern text.now }
{
    is_word(text, b"=")
}
