//! Plain scalars that YAML 1.1 and YAML 1.2 read as different types or values.
ghost use Rattle.std.specs.Prelude.{◌≡◌, ℕ, List};
ghost use Rattle.yf_lines.specs.CoreSchema.{Pattern};
ghost use Rattle.yf_types.specs.Decided.{IsDecided};
ghost use Rattle.yf_types.specs.Agreement as Agreement;
ghost use Rattle.yf_types.specs.Tests.{is_match};
ghost use Rattle.yf_types.specs.Values as Values;

use crate::classes::{Digit, Sign, Zero};
use crate::form::Form;
use crate::newer::newer_form;
use crate::older::older_form;
use crate::texts::{End, Many, Maybe, Test};

fn is_short(text: &[u8]) -> bool
    ensures { result ≡ Agreement.is_short text.now }
{
    Maybe::<Sign, Many<Zero, Maybe<Digit, End>>>::passes(text)
}

/// Returns whether a form in YAML 1.1 and one in YAML 1.2 give the text one type and value.
pub fn agree(older: Form, newer: Form, text: &[u8]) -> bool
    ensures { result ≡ Agreement.agree older newer text.now }
{
    match newer {
        Form::Null => matches!(older, Form::Null),
        Form::True => matches!(older, Form::True),
        Form::False => matches!(older, Form::False),
        Form::Decimal => match older {
            Form::Decimal => true,
            Form::Octal => is_short(text),
            _ => false,
        },
        Form::Hexadecimal => matches!(older, Form::Hexadecimal),
        Form::Number => matches!(older, Form::Number),
        Form::Infinity => matches!(older, Form::Infinity),
        Form::NotANumber => matches!(older, Form::NotANumber),
        Form::Text => matches!(older, Form::Text),
        _ => false,
    }
}

/// Returns whether YAML 1.1, as PyYAML resolves plain scalars, and the core schema of YAML 1.2 read the text as
/// different types or values.
pub fn is_ambiguous(text: &str) -> bool
    ensures { result ≡ Values.is_ambiguous text.now }
{
    let bytes = text.as_bytes();
    !agree(older_form(bytes), newer_form(bytes), bytes)
}

/// Does nothing. The tests of texts agree with the relation between patterns and texts that defines the core schema.
pub fn tests_decide_patterns()
    ensures { (p : Pattern) (t : List ℕ) → IsDecided p t }
{}
