//! Hidden characters: those that are invisible or easily mistaken (Default_Ignorable_Code_Point of Unicode 18.0,
//! no-break spaces, breaks that YAML 1.2 doesn't count as breaks, private use).
ghost use Rattle.std.specs.Prelude.{◌≡◌, ◌++◌, chars, encode_utf8_all, if◌then◌else◌, is_ok};
ghost use Rattle.std.specs.List.{list_any};
ghost use Rattle.std.specs.String.{string_bytes};
ghost use Rattle.yf_chars.specs.Hidden as Hidden;
ghost use Rattle.yf_chars.specs.Spelled.{ReadsBack};

use crate::error::NoMemory;
use crate::escapes::{is_by_four, push_escaped, push_number};
use ucd_derived::is_default_ignorable_code_point;

/// Returns whether the character is hidden: one with the property Default_Ignorable_Code_Point of Unicode 18.0, such as
/// all controls of bidirectional text; a no-break space (U+00A0, U+2007, U+202F); U+0085, U+2028, U+2029; or one of
/// private use.
pub fn is_hidden(c: char) -> bool
    ensures { result ≡ Hidden.is_hidden c }
{
    if c < '\u{85}' {
        return false;
    }
    if is_default_ignorable_code_point(c) {
        return true;
    }
    is_hidden_besides(c)
}

// Returns whether the character is hidden without that property.
#[tactic(auto, unfolding(crate::specs::Hidden::is_hidden_besides, crate::specs::Hidden::is_no_break_space, crate::specs::Hidden::is_other_break, crate::specs::Hidden::is_private_use, crate::specs::Class::is_between))]
fn is_hidden_besides(c: char) -> bool
    ensures { result ≡ Hidden.is_hidden_besides c }
{
    matches!(
        c,
        '\u{85}'
            | '\u{A0}'
            | '\u{2007}'
            | '\u{2028}'
            | '\u{2029}'
            | '\u{202F}'
            | '\u{E000}'..='\u{F8FF}'
            | '\u{F0000}'..='\u{FFFFD}'
            | '\u{100000}'..='\u{10FFFD}'
    )
}

/// Returns whether the text contains a hidden character.
pub fn has_hidden(text: &str) -> bool
    ensures { result ≡ list_any Hidden.is_hidden (chars text.now) }
{
    text.chars().any(|c| is_hidden(c))
}

/// Returns whether the character is a hidden one that `push_escaped` writes as itself.
#[inline]
pub fn is_spelled_out(c: char) -> bool
    ensures { result ≡ Hidden.is_spelled_out c }
{
    if c <= '\u{A0}' {
        return false;
    }
    if is_by_four(c) {
        return false;
    }
    is_hidden(c)
}

/// Appends a character as it is written in double quotes if hidden characters are escaped: a hidden one that
/// `push_escaped` writes as itself by its number, as `push_number` does; any other one as `push_escaped` does. In any
/// text, the appended bytes are read as that character in double quotes.
///
/// # Errors
///
/// `NoMemory` if memory is refused; the string is then unchanged.
pub fn push_spelled_out(out: &mut String, c: char) -> Result<(), NoMemory>
    ensures spelled { string_bytes out.new ≡ (if is_ok result then string_bytes out.old ++ encode_utf8_all (Hidden.spelled_out c)
        else string_bytes out.old) }
    ensures read { ReadsBack (encode_utf8_all (Hidden.spelled_out c)) c }
{
    if is_spelled_out(c) {
        return push_number(out, c);
    }
    push_escaped(out, c)
}
