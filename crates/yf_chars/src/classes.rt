//! The character classes (YAML 1.2.2, chapter 5; for names, tags and plain scalars 6.8, 6.9 and 7.3.3).
ghost use Rattle.std.specs.Prelude.{◌≡◌};
ghost use Rattle.yf_chars.specs.Class as Class;

use crate::context::Ctx;

/// Returns whether the character is printable (c-printable, production 1).
#[tactic(auto, unfolding(crate::specs::Class::is_printable, crate::specs::Class::is_between))]
#[inline(always)]
pub fn is_printable(c: char) -> bool
    ensures { result ≡ Class.is_printable c }
{
    matches!(c, '\t' | '\n' | '\r' | ' '..='~' | '\u{85}' | '\u{A0}'..='\u{D7FF}' | '\u{E000}'..='\u{FFFD}' | '\u{10000}'..='\u{10FFFF}')
}

/// Returns whether a quoted scalar may hold the character as itself (nb-json, production 2): a tab or anything from a
/// space on.
#[tactic(auto, unfolding(crate::specs::Class::is_nb_json, crate::specs::Class::is_between))]
#[inline(always)]
pub fn is_nb_json(c: char) -> bool
    ensures { result ≡ Class.is_nb_json c }
{
    matches!(c, '\t' | ' '..='\u{10FFFF}')
}

/// Returns whether the character belongs to a line break (b-char, production 26): line feed or carriage return.
#[tactic(auto, unfolding(crate::specs::Class::is_break_char))]
#[inline(always)]
pub fn is_break_char(c: char) -> bool
    ensures { result ≡ Class.is_break_char c }
{
    matches!(c, '\n' | '\r')
}

/// Returns whether the character is printable, but neither a line break nor the byte order mark (nb-char, production
/// 27).
#[tactic(auto, unfolding(crate::specs::Class::is_nb_char, crate::specs::Class::is_printable, crate::specs::Class::is_between, crate::specs::Class::is_break_char))]
#[inline(always)]
pub fn is_nb_char(c: char) -> bool
    ensures { result ≡ Class.is_nb_char c }
{
    if c <= '~' {
        return c >= ' ' || c == '\t';
    }
    if is_printable(c) {
        return c != '\u{FEFF}';
    }
    false
}

/// Returns whether the character is white space: a space or a tab (s-white, production 33).
#[tactic(auto, unfolding(crate::specs::Class::is_white))]
#[inline(always)]
pub fn is_white(c: char) -> bool
    ensures { result ≡ Class.is_white c }
{
    matches!(c, ' ' | '\t')
}

/// Returns whether the character is content that isn't white space (ns-char, production 34).
#[tactic(auto, unfolding(crate::specs::Class::is_ns_char, crate::specs::Class::is_nb_char, crate::specs::Class::is_printable, crate::specs::Class::is_between, crate::specs::Class::is_break_char, crate::specs::Class::is_white))]
#[inline(always)]
pub fn is_ns_char(c: char) -> bool
    ensures { result ≡ Class.is_ns_char c }
{
    if c <= '~' {
        return c > ' ';
    }
    is_nb_char(c)
}

/// Returns whether the character is one of `,` `[` `]` `{` `}` (c-flow-indicator, production 23).
#[tactic(auto, unfolding(crate::specs::Class::is_flow_indicator))]
#[inline(always)]
pub fn is_flow_indicator(c: char) -> bool
    ensures { result ≡ Class.is_flow_indicator c }
{
    matches!(c, ',' | '[' | ']' | '{' | '}')
}

/// Returns whether the character is an indicator (c-indicator, production 22).
#[tactic(auto, unfolding(crate::specs::Class::is_indicator))]
#[inline(always)]
pub fn is_indicator(c: char) -> bool
    ensures { result ≡ Class.is_indicator c }
{
    if is_flow_indicator(c) {
        return true;
    }
    matches!(
        c,
        '-' | '?' | ':' | '#' | '&' | '*' | '!' | '|' | '>' | '\'' | '"' | '%' | '@' | '`'
    )
}

/// Returns whether the character is a decimal digit (ns-dec-digit, production 35).
#[tactic(auto, unfolding(crate::specs::Class::is_digit, crate::specs::Class::is_between))]
pub fn is_digit(c: char) -> bool
    ensures { result ≡ Class.is_digit c }
{
    matches!(c, '0'..='9')
}

/// Returns whether the character is a hexadecimal digit (ns-hex-digit, production 36).
#[tactic(auto, unfolding(crate::specs::Class::is_hex_digit, crate::specs::Class::is_digit, crate::specs::Class::is_between))]
pub fn is_hex_digit(c: char) -> bool
    ensures { result ≡ Class.is_hex_digit c }
{
    matches!(c, '0'..='9' | 'A'..='F' | 'a'..='f')
}

/// Returns whether the character is a digit, an ASCII letter or `-` (ns-word-char, production 38).
#[tactic(auto, unfolding(crate::specs::Class::is_word_char, crate::specs::Class::is_digit, crate::specs::Class::is_between))]
pub fn is_word_char(c: char) -> bool
    ensures { result ≡ Class.is_word_char c }
{
    matches!(c, '0'..='9' | 'A'..='Z' | 'a'..='z' | '-')
}

/// Returns whether the character represents itself in a URI (ns-uri-char, production 39, without its `%` escapes).
#[tactic(auto, unfolding(crate::specs::Class::is_uri_char))]
pub fn is_uri_char(c: char) -> bool
    ensures { result ≡ Class.is_uri_char c }
{
    if is_word_char(c) {
        return true;
    }
    matches!(
        c,
        '#' | ';'
            | '/'
            | '?'
            | ':'
            | '@'
            | '&'
            | '='
            | '+'
            | '$'
            | ','
            | '_'
            | '.'
            | '!'
            | '~'
            | '*'
            | '\''
            | '('
            | ')'
            | '['
            | ']'
    )
}

/// Returns whether the character represents itself in a tag's suffix (ns-tag-char, production 40, without its `%`
/// escapes).
#[tactic(auto, unfolding(crate::specs::Class::is_tag_char))]
pub fn is_tag_char(c: char) -> bool
    ensures { result ≡ Class.is_tag_char c }
{
    if is_uri_char(c) {
        if c == '!' {
            return false;
        }
        return !is_flow_indicator(c);
    }
    false
}

/// Returns whether an anchor's or an alias's name may contain the character (ns-anchor-char, production 102).
#[tactic(auto, unfolding(crate::specs::Class::is_anchor_char))]
pub fn is_anchor_char(c: char) -> bool
    ensures { result ≡ Class.is_anchor_char c }
{
    if is_ns_char(c) {
        !is_flow_indicator(c)
    } else {
        false
    }
}

/// Returns whether a plain scalar in the context may contain the character (ns-plain-safe(c), productions 127 to 129).
///
/// The result is false in the two block contexts, since plain scalars are read only in flow and key contexts.
#[tactic(auto, unfolding(crate::specs::Class::is_plain_safe))]
#[inline(always)]
pub fn is_plain_safe(c: char, ctx: Ctx) -> bool
    ensures { result ≡ Class.is_plain_safe c ctx }
{
    match ctx {
        Ctx::BlockOut | Ctx::BlockIn => false,
        Ctx::FlowOut | Ctx::BlockKey => is_ns_char(c),
        Ctx::FlowIn | Ctx::FlowKey => {
            if is_ns_char(c) {
                !is_flow_indicator(c)
            } else {
                false
            }
        }
    }
}
