//! Writes quoted scalars on one line (YAML 1.2.2, sections 7.3.1 and 7.3.2).
ghost use Rattle.std.specs.Prelude.{◌≡◌, ◌++◌, ◌∷◌, [], IfErr, OnErr, OnOk, chars, encode_utf8_all, flat_map};
ghost use Rattle.std.specs.String.{string_bytes};
ghost use Rattle.yf_chars.specs.Escape.{spelled};
ghost use Rattle.yf_chars.specs.Hidden.{spelled_out};
ghost use Rattle.yf_quoted.specs.Written.{DoubleBack, BytesGrown, SingleBack, all_nb, double_bytes, double_bytes_in, quotes_for, quotes_in, single_bytes, twice};

use crate::filled::push_if_filled;
use crate::own::{is_escape_at, own_run};
use std::alloc::AllocError;
use yf_chars::classes::is_nb_char;
use yf_chars::error::NoMemory;
use yf_chars::escapes::{are_common, push_escaped};
use yf_chars::hidden::{has_hidden, push_spelled_out};
use yf_chars::text::peek;
use yf_lines::fault::Fault;
use yf_lines::invisible::Invisible;
use yf_lines::quotes::Quotes;

/// Returns the quotes for a text: single quotes if they are preferred and the text holds only nb-chars (production 27:
/// printable, no line break, no byte order mark); otherwise double quotes.
pub fn choose(text: &str, preferred: Quotes) -> Quotes
    ensures { result ≡ quotes_for (chars text.now) preferred }
{
    match preferred {
        Quotes::Single => {
            if is_all_nb(text) {
                return Quotes::Single;
            }
            Quotes::Double
        }
        Quotes::Double => Quotes::Double,
    }
}

/// Returns the quotes for a text if hidden characters may be escaped: double quotes if the text holds a hidden
/// character that must be escaped.
pub fn choose_in(text: &str, preferred: Quotes, invisible: Invisible) -> Quotes
    ensures { result ≡ quotes_in invisible (chars text.now) preferred }
{
    match invisible {
        Invisible::Plain => choose(text, preferred),
        Invisible::Escaped => {
            if has_hidden(text) {
                return Quotes::Double;
            }
            choose(text, preferred)
        }
    }
}

// Returns whether every character is an nb-char.
fn is_all_nb(text: &str) -> bool
    ensures { result ≡ all_nb (chars text.now) }
{
    for c in text.chars() {
        if !is_nb_char(c) {
            return false;
        }
    }
    true
}

/// Appends the text in single quotes (c-single-quoted, production 120). Each quote in it is doubled.
///
/// `choose` must return `Quotes::Single` for the text. The appended bytes are then a single-quoted scalar with this
/// text, at any offset and indentation, and in each context of flow scalars and keys.
///
/// # Errors
///
/// `Fault::Memory` if memory is refused; the string is then unchanged.
pub fn write_single(out: &mut String, text: &str) -> Result<(), Fault>
    requires { quotes_for (chars text.now) Quotes.Single ≡ Quotes.Single }
    ensures written { OnOk result (string_bytes out.new ≡ string_bytes out.old ++ single_bytes (chars text.now)) }
    ensures read { SingleBack (single_bytes (chars text.now)) (chars text.now) }
    ensures unchanged { OnErr result (string_bytes out.new ≡ string_bytes out.old) }
    ensures refused { IfErr result (λ fault. fault ≡ Fault.Memory) }
{
    let start = out.len();
    match push_single(out, text) {
        Ok(()) => Ok(()),
        Err(_) => {
            out.truncate(start);
            Err(Fault::Memory)
        }
    }
}

/// Appends the text in single quotes, or only a part of that if memory is refused.
pub fn push_single(out: &mut String, text: &str) -> Result<(), AllocError>
    ensures written { OnOk result (string_bytes out.new ≡ string_bytes out.old ++ single_bytes (chars text.now)) }
    ensures grown { BytesGrown (string_bytes out.old) (string_bytes out.new) }
{
    out.push('\'')?;
    for c in text.chars() {
        push_twice(out, c)?;
    }
    out.push('\'')?;
    Ok(())
}

// Appends a character, or two quotes for one.
fn push_twice(out: &mut String, c: char) -> Result<(), AllocError>
    ensures written { OnOk result (string_bytes out.new ≡ string_bytes out.old ++ encode_utf8_all (twice c)) }
    ensures grown { BytesGrown (string_bytes out.old) (string_bytes out.new) }
{
    if c == '\'' {
        return out.push_str("''");
    }
    out.push(c)
}

/// Appends the text in double quotes (c-double-quoted, production 109), each character as `push_escaped` writes it.
///
/// The appended bytes are then the longest double-quoted scalar at their offset, with this text, at any offset and
/// indentation, and in each context of flow scalars and keys.
///
/// # Errors
///
/// `Fault::Memory` if memory is refused; the string is then unchanged.
pub fn write_double(out: &mut String, text: &str) -> Result<(), Fault>
    ensures written { OnOk result (string_bytes out.new ≡ string_bytes out.old ++ double_bytes (chars text.now)) }
    ensures read { DoubleBack (double_bytes (chars text.now)) (chars text.now) }
    ensures unchanged { OnErr result (string_bytes out.new ≡ string_bytes out.old) }
    ensures refused { IfErr result (λ fault. fault ≡ Fault.Memory) }
{
    let end = out.len();
    match push_double(out, text) {
        Ok(()) => Ok(()),
        Err(_) => {
            out.truncate(end);
            Err(Fault::Memory)
        }
    }
}

/// Appends the text in double quotes, or only a part of that if memory is refused.
pub fn push_double(out: &mut String, text: &str) -> Result<(), NoMemory>
    ensures written { OnOk result (string_bytes out.new ≡ string_bytes out.old ++ double_bytes (chars text.now)) }
    ensures grown { BytesGrown (string_bytes out.old) (string_bytes out.new) }
{
    out.push('"')?;
    push_spelled(out, text)?;
    out.push('"')?;
    Ok(())
}

// Appends the text between double quotes, or only a part of that. Most texts are copied whole.
fn push_spelled(out: &mut String, text: &str) -> Result<(), NoMemory>
    ensures written { OnOk result (string_bytes out.new ≡ string_bytes out.old ++ encode_utf8_all (flat_map spelled (chars text.now))) }
    ensures grown { BytesGrown (string_bytes out.old) (string_bytes out.new) }
{
    if are_common(text) {
        out.push_str(text)?;
        return Ok(());
    }
    push_runs(out, text)
}

// Appends a text that may need escapes: first each escape and the character after it, then the run that needs none. It
// looks for no run between two escapes.
fn push_runs(out: &mut String, text: &str) -> Result<(), NoMemory>
    ensures written { OnOk result (string_bytes out.new ≡ string_bytes out.old ++ encode_utf8_all (flat_map spelled (chars text.now))) }
    ensures grown { BytesGrown (string_bytes out.old) (string_bytes out.new) }
{
    let mut end = 0;
    'runs: loop {
        match peek(text, end) {
            None => return Ok(()),
            Some((c, next)) => {
                push_escaped(out, c)?;
                if is_escape_at(text, next) {
                    end = next;
                } else {
                    end = own_run(text, next);
                    push_if_filled(out, &text[next..end])?;
                }
            }
        }
    }
}

/// Appends the text in double quotes, with its hidden characters escaped or not, or only a part of that if memory is
/// refused.
///
/// The appended bytes are the longest double-quoted scalar at their offset, with this text, at any offset and
/// indentation, and in each context of flow scalars and keys.
pub fn push_double_in(out: &mut String, text: &str, invisible: Invisible) -> Result<(), NoMemory>
    ensures written { OnOk result (string_bytes out.new ≡ string_bytes out.old ++ double_bytes_in invisible (chars text.now)) }
    ensures read { DoubleBack (double_bytes_in invisible (chars text.now)) (chars text.now) }
    ensures grown { BytesGrown (string_bytes out.old) (string_bytes out.new) }
{
    match invisible {
        Invisible::Plain => push_double(out, text),
        Invisible::Escaped => push_escaped_text(out, text),
    }
}

// Appends such a text with each hidden character escaped.
fn push_escaped_text(out: &mut String, text: &str) -> Result<(), NoMemory>
    ensures written { OnOk result (string_bytes out.new ≡ string_bytes out.old ++ double_bytes_in Invisible.Escaped (chars text.now)) }
    ensures grown { BytesGrown (string_bytes out.old) (string_bytes out.new) }
{
    out.push('"')?;
    push_each(out, text)?;
    out.push('"')?;
    Ok(())
}

// Appends each character as it is written if hidden ones are escaped.
fn push_each(out: &mut String, text: &str) -> Result<(), NoMemory>
    ensures written { OnOk result (string_bytes out.new ≡ string_bytes out.old ++ encode_utf8_all (flat_map spelled_out (chars text.now))) }
    ensures grown { BytesGrown (string_bytes out.old) (string_bytes out.new) }
{
    if are_common(text) {
        out.push_str(text)?;
        return Ok(());
    }
    for c in text.chars() {
        push_spelled_out(out, c)?;
    }
    Ok(())
}
