//! The output for one file among several: a diff, or lines with the file's name before each.
ghost use Rattle.std.specs.Prelude.{◌≡◌, ◌<◌, ◌^◌, ◌++◌, ◌∷◌, ℕ, [], IfOk, List, false, not};
ghost use Rattle.yf_lines.specs.Shown.{shown};
ghost use Rattle.yf_diff.specs.Diff.{AddsDiff};
ghost use Rattle.yf_host.specs.Named.{first_byte, is_diff, named_lines, prefixed, prefixed_byte};
ghost use Rattle.yf_lines.specs.declared.place.Position.{Position};
ghost use Rattle.yf_rules.specs.Runs.Compare.{difference_line};
ghost use Rattle.yf_rules.specs.Runs.Diffed.{is_same};
ghost use Rattle.yf_rules.specs.Runs.Run.{finding_line};
ghost use Rattle.yf_rules.specs.declared.finding.Finding.{Finding};

use std::alloc::{AllocError, Global};
use yf_lines::shown::write_shown;
use yf_lines::watched::Watched;

/// Returns whether the output for a file is a diff. Otherwise it is empty, or begins with the position of a line.
pub fn is_diff(output: &[u8]) -> bool
    ensures exact { result ≡ is_diff output.now }
    ensures diff { (old_name new_name t v : List ℕ) → AddsDiff old_name new_name t v [] output.now
        → result ≡ not (is_same output.now) }
    ensures finding { (f : Finding) (rest : List ℕ) → f.place.line < 2 ^ 64 → output.now ≡ finding_line f ++ rest
        → result ≡ false }
    ensures difference { (place : Position) → place.line < 2 ^ 64 → output.now ≡ difference_line place
        → result ≡ false }
{
    begins_with_hyphen(output)
}

// Returns whether a text begins with `-`.
fn begins_with_hyphen(text: &[u8]) -> bool
    ensures { result ≡ is_diff text.now }
{
    match text.first() {
        Some(byte) => *byte == b'-',
        None => false,
    }
}

/// Returns a text with the name of a file and a colon before each of its lines. A space follows the colon if the line
/// doesn't begin with a position. Control characters in the name are shown by their numbers, as in all messages.
pub fn named_lines(alloc: Global, name: &str, text: &[u8]) -> Result<Vec<u8>, AllocError>
    ensures { IfOk result (λ named. named.items ≡ named_lines name.now text.now) }
{
    let mut prefix = shown_name(alloc, name)?;
    prefix.push(b':')?;
    prefixed(alloc, prefix.as_slice(), text)
}

// Returns a name with its control characters shown by their numbers.
fn shown_name(alloc: Global, name: &str) -> Result<Vec<u8>, AllocError>
    ensures { IfOk result (λ bytes. bytes.items ≡ shown name.now) }
{
    let mut bytes = Watched::new(Vec::new(alloc));
    match write_shown(&mut bytes, name) {
        Ok(()) => Ok(bytes.into_inner()),
        Err(_) => Err(AllocError),
    }
}

// Returns a text with a prefix before each of its lines.
fn prefixed(alloc: Global, prefix: &[u8], text: &[u8]) -> Result<Vec<u8>, AllocError>
    ensures { IfOk result (λ all. all.items ≡ prefixed prefix.now 10 text.now) }
{
    let mut all = Vec::new(alloc);
    let mut before = b'\n';
    for byte in text {
        push_prefixed(&mut all, prefix, before, *byte)?;
        before = *byte;
    }
    Ok(all)
}

// Adds a byte. If the byte before it ends a line, the prefix comes first.
fn push_prefixed(all: &mut Vec<u8>, prefix: &[u8], before: u8, byte: u8) -> Result<(), AllocError>
    ensures { IfOk result (λ _. all.new.items ≡ all.old.items ++ prefixed_byte prefix.now before byte) }
{
    if before == b'\n' {
        all.extend_from_slice(prefix)?;
        return push_first(all, byte);
    }
    all.push(byte)?;
    Ok(())
}

// Adds the first byte of a line. If it is not a digit, a space comes first.
fn push_first(all: &mut Vec<u8>, byte: u8) -> Result<(), AllocError>
    ensures { IfOk result (λ _. all.new.items ≡ all.old.items ++ first_byte byte) }
{
    if byte < b'0' {
        all.extend_from_slice(&[b' ', byte])?;
        return Ok(());
    }
    if byte > b'9' {
        all.extend_from_slice(&[b' ', byte])?;
        return Ok(());
    }
    all.push(byte)?;
    Ok(())
}
