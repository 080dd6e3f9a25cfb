//! Pieces of a report. Its text with colors and its text without them have the same pieces.
ghost use Rattle.std.specs.List.{flat_map};
ghost use Rattle.std.specs.Prelude.{◌≡◌, ◌++◌, ◌∷◌, [], false, IfOk, OnOk, map, replicate};
ghost use Rattle.std.specs.Str.{IsUtf8, chars};
ghost use Rattle.std.specs.String.{string_bytes};
ghost use Rattle.yf_explain.specs.Shown.{AreWritten, all_shown};
ghost use Rattle.yf_findings.specs.declared.pieces.Look.TheVariants.{Plain};
ghost use Rattle.yf_findings.specs.Pieces.{all_painted, all_as_shown, begin, end, painted, piece, as_shown};

use std::alloc::{AllocError, Global};
use yf_explain::Page;

/// How a piece looks.
#[derive(Clone, Copy)]
pub enum Look {
    Plain,
    Bold,
    Yellow,
    Green,
}

/// A part of a report.
#[derive(Drop)]
pub struct Piece {
    pub look: Look,
    pub page: Page,
}

/// Adds texts to a page.
pub(crate) fn push_all_shown(page: &mut Page, parts: &[&str]) -> Result<(), AllocError>
    ensures { OnOk result (page.new ≡ page.old ++ all_as_shown (map (λ part. part.now) parts.now)) }
{
    for part in parts {
        push_shown(page, part)?;
    }
    Ok(())
}

/// Adds a text to a page.
pub(crate) fn push_shown(page: &mut Page, text: &str) -> Result<(), AllocError>
    ensures { OnOk result (page.new ≡ page.old ++ as_shown text.now) }
{
    for c in text.chars() {
        page.push(c)?;
    }
    Ok(())
}

/// Adds characters to a page.
pub(crate) fn push_chars(page: &mut Page, line: &[char]) -> Result<(), AllocError>
    ensures { OnOk result (page.new ≡ page.old ++ all_shown line.now) }
{
    for c in line {
        page.push(*c)?;
    }
    Ok(())
}

/// Adds a character a number of times to a page.
pub(crate) fn push_repeated(page: &mut Page, c: char, count: usize) -> Result<(), AllocError>
    ensures { OnOk result (page.new ≡ page.old ++ all_shown (replicate count c)) }
{
    for _ in 0..count {
        page.push(c)?;
    }
    Ok(())
}

/// Adds a piece.
pub(crate) fn push_piece(pieces: &mut Vec<Piece>, look: Look, page: Page) -> Result<(), AllocError>
    ensures { OnOk result (pieces.new.items ≡ pieces.old.items ++ piece look page ∷ []) }
{
    pieces.push(Piece { look, page })?;
    Ok(())
}

/// Adds the end of a line.
pub(crate) fn push_break(alloc: Global, pieces: &mut Vec<Piece>) -> Result<(), AllocError>
    ensures { OnOk result (pieces.new.items ≡ pieces.old.items ++ piece Plain (10 ∷ []) ∷ []) }
{
    let mut page = Page::new(alloc);
    page.push_break()?;
    push_piece(pieces, Look::Plain, page)
}

/// Returns the characters of a text.
pub(crate) fn characters(alloc: Global, text: &str) -> Result<Vec<char>, AllocError>
    ensures { IfOk result (λ cs. cs.items ≡ chars text.now) }
{
    let mut line = Vec::new(alloc);
    for c in text.chars() {
        line.push(c)?;
    }
    Ok(line)
}

/// Returns the text of pieces, with colors or without.
pub(crate) fn text_of(alloc: Global, colored: bool, pieces: &[Piece]) -> Result<Vec<u8>, AllocError>
    ensures utf8 { IfOk result (λ b. IsUtf8 b.items) }
    ensures text { IfOk result (λ b. chars b.items ≡ all_painted colored pieces.now) }
    ensures written { IfOk result (λ _. AreWritten (all_painted false pieces.now)) }
{
    let mut out = String::new(alloc);
    for piece in pieces {
        push_painted(&mut out, colored, piece)?;
    }
    Ok(out.into_bytes())
}

// Adds the text of a piece.
fn push_painted(out: &mut String, colored: bool, piece: &Piece) -> Result<(), AllocError>
    ensures text { OnOk result (chars (string_bytes out.new)
        ≡ chars (string_bytes out.old) ++ painted colored piece.now) }
    ensures written { AreWritten piece.now.page }
{
    let text = piece.page.as_str();
    if colored {
        push_text(out, begin(piece.look))?;
        push_text(out, text)?;
        return push_text(out, end(piece.look));
    }
    push_text(out, text)
}

// Adds a text.
fn push_text(out: &mut String, text: &str) -> Result<(), AllocError>
    ensures { OnOk result (chars (string_bytes out.new) ≡ chars (string_bytes out.old) ++ chars text.now) }
{
    out.push_str(text)
}

// Returns the escape before a piece.
fn begin(look: Look) -> &'static str
    ensures { chars result.now ≡ begin look }
{
    match look {
        Look::Plain => "",
        Look::Bold => "\u{1B}[1m",
        Look::Yellow => "\u{1B}[33m",
        Look::Green => "\u{1B}[32m",
    }
}

// Returns the escape after a piece.
fn end(look: Look) -> &'static str
    ensures { chars result.now ≡ end look }
{
    match look {
        Look::Plain => "",
        Look::Bold => "\u{1B}[0m",
        Look::Yellow => "\u{1B}[0m",
        Look::Green => "\u{1B}[0m",
    }
}
