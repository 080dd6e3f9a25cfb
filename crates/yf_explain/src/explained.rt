//! Pages that explain a fault of the bytes that were read.
ghost use Rattle.std.specs.Prelude.{IfOk, []};
ghost use Rattle.std.specs.Str.{IsCharBoundary};
ghost use Rattle.yf_explain.specs.Explained.{AddsWords, Explains, Extends, Tells, TellsAt, TellsByte, TellsOffset};

use crate::look::is_text_like;
use crate::opened::opened_before;
use crate::page::Page;
use crate::position::{line_span, place_offset, push_place, push_words};
use crate::source::push_source;
use itoa::Buffer;
use std::alloc::{AllocError, Global};
use yf_chars::utf8::check_utf8;
use yf_lines::fault::Fault;
use yf_lines::place::Position;
use yf_lines::source_text::Src;

/// The most columns of words. Words that name a file may take `LONG_WORDS` columns.
const WORDS: usize = 74;

const LONG_WORDS: usize = 8192;

/// The most columns of a number.
const NUMBER: usize = 20;

/// Explains a fault of the bytes: why they are refused, the line of the text with a caret under the position, and the
/// position at which the open quote or bracket begins. The page is empty if the fault is not about the bytes.
///
/// # Errors
///
/// `AllocError` if memory is refused, or if the bytes have no such position.
pub fn explain(alloc: Global, bytes: &[u8], fault: &Fault) -> Result<Page, AllocError>
    ensures { IfOk result (λ page. Explains bytes.now fault.now page) }
{
    match fault {
        Fault::NotUtf8 { offset } => explain_byte(alloc, bytes, *offset),
        Fault::Syntax { place, what } => explain_place(alloc, bytes, *place, what),
        Fault::TooDeep { place } => explain_place(
            alloc,
            bytes,
            *place,
            "more than 1,024 collections would be open here",
        ),
        Fault::UnknownHandle { place } => explain_place(
            alloc,
            bytes,
            *place,
            "no %TAG directive of this document declares the tag's handle",
        ),
        Fault::UnknownAlias { place } => explain_alias(alloc, bytes, *place),
        Fault::RepeatedDirective { place } => explain_place(
            alloc,
            bytes,
            *place,
            "a document has at most one %YAML, and one %TAG for each handle",
        ),
        Fault::BadVersion { place } => explain_place(
            alloc,
            bytes,
            *place,
            "unsupported YAML version: write 1.2",
        ),
        Fault::EscapeValue { place } => explain_place(
            alloc,
            bytes,
            *place,
            "this escape is not a Unicode character",
        ),
        Fault::Memory | Fault::ReadFailed | Fault::WriteFailed | Fault::Config { .. } => {
            Ok(Page::new(alloc))
        }
    }
}

/// Returns a page of one line of words, whatever characters they contain.
///
/// # Errors
///
/// `AllocError` if memory is refused.
pub fn page_of_words(alloc: Global, words: &str) -> Result<Page, AllocError>
    ensures { IfOk result (λ page. AddsWords words.now [] page) }
{
    let mut page = Page::new(alloc);
    push_words(&mut page, words, LONG_WORDS)?;
    Ok(page)
}

/// Adds a line of words to a page, whatever characters they contain.
///
/// # Errors
///
/// `AllocError` if memory is refused.
pub fn push_line(page: &mut Page, words: &str) -> Result<(), AllocError>
    ensures { IfOk result (λ _. AddsWords words.now page.old page.new) }
{
    push_words(page, words, LONG_WORDS)
}

/// Returns a page with the words, and the line of the text with a caret under the offset.
///
/// # Errors
///
/// `AllocError` if memory is refused, or if no character begins at the offset.
pub fn page_at(alloc: Global, text: &str, offset: usize, words: &str) -> Result<Page, AllocError>
    ensures { IfOk result (λ page. TellsOffset text.now offset page) }
{
    if !text.is_char_boundary(offset) {
        return Err(AllocError);
    }
    let src = Src::new(alloc, text)?;
    let mut page = Page::new(alloc);
    let place = src.place(offset);
    push_placed(&mut page, place, words)?;
    let _ = push_place(&mut page, &src, place)?;
    Ok(page)
}

// Adds a position and words about it.
fn push_placed(page: &mut Page, place: Position, words: &str) -> Result<(), AllocError>
    ensures { IfOk result (λ _. Extends page.old page.new) }
{
    page.push_signs("  ")?;
    push_numbers(page, place)?;
    page.push_signs(": ")?;
    if words.is_char_boundary(0) {
        let _ = page.push_part(words, 0, words.len(), WORDS)?;
    }
    page.push_break()
}

// Explains a position of a text.
fn explain_place(
    alloc: Global,
    bytes: &[u8],
    place: Position,
    words: &str,
) -> Result<Page, AllocError>
    ensures { IfOk result (λ page. Tells bytes.now place words.now page) }
{
    let text = match check_utf8(bytes) {
        Ok(text) => text,
        Err(_) => return Err(AllocError),
    };
    let src = Src::new(alloc, text)?;
    explain_source(alloc, &src, place, words)
}

// Explains an alias without an anchor.
fn explain_alias(alloc: Global, bytes: &[u8], place: Position) -> Result<Page, AllocError>
    ensures { IfOk result (λ page. TellsAt bytes.now place page) }
{
    let text = match check_utf8(bytes) {
        Ok(text) => text,
        Err(_) => return Err(AllocError),
    };
    let src = Src::new(alloc, text)?;
    let words = alias_words(text, place_offset(&src, place));
    explain_source(alloc, &src, place, words)
}

// Returns why an alias is refused. Its name may look like a text.
fn alias_words(text: &str, at: usize) -> &'static str {
    if is_text_like(text, at) {
        return "no anchor has this name: quote a text that begins with `*`";
    }
    "no anchor with this name comes before it in this document"
}

// Explains a position of a text with its lines.
fn explain_source(
    alloc: Global,
    src: &Src,
    place: Position,
    words: &str,
) -> Result<Page, AllocError>
    ensures { IfOk result (λ page. Tells src.now.text place words.now page) }
{
    let mut page = Page::new(alloc);
    push_words(&mut page, words, WORDS)?;
    let at = push_place(&mut page, src, place)?;
    push_opened(alloc, &mut page, src, at, place)?;
    Ok(page)
}

// Adds the position at which the quote or bracket that is open at an offset begins.
fn push_opened(
    alloc: Global,
    page: &mut Page,
    src: &Src,
    at: usize,
    place: Position,
) -> Result<(), AllocError>
    ensures { IfOk result (λ _. Extends page.old page.new) }
{
    let text = src.text();
    match opened_before(alloc, text, at)? {
        Some(opening) => {
            if text.is_char_boundary(opening) {
                return push_opening(page, src, opening, place.line);
            }
            Ok(())
        }
        None => Ok(()),
    }
}

// Adds the position of an opening quote or bracket, and its line with a caret if that isn't the line shown before.
fn push_opening(page: &mut Page, src: &Src, opening: usize, told: usize) -> Result<(), AllocError>
    requires { IsCharBoundary src.now.text opening }
    ensures { IfOk result (λ _. Extends page.old page.new) }
{
    let place = src.place(opening);
    page.push_signs("  opened at ")?;
    push_numbers(page, place)?;
    page.push_break()?;
    if place.line == told {
        return Ok(());
    }
    let span = line_span(src, place.line);
    if opening < span.from || opening > span.to {
        return Ok(());
    }
    push_source(page, src.text(), span.from, span.to, opening)
}

// Adds the line and the column of a position.
fn push_numbers(page: &mut Page, place: Position) -> Result<(), AllocError>
    ensures { IfOk result (λ _. Extends page.old page.new) }
{
    push_number(page, place.line)?;
    page.push_signs(":")?;
    push_number(page, place.column)
}

fn push_number(page: &mut Page, number: usize) -> Result<(), AllocError>
    ensures { IfOk result (λ _. Extends page.old page.new) }
{
    let mut buffer = Buffer::new();
    let digits = buffer.format(number);
    let _ = page.push_part(digits, 0, digits.len(), NUMBER)?;
    Ok(())
}

// Explains bytes that aren't UTF-8: the position of the first wrong byte, and the text before it on its line.
fn explain_byte(alloc: Global, bytes: &[u8], offset: usize) -> Result<Page, AllocError>
    ensures { IfOk result (λ page. TellsByte bytes.now offset page) }
{
    if offset >= bytes.len() {
        return Err(AllocError);
    }
    let text = match check_utf8(&bytes[..offset]) {
        Ok(text) => text,
        Err(_) => return Err(AllocError),
    };
    let src = Src::new(alloc, text)?;
    let mut page = Page::new(alloc);
    let place = src.place(text.len());
    push_byte(&mut page, bytes[offset], place)?;
    let _ = push_place(&mut page, &src, place)?;
    Ok(page)
}

// Adds words about a byte that isn't part of a UTF-8 text.
fn push_byte(page: &mut Page, byte: u8, place: Position) -> Result<(), AllocError>
    ensures { IfOk result (λ _. Extends page.old page.new) }
{
    page.push_signs("  ")?;
    push_numbers(page, place)?;
    page.push_signs(": the byte ")?;
    page.push_byte(byte)?;
    page.push_signs(" is not UTF-8 here")?;
    page.push_break()
}
