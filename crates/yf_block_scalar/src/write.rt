//! Writes block scalars (YAML 1.2.2, section 8.1).
ghost use Rattle.std.specs.Prelude.{◌≡◌, ◌++◌, ◌+◌, ◌<◌, ◌≤◌, ◌≤ℤ◌, ◌^◌, pos, [], ◌∷◌, map, replicate, IfOk, IfErr, OnErr, OnOk};
ghost use Rattle.std.specs.String.{string_bytes};
ghost use Rattle.yf_chars.specs.Signs.{SPACE};
ghost use Rattle.yf_block_scalar.specs.Body.{base};
ghost use Rattle.yf_block_scalar.specs.Content.{literal};
ghost use Rattle.yf_block_scalar.specs.Written.{IsRead, IsScalar, body_bytes, break_bytes, comment_bytes, digit_bytes, header_bytes, indented, sign_bytes, style_bytes, tail_bytes, written_of};

use crate::body::BlockText;
use crate::content::push_feeds;
use crate::header::{Chomp, Header};
use crate::indent::base_of;
use crate::lines::Lines;
use std::alloc::{AllocError, Global};
use yf_comments::comment::Comment;
use yf_lines::fault::Fault;

/// Appends a block scalar, its header and its lines, with its content at the column, counted from 0. `n` is the
/// indentation of the collection around it, from -1.
///
/// A header with a digit gets the digit that this column needs. Empty lines have no spaces. The tail is written only if
/// the header keeps it. If the last content line ended at the end of the text, it gets no break unless the header
/// strips it. The appended text is a block scalar at `n` with equal content.
///
/// # Errors
///
/// Fails with `Fault::Memory` if memory is refused; the text is then unchanged.
pub fn write_block(
    alloc: Global,
    out: &mut String,
    block: &BlockText,
    column: usize,
    n: i32,
) -> Result<(), Fault>
    requires small { n ≤ℤ pos (2 ^ 30) }
    requires right { base n < column }
    requires near { column ≤ base n + 9 }
    ensures written { OnOk result (string_bytes out.new ≡ string_bytes out.old ++ written_of block.now column n) }
    ensures read { IsScalar block.now → OnOk result (IsRead (written_of block.now column n) n block.now) }
    ensures unchanged { OnErr result (string_bytes out.new ≡ string_bytes out.old) }
    ensures refused { IfErr result (λ fault. fault ≡ Fault.Memory) }
{
    match write_new(alloc, block, column, n) {
        Ok(text) => match out.push_str(text.as_str()) {
            Ok(()) => Ok(()),
            Err(AllocError) => Err(Fault::Memory),
        },
        Err(AllocError) => Err(Fault::Memory),
    }
}

fn write_new(alloc: Global, block: &BlockText, column: usize, n: i32) -> Result<String, AllocError>
    requires small { n ≤ℤ pos (2 ^ 30) }
    requires right { base n < column }
    requires near { column ≤ base n + 9 }
    ensures { IfOk result (λ text. string_bytes text ≡ written_of block.now column n) }
{
    let mut text = String::new(alloc);
    push_header(
        &mut text,
        &block.header,
        &block.comment,
        column - base_of(n),
    )?;
    push_body(&mut text, block, column)?;
    Ok(text)
}

fn push_header(
    text: &mut String,
    header: &Header,
    comment: &Option<Comment>,
    width: usize,
) -> Result<(), AllocError>
    requires { width ≤ 9 }
    ensures { OnOk result (string_bytes text.new ≡ string_bytes text.old ++ header_bytes header.now comment.now width) }
{
    push_style(text, header.folded)?;
    push_digit(text, header.digit, width)?;
    push_sign(text, header.chomp)?;
    push_comment(text, comment)?;
    text.push('\n')
}

fn push_style(text: &mut String, is_folded: bool) -> Result<(), AllocError>
    ensures { OnOk result (string_bytes text.new ≡ string_bytes text.old ++ style_bytes is_folded) }
{
    if is_folded {
        return text.push('>');
    }
    text.push('|')
}

fn push_digit(text: &mut String, digit: Option<u8>, width: usize) -> Result<(), AllocError>
    requires { width ≤ 9 }
    ensures { OnOk result (string_bytes text.new ≡ string_bytes text.old ++ digit_bytes digit width) }
{
    match digit {
        Some(_given) => text.push(char::from(b'0' + width as u8)),
        None => Ok(()),
    }
}

fn push_sign(text: &mut String, chomp: Chomp) -> Result<(), AllocError>
    ensures { OnOk result (string_bytes text.new ≡ string_bytes text.old ++ sign_bytes chomp) }
{
    match chomp {
        Chomp::Strip => text.push('-'),
        Chomp::Clip => Ok(()),
        Chomp::Keep => text.push('+'),
    }
}

fn push_comment(text: &mut String, comment: &Option<Comment>) -> Result<(), AllocError>
    ensures { OnOk result (string_bytes text.new ≡ string_bytes text.old ++ comment_bytes comment.now) }
{
    match comment {
        Some(comment) => {
            text.push(' ')?;
            text.push(' ')?;
            text.push_str(comment.text)
        }
        None => Ok(()),
    }
}

fn push_body(text: &mut String, block: &BlockText, column: usize) -> Result<(), AllocError>
    ensures { OnOk result (string_bytes text.new ≡ string_bytes text.old
        ++ body_bytes block.now.header.chomp block.now.lines block.now.tail block.now.open_end column) }
{
    let chomp = block.header.chomp;
    if block.lines.len() == 0 {
        return push_tail(text, chomp, block.tail);
    }
    push_indented(text, &block.lines, column)?;
    push_break(text, chomp, block.open_end)?;
    push_tail(text, chomp, block.tail)
}

fn push_tail(text: &mut String, chomp: Chomp, tail: usize) -> Result<(), AllocError>
    ensures { OnOk result (string_bytes text.new ≡ string_bytes text.old ++ tail_bytes chomp tail) }
{
    match chomp {
        Chomp::Strip | Chomp::Clip => Ok(()),
        Chomp::Keep => push_feeds(text, tail),
    }
}

fn push_break(text: &mut String, chomp: Chomp, open_end: bool) -> Result<(), AllocError>
    ensures { OnOk result (string_bytes text.new ≡ string_bytes text.old ++ break_bytes chomp open_end) }
{
    match chomp {
        Chomp::Strip => text.push('\n'),
        Chomp::Clip | Chomp::Keep => {
            if open_end {
                return Ok(());
            }
            text.push('\n')
        }
    }
}

// Appends the lines at the column, joined by line feeds.
fn push_indented(text: &mut String, lines: &Lines, column: usize) -> Result<(), AllocError>
    ensures { OnOk result (string_bytes text.new ≡ string_bytes text.old ++ literal (map (indented column) lines.now)) }
{
    if lines.len() == 0 {
        return Ok(());
    }
    push_line(text, lines.at(0), column)?;
    let mut index = 1;
    while index < lines.len() {
        text.push('\n')?;
        push_line(text, lines.at(index), column)?;
        index += 1;
    }
    Ok(())
}

fn push_line(text: &mut String, line: &str, column: usize) -> Result<(), AllocError>
    ensures { OnOk result (string_bytes text.new ≡ string_bytes text.old ++ indented column line.now) }
{
    if line.is_empty() {
        return Ok(());
    }
    push_spaces(text, column)?;
    text.push_str(line)
}

fn push_spaces(text: &mut String, count: usize) -> Result<(), AllocError>
    ensures { OnOk result (string_bytes text.new ≡ string_bytes text.old ++ replicate count SPACE) }
{
    for _done in 0..count {
        text.push(' ')?;
    }
    Ok(())
}
