//! The text of a block scalar (YAML 1.2.2, section 8.1): its header and its lines.
ghost use Rattle.std.specs.Prelude.{◌≡◌, ◌<◌, ◌≤◌, ◌++◌, ◌∷◌, [], flat_map, map, replicate, OnOk};
ghost use Rattle.std.specs.String.{string_bytes};
ghost use Rattle.yf_events.specs.declared.event.ScalarStyle.TheVariants.{Folded, Literal};
ghost use Rattle.yf_forms.specs.Nodes.BlockLines as BlockLines;
ghost use Rattle.yf_forms.specs.Nodes.BlockLines.{begins_with_space, block_lines, chomping_sign, cut_at_feeds, digit_text, header_text, is_kept_tail, line_at, style_sign, tail_lines, without_final_feeds};
ghost use Rattle.yf_forms.specs.Nodes.Lines.{ended};

use crate::text::limit::limited;
use std::alloc::AllocError;
use yf_events::event::ScalarStyle;

/// Appends spaces. If memory is refused, fills all the room that was there.
#[inline(always)]
pub fn push_spaces(out: &mut String, count: usize) -> Result<(), AllocError>
    ensures { OnOk result (string_bytes out.new ≡ string_bytes out.old ++ replicate count 32) }
{
    if count <= out.capacity().saturating_sub(out.len()) {
        return push_by_eight(out, count);
    }
    push_each_space(out, count)
}

/// Appends spaces one by one, without room for all.
#[cold]
#[inline(never)]
fn push_each_space(out: &mut String, count: usize) -> Result<(), AllocError>
    ensures { OnOk result (string_bytes out.new ≡ string_bytes out.old ++ replicate count 32) }
{
    for _done in 0..count {
        out.push(' ')?;
    }
    Ok(())
}

/// Appends spaces eight at a time.
#[inline(always)]
fn push_by_eight(out: &mut String, count: usize) -> Result<(), AllocError>
    ensures { OnOk result (string_bytes out.new ≡ string_bytes out.old ++ replicate count 32) }
{
    let mut left = count;
    while left >= 8 {
        out.push_str("        ")?;
        left -= 8;
    }
    push_few_spaces(out, left)
}

/// Appends less than eight spaces.
#[inline(always)]
fn push_few_spaces(out: &mut String, count: usize) -> Result<(), AllocError>
    requires { count < 8 }
    ensures { OnOk result (string_bytes out.new ≡ string_bytes out.old ++ replicate count 32) }
{
    match count {
        0 => Ok(()),
        1 => out.push(' '),
        2 => out.push_str("  "),
        3 => out.push_str("   "),
        4 => out.push_str("    "),
        5 => out.push_str("     "),
        6 => out.push_str("      "),
        _ => out.push_str("       "),
    }
}

/// Returns the text up to its last character other than a line feed.
fn without_feeds(text: &str) -> &str
    ensures { result.now ≡ without_final_feeds text.now }
{
    text.trim_end_matches('\n')
}

/// Returns how many line feeds a text ends with.
fn final_feeds(text: &str) -> usize
    ensures { result ≡ BlockLines.final_feeds text.now }
{
    text.len().saturating_sub(without_feeds(text).len())
}

/// Returns whether the first character other than a line feed is a space. Then the indentation can't be detected from
/// the content.
fn starts_with_space(text: &str) -> bool
    ensures { result ≡ begins_with_space text.now }
{
    for byte in text.as_bytes() {
        if *byte != b'\n' {
            return *byte == b' ';
        }
    }
    false
}

/// Returns whether the header of a block scalar with this content has the sign that keeps all its final line feeds.
pub fn is_kept_whole(text: &str) -> bool
    ensures { result ≡ is_kept_tail (BlockLines.final_feeds text.now) }
{
    final_feeds(text) > 1
}

/// Appends the header of a block scalar with this content: `|` or `>`, the indentation if the content begins with a
/// space, and the sign for its final line feeds.
pub fn push_header(
    out: &mut String,
    style: ScalarStyle,
    text: &str,
    indent: usize,
) -> Result<(), AllocError>
    requires { indent ≤ 9 }
    ensures { OnOk result (string_bytes out.new ≡ string_bytes out.old ++ header_text style indent text.now) }
{
    push_style(out, style)?;
    push_digit(out, text, indent)?;
    push_sign(out, text)
}

fn push_style(out: &mut String, style: ScalarStyle) -> Result<(), AllocError>
    ensures { OnOk result (string_bytes out.new ≡ string_bytes out.old ++ style_sign style) }
{
    match style {
        ScalarStyle::Folded => out.push('>'),
        ScalarStyle::Plain | ScalarStyle::Single | ScalarStyle::Double | ScalarStyle::Literal =>
            out.push('|'),
    }
}

/// Appends the digit of the indentation, if the content begins with a space.
fn push_digit(out: &mut String, text: &str, indent: usize) -> Result<(), AllocError>
    requires { indent ≤ 9 }
    ensures { OnOk result (string_bytes out.new ≡ string_bytes out.old ++ digit_text indent text.now) }
{
    if starts_with_space(text) {
        return out.push(char::from(b'0' + indent as u8));
    }
    Ok(())
}

fn push_sign(out: &mut String, text: &str) -> Result<(), AllocError>
    ensures { OnOk result (string_bytes out.new ≡ string_bytes out.old ++ chomping_sign (BlockLines.final_feeds text.now)) }
{
    match final_feeds(text) {
        0 => out.push('-'),
        1 => Ok(()),
        _ => out.push('+'),
    }
}

/// Appends a line of a block scalar at the column; an empty one has no spaces. Fails if the output already has more
/// than `LONGEST` bytes.
fn push_line(out: &mut String, line: &str, column: usize) -> Result<(), AllocError>
    ensures { OnOk result (string_bytes out.new ≡ string_bytes out.old ++ ended (line_at column line.now)) }
{
    limited(out.len())?;
    if !line.is_empty() {
        push_spaces(out, column)?;
        out.push_str(line)?;
    }
    out.push('\n')
}

/// Appends the line feeds after the last content line's own.
fn push_tail(out: &mut String, text: &str, column: usize) -> Result<(), AllocError>
    ensures { OnOk result (string_bytes out.new ≡ string_bytes out.old ++ flat_map ended (map (line_at column) (tail_lines text.now))) }
{
    for _done in 0..final_feeds(text).saturating_sub(1) {
        out.push('\n')?;
    }
    Ok(())
}

/// Appends the lines of a text, cut at its line feeds.
fn push_lines(out: &mut String, text: &str, column: usize) -> Result<(), AllocError>
    ensures { OnOk result (string_bytes out.new ≡ string_bytes out.old ++ flat_map ended (map (line_at column) (cut_at_feeds text.now))) }
{
    let mut rest = text;
    while let Some((line, follows)) = rest.split_once('\n') {
        push_line(out, line, column)?;
        rest = follows;
    }
    push_line(out, rest, column)
}

/// Appends the lines of a literal scalar with this content.
pub fn push_literal(out: &mut String, text: &str, column: usize) -> Result<(), AllocError>
    ensures { OnOk result (string_bytes out.new ≡ string_bytes out.old ++ flat_map ended (block_lines Literal column text.now [])) }
{
    push_lines(out, without_feeds(text), column)?;
    push_tail(out, text, column)
}

/// Appends the lines of a folded scalar with this content.
pub fn push_folded(
    out: &mut String,
    lines: &[&str],
    text: &str,
    column: usize,
) -> Result<(), AllocError>
    ensures { OnOk result (string_bytes out.new ≡ string_bytes out.old ++ flat_map ended
        (block_lines Folded column text.now (map (λ line. line.now) lines.now))) }
{
    for line in lines {
        push_line(out, line, column)?;
    }
    push_tail(out, text, column)
}
