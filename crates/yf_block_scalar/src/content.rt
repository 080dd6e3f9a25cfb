//! The content of a block scalar (YAML 1.2.2, sections 8.1.1.2, 8.1.2 and 8.1.3).
ghost use Rattle.std.specs.Prelude.{◌≡◌, ◌++◌, ◌||◌, ◌+◌, [], length, drop, if◌then◌else◌, IfOk, IfErr, OnOk};
ghost use Rattle.std.specs.String.{string_bytes};
ghost use Rattle.yf_block_scalar.specs.Content.{content_of, feeds, is_spaced, joint, folded_after, folded, literal};

use crate::body::BlockText;
use crate::header::Chomp;
use crate::lines::Lines;
use std::alloc::{AllocError, Global};
use yf_lines::fault::Fault;

/// Returns the content of a block scalar: its lines, joined or folded, and the line breaks at its end that the chomping
/// indicator keeps. No line feed follows a last content line that ends at the end of the text.
///
/// The only error is `Fault::Memory`.
pub fn content(alloc: Global, block: &BlockText) -> Result<String, Fault>
    ensures content { IfOk result (λ s. string_bytes s ≡ content_of block.now.header block.now.lines block.now.tail block.now.open_end) }
    ensures refused { IfErr result (λ f. f ≡ Fault.Memory) }
{
    let mut text = String::new(alloc);
    match push_content(&mut text, block) {
        Ok(()) => Ok(text),
        Err(_refused) => Err(Fault::Memory),
    }
}

fn push_content(text: &mut String, block: &BlockText) -> Result<(), AllocError>
    ensures { OnOk result (string_bytes text.new ≡ string_bytes text.old
        ++ content_of block.now.header block.now.lines block.now.tail block.now.open_end) }
{
    if block.lines.len() == 0 {
        return match block.header.chomp {
            Chomp::Strip | Chomp::Clip => Ok(()),
            Chomp::Keep => push_feeds(text, block.tail),
        };
    }
    push_lines(text, block.header.folded, &block.lines)?;
    if block.open_end {
        return Ok(());
    }
    match block.header.chomp {
        Chomp::Strip => Ok(()),
        Chomp::Clip => push_feeds(text, 1),
        Chomp::Keep => push_next_feeds(text, block.tail),
    }
}

fn push_lines(text: &mut String, is_folded: bool, lines: &Lines) -> Result<(), AllocError>
    ensures { OnOk result (string_bytes text.new ≡ string_bytes text.old ++ (if is_folded then folded lines.now else literal lines.now)) }
{
    if is_folded {
        return push_folded(text, lines);
    }
    push_literal(text, lines)
}

// Appends `count` line feeds.
pub(crate) fn push_feeds(text: &mut String, count: usize) -> Result<(), AllocError>
    ensures { OnOk result (string_bytes text.new ≡ string_bytes text.old ++ feeds count) }
{
    for _done in 0..count {
        text.push('\n')?;
    }
    Ok(())
}

// Appends `count + 1` line feeds.
fn push_next_feeds(text: &mut String, count: usize) -> Result<(), AllocError>
    ensures { OnOk result (string_bytes text.new ≡ string_bytes text.old ++ feeds (count + 1)) }
{
    push_feeds(text, count)?;
    text.push('\n')
}

// Appends lines joined by line feeds.
fn push_literal(text: &mut String, lines: &Lines) -> Result<(), AllocError>
    ensures { OnOk result (string_bytes text.new ≡ string_bytes text.old ++ literal lines.now) }
{
    if lines.len() == 0 {
        return Ok(());
    }
    text.push_str(lines.at(0))?;
    let mut index = 1;
    while index < lines.len() {
        text.push('\n')?;
        text.push_str(lines.at(index))?;
        index += 1;
    }
    Ok(())
}

// Appends folded lines.
fn push_folded(text: &mut String, lines: &Lines) -> Result<(), AllocError>
    ensures { OnOk result (string_bytes text.new ≡ string_bytes text.old ++ folded lines.now) }
{
    let mut index = 0;
    while index < lines.len() {
        let line = lines.at(index);
        index += 1;
        if !line.is_empty() {
            text.push_str(line)?;
            return push_folded_after(text, lines, index, begins_white(line));
        }
        text.push('\n')?;
    }
    Ok(())
}

// Appends the folded lines from that number on. They follow a content line, which is spaced or not.
fn push_folded_after(
    text: &mut String,
    lines: &Lines,
    from: usize,
    spaced: bool,
) -> Result<(), AllocError>
    ensures { OnOk result (string_bytes text.new ≡ string_bytes text.old ++ folded_after spaced 0 (drop from lines.now)) }
{
    let mut index = from;
    let mut last_spaced = spaced;
    let mut empty = 0;
    while index < lines.len() {
        let line = lines.at(index);
        index += 1;
        if line.is_empty() {
            empty += 1;
            continue;
        }
        let here_spaced = begins_white(line);
        push_joint(text, last_spaced, here_spaced, empty)?;
        text.push_str(line)?;
        last_spaced = here_spaced;
        empty = 0;
    }
    Ok(())
}

// Appends the separation of two content lines with that number of empty lines between them.
fn push_joint(
    text: &mut String,
    first_spaced: bool,
    second_spaced: bool,
    empty: usize,
) -> Result<(), AllocError>
    ensures { OnOk result (string_bytes text.new ≡ string_bytes text.old ++ joint (first_spaced || second_spaced) empty) }
{
    if first_spaced {
        return push_next_feeds(text, empty);
    }
    if second_spaced {
        return push_next_feeds(text, empty);
    }
    if empty == 0 {
        return text.push(' ');
    }
    push_feeds(text, empty)
}

// Returns whether the line begins with white space.
fn begins_white(line: &str) -> bool
    ensures { result ≡ is_spaced line.now }
{
    let bytes = line.as_bytes();
    if bytes.is_empty() {
        return false;
    }
    if bytes[0] == b' ' {
        return true;
    }
    bytes[0] == b'\t'
}
