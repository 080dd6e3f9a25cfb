//! A problem with texts of its own, and the problem of a finding.
ghost use Rattle.std.specs.Prelude.{◌≡◌, ◌+◌, ◌<◌, ◌≤◌, [], length, IfOk};
ghost use Rattle.std.specs.Str.{IsCharBoundary};
ghost use Rattle.yf_findings.specs.Problems.{FrontEnd, LineText, SaysProblem};
ghost use Rattle.yf_ranges.specs.Words.{message_words};

use crate::located::Located;
use std::alloc::{AllocError, Global};
use yf_lines::source_text::Src;
use yf_lines::text::OwnedText;
use yf_ranges::detail::Message;
use yf_ranges::words::write_message;
use yf_report::problem::{Range, Severity};
use yf_rules::finding::Finding;

/// The most bytes of a line that a problem keeps.
pub const FRONT: usize = 256;

/// A finding or a refusal, with texts of its own. The file is not known here.
#[derive(Drop)]
pub struct OwnedProblem {
    pub range: Range,
    /// A rule's id, a refusal's kind, or why the text is no data: `no-data` or `template`.
    pub rule: &'static str,
    pub severity: Severity,
    /// What is wrong, and for some rules what is expected.
    pub message: OwnedText,
    /// Whether `fmt` fixes it.
    pub fixable: bool,
    /// The line of the text on which the range begins, without its break, or the longest front of it that has at most
    /// `FRONT` bytes.
    pub line_text: OwnedText,
}

/// Returns the problem of a finding.
pub(crate) fn owned(
    alloc: Global,
    src: &Src,
    finding: &Finding,
    located: &Located,
) -> Result<OwnedProblem, AllocError>
    ensures range { IfOk result (λ p. p.range ≡ located.now.range) }
    ensures says { IfOk result (λ p. SaysProblem src.now finding.now located.now.detail p) }
{
    let message = words_of(alloc, &located.detail.message)?;
    let line_text = line_text(alloc, src, finding.place.line)?;
    Ok(OwnedProblem {
        range: located.range,
        rule: finding.id,
        severity: Severity::Warning,
        message,
        fixable: finding.fixable,
        line_text,
    })
}

// Returns the words of a message.
fn words_of(alloc: Global, message: &Message) -> Result<OwnedText, AllocError>
    ensures { IfOk result (λ words. words ≡ message_words message.now) }
{
    let mut words = String::new(alloc);
    write_message(&mut words, message)?;
    Ok(OwnedText::new(words))
}

/// Returns the text of the line with this number, or a front of it.
pub(crate) fn line_text(alloc: Global, src: &Src, number: usize) -> Result<OwnedText, AllocError>
    ensures { IfOk result (λ s. LineText src.now number s) }
{
    if number == 0 {
        return Ok(nothing(alloc));
    }
    if number > src.lines().len() {
        return Ok(nothing(alloc));
    }
    line_front(alloc, src, number)
}

/// Returns the empty text.
pub(crate) fn nothing(alloc: Global) -> OwnedText
    ensures { result ≡ [] }
{
    OwnedText::new(String::new(alloc))
}

// Returns the text of the line with this number, or a front of it.
fn line_front(alloc: Global, src: &Src, number: usize) -> Result<OwnedText, AllocError>
    requires first { 1 ≤ number }
    requires last { number ≤ length src.now.lines }
    ensures { IfOk result (λ s. LineText src.now number s) }
{
    let line = src.lines().line(number - 1);
    let text = src.text();
    let stop = front_end(text, line.start, line.end);
    Ok(OwnedText::new(String::from_str(alloc, &text[line.start..stop])?))
}

// Returns the end of the longest front of a part of the text that has at most `FRONT` bytes.
fn front_end(text: &str, start: usize, end: usize) -> usize
    requires start { IsCharBoundary text.now start }
    requires end { IsCharBoundary text.now end }
    requires order { start ≤ end }
    ensures { FrontEnd text.now start end result }
{
    if end - start <= FRONT {
        return end;
    }
    let mut stop = start + FRONT;
    while !text.is_char_boundary(stop) {
        stop -= 1;
    }
    stop
}
