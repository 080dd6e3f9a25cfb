//! The problems of a text, and the changes between it and its formatting.
ghost use Rattle.std.specs.Prelude.{◌≡◌, ◌≤◌, length, IfErr, IfOk};
ghost use Rattle.yf_findings.specs.Changes.{FormatChanges, ListedChanges};
ghost use Rattle.yf_findings.specs.Problems.{EachProblem, FindingProblem};
ghost use Rattle.yf_findings.specs.Texts.{ReadingProblems, TextProblems};
ghost use Rattle.yf_rules.specs.AllRules.{FoundWithout};
ghost use Rattle.yf_rules.specs.declared.run.TheConstants.{INPUT_LIMIT};
ghost use Rattle.yf_stream.specs.StreamReader.{StreamFault, TheReading};

use crate::changes::{Change, changes_between, has_fixable};
use crate::listing::problems_of;
use crate::owned::OwnedProblem;
use std::alloc::{AllocError, Global};
use yf_events::reading::Reading;
use yf_forms::style::Style;
use yf_lines::fault::Fault;
use yf_lines::source_text::Src;
use yf_lines::text::OwnedText;
use yf_rules::check_all::check_all;
use yf_rules::format::format_reading;
use yf_stream::stream::read_stream;

/// The problems of a text, and the changes between it and its formatting.
#[derive(Drop)]
pub struct CheckedText {
    pub problems: Vec<OwnedProblem>,
    /// The changes, in order, or nothing if they are not asked for.
    pub changes: Vec<Change>,
}

/// Returns a problem for each finding of a check of the text by all rules except those with names in `without`. If
/// `asked` and `fmt` fixes one of these, it also returns the changes between the text and its formatting. The text is
/// read once.
///
/// # Errors
///
/// Those of `read_stream` if the text is refused, and `Memory` if memory is refused or if the formatted text would be
/// too long.
pub fn problems_in(
    alloc: Global,
    asked: bool,
    without: &[OwnedText],
    text: &str,
    style: &Style,
) -> Result<CheckedText, Fault>
    ensures found { IfOk result (λ c. TextProblems without.now style.now text.now c.problems.items) }
    ensures changes { IfOk result (λ c. ListedChanges asked style.now text.now c.problems.items c.changes.items) }
    ensures refuses { IfErr result (StreamFault text.now) }
{
    let src = match Src::new(alloc, text) {
        Ok(src) => src,
        Err(AllocError) => return Err(Fault::Memory),
    };
    let reading = read_stream(alloc, text)?;
    problems_from(alloc, asked, without, &src, reading, style)
}

// Returns the problems of a text with this reading, and the changes if they are asked for.
fn problems_from(
    alloc: Global,
    asked: bool,
    without: &[OwnedText],
    src: &Src,
    reading: Reading,
    style: &Style,
) -> Result<CheckedText, Fault>
    requires fits { length src.now.text ≤ INPUT_LIMIT }
    requires reads { TheReading src.now.text reading }
    ensures found { IfOk result (λ c. ReadingProblems without.now style.now src.now reading.entry c.problems.items) }
    ensures changes { IfOk result (λ c. ListedChanges asked style.now src.now.text c.problems.items c.changes.items) }
    ensures refused { IfErr result (λ fault. fault ≡ Fault.Memory) }
{
    match found_problems(alloc, without, src, &reading, style) {
        Ok(problems) => with_changes(alloc, asked, src, reading, style, problems),
        Err(fault) => Err(fault),
    }
}

// Returns the problems of a text with this reading.
fn found_problems(
    alloc: Global,
    without: &[OwnedText],
    src: &Src,
    reading: &Reading,
    style: &Style,
) -> Result<Vec<OwnedProblem>, Fault>
    ensures found { IfOk result (λ ps. ReadingProblems without.now style.now src.now reading.now ps.items) }
    ensures refused { IfErr result (λ fault. fault ≡ Fault.Memory) }
{
    let _lists = reading.lists();
    let findings = check_all(alloc, without, src, reading, style)?;
    match problems_of(alloc, src, reading, style, findings.as_slice()) {
        Ok(problems) => Ok(problems),
        Err(AllocError) => Err(Fault::Memory),
    }
}

// Returns these problems of a text, and the changes if they are asked for and `fmt` fixes one of the problems.
fn with_changes(
    alloc: Global,
    asked: bool,
    src: &Src,
    reading: Reading,
    style: &Style,
    problems: Vec<OwnedProblem>,
) -> Result<CheckedText, Fault>
    requires fits { length src.now.text ≤ INPUT_LIMIT }
    requires reads { TheReading src.now.text reading }
    ensures problems { IfOk result (λ c. c.problems.items ≡ problems.items) }
    ensures changes { IfOk result (λ c. ListedChanges asked style.now src.now.text problems.items c.changes.items) }
    ensures refused { IfErr result (λ fault. fault ≡ Fault.Memory) }
{
    let fixable = has_fixable(problems.as_slice());
    if asked {
        if fixable {
            return match format_changes(alloc, src, reading, style) {
                Ok(changes) => Ok(CheckedText { problems, changes }),
                Err(fault) => Err(fault),
            };
        }
    }
    Ok(CheckedText {
        problems,
        changes: Vec::new(alloc),
    })
}

// Returns the changes between a text with this reading and its formatting.
fn format_changes(
    alloc: Global,
    src: &Src,
    reading: Reading,
    style: &Style,
) -> Result<Vec<Change>, Fault>
    requires fits { length src.now.text ≤ INPUT_LIMIT }
    requires reads { TheReading src.now.text reading }
    ensures changes { IfOk result (λ cs. FormatChanges style.now src.now.text cs.items) }
    ensures refused { IfErr result (λ fault. fault ≡ Fault.Memory) }
{
    let text = src.text();
    let formatted = match format_reading(alloc, text, reading, style) {
        Ok(formatted) => formatted,
        Err(fault) => return Err(fault),
    };
    match changes_between(alloc, src, formatted.as_str()) {
        Ok(changes) => Ok(changes),
        Err(AllocError) => Err(Fault::Memory),
    }
}
