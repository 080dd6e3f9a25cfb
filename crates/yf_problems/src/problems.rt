//! The problems of a text that the editor server publishes.
ghost use Rattle.std.specs.Prelude.{◌≡◌, ◌++◌, ◌∷◌, [], ℕ, List, IfOk, IfSome, OnOk, map, string_bytes};
ghost use Rattle.std.specs.Str.{IsCharBoundary};
ghost use Rattle.yf_lines.specs.FaultPlaces.{IsPlaceOf};
ghost use Rattle.yf_ranges.specs.Known.{AreKnown};
ghost use Rattle.yf_ranges.specs.Words.{message_words};
ghost use Rattle.yf_rule_sets.specs.declared.rules.StyleRule.{StyleRule as ARule};
ghost use Rattle.yf_rules.specs.AllRules.{all_rules};
ghost use Rattle.yf_server.specs.Analysis.{problem_read};
ghost use Rattle.yf_stream.specs.StreamReader.{StreamFault};
ghost use Rattle.yf_problems.specs.Problems.{FindsProblems, FoundBy, IsRefused, RefusalFound, problem_named};
ghost use Rattle.yf_problems.specs.Problems.{refusal_name, refusal_words, refused_at};

use crate::values::with_values;
use std::alloc::{AllocError, Global};
use yf_chars::text::peek;
use yf_events::reading::Reading;
use yf_forms::style::Style;
use yf_lines::fault::Fault;
use yf_lines::place::Position;
use yf_lines::source_text::Src;
use yf_lines::table::skip_marks;
use yf_ranges::by_rule::details_by;
use yf_ranges::detail::{Detail, Message};
use yf_ranges::ends::character_end;
use yf_ranges::known::KnownDetails;
use yf_ranges::words::write_message;
use yf_rule_sets::rules::StyleRule;
use yf_rules::rule::Rule;
use yf_rules::run::INPUT_LIMIT;
use yf_server::analysis::{Problem, Severity};
use yf_stream::stream::read_stream;

/// All rules of style, in the order of their numbers.
const RULES: [StyleRule; 14] = [
    StyleRule::TrailingBlanks,
    StyleRule::Indentation,
    StyleRule::Quoting,
    StyleRule::DocumentStart,
    StyleRule::FinalBreak,
    StyleRule::LineBreaks,
    StyleRule::ByteOrderMark,
    StyleRule::BlankLines,
    StyleRule::FlowLayout,
    StyleRule::CommentSpace,
    StyleRule::LineLength,
    StyleRule::RepeatedKeys,
    StyleRule::KeyMark,
    StyleRule::HiddenCharacter,
];

// Returns the words of a message.
fn words_of(alloc: Global, message: &Message) -> Result<String, AllocError>
    ensures { IfOk result (λ words. string_bytes words ≡ message_words message.now) }
{
    let mut words = String::new(alloc);
    write_message(&mut words, message)?;
    Ok(words)
}

// Adds the problem of a finding of the rule of that name.
fn add_problem(
    alloc: Global,
    problems: &mut Vec<Problem>,
    id: &'static str,
    detail: &Detail,
) -> Result<(), AllocError>
    ensures { OnOk result (map problem_read problems.new.items
        ≡ map problem_read problems.old.items ++ problem_named id.now detail.now ∷ []) }
{
    let message = words_of(alloc, &detail.message)?;
    problems.push(Problem {
        start: detail.span.start,
        end: detail.span.end,
        severity: Severity::Warning,
        code: id,
        message,
    })?;
    Ok(())
}

// Adds the problems of the findings of the rule of that name.
fn add_all(
    alloc: Global,
    problems: &mut Vec<Problem>,
    id: &'static str,
    details: &[Detail],
) -> Result<(), AllocError>
    ensures { OnOk result (map problem_read problems.new.items
        ≡ map problem_read problems.old.items ++ map (problem_named id.now) details.now) }
{
    for detail in details {
        add_problem(alloc, problems, id, detail)?;
    }
    Ok(())
}

// Adds the problems that a rule finds.
fn add_rule(
    alloc: Global,
    problems: &mut Vec<Problem>,
    rule: &StyleRule,
    src: &Src,
    reading: &Reading,
    style: &Style,
    known: &KnownDetails,
) -> Result<(), AllocError>
    requires { AreKnown src.now reading.now style.now known.now }
    ensures { (rules : List ARule) → OnOk result (FoundBy src.now reading.now style.now rules
        (map problem_read problems.old.items) → FoundBy src.now reading.now style.now (rules ++ rule.now ∷ [])
        (map problem_read problems.new.items)) }
{
    let details = details_by(*rule, alloc, src, reading, style)?;
    let shown = with_values(alloc, *rule, src, known, details.as_slice())?;
    add_all(alloc, problems, rule.id(), shown.as_slice())
}

// Returns the problems that rules find.
fn found_by_rules(
    alloc: Global,
    rules: &[StyleRule],
    src: &Src,
    reading: &Reading,
    style: &Style,
    known: &KnownDetails,
) -> Result<Vec<Problem>, AllocError>
    requires { AreKnown src.now reading.now style.now known.now }
    ensures { IfOk result (λ problems. FoundBy src.now reading.now style.now rules.now
        (map problem_read problems.items)) }
{
    let mut problems = Vec::new(alloc);
    for rule in rules {
        add_rule(alloc, &mut problems, rule, src, reading, style, known)?;
    }
    Ok(problems)
}

// Returns the problems that all rules find.
fn found_by_all(
    alloc: Global,
    src: &Src,
    reading: &Reading,
    style: &Style,
) -> Result<Vec<Problem>, AllocError>
    ensures { IfOk result (λ problems. FoundBy src.now reading.now style.now all_rules
        (map problem_read problems.items)) }
{
    let known = KnownDetails::new(alloc, src, reading, style)?;
    found_by_rules(alloc, &RULES, src, reading, style, &known)
}

// Returns the position of a refusal.
fn refused_at(fault: &Fault) -> Option<Position>
    ensures { result ≡ refused_at fault.now }
{
    match fault {
        Fault::Syntax { place, .. } => Some(*place),
        Fault::TooDeep { place } => Some(*place),
        Fault::UnknownHandle { place } => Some(*place),
        Fault::UnknownAlias { place } => Some(*place),
        Fault::RepeatedDirective { place } => Some(*place),
        Fault::BadVersion { place } => Some(*place),
        Fault::EscapeValue { place } => Some(*place),
        Fault::NotUtf8 { .. } => None,
        Fault::Memory => None,
        Fault::ReadFailed => None,
        Fault::WriteFailed => None,
        Fault::Config { .. } => None,
    }
}

// Returns what a refusal is called.
fn refusal_name(fault: &Fault) -> &'static str
    ensures { result.now ≡ refusal_name fault.now }
{
    match fault {
        Fault::Syntax { .. } => "syntax",
        Fault::TooDeep { .. } => "too-deep",
        Fault::UnknownHandle { .. } => "unknown-handle",
        Fault::UnknownAlias { .. } => "unknown-alias",
        Fault::RepeatedDirective { .. } => "repeated-directive",
        Fault::BadVersion { .. } => "bad-version",
        Fault::EscapeValue { .. } => "escape-value",
        Fault::NotUtf8 { .. } => "",
        Fault::Memory => "",
        Fault::ReadFailed => "",
        Fault::WriteFailed => "",
        Fault::Config { .. } => "",
    }
}

// Returns why a text is refused.
fn refusal_words(fault: &Fault) -> &'static str
    ensures { result.now ≡ refusal_words fault.now }
{
    match fault {
        Fault::Syntax { what, .. } => what,
        Fault::TooDeep { .. } => "more than 1,024 collections would be open here",
        Fault::UnknownHandle { .. } =>
            "no %TAG directive of this document declares the tag's handle",
        Fault::UnknownAlias { .. } => "no anchor with this name comes before it in this document",
        Fault::RepeatedDirective { .. } =>
            "a document has at most one %YAML, and one %TAG for each handle",
        Fault::BadVersion { .. } => "unsupported YAML version: write 1.2",
        Fault::EscapeValue { .. } => "this escape is not a Unicode character",
        Fault::NotUtf8 { .. } => "",
        Fault::Memory => "",
        Fault::ReadFailed => "",
        Fault::WriteFailed => "",
        Fault::Config { .. } => "",
    }
}

// Returns the offset that is `count` characters after another one, or the end of the text.
fn after_characters(text: &str, from: usize, count: usize) -> usize
    requires { IsCharBoundary text.now from }
    ensures { IsCharBoundary text.now result }
{
    let mut at = from;
    for _done in 0..count {
        match peek(text, at) {
            Some((_, next)) => at = next,
            None => return at,
        }
    }
    at
}

// Returns the offset at which the line of that index begins, after its marks; the end of the text after the last line.
fn line_begin(src: &Src, index: usize) -> usize
    ensures { IsCharBoundary src.now.text result }
{
    if index < src.lines().len() {
        return skip_marks(src.text(), src.lines().line(index).start);
    }
    src.text().len()
}

// Returns an offset that has the position. There is one for each position in the text.
fn offset_at(src: &Src, place: &Position) -> Option<usize>
    ensures boundary { IfSome result (λ at. IsCharBoundary src.now.text at) }
    ensures place { IfSome result (λ at. IsPlaceOf src.now.text at place.now) }
{
    let begin = line_begin(src, place.line.saturating_sub(1));
    let at = after_characters(src.text(), begin, place.column.saturating_sub(1));
    let found = src.place(at);
    if found.line != place.line {
        return None;
    }
    if found.column != place.column {
        return None;
    }
    Some(at)
}

// Returns the problem of a refusal.
fn refusal(alloc: Global, src: &Src, fault: &Fault) -> Result<Problem, AllocError>
    ensures { IfOk result (λ problem. RefusalFound src.now.text fault.now (problem_read problem)) }
{
    let Some(place) = refused_at(fault) else {
        return Err(AllocError);
    };
    let Some(start) = offset_at(src, &place) else {
        return Err(AllocError);
    };
    let message = String::from_str(alloc, refusal_words(fault))?;
    Ok(Problem {
        start,
        end: character_end(src.text(), start),
        severity: Severity::Error,
        code: refusal_name(fault),
        message,
    })
}

// Returns the problems of a refused text.
fn refused(alloc: Global, src: &Src, fault: &Fault) -> Result<Vec<Problem>, AllocError>
    requires { StreamFault src.now.text fault.now }
    ensures { IfOk result (λ problems. IsRefused src.now.text (map problem_read problems.items)) }
{
    let problem = refusal(alloc, src, fault)?;
    let mut problems = Vec::new(alloc);
    problems.push(problem)?;
    Ok(problems)
}

/// Returns the problems of a text: what all rules of style find, or why it is refused.
///
/// # Errors
///
/// `AllocError` if memory is refused.
pub fn problems_in(alloc: Global, text: &str, style: &Style) -> Result<Vec<Problem>, AllocError>
    ensures { IfOk result (λ problems. FindsProblems style.now text.now (map problem_read problems.items)) }
{
    if text.len() > INPUT_LIMIT {
        return Ok(Vec::new(alloc));
    }
    let src = Src::new(alloc, text)?;
    match read_stream(alloc, text) {
        Ok(reading) => found_by_all(alloc, &src, &reading, style),
        Err(fault) => refused(alloc, &src, &fault),
    }
}
