//! Directives (YAML 1.2.2, section 6.8). Offsets count bytes.
ghost use Rattle.std.specs.Prelude.{◌≡◌, ◌+◌, ◌<◌, ◌≤◌, [], ◌∷◌, codes, IfOk, IfSome, MatchOption, MatchResult};
ghost use Rattle.std.specs.Str.{IsCharBoundary};
ghost use Rattle.yf_chars.specs.Chain.{Chosen, Stuck};
ghost use Rattle.yf_chars.specs.Boundary.{BoundaryFrom};
ghost use Rattle.yf_stream.specs.DirectiveReaders.{DirectivesEnd, DirectivesRead, IsDirective, ReservedRead, WordsRead};
ghost use Rattle.yf_stream.specs.WithinLine.{InLine};
ghost use Rattle.yf_stream.specs.RefusalPlaces.{DirectivesAt};
ghost use Rattle.yf_stream.specs.Stream.{Parameters};

use std::alloc::{AllocError, Global};
use yf_chars::runs::{Digits, NsChars, skip_while};
use yf_chars::text::is_char_at;
use yf_comments::comments::{Comments, Separation};
use yf_comments::lines::line_end;
use yf_events::directive::{Directive, Directives};
use yf_events::slices::Slices;
use yf_lines::basic::skip_whites;
use yf_props::tag::{tag_handle, tag_prefix};

/// The directives of a document, and the offset of the first line after them and their comments.
#[derive(Drop)]
pub(crate) struct DirectiveLines<'a> {
    pub(crate) directives: Directives<'a>,
    pub(crate) end: usize,
}

// A directive, the comments after it, and the offset of the first line after them.
#[derive(Drop)]
struct DirectiveLine<'a> {
    directive: Directive<'a>,
    comments: Comments<'a>,
    end: usize,
}

/// Reads all directives that begin at the offset, with their comments. Returns `Err` with the offset of the first `%`
/// that begins no directive.
pub(crate) fn read_directives<'a>(
    alloc: Global,
    text: &'a str,
    at: usize,
    comments: &mut Comments<'a>,
) -> Result<Result<DirectiveLines<'a>, usize>, AllocError>
    requires { IsCharBoundary text.now at }
    ensures reads { IfOk result (λ r. MatchResult r (λ lines.
        DirectivesRead text.now at lines.end lines.directives comments.old comments.new) (λ place. DirectivesEnd text.now at place)) }
    ensures begin { IfOk result (λ r. IfOk r (λ lines. DirectivesAt text.now lines.directives)) }
    ensures place { IfOk result (λ r. MatchResult r (λ lines. BoundaryFrom text.now at lines.end) (λ place. BoundaryFrom text.now at place)) }
{
    let mut directives = Directives::new(alloc);
    let mut end = at;
    'directives: while is_char_at(text, end, b'%') {
        match read_directive(alloc, text, end)? {
            Some(line) => {
                directives.push(line.directive)?;
                comments.append(line.comments)?;
                end = line.end;
            }
            None => return Ok(Err(end)),
        }
    }
    Ok(Ok(DirectiveLines { directives, end }))
}

#[tactic(auto, using(crate::proofs::Uniqueness::Forward::line_end_forward))]
// Reads a directive (l-directive, production 82) and the comments after it.
fn read_directive<'a>(
    alloc: Global,
    text: &'a str,
    at: usize,
) -> Result<Option<DirectiveLine<'a>>, AllocError>
    requires { IsCharBoundary text.now at }
    ensures reads { IfOk result (λ o. MatchOption o (Stuck (IsDirective text.now at))
        (λ line. Chosen (IsDirective text.now at) line.end (record { directives = line.directive ∷ []; comments = line.comments }))) }
    ensures place { IfOk result (λ o. IfSome o (λ line. BoundaryFrom text.now (at + 1) line.end)) }
{
    if !is_char_at(text, at, b'%') {
        return Ok(None);
    }
    let name_end = skip_while::<NsChars>(text, at + 1);
    if name_end == at + 1 {
        return Ok(None);
    }
    let name = &text[at + 1..name_end];
    let mut words = Slices::new(alloc);
    words.push(name)?;
    match read_parameters(text, name, name_end, &mut words)? {
        Some(end) => match line_end(alloc, text, end)? {
            Some(
                Separation {
                    comments,
                    end: next,
                },
            ) => Ok(Some(DirectiveLine {
                directive: Directive { offset: at, words },
                comments,
                end: next,
            })),
            None => Ok(None),
        },
        None => Ok(None),
    }
}

// Reads the parameters of a directive with that name, and returns the offset after them.
fn read_parameters<'a>(
    text: &'a str,
    name: &str,
    at: usize,
    words: &mut Slices<'a>,
) -> Result<Option<usize>, AllocError>
    requires { InLine text.now at }
    ensures reads { IfOk result (λ o. MatchOption o (Stuck (Parameters text.now name.now at))
        (λ end. WordsRead text.now name.now at end words.old words.new)) }
    ensures place { IfOk result (λ o. IfSome o (λ end. BoundaryFrom text.now at end)) }
{
    match name {
        "YAML" => read_version(text, at, words),
        "TAG" => read_tag_parameters(text, at, words),
        _ => read_reserved(text, at, words),
    }
}

// Reads the parameter of a YAML directive (ns-yaml-directive, production 86): two numbers with a dot between.
fn read_version<'a>(
    text: &'a str,
    at: usize,
    words: &mut Slices<'a>,
) -> Result<Option<usize>, AllocError>
    requires { InLine text.now at }
    ensures reads { IfOk result (λ o. MatchOption o (Stuck (Parameters text.now (codes "YAML") at))
        (λ end. WordsRead text.now (codes "YAML") at end words.old words.new)) }
    ensures place { IfOk result (λ o. IfSome o (λ end. BoundaryFrom text.now at end)) }
{
    let start = skip_whites(text, at);
    if start == at {
        return Ok(None);
    }
    let dot = skip_while::<Digits>(text, start);
    if dot == start {
        return Ok(None);
    }
    if !is_char_at(text, dot, b'.') {
        return Ok(None);
    }
    let end = skip_while::<Digits>(text, dot + 1);
    if end == dot + 1 {
        return Ok(None);
    }
    words.push(&text[start..end])?;
    Ok(Some(end))
}

// Reads the parameters of a TAG directive (ns-tag-directive, production 88): a handle and a prefix.
fn read_tag_parameters<'a>(
    text: &'a str,
    at: usize,
    words: &mut Slices<'a>,
) -> Result<Option<usize>, AllocError>
    requires { InLine text.now at }
    ensures reads { IfOk result (λ o. MatchOption o (Stuck (Parameters text.now (codes "TAG") at))
        (λ end. WordsRead text.now (codes "TAG") at end words.old words.new)) }
    ensures place { IfOk result (λ o. IfSome o (λ end. BoundaryFrom text.now at end)) }
{
    let start = skip_whites(text, at);
    if start == at {
        return Ok(None);
    }
    let Some(handle_end) = tag_handle(text, start) else {
        return Ok(None);
    };
    let prefix = skip_whites(text, handle_end);
    if prefix == handle_end {
        return Ok(None);
    }
    let Some(end) = tag_prefix(text, prefix) else {
        return Ok(None);
    };
    words.push(&text[start..handle_end])?;
    words.push(&text[prefix..end])?;
    Ok(Some(end))
}

// Reads the parameters of a directive with another name (ns-reserved-directive, production 83). None begins with `#`.
fn read_reserved<'a>(
    text: &'a str,
    at: usize,
    words: &mut Slices<'a>,
) -> Result<Option<usize>, AllocError>
    requires { InLine text.now at }
    ensures reads { IfOk result (λ o. MatchOption o ⊥ (λ end. ReservedRead text.now at end words.old words.new)) }
    ensures place { IfOk result (λ o. IfSome o (λ end. BoundaryFrom text.now at end)) }
{
    let mut end = at;
    'words: loop {
        let start = skip_whites(text, end);
        if start == end {
            return Ok(Some(end));
        }
        if is_char_at(text, start, b'#') {
            return Ok(Some(end));
        }
        let next = skip_while::<NsChars>(text, start);
        if next == start {
            return Ok(Some(end));
        }
        words.push(&text[start..next])?;
        end = next;
    }
}
