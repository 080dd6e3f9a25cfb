//! The directives of a document (YAML 1.2.2, section 6.8): the version that it names, and the handles that it declares.
ghost use Rattle.std.specs.Prelude.{◌≡◌, ◌++◌, ◌||◌, false, is_some, map, IfOk, MatchOption};
ghost use Rattle.yf_stream.specs.TagPass.{FirstOfBoth, SameDeclarations};
ghost use Rattle.yf_stream.specs.WellFormed.{declaration_breaches, declarations, directive_breaches, version_breaches, with_declaration};
ghost use Rattle.yf_stream.specs.WellFormed as WellFormed;

use crate::breaches::{Breach, BreachKind, keep_if};
use crate::prefixes::Prefixes;
use std::alloc::AllocError;
use yf_events::directive::Directive;

/// Declares the handles of a document, and keeps the first breach: a repeated directive, or a major version other than
/// 1.
pub(crate) fn declare_all<'a>(
    directives: &[Directive<'a>],
    handles: &mut Prefixes<'a>,
    first: &mut Option<Breach>,
) -> Result<(), AllocError>
    ensures handles { IfOk result (λ _. SameDeclarations handles.new (declarations handles.old directives.now)) }
    ensures found { IfOk result (λ _. FirstOfBoth first.old first.new (directive_breaches false handles.old directives.now)) }
{
    let mut has_version = false;
    for directive in directives {
        has_version = declare(directive, has_version, handles, first)?;
    }
    Ok(())
}

// Declares the handle of one directive, and returns whether a version has been named so far.
fn declare<'a>(
    directive: &Directive<'a>,
    has_version: bool,
    handles: &mut Prefixes<'a>,
    first: &mut Option<Breach>,
) -> Result<bool, AllocError>
    ensures handles { IfOk result (λ _. SameDeclarations handles.new
        (with_declaration handles.old (WellFormed.declaration_of directive.now.words))) }
    ensures found { IfOk result (λ _. FirstOfBoth first.old first.new
        (version_breaches has_version directive.now.offset (WellFormed.version_of directive.now.words)
        ++ declaration_breaches handles.old directive.now.offset (WellFormed.declaration_of directive.now.words))) }
    ensures seen { IfOk result (λ seen. seen ≡ (has_version || is_some (WellFormed.version_of directive.now.words))) }
{
    let offset = directive.offset;
    if let Some(version) = version_of(directive.words.as_slice()) {
        keep_if(first, has_version, BreachKind::RepeatedDirective, offset);
        keep_if(
            first,
            !is_version_one(version),
            BreachKind::BadVersion,
            offset,
        );
        return Ok(true);
    }
    if let Some((handle, prefix)) = declaration_of(directive.words.as_slice()) {
        let fresh = handles.declare(handle, prefix)?;
        keep_if(first, !fresh, BreachKind::RepeatedDirective, offset);
    }
    Ok(has_version)
}

// Returns the version that a YAML directive names.
fn version_of<'a>(words: &[&'a str]) -> Option<&'a str>
    ensures { MatchOption result (WellFormed.version_of (map (λ word. word.now) words.now) ≡ None)
        (λ version. WellFormed.version_of (map (λ word. word.now) words.now) ≡ Some version.now) }
{
    match words {
        [name, version] => {
            if *name == "YAML" {
                return Some(version);
            }
            None
        }
        _ => None,
    }
}

// Returns the handle that a TAG directive declares, and its prefix.
fn declaration_of<'a>(words: &[&'a str]) -> Option<(&'a str, &'a str)>
    ensures { MatchOption result (WellFormed.declaration_of (map (λ word. word.now) words.now) ≡ None)
        (λ d. WellFormed.declaration_of (map (λ word. word.now) words.now) ≡ Some (d.0.now, d.1.now)) }
{
    match words {
        [name, handle, prefix] => {
            if *name == "TAG" {
                return Some((handle, prefix));
            }
            None
        }
        _ => None,
    }
}

// Returns whether the number before the dot is 1.
fn is_version_one(version: &str) -> bool
    ensures { result ≡ WellFormed.is_version_one version.now }
{
    let digits = version.as_bytes();
    let mut at = 0;
    'digits: while at < digits.len() {
        if digits[at] != b'0' {
            return is_one(digits[at], &digits[at + 1..]);
        }
        at += 1;
    }
    false
}

// Returns whether the digit is 1, and a dot follows it.
fn is_one(digit: u8, rest: &[u8]) -> bool
    ensures { result ≡ WellFormed.is_one digit rest.now }
{
    if digit != b'1' {
        return false;
    }
    match rest.first() {
        Some(next) => *next == b'.',
        None => false,
    }
}
