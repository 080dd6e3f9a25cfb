//! A report as a SARIF 2.1.0 log (OASIS), which code scanning and editors read.
ghost use Rattle.std.specs.Prelude.{◌≡◌, Some, codes, map, string_bytes, IfOk, OnOk};
ghost use Rattle.std.specs.Prelude.{option_and_then, option_map};
ghost use Rattle.json.specs.Json.{document, item, array, no_items};
ghost use Rattle.json.specs.Tree.{json_tokens};
ghost use Rattle.yf_report.specs.Members.{Adds, member_tokens};
ghost use Rattle.yf_report.specs.Problems.{note_of};
ghost use Rattle.yf_report.specs.Sarif as spec;
ghost use Rattle.yf_report.specs.Fixes.{AllFitFixed, fixed_of, replaced};
ghost use Rattle.yf_report.specs.SarifRead.{logged, results_in};

use crate::members::{write_flag, write_number, write_text};
use crate::problem::{Problem, Range, Related, Replacement};
use json::Writer;
use percent_encoding::{AsciiSet, NON_ALPHANUMERIC, ascii_set, utf8_percent_encode};
use std::alloc::{AllocError, Global};

/// The bytes that a URI contains only as escapes (RFC 3986, section 2.3), except `/`.
const ESCAPED: AsciiSet = ascii_set!(
    NON_ALPHANUMERIC
        .remove(b'-')
        .remove(b'.')
        .remove(b'_')
        .remove(b'~')
        .remove(b'/')
);

/// A rule that a problem may name.
#[derive(Clone, Copy)]
pub struct Rule<'a> {
    pub id: &'a str,
    /// A sentence about the rule.
    pub summary: &'a str,
    /// What the rule requires, and how to satisfy it.
    pub help: &'a str,
}

/// Returns the report as a SARIF log with one run and the given rules.
///
/// Columns count characters (`columnKind` is `unicodeCodePoints`). The name of a file is a URI with percent escapes,
/// and standard input has the URI `stdin`. The property `fixable` says whether `fmt` fixes a problem. A problem with a
/// fix has one `fixes` entry, which changes its file.
///
/// # Errors
///
/// `AllocError` if memory runs out.
pub fn sarif_report(
    alloc: Global,
    rules: &[Rule<'_>],
    problems: &[Problem<'_>],
) -> Result<Vec<u8>, AllocError>
    ensures value { IfOk result (λ b. document b.items
        ≡ Some (spec.log_json (map spec.described rules.now) (map fixed_of problems.now))) }
    ensures reads_back { IfOk result (λ b. AllFitFixed (map fixed_of problems.now)
        → option_and_then results_in (document b.items) ≡ Some (map logged (map fixed_of problems.now))) }
{
    let mut out = Writer::new(Vec::new(alloc));
    write_head(&mut out)?;
    write_tool(&mut out, rules)?;
    write_text(&mut out, "columnKind", "unicodeCodePoints")?;
    out.key("results")?;
    write_results(alloc, &mut out, problems)?;
    out.end_object()?;
    out.end_array()?;
    out.end_object()?;
    Ok(out.into_inner())
}

// Adds the tokens before the run's members.
fn write_head(out: &mut Writer) -> Result<(), AllocError>
    ensures { OnOk result (Adds out.old out.new spec.head_tokens) }
{
    out.begin_object()?;
    write_text(
        out,
        "$schema",
        "https://json.schemastore.org/sarif-2.1.0.json",
    )?;
    write_text(out, "version", "2.1.0")?;
    out.key("runs")?;
    out.begin_array()?;
    out.begin_object()?;
    Ok(())
}

// Adds the tool with its rules.
fn write_tool(out: &mut Writer, rules: &[Rule<'_>]) -> Result<(), AllocError>
    ensures { OnOk result (Adds out.old out.new
        (member_tokens (codes "tool") (spec.tool_json (map spec.described rules.now)))) }
{
    out.key("tool")?;
    out.begin_object()?;
    out.key("driver")?;
    out.begin_object()?;
    write_text(out, "name", "yamlfmt")?;
    out.key("rules")?;
    write_rules(out, rules)?;
    out.end_object()?;
    out.end_object()?;
    Ok(())
}

fn write_rules(out: &mut Writer, rules: &[Rule<'_>]) -> Result<(), AllocError>
    ensures { OnOk result (Adds out.old out.new
        (json_tokens (array (spec.rule_items (map spec.described rules.now))))) }
{
    out.begin_array()?;
    for rule in rules {
        write_rule(out, rule)?;
    }
    out.end_array()?;
    Ok(())
}

fn write_rule(out: &mut Writer, rule: &Rule<'_>) -> Result<(), AllocError>
    ensures { OnOk result (Adds out.old out.new (json_tokens (spec.rule_json (spec.described rule.now)))) }
{
    out.begin_object()?;
    write_text(out, "id", rule.id)?;
    write_message(out, "shortDescription", rule.summary)?;
    write_message(out, "help", rule.help)?;
    out.end_object()?;
    Ok(())
}

// Adds a member that is an object with a text.
fn write_message(out: &mut Writer, name: &str, text: &str) -> Result<(), AllocError>
    ensures { OnOk result (Adds out.old out.new (member_tokens name.now (spec.text_json text.now))) }
{
    out.key(name)?;
    out.begin_object()?;
    write_text(out, "text", text)?;
    out.end_object()?;
    Ok(())
}

fn write_results(
    alloc: Global,
    out: &mut Writer,
    problems: &[Problem<'_>],
) -> Result<(), AllocError>
    ensures { OnOk result (Adds out.old out.new
        (json_tokens (array (spec.result_items (map fixed_of problems.now))))) }
{
    out.begin_array()?;
    for problem in problems {
        write_result(alloc, out, problem)?;
    }
    out.end_array()?;
    Ok(())
}

fn write_result(alloc: Global, out: &mut Writer, problem: &Problem<'_>) -> Result<(), AllocError>
    ensures { OnOk result (Adds out.old out.new (json_tokens (spec.result_json (fixed_of problem.now)))) }
{
    let uri = uri_of(alloc, problem.file)?;
    let name = uri.as_str();
    out.begin_object()?;
    write_text(out, "ruleId", problem.rule)?;
    write_text(out, "level", problem.severity.name())?;
    write_message(out, "message", problem.message)?;
    write_place(out, name, &problem.range)?;
    write_related(out, name, problem.related)?;
    write_fix(out, name, problem.fix)?;
    write_properties(out, problem.fixable)?;
    out.end_object()?;
    Ok(())
}

// Returns the URI of a file.
fn uri_of(alloc: Global, file: Option<&str>) -> Result<String, AllocError>
    ensures { IfOk result (λ s. string_bytes s ≡ spec.uri_of (option_map (λ s. s.now) file.entry)) }
{
    match file {
        Some(name) => escaped(alloc, name),
        None => String::from_str(alloc, "stdin"),
    }
}

fn escaped(alloc: Global, name: &str) -> Result<String, AllocError>
    ensures { IfOk result (λ s. string_bytes s ≡ spec.escaped name.now) }
{
    let mut uri = String::new(alloc);
    utf8_percent_encode(name, ESCAPED).append_to(&mut uri)?;
    Ok(uri)
}

// Adds the one place of a result.
fn write_place(out: &mut Writer, uri: &str, range: &Range) -> Result<(), AllocError>
    ensures { OnOk result (Adds out.old out.new (member_tokens (codes "locations")
        (array (item (spec.location_json uri.now range.now) no_items)))) }
{
    out.key("locations")?;
    out.begin_array()?;
    out.begin_object()?;
    write_physical(out, uri, range)?;
    out.end_object()?;
    out.end_array()?;
    Ok(())
}

// Adds a file and a range in it.
fn write_physical(out: &mut Writer, uri: &str, range: &Range) -> Result<(), AllocError>
    ensures { OnOk result (Adds out.old out.new (member_tokens (codes "physicalLocation")
        (spec.physical_json uri.now range.now))) }
{
    out.key("physicalLocation")?;
    out.begin_object()?;
    write_artifact(out, uri)?;
    write_region(out, "region", range)?;
    out.end_object()?;
    Ok(())
}

fn write_artifact(out: &mut Writer, uri: &str) -> Result<(), AllocError>
    ensures { OnOk result (Adds out.old out.new
        (member_tokens (codes "artifactLocation") (spec.artifact_json uri.now))) }
{
    out.key("artifactLocation")?;
    out.begin_object()?;
    write_text(out, "uri", uri)?;
    out.end_object()?;
    Ok(())
}

// Adds a range as a member with a name.
fn write_region(out: &mut Writer, name: &str, range: &Range) -> Result<(), AllocError>
    ensures { OnOk result (Adds out.old out.new (member_tokens name.now (spec.region_json range.now))) }
{
    out.key(name)?;
    out.begin_object()?;
    write_number(out, "startLine", range.line)?;
    write_number(out, "startColumn", range.column)?;
    write_number(out, "endLine", range.end_line)?;
    write_number(out, "endColumn", range.end_column)?;
    out.end_object()?;
    Ok(())
}

// Adds the other place, if there is one.
fn write_related(
    out: &mut Writer,
    uri: &str,
    related: Option<Related<'_>>,
) -> Result<(), AllocError>
    ensures { OnOk result (Adds out.old out.new (spec.related_tokens uri.now (option_map note_of related.entry))) }
{
    match related {
        Some(place) => write_note(out, uri, &place),
        None => Ok(()),
    }
}

fn write_note(out: &mut Writer, uri: &str, place: &Related<'_>) -> Result<(), AllocError>
    ensures { OnOk result (Adds out.old out.new (member_tokens (codes "relatedLocations")
        (array (item (spec.note_json uri.now (note_of place.now)) no_items)))) }
{
    out.key("relatedLocations")?;
    out.begin_array()?;
    out.begin_object()?;
    write_physical(out, uri, &place.range)?;
    write_message(out, "message", place.message)?;
    out.end_object()?;
    out.end_array()?;
    Ok(())
}

// Adds the fix, if there is one.
fn write_fix(out: &mut Writer, uri: &str, fix: &[Replacement<'_>]) -> Result<(), AllocError>
    ensures { OnOk result (Adds out.old out.new (spec.fix_tokens uri.now (map replaced fix.now))) }
{
    match fix {
        [] => Ok(()),
        [_, ..] => write_only_fix(out, uri, fix),
    }
}

fn write_only_fix(out: &mut Writer, uri: &str, fix: &[Replacement<'_>]) -> Result<(), AllocError>
    ensures { OnOk result (Adds out.old out.new (member_tokens (codes "fixes")
        (array (item (spec.fix_json uri.now (map replaced fix.now)) no_items)))) }
{
    out.key("fixes")?;
    out.begin_array()?;
    out.begin_object()?;
    write_message(out, "description", "format the file")?;
    write_changes(out, uri, fix)?;
    out.end_object()?;
    out.end_array()?;
    Ok(())
}

// Adds the changes of the one file that a fix changes.
fn write_changes(out: &mut Writer, uri: &str, fix: &[Replacement<'_>]) -> Result<(), AllocError>
    ensures { OnOk result (Adds out.old out.new (member_tokens (codes "artifactChanges")
        (array (item (spec.change_json uri.now (map replaced fix.now)) no_items)))) }
{
    out.key("artifactChanges")?;
    out.begin_array()?;
    out.begin_object()?;
    write_artifact(out, uri)?;
    out.key("replacements")?;
    write_replacements(out, fix)?;
    out.end_object()?;
    out.end_array()?;
    Ok(())
}

fn write_replacements(out: &mut Writer, fix: &[Replacement<'_>]) -> Result<(), AllocError>
    ensures { OnOk result (Adds out.old out.new
        (json_tokens (array (spec.replacement_items (map replaced fix.now))))) }
{
    out.begin_array()?;
    for replacement in fix {
        write_replacement(out, replacement)?;
    }
    out.end_array()?;
    Ok(())
}

fn write_replacement(out: &mut Writer, replacement: &Replacement<'_>) -> Result<(), AllocError>
    ensures { OnOk result (Adds out.old out.new (json_tokens (spec.replacement_json (replaced replacement.now)))) }
{
    out.begin_object()?;
    write_region(out, "deletedRegion", &replacement.range)?;
    write_inserted(out, replacement.text)?;
    out.end_object()?;
    Ok(())
}

// Adds the text that replaces a range, if it is not empty.
fn write_inserted(out: &mut Writer, text: &str) -> Result<(), AllocError>
    ensures { OnOk result (Adds out.old out.new (spec.inserted_tokens text.now)) }
{
    if text.is_empty() {
        return Ok(());
    }
    write_message(out, "insertedContent", text)?;
    Ok(())
}

fn write_properties(out: &mut Writer, fixable: bool) -> Result<(), AllocError>
    ensures { OnOk result (Adds out.old out.new
        (member_tokens (codes "properties") (spec.properties_json fixable))) }
{
    out.key("properties")?;
    out.begin_object()?;
    write_flag(out, "fixable", fixable)?;
    out.end_object()?;
    Ok(())
}
