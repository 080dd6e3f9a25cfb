//! A report as one JSON array (RFC 8259), with an object for each problem.
ghost use Rattle.std.specs.Prelude.{◌≡◌, Some, codes, map, IfOk, OnOk, option_map, option_and_then};
ghost use Rattle.json.specs.Json.{document};
ghost use Rattle.json.specs.Print.{print};
ghost use Rattle.json.specs.Tree.{json_tokens};
ghost use Rattle.yf_report.specs.Members.{Adds, member_tokens};
ghost use Rattle.yf_report.specs.Problems.{finding_of, note_of, AllFit};
ghost use Rattle.yf_report.specs.ProblemsJson.{finding_json, findings_in, note_json, report_json, text_or_null};
ghost use Rattle.yf_report.specs.ProblemsJson.{range_tokens, related_tokens};

use crate::members::{write_flag, write_null, write_number, write_text};
use crate::problem::{Problem, Range, Related};
use json::Writer;
use std::alloc::{AllocError, Global};

/// Returns the report as a JSON array of objects, in the order of the problems.
///
/// An object has the members `file` (`null` for standard input), `line`, `column`, `end_line`, `end_column`, `rule`,
/// `severity` (`error` or `warning`), `message` and `fixable`, and `related` only if the problem has another range.
/// docs/formats/findings.schema.json is its JSON schema.
///
/// # Errors
///
/// `AllocError` if memory runs out.
pub fn json_report(alloc: Global, problems: &[Problem<'_>]) -> Result<Vec<u8>, AllocError>
    ensures text { IfOk result (λ b. b.items ≡ print (json_tokens (report_json (map finding_of problems.now)))) }
    ensures value { IfOk result (λ b. document b.items ≡ Some (report_json (map finding_of problems.now))) }
    ensures reads_back { IfOk result (λ b. AllFit (map finding_of problems.now)
        → option_and_then findings_in (document b.items) ≡ Some (map finding_of problems.now)) }
{
    let mut out = Writer::new(Vec::new(alloc));
    out.begin_array()?;
    for problem in problems {
        write_problem(&mut out, problem)?;
    }
    out.end_array()?;
    Ok(out.into_inner())
}

// Adds the object of a problem.
fn write_problem(out: &mut Writer, problem: &Problem<'_>) -> Result<(), AllocError>
    ensures { OnOk result (Adds out.old out.new (json_tokens (finding_json (finding_of problem.now)))) }
{
    out.begin_object()?;
    write_file(out, problem.file)?;
    write_range(out, &problem.range)?;
    write_text(out, "rule", problem.rule)?;
    write_text(out, "severity", problem.severity.name())?;
    write_text(out, "message", problem.message)?;
    write_flag(out, "fixable", problem.fixable)?;
    write_related(out, problem.related)?;
    out.end_object()?;
    Ok(())
}

// Adds the name of the file, or `null` for standard input.
fn write_file(out: &mut Writer, file: Option<&str>) -> Result<(), AllocError>
    ensures { OnOk result (Adds out.old out.new
        (member_tokens (codes "file") (text_or_null (option_map (λ s. s.now) file.entry)))) }
{
    match file {
        Some(name) => write_text(out, "file", name),
        None => write_null(out, "file"),
    }
}

// Adds the four members of a range.
fn write_range(out: &mut Writer, range: &Range) -> Result<(), AllocError>
    ensures { OnOk result (Adds out.old out.new (range_tokens range.now)) }
{
    write_number(out, "line", range.line)?;
    write_number(out, "column", range.column)?;
    write_number(out, "end_line", range.end_line)?;
    write_number(out, "end_column", range.end_column)?;
    Ok(())
}

// Adds the other place, if there is one.
fn write_related(out: &mut Writer, related: Option<Related<'_>>) -> Result<(), AllocError>
    ensures { OnOk result (Adds out.old out.new (related_tokens (option_map note_of related.entry))) }
{
    match related {
        Some(place) => write_place(out, &place),
        None => Ok(()),
    }
}

// Adds the member for the other place.
fn write_place(out: &mut Writer, place: &Related<'_>) -> Result<(), AllocError>
    ensures { OnOk result (Adds out.old out.new (member_tokens (codes "related") (note_json (note_of place.now)))) }
{
    out.key("related")?;
    out.begin_object()?;
    write_range(out, &place.range)?;
    write_text(out, "message", place.message)?;
    out.end_object()?;
    Ok(())
}
