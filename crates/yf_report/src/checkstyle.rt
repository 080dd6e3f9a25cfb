//! A report as an XML document in the format of Checkstyle, which many tools of continuous integration read.
ghost use Rattle.std.specs.Prelude.{◌≡◌, ◌∷◌, ◌++◌, Some, None, true, flat_map, map, IfOk, OnOk, option_map, []};
ghost use Rattle.yf_report.specs.Problems.{finding_of};
ghost use Rattle.yf_report.specs.Xml.{is_nested, tags_in};
ghost use Rattle.yf_report.specs.XmlText.{tag_text};
ghost use Rattle.yf_report.specs.Checkstyle as spec;

use crate::problem::Problem;
use crate::xml::{Named, Value, push_close, push_declaration, push_empty, push_open};
use std::alloc::{AllocError, Global};

/// Returns the report as a Checkstyle document: an element `file` for problems of one file that follow one another,
/// and in it an element `error` for each problem.
///
/// Standard input has the name `stdin`. A character that XML 1.0 does not allow is written as U+FFFD.
///
/// # Errors
///
/// `AllocError` if memory runs out.
pub fn checkstyle_report(alloc: Global, problems: &[Problem<'_>]) -> Result<Vec<u8>, AllocError>
    ensures tags { IfOk result (λ b.
        tags_in b.items ≡ Some (spec.checkstyle_tags (map finding_of problems.now))) }
    ensures nested { OnOk result (is_nested [] (spec.checkstyle_tags (map finding_of problems.now)) ≡ true) }
{
    let mut out = Vec::new(alloc);
    push_declaration(&mut out)?;
    push_start(&mut out)?;
    push_files(&mut out, problems)?;
    push_close(&mut out, "checkstyle")?;
    out.extend_from_slice(b"\n")?;
    Ok(out)
}

#[tactic(auto, unfolding(crate::specs::XmlText::allowed))]
fn push_start(out: &mut Vec<u8>) -> Result<(), AllocError>
    ensures { OnOk result (out.new.items ≡ out.old.items ++ tag_text spec.checkstyle_start) }
{
    let version = Named {
        name: "version",
        value: Value::Text("4.3"),
    };
    push_open(out, "checkstyle", &[version])
}

// Adds the elements of all files.
fn push_files(out: &mut Vec<u8>, problems: &[Problem<'_>]) -> Result<(), AllocError>
    ensures { OnOk result (out.new.items
        ≡ out.old.items ++ flat_map tag_text (spec.file_tags None (map finding_of problems.now))) }
{
    let mut last = None;
    for problem in problems {
        let name = name_or_stdin(problem.file);
        push_change(out, last, name)?;
        push_error(out, problem)?;
        last = Some(name);
    }
    push_end(out, last)?;
    Ok(())
}

/// Returns the name of a file in XML.
pub(crate) fn name_or_stdin(file: Option<&str>) -> &str
    ensures { result.now ≡ spec.name_or_stdin (option_map (λ s. s.now) file.entry) }
{
    match file {
        Some(name) => name,
        None => "stdin",
    }
}

// Ends the element of the last file and begins one, unless the file is the last one.
fn push_change(out: &mut Vec<u8>, last: Option<&str>, name: &str) -> Result<(), AllocError>
    ensures { OnOk result (out.new.items
        ≡ out.old.items ++ flat_map tag_text (spec.file_change (option_map (λ s. s.now) last.entry) name.now)) }
{
    match last {
        Some(before) => push_other(out, before, name),
        None => push_file(out, name),
    }
}

fn push_other(out: &mut Vec<u8>, before: &str, name: &str) -> Result<(), AllocError>
    ensures { OnOk result (out.new.items
        ≡ out.old.items ++ flat_map tag_text (spec.file_change (Some before.now) name.now)) }
{
    if before == name {
        return Ok(());
    }
    push_close(out, "file")?;
    push_file(out, name)
}

fn push_file(out: &mut Vec<u8>, name: &str) -> Result<(), AllocError>
    ensures { OnOk result (out.new.items ≡ out.old.items ++ flat_map tag_text (spec.file_start name.now ∷ [])) }
{
    let attribute = Named {
        name: "name",
        value: Value::Text(name),
    };
    push_open(out, "file", &[attribute])
}

fn push_end(out: &mut Vec<u8>, last: Option<&str>) -> Result<(), AllocError>
    ensures { OnOk result (out.new.items
        ≡ out.old.items ++ flat_map tag_text (spec.file_end (option_map (λ s. s.now) last.entry))) }
{
    match last {
        Some(_) => push_close(out, "file"),
        None => Ok(()),
    }
}

// Adds the element of a problem.
fn push_error(out: &mut Vec<u8>, problem: &Problem<'_>) -> Result<(), AllocError>
    ensures { OnOk result (out.new.items ≡ out.old.items ++ tag_text (spec.error_tag (finding_of problem.now))) }
{
    let attributes = [
        Named {
            name: "line",
            value: Value::Number(problem.range.line),
        },
        Named {
            name: "column",
            value: Value::Number(problem.range.column),
        },
        Named {
            name: "severity",
            value: Value::Text(problem.severity.name()),
        },
        Named {
            name: "message",
            value: Value::Text(problem.message),
        },
        Named {
            name: "source",
            value: Value::Text(problem.rule),
        },
    ];
    push_empty(out, "error", &attributes)
}
