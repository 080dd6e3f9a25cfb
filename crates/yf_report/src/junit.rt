//! A report as an XML document in the format of JUnit: a test case that failed for each problem.
ghost use Rattle.std.specs.Prelude.{◌≡◌, ◌∷◌, ◌++◌, [], Some, true, codes, flat_map, map, IfOk, OnOk};
ghost use Rattle.yf_report.specs.Problems.{finding_of};
ghost use Rattle.yf_report.specs.Xml.{is_nested, open_tag, tags_in};
ghost use Rattle.yf_report.specs.XmlText.{tag_text};
ghost use Rattle.yf_report.specs.Junit as spec;

use crate::checkstyle::name_or_stdin;
use crate::problem::{Problem, Severity};
use crate::xml::{Named, Value, push_close, push_declaration, push_empty, push_open};
use std::alloc::{AllocError, Global};

/// Returns the report as a JUnit document: one suite, with a test case that failed for each problem.
///
/// A refusal is an `error` and a finding is a `failure`. The suite is named `yamlfmt`, and a case has the rule as its
/// name and the file as its class, which is `stdin` for standard input. A character that XML 1.0 does not allow is
/// written as U+FFFD.
///
/// # Errors
///
/// `AllocError` if memory runs out.
pub fn junit_report(alloc: Global, problems: &[Problem<'_>]) -> Result<Vec<u8>, AllocError>
    ensures tags { IfOk result (λ b. tags_in b.items ≡ Some (spec.junit_tags (map finding_of problems.now))) }
    ensures nested { OnOk result (is_nested [] (spec.junit_tags (map finding_of problems.now)) ≡ true) }
{
    let mut out = Vec::new(alloc);
    push_declaration(&mut out)?;
    push_suite(&mut out, "testsuites", problems)?;
    push_suite(&mut out, "testsuite", problems)?;
    for problem in problems {
        push_case(&mut out, problem)?;
    }
    push_close(&mut out, "testsuite")?;
    push_close(&mut out, "testsuites")?;
    out.extend_from_slice(b"\n")?;
    Ok(out)
}

// Returns the number of errors.
fn errors(problems: &[Problem<'_>]) -> usize
    ensures { result ≡ spec.errors (map finding_of problems.now) }
{
    let mut count = 0;
    for problem in problems {
        if is_error(problem.severity) {
            count += 1;
        }
    }
    count
}

fn is_error(severity: Severity) -> bool
    ensures { result ≡ spec.is_error severity }
{
    match severity {
        Severity::Error => true,
        Severity::Warning => false,
    }
}

// Adds the start tag of the suite, or of the suites.
fn push_suite(out: &mut Vec<u8>, name: &str, problems: &[Problem<'_>]) -> Result<(), AllocError>
    ensures { OnOk result (out.new.items ≡ out.old.items
        ++ tag_text (open_tag name.now (spec.suite_attributes (map finding_of problems.now)))) }
{
    let errors = errors(problems);
    let attributes = [
        Named {
            name: "name",
            value: Value::Text("yamlfmt"),
        },
        Named {
            name: "tests",
            value: Value::Number(problems.len()),
        },
        Named {
            name: "failures",
            value: Value::Number(problems.len() - errors),
        },
        Named {
            name: "errors",
            value: Value::Number(errors),
        },
    ];
    push_open(out, name, &attributes)
}

// Adds the test case of a problem.
fn push_case(out: &mut Vec<u8>, problem: &Problem<'_>) -> Result<(), AllocError>
    ensures { OnOk result (out.new.items
        ≡ out.old.items ++ flat_map tag_text (spec.case_tags (finding_of problem.now))) }
{
    let place = [
        Named {
            name: "name",
            value: Value::Text(problem.rule),
        },
        Named {
            name: "classname",
            value: Value::Text(name_or_stdin(problem.file)),
        },
        Named {
            name: "line",
            value: Value::Number(problem.range.line),
        },
        Named {
            name: "column",
            value: Value::Number(problem.range.column),
        },
    ];
    push_open(out, "testcase", &place)?;
    push_outcome(out, problem)?;
    push_close(out, "testcase")?;
    Ok(())
}

fn outcome_name(severity: Severity) -> &'static str
    ensures { result.now ≡ spec.outcome_name severity }
{
    match severity {
        Severity::Error => "error",
        Severity::Warning => "failure",
    }
}

fn push_outcome(out: &mut Vec<u8>, problem: &Problem<'_>) -> Result<(), AllocError>
    ensures { OnOk result (out.new.items
        ≡ out.old.items ++ tag_text (spec.outcome_tag (finding_of problem.now))) }
{
    let attributes = [
        Named {
            name: "type",
            value: Value::Text(problem.severity.name()),
        },
        Named {
            name: "message",
            value: Value::Text(problem.message),
        },
    ];
    push_empty(out, outcome_name(problem.severity), &attributes)
}
