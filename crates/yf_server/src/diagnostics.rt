//! Problems as JSON.
ghost use Rattle.std.specs.Prelude.{◌≡◌, ◌++◌, ◌∷◌, [], IfOk, OnOk, map};
ghost use Rattle.serde_json.specs.View.{view};
ghost use Rattle.yf_server.specs.Analysis.{problem_read};
ghost use Rattle.yf_server.specs.Diagnostics.{IsReport, diagnostic, diagnostic_of, diagnostics, full_report};

use crate::analysis::{Analysis, Problem};
use crate::edits::range_value;
use serde_json::{Value, json};
use std::alloc::{AllocError, Global};
use yf_positions::document::Document;
use yf_positions::encoding::Encoding;
use yf_positions::position::LspRange;

/// Returns a problem as JSON, by its range.
fn diagnostic_of(alloc: Global, range: &Value, problem: &Problem) -> Result<Value, AllocError>
    ensures { IfOk result (λ value. view value ≡ diagnostic_of (view range.now) (problem_read problem.now)) }
{
    let severity = problem.severity.number();
    let code = problem.code;
    let message = problem.message.as_str();
    json!(in alloc; {
        "range": range,
        "severity": severity,
        "code": code,
        "source": "yamlfmt",
        "message": message
    })
}

/// Returns a problem of a document as JSON.
fn diagnostic(
    alloc: Global,
    document: &Document,
    problem: &Problem,
    encoding: Encoding,
) -> Result<Value, AllocError>
    ensures { IfOk result (λ value. view value ≡ diagnostic encoding document.now (problem_read problem.now)) }
{
    let start = document.position_of(problem.start, encoding);
    let end = document.position_of(problem.end, encoding);
    let range = range_value(alloc, LspRange { start, end })?;
    diagnostic_of(alloc, &range, problem)
}

/// Adds a problem of a document as JSON.
fn push_diagnostic(
    alloc: Global,
    values: &mut Vec<Value>,
    document: &Document,
    problem: &Problem,
    encoding: Encoding,
) -> Result<(), AllocError>
    ensures { OnOk result (map view values.new.items
        ≡ map view values.old.items ++ diagnostic encoding document.now (problem_read problem.now) ∷ []) }
{
    let value = diagnostic(alloc, document, problem, encoding)?;
    values.push(value)?;
    Ok(())
}

/// Returns the problems of a document as JSON, in order.
pub fn diagnostics(
    alloc: Global,
    document: &Document,
    problems: &[Problem],
    encoding: Encoding,
) -> Result<Value, AllocError>
    ensures { IfOk result (λ value.
        view value ≡ diagnostics encoding document.now (map problem_read problems.now)) }
{
    let mut values = Vec::new(alloc);
    for problem in problems {
        push_diagnostic(alloc, &mut values, document, problem, encoding)?;
    }
    Ok(Value::Array(values))
}

/// Returns a full report of problems, which are JSON.
fn full_report(alloc: Global, listed: Value) -> Result<Value, AllocError>
    ensures { IfOk result (λ value. view value ≡ full_report (view listed)) }
{
    json!(in alloc; {"kind": "full", "items": listed})
}

/// Returns a full report of the problems of a document, as JSON.
///
/// # Errors
///
/// `AllocError` if memory was refused.
pub fn report<A: Analysis>(
    alloc: Global,
    analysis: &A,
    uri: &str,
    document: &Document,
    encoding: Encoding,
) -> Result<Value, AllocError>
    ensures { IfOk result (λ value. IsReport (A.claim analysis.now) encoding uri.now document.now (view value)) }
{
    let problems = analysis.problems(alloc, uri, document.text())?;
    let listed = diagnostics(alloc, document, problems.as_slice(), encoding)?;
    full_report(alloc, listed)
}
