//! A report as workflow commands of GitHub Actions, which annotate a change at its lines.
ghost use Rattle.std.specs.Prelude.{◌≡◌, ◌∷◌, ◌++◌, [], Some, true, decimal, map, IfOk, OnOk, option_map};
ghost use Rattle.yf_report.specs.Problems.{finding_of, severity_name};
ghost use Rattle.yf_report.specs.Commands.{commands_in};
ghost use Rattle.yf_report.specs.CommandText as spec;

use crate::problem::{Problem, Range, Severity};
use itoa::Buffer;
use std::alloc::{AllocError, Global};

/// Returns the report as workflow commands: a line for each problem, the errors first.
///
/// A line is `::error title=RULE,file=NAME,line=L,endLine=L,col=C,endColumn=C::MESSAGE`, or `::warning ..`. It has no
/// `file` for standard input, and no columns if the range has several lines, since GitHub refuses columns there.
/// `%`, CR and LF are escaped in the message, and `:` and `,` in the other values too.
///
/// # Errors
///
/// `AllocError` if memory runs out.
pub fn github_report(alloc: Global, problems: &[Problem<'_>]) -> Result<Vec<u8>, AllocError>
    ensures { IfOk result (λ b.
        commands_in b.items ≡ Some (map spec.command_of (spec.errors_first (map finding_of problems.now)))) }
{
    let mut out = Vec::new(alloc);
    push_lines(&mut out, problems, true)?;
    push_lines(&mut out, problems, false)?;
    Ok(out)
}

// Adds the lines of the errors, or those of the other problems.
fn push_lines(out: &mut Vec<u8>, problems: &[Problem<'_>], errors: bool) -> Result<(), AllocError>
    ensures { OnOk result (out.new.items ≡ out.old.items ++ spec.lines_text errors (map finding_of problems.now)) }
{
    for problem in problems {
        push_line_if(out, problem, errors)?;
    }
    Ok(())
}

fn is_among(errors: bool, severity: Severity) -> bool
    ensures { result ≡ spec.is_among errors severity }
{
    match severity {
        Severity::Error => errors,
        Severity::Warning => !errors,
    }
}

fn push_line_if(out: &mut Vec<u8>, problem: &Problem<'_>, errors: bool) -> Result<(), AllocError>
    ensures { OnOk result (out.new.items ≡ out.old.items ++ spec.line_if errors (finding_of problem.now)) }
{
    if is_among(errors, problem.severity) {
        return push_line(out, problem);
    }
    Ok(())
}

fn push_line(out: &mut Vec<u8>, problem: &Problem<'_>) -> Result<(), AllocError>
    ensures { OnOk result (out.new.items
        ≡ out.old.items ++ spec.line_text (spec.command_of (finding_of problem.now))) }
{
    out.extend_from_slice(b"::")?;
    push_severity(out, problem.severity)?;
    out.extend_from_slice(b" title=")?;
    push_value(out, problem.rule)?;
    push_file(out, problem.file)?;
    push_range(out, &problem.range)?;
    out.extend_from_slice(b"::")?;
    push_message(out, problem.message)?;
    out.extend_from_slice(b"\n")?;
    Ok(())
}

fn push_severity(out: &mut Vec<u8>, severity: Severity) -> Result<(), AllocError>
    ensures { OnOk result (out.new.items ≡ out.old.items ++ severity_name severity) }
{
    out.extend_from_slice(severity.name().as_bytes())
}

// Adds the property `file`, unless the problem is in standard input.
fn push_file(out: &mut Vec<u8>, file: Option<&str>) -> Result<(), AllocError>
    ensures { OnOk result (out.new.items
        ≡ out.old.items ++ spec.more_text (spec.file_properties (option_map (λ s. s.now) file.entry))) }
{
    match file {
        Some(name) => push_property(out, "file", name),
        None => Ok(()),
    }
}

// Adds the lines of a range, and its columns if it has one line.
fn push_range(out: &mut Vec<u8>, range: &Range) -> Result<(), AllocError>
    ensures { OnOk result (out.new.items ≡ out.old.items ++ spec.more_text (spec.range_properties range.now)) }
{
    push_number(out, "line", range.line)?;
    push_number(out, "endLine", range.end_line)?;
    push_columns(out, range, range.line == range.end_line)
}

fn push_columns(out: &mut Vec<u8>, range: &Range, has_one_line: bool) -> Result<(), AllocError>
    ensures { OnOk result (out.new.items
        ≡ out.old.items ++ spec.more_text (spec.column_properties has_one_line range.now)) }
{
    if has_one_line {
        return push_both_columns(out, range);
    }
    Ok(())
}

fn push_both_columns(out: &mut Vec<u8>, range: &Range) -> Result<(), AllocError>
    ensures { OnOk result (out.new.items ≡ out.old.items ++ spec.more_text (spec.column_properties true range.now)) }
{
    push_number(out, "col", range.column)?;
    push_number(out, "endColumn", range.end_column)
}

fn push_number(out: &mut Vec<u8>, name: &str, value: usize) -> Result<(), AllocError>
    ensures { OnOk result (out.new.items
        ≡ out.old.items ++ spec.more_text (spec.property name.now (decimal value) ∷ [])) }
{
    let mut buffer = Buffer::new();
    push_property(out, name, buffer.format(value))
}

// Adds a property after another one.
fn push_property(out: &mut Vec<u8>, name: &str, value: &str) -> Result<(), AllocError>
    ensures { OnOk result (out.new.items
        ≡ out.old.items ++ spec.more_text (spec.property name.now value.now ∷ [])) }
{
    out.extend_from_slice(b",")?;
    out.extend_from_slice(name.as_bytes())?;
    out.extend_from_slice(b"=")?;
    push_value(out, value)
}

// Adds the value of a property, escaped.
fn push_value(out: &mut Vec<u8>, text: &str) -> Result<(), AllocError>
    ensures { OnOk result (out.new.items ≡ out.old.items ++ spec.value_text text.now) }
{
    let bytes = text.as_bytes();
    for byte in bytes {
        push_value_byte(out, *byte)?;
    }
    Ok(())
}

fn push_value_byte(out: &mut Vec<u8>, byte: u8) -> Result<(), AllocError>
    ensures { OnOk result (out.new.items ≡ out.old.items ++ spec.value_byte byte) }
{
    if byte == b':' {
        return out.extend_from_slice(b"%3A");
    }
    if byte == b',' {
        return out.extend_from_slice(b"%2C");
    }
    push_message_byte(out, byte)
}

// Adds a message, escaped.
fn push_message(out: &mut Vec<u8>, text: &str) -> Result<(), AllocError>
    ensures { OnOk result (out.new.items ≡ out.old.items ++ spec.message_text text.now) }
{
    let bytes = text.as_bytes();
    for byte in bytes {
        push_message_byte(out, *byte)?;
    }
    Ok(())
}

fn push_message_byte(out: &mut Vec<u8>, byte: u8) -> Result<(), AllocError>
    ensures { OnOk result (out.new.items ≡ out.old.items ++ spec.message_byte byte) }
{
    if byte == b'%' {
        return out.extend_from_slice(b"%25");
    }
    if byte == b'\r' {
        return out.extend_from_slice(b"%0D");
    }
    if byte == b'\n' {
        return out.extend_from_slice(b"%0A");
    }
    out.push(byte)?;
    Ok(())
}
