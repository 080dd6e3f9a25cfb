//! The lines of findings.
ghost use Rattle.std.specs.Prelude.{◌≡◌, Some, IfErr, IfOk};
ghost use Rattle.yf_rules.specs.Runs.ByteStream.{BreaksOff, WriteEnds, Writes, stream_of};
ghost use Rattle.yf_rules.specs.Runs.Run.{finding_line, findings_text, has_any};

use itoa::Buffer;
use yf_lines::fault::Fault;
use yf_lines::output::write_texts;
use yf_lines::watched::Sink;
use yf_rules::finding::Finding;

/// Writes a line for each finding, keeps the findings, and returns whether there is one.
///
/// # Errors
///
/// `Fault::WriteFailed` if a write fails. A prefix of the lines has then been written.
pub fn print_findings<W: Sink>(
    findings: Vec<Finding>,
    found: &mut Vec<Finding>,
    writer: &mut W,
) -> Result<Option<bool>, Fault>
    ensures written { IfOk result (λ any. Writes (stream_of W.contents W.has_failed writer.old)
        (stream_of W.contents W.has_failed writer.new) (findings_text findings.items)) }
    ensures any { IfOk result (λ any. any ≡ Some (has_any findings.items)) }
    ensures refused { IfErr result (λ fault. (fault ≡ Fault.WriteFailed)
        × BreaksOff (stream_of W.contents W.has_failed writer.old) (stream_of W.contents W.has_failed writer.new)
        (findings_text findings.items)) }
{
    write_findings(findings.as_slice(), writer)?;
    let any = has_any(findings.as_slice());
    *found = findings;
    Ok(Some(any))
}

fn has_any(findings: &[Finding]) -> bool
    ensures { result ≡ has_any findings.now }
{
    !findings.is_empty()
}

// Writes a line for each finding.
fn write_findings<W: Sink>(findings: &[Finding], writer: &mut W) -> Result<(), Fault>
    ensures { WriteEnds (stream_of W.contents W.has_failed writer.old) (stream_of W.contents W.has_failed writer.new)
        (findings_text findings.now) result }
{
    for finding in findings {
        write_finding(finding, writer)?;
    }
    Ok(())
}

/// Writes the line of a finding.
///
/// # Errors
///
/// `Fault::WriteFailed` if a write fails. A prefix of the line has then been written.
pub fn write_finding<W: Sink>(finding: &Finding, writer: &mut W) -> Result<(), Fault>
    ensures { WriteEnds (stream_of W.contents W.has_failed writer.old) (stream_of W.contents W.has_failed writer.new)
        (finding_line finding.now) result }
{
    let mut line_buffer = Buffer::new();
    let mut column_buffer = Buffer::new();
    let line = line_buffer.format(finding.place.line);
    let column = column_buffer.format(finding.place.column);
    let fixable = if finding.fixable { " (fixable)" } else { "" };
    write_texts(writer, &[line, ":", column, " ", finding.id, fixable, "\n"])
}
