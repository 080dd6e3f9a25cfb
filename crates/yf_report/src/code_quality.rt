//! A report in the Code Quality format of GitLab, which is a part of Code Climate's format of issues.
ghost use Rattle.std.specs.Prelude.{◌≡◌, ◌+◌, ◌^◌, ◌<◌, Some, codes, map, string_bytes, IfOk, OnOk};
ghost use Rattle.json.specs.Json.{document};
ghost use Rattle.json.specs.Tree.{json_tokens};
ghost use Rattle.yf_report.specs.Members.{Adds, member_tokens};
ghost use Rattle.yf_report.specs.Problems.{finding_of};
ghost use Rattle.yf_report.specs.CodeQuality as spec;

use crate::checkstyle::name_or_stdin;
use crate::members::{write_number, write_text};
use crate::problem::{Problem, Severity};
use itoa::Buffer;
use json::Writer;
use sha2::{Digest, Sha256};
use std::alloc::{AllocError, Global};
use std::collections::HashMap;

/// The number of occurrences of each digest.
type Counts = HashMap<String, u64>;

/// Returns the report as a JSON array of issues, in the order of the problems.
///
/// A refusal has the severity `major` and a finding has `minor`. A fingerprint is a SHA-256 digest of the file, the
/// rule, the problem's `line_text` and the number of earlier problems with these three, so it stays when lines move.
///
/// # Errors
///
/// `AllocError` if memory runs out.
pub fn gitlab_report(alloc: Global, problems: &[Problem<'_>]) -> Result<Vec<u8>, AllocError>
    ensures { IfOk result (λ b. document b.items ≡ Some (spec.quality_json (map spec.entry_of problems.now))) }
{
    let mut out = Writer::new(Vec::new(alloc));
    let mut counts = HashMap::new(alloc);
    out.begin_array()?;
    for problem in problems {
        write_entry(alloc, &mut out, &mut counts, problem)?;
    }
    out.end_array()?;
    Ok(out.into_inner())
}

// Adds the object of a problem, and counts its digest.
fn write_entry(
    alloc: Global,
    out: &mut Writer,
    counts: &mut Counts,
    problem: &Problem<'_>,
) -> Result<(), AllocError>
    requires { spec.count_of counts.old (spec.place_digest (spec.entry_of problem.now)) + 1 < 2 ^ 64 }
    ensures written { OnOk result (Adds out.old out.new (json_tokens (spec.entry_json (finding_of problem.now)
        (spec.fingerprint (spec.place_digest (spec.entry_of problem.now))
        (spec.count_of counts.old (spec.place_digest (spec.entry_of problem.now))))))) }
    ensures counted { OnOk result (spec.CountsOneMore counts.old counts.new
        (spec.place_digest (spec.entry_of problem.now))) }
{
    let digest = place_digest(alloc, problem)?;
    let count = count_of(counts, digest.as_str());
    let mark = fingerprint(alloc, digest.as_str(), count)?;
    write_issue(out, problem, mark.as_str())?;
    bump(counts, digest, count + 1)?;
    Ok(())
}

fn count_of(counts: &Counts, digest: &str) -> u64
    ensures { result ≡ spec.count_of counts.now digest.now }
{
    counts.get(digest).copied().unwrap_or(0)
}

// Sets the count of a digest to one more.
fn bump(counts: &mut Counts, digest: String, next: u64) -> Result<(), AllocError>
    requires { next ≡ spec.count_of counts.old (string_bytes digest) + 1 }
    ensures { OnOk result (spec.CountsOneMore counts.old counts.new (string_bytes digest)) }
{
    counts.insert(digest, next)?;
    Ok(())
}

// Returns the digest of a problem's file, rule and line.
#[tactic(auto, unfolding(crate::specs::CodeQuality::place_digest))]
fn place_digest(alloc: Global, problem: &Problem<'_>) -> Result<String, AllocError>
    ensures { IfOk result (λ s. string_bytes s ≡ spec.place_digest (spec.entry_of problem.now)) }
{
    let mut hasher = Sha256::new();
    hasher.update(name_or_stdin(problem.file));
    hasher.update(&[0u8]);
    hasher.update(problem.rule);
    hasher.update(&[0u8]);
    hasher.update(problem.line_text);
    let digest = hasher.finalize();
    hex::encode(alloc, digest.as_slice())
}

#[tactic(auto, unfolding(crate::specs::CodeQuality::fingerprint))]
fn fingerprint(alloc: Global, digest: &str, count: u64) -> Result<String, AllocError>
    ensures { IfOk result (λ s. string_bytes s ≡ spec.fingerprint digest.now count) }
{
    let mut buffer = Buffer::new();
    let mut hasher = Sha256::new();
    hasher.update(digest);
    hasher.update(buffer.format(count));
    let mark = hasher.finalize();
    hex::encode(alloc, mark.as_slice())
}

fn gitlab_severity(severity: Severity) -> &'static str
    ensures { result.now ≡ spec.gitlab_severity severity }
{
    match severity {
        Severity::Error => "major",
        Severity::Warning => "minor",
    }
}

fn write_issue(out: &mut Writer, problem: &Problem<'_>, mark: &str) -> Result<(), AllocError>
    ensures { OnOk result (Adds out.old out.new
        (json_tokens (spec.entry_json (finding_of problem.now) mark.now))) }
{
    out.begin_object()?;
    write_text(out, "description", problem.message)?;
    write_text(out, "check_name", problem.rule)?;
    write_text(out, "fingerprint", mark)?;
    write_text(out, "severity", gitlab_severity(problem.severity))?;
    write_location(out, problem)?;
    out.end_object()?;
    Ok(())
}

fn write_location(out: &mut Writer, problem: &Problem<'_>) -> Result<(), AllocError>
    ensures { OnOk result (Adds out.old out.new
        (member_tokens (codes "location") (spec.location_json (finding_of problem.now)))) }
{
    out.key("location")?;
    out.begin_object()?;
    write_text(out, "path", name_or_stdin(problem.file))?;
    out.key("positions")?;
    out.begin_object()?;
    write_position(out, "begin", problem.range.line, problem.range.column)?;
    write_position(out, "end", problem.range.end_line, problem.range.end_column)?;
    out.end_object()?;
    out.end_object()?;
    Ok(())
}

fn write_position(
    out: &mut Writer,
    name: &str,
    line: usize,
    column: usize,
) -> Result<(), AllocError>
    ensures { OnOk result (Adds out.old out.new (member_tokens name.now (spec.position_json line column))) }
{
    out.key(name)?;
    out.begin_object()?;
    write_number(out, "line", line)?;
    write_number(out, "column", column)?;
    out.end_object()?;
    Ok(())
}
