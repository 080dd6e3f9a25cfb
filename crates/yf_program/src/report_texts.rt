//! The problems of the text of an input, for a report.
ghost use Rattle.std.specs.Prelude.{◌≡◌, [], IfOk, List, MatchBool, OnErr, option_map};
ghost use Rattle.yf_explain.specs.Explained.{Explains};
ghost use Rattle.yf_findings.specs.Guards.{WithGuard};
ghost use Rattle.yf_findings.specs.Refusals.{RefusalProblem};
ghost use Rattle.yf_findings.specs.declared.owned.OwnedProblem.{OwnedProblem};
ghost use Rattle.yf_guarded.specs.declared.read.Verdict.TheVariants as verdict;
ghost use Rattle.yf_host.specs.Ends.{EndsTold};
ghost use Rattle.yf_host.specs.Report.{check_status};
ghost use Rattle.yf_program.specs.Reports.{AddsFile, AreAsked, GivesAsJudged, GivesJudgedText, GivesOver, IsOnly};
ghost use Rattle.yf_program.specs.Reports.{has_problem};
ghost use Rattle.yf_rules.specs.Runs.ByteStream.{NothingWritten, stream_of};

use crate::further::report_input;
use crate::report_inputs::ReportTask;
use crate::report_work::{ReportWork, asked_problems, read_beside, read_found};
use std::alloc::{AllocError, Global};
use yf_findings::changes::Change;
use yf_findings::files::FileProblems;
use yf_findings::guards::with_guard;
use yf_findings::owned::OwnedProblem;
use yf_findings::refusals::refusal;
use yf_guard::guarded::Guarded;
use yf_guarded::held::Held;
use yf_guarded::read::{Verdict, read_judged};
use yf_host::left_alone::report_left;
use yf_host::report::{FINDINGS, GOOD};
use yf_lines::fault::Fault;
use yf_lines::text::OwnedText;
use yf_lines::watched::{Sink, Source};
use yf_rules::finding::Finding;

/// Adds the problems of the text of a reader, with the name of its file, and returns the status. If `judges`, the text
/// is judged first.
pub fn give_reader<R: Source, E: Sink>(
    alloc: Global,
    task: &ReportTask,
    judges: bool,
    name: Option<&str>,
    reader: &mut R,
    files: &mut Vec<FileProblems>,
    error_stream: &mut E,
) -> Result<u8, AllocError>
    ensures gives { IfOk result (λ status. AddsFile (option_map (λ n. n.now) name.entry)
        (λ added. MatchBool judges
        (GivesJudgedText task.now added status
        (stream_of R.remaining R.has_failed reader.old) (stream_of R.remaining R.has_failed reader.new)
        (stream_of E.contents E.has_failed error_stream.old) (stream_of E.contents E.has_failed error_stream.new))
        (GivesOver task.now added status
        (stream_of R.remaining R.has_failed reader.old) (stream_of R.remaining R.has_failed reader.new)
        (stream_of E.contents E.has_failed error_stream.old) (stream_of E.contents E.has_failed error_stream.new)))
        files.old.items files.new.items) }
    ensures gives_up { OnErr result (NothingWritten (stream_of E.contents E.has_failed error_stream.old)
        (stream_of E.contents E.has_failed error_stream.new)) }
{
    if judges {
        return give_judged(alloc, task, name, reader, files, error_stream);
    }
    give_text(alloc, task, name, reader, files, error_stream)
}

// Adds the problems of what a reader has, and judges the text first. Returns the status.
fn give_judged<R: Source, E: Sink>(
    alloc: Global,
    task: &ReportTask,
    name: Option<&str>,
    reader: &mut R,
    files: &mut Vec<FileProblems>,
    error_stream: &mut E,
) -> Result<u8, AllocError>
    ensures gives { IfOk result (λ status. AddsFile (option_map (λ n. n.now) name.entry)
        (λ added. GivesJudgedText task.now added status
        (stream_of R.remaining R.has_failed reader.old) (stream_of R.remaining R.has_failed reader.new)
        (stream_of E.contents E.has_failed error_stream.old) (stream_of E.contents E.has_failed error_stream.new))
        files.old.items files.new.items) }
    ensures gives_up { OnErr result (NothingWritten (stream_of E.contents E.has_failed error_stream.old)
        (stream_of E.contents E.has_failed error_stream.new)) }
{
    let mut kept = Vec::new(alloc);
    match read_judged(alloc, true, reader, &mut kept) {
        Ok(verdict) => {
            let bytes = kept.as_slice();
            give_as_judged(alloc, task, name, &verdict, bytes, files, error_stream)
        }
        Err(fault) => {
            let bytes = kept.as_slice();
            give_refusal(alloc, task.explain, name, bytes, fault, files, error_stream)
        }
    }
}

// Adds the problems of a text by the verdict on it, and returns the status.
fn give_as_judged<E: Sink>(
    alloc: Global,
    task: &ReportTask,
    name: Option<&str>,
    verdict: &Verdict,
    bytes: &[u8],
    files: &mut Vec<FileProblems>,
    error_stream: &mut E,
) -> Result<u8, AllocError>
    ensures gives { IfOk result (λ status. AddsFile (option_map (λ n. n.now) name.entry)
        (λ added. GivesAsJudged task.now verdict.now bytes.now added status
        (stream_of E.contents E.has_failed error_stream.old) (stream_of E.contents E.has_failed error_stream.new))
        files.old.items files.new.items) }
    ensures gives_up { OnErr result (NothingWritten (stream_of E.contents E.has_failed error_stream.old)
        (stream_of E.contents E.has_failed error_stream.new)) }
{
    match verdict {
        Verdict::Passed => {
            let mut held = Held { rest: bytes };
            give_text(alloc, task, name, &mut held, files, error_stream)
        }
        Verdict::Encrypted => give_encrypted(alloc, task, name, bytes, files, error_stream),
        Verdict::NoData(finding) => {
            give_no_data(alloc, task, name, finding, bytes, files, error_stream)
        }
    }
}

// Adds an encrypted text, which has no problems, says that it is skipped, and returns the status.
fn give_encrypted<E: Sink>(
    alloc: Global,
    task: &ReportTask,
    name: Option<&str>,
    bytes: &[u8],
    files: &mut Vec<FileProblems>,
    error_stream: &mut E,
) -> Result<u8, AllocError>
    ensures gives { IfOk result (λ status. AddsFile (option_map (λ n. n.now) name.entry)
        (λ added. GivesAsJudged task.now verdict.Encrypted bytes.now added status
        (stream_of E.contents E.has_failed error_stream.old) (stream_of E.contents E.has_failed error_stream.new))
        files.old.items files.new.items) }
    ensures gives_up { OnErr result (NothingWritten (stream_of E.contents E.has_failed error_stream.old)
        (stream_of E.contents E.has_failed error_stream.new)) }
{
    match add(alloc, name, Vec::new(alloc), Vec::new(alloc), files) {
        Ok(()) => Ok(report_left(Guarded::Vault, error_stream)),
        Err(AllocError) => Err(AllocError),
    }
}

// Adds the problems of a text that is no data, as a finding says, and returns the status.
fn give_no_data<E: Sink>(
    alloc: Global,
    task: &ReportTask,
    name: Option<&str>,
    finding: &Finding,
    bytes: &[u8],
    files: &mut Vec<FileProblems>,
    error_stream: &mut E,
) -> Result<u8, AllocError>
    ensures gives { IfOk result (λ status. AddsFile (option_map (λ n. n.now) name.entry)
        (λ added. GivesAsJudged task.now (verdict.NoData finding.now) bytes.now added status
        (stream_of E.contents E.has_failed error_stream.old) (stream_of E.contents E.has_failed error_stream.new))
        files.old.items files.new.items) }
    ensures gives_up { OnErr result (NothingWritten (stream_of E.contents E.has_failed error_stream.old)
        (stream_of E.contents E.has_failed error_stream.new)) }
{
    let mut held = Held { rest: bytes };
    let mut kept = Vec::new(alloc);
    match read_beside(alloc, &task.work, &task.style, &mut held, &mut kept) {
        Ok(checked) => {
            let problems = checked.problems;
            add_guarded(alloc, &task.work, name, finding, bytes, problems, files)
        }
        Err(fault) => {
            let read = kept.as_slice();
            give_refusal(alloc, task.explain, name, read, fault, files, error_stream)
        }
    }
}

// Adds the problems of these bytes that are asked for. Among all problems is that of a finding that says why the bytes are
// no data. Returns the status.
fn add_guarded(
    alloc: Global,
    work: &ReportWork,
    name: Option<&str>,
    finding: &Finding,
    bytes: &[u8],
    problems: Vec<OwnedProblem>,
    files: &mut Vec<FileProblems>,
) -> Result<u8, AllocError>
    ensures { IfOk result (λ status. (all : List OwnedProblem) × WithGuard bytes.now finding.now problems.items all
        × AddsFile (option_map (λ n. n.now) name.entry) (λ added. AreAsked work.now all [] added status)
        files.old.items files.new.items) }
{
    let all = with_guard(alloc, bytes, finding, problems)?;
    add_found(alloc, work, name, all, Vec::new(alloc), files)
}

// Adds the problems of what a reader has, and returns the status.
fn give_text<R: Source, E: Sink>(
    alloc: Global,
    task: &ReportTask,
    name: Option<&str>,
    reader: &mut R,
    files: &mut Vec<FileProblems>,
    error_stream: &mut E,
) -> Result<u8, AllocError>
    ensures gives { IfOk result (λ status. AddsFile (option_map (λ n. n.now) name.entry)
        (λ added. GivesOver task.now added status
        (stream_of R.remaining R.has_failed reader.old) (stream_of R.remaining R.has_failed reader.new)
        (stream_of E.contents E.has_failed error_stream.old) (stream_of E.contents E.has_failed error_stream.new))
        files.old.items files.new.items) }
    ensures gives_up { OnErr result (NothingWritten (stream_of E.contents E.has_failed error_stream.old)
        (stream_of E.contents E.has_failed error_stream.new)) }
{
    let mut kept = Vec::new(alloc);
    match read_found(alloc, &task.work, task.form, &task.style, reader, &mut kept) {
        Ok(checked) => {
            add_found(
                alloc,
                &task.work,
                name,
                checked.problems,
                checked.changes,
                files,
            )
        }
        Err(fault) => {
            let bytes = kept.as_slice();
            give_refusal(alloc, task.explain, name, bytes, fault, files, error_stream)
        }
    }
}

// Adds the problems of a text that are asked for, with the changes of the text. Returns the status of a check that found
// these problems.
fn add_found(
    alloc: Global,
    work: &ReportWork,
    name: Option<&str>,
    problems: Vec<OwnedProblem>,
    changes: Vec<Change>,
    files: &mut Vec<FileProblems>,
) -> Result<u8, AllocError>
    ensures { IfOk result (λ status. AddsFile (option_map (λ n. n.now) name.entry)
        (λ added. AreAsked work.now problems.items changes.items added status) files.old.items files.new.items) }
{
    let kept = asked_problems(alloc, work, name, problems)?;
    let status = status_of(kept.as_slice());
    match add(alloc, name, kept, changes, files) {
        Ok(()) => Ok(status),
        Err(AllocError) => Err(AllocError),
    }
}

// Adds the problem of a refusal of these bytes, reports it, and returns its status.
fn give_refusal<E: Sink>(
    alloc: Global,
    explain: bool,
    name: Option<&str>,
    bytes: &[u8],
    fault: Fault,
    files: &mut Vec<FileProblems>,
    error_stream: &mut E,
) -> Result<u8, AllocError>
    ensures gives { IfOk result (λ status. AddsFile (option_map (λ n. n.now) name.entry)
        (IsOnly (RefusalProblem bytes.now fault)) files.old.items files.new.items
        × EndsTold explain (Explains bytes.now fault) fault status
        (stream_of E.contents E.has_failed error_stream.old) (stream_of E.contents E.has_failed error_stream.new)) }
    ensures gives_up { OnErr result (NothingWritten (stream_of E.contents E.has_failed error_stream.old)
        (stream_of E.contents E.has_failed error_stream.new)) }
{
    match add_refusal(alloc, name, bytes, &fault, files) {
        Ok(()) => Ok(report_input(alloc, explain, bytes, fault, error_stream)),
        Err(AllocError) => Err(AllocError),
    }
}

// Returns the status of a check that found these problems.
fn status_of(problems: &[OwnedProblem]) -> u8
    ensures { result ≡ check_status (has_problem problems.now) }
{
    match problems {
        [] => GOOD,
        [_, ..] => FINDINGS,
    }
}

/// Adds the problem of a refusal of these bytes, with the name of their file.
pub fn add_refusal(
    alloc: Global,
    name: Option<&str>,
    bytes: &[u8],
    fault: &Fault,
    files: &mut Vec<FileProblems>,
) -> Result<(), AllocError>
    ensures { IfOk result (λ _. AddsFile (option_map (λ n. n.now) name.entry)
        (IsOnly (RefusalProblem bytes.now fault.now)) files.old.items files.new.items) }
{
    let problem = refusal(alloc, bytes, fault)?;
    let mut problems = Vec::new(alloc);
    problems.push(problem)?;
    add(alloc, name, problems, Vec::new(alloc), files)
}

// Adds problems and changes with the name of their file.
fn add(
    alloc: Global,
    name: Option<&str>,
    problems: Vec<OwnedProblem>,
    changes: Vec<Change>,
    files: &mut Vec<FileProblems>,
) -> Result<(), AllocError>
    ensures { IfOk result (λ _. AddsFile (option_map (λ n. n.now) name.entry)
        (λ added. (added.problems.items ≡ problems.items) × (added.changes.items ≡ changes.items))
        files.old.items files.new.items) }
{
    let file = copied(alloc, name)?;
    files.push(FileProblems {
        file,
        problems,
        changes,
    })?;
    Ok(())
}

// Returns a copy of a name.
fn copied(alloc: Global, name: Option<&str>) -> Result<Option<OwnedText>, AllocError>
    ensures { IfOk result (λ copy. copy ≡ option_map (λ n. n.now) name.entry) }
{
    match name {
        Some(name) => Ok(Some(OwnedText::new(String::from_str(alloc, name)?))),
        None => Ok(None),
    }
}
