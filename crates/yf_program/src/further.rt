//! The explanations that follow the line of a fault if the user asks for them (`--explain`).
ghost use Rattle.std.specs.Prelude.{◌≡◌, true, IsOkAnd};
ghost use Rattle.yf_explain.specs.Explained.{Explains};
ghost use Rattle.yf_rules.specs.Runs.ByteStream.{stream_of};
ghost use Rattle.yf_program.specs.Answer.{AnyLines, EndsTold, TellsMore};

use std::alloc::{AllocError, Global};
use yf_explain::{Page, explain, page_of_words};
use yf_forms::style::Style;
use yf_host::inputs::{Again, Inputs};
use yf_host::report::report;
use yf_lines::fault::Fault;
use yf_lines::output::write_text;
use yf_lines::watched::Sink;
use yf_problems::finding_words::findings_page;
use yf_rules::finding::Finding;
use yf_settings::settings_words::explain_settings;

/// Reports a fault of an input. If asked, it also explains the fault by the bytes that were read. Returns the status of
/// the fault.
pub fn report_input<E: Sink>(
    alloc: Global,
    explained: bool,
    bytes: &[u8],
    fault: Fault,
    error_stream: &mut E,
) -> u8
    ensures { EndsTold explained (Explains bytes.now fault) fault result
        (stream_of E.contents E.has_failed error_stream.old) (stream_of E.contents E.has_failed error_stream.new) }
{
    let status = report(&fault, error_stream);
    tell_input(alloc, explained, bytes, &fault, error_stream);
    status
}

// Explains a fault of an input if asked.
fn tell_input<E: Sink>(
    alloc: Global,
    explained: bool,
    bytes: &[u8],
    fault: &Fault,
    error_stream: &mut E,
)
    ensures { TellsMore explained (Explains bytes.now fault.now)
        (stream_of E.contents E.has_failed error_stream.old) (stream_of E.contents E.has_failed error_stream.new) }
{
    if explained {
        tell_page(&explain(alloc, bytes, fault), error_stream);
        return;
    }
}

/// Reports a fault of a file that can't be read. If asked, it also prints the file's name and the system's error.
/// Returns the status of the fault.
pub fn report_file<I: Inputs, E: Sink>(
    alloc: Global,
    explained: bool,
    inputs: &I,
    name: &str,
    fault: &Fault,
    error_stream: &mut E,
) -> u8
    ensures { EndsTold explained AnyLines fault.now result
        (stream_of E.contents E.has_failed error_stream.old) (stream_of E.contents E.has_failed error_stream.new) }
{
    let status = report(fault, error_stream);
    tell_file(alloc, explained, inputs, name, fault, error_stream);
    status
}

/// Explains a fault of a file if asked. It reads the file again to do so.
pub fn tell_file<I: Inputs, E: Sink>(
    alloc: Global,
    explained: bool,
    inputs: &I,
    name: &str,
    fault: &Fault,
    error_stream: &mut E,
)
    ensures { TellsMore explained AnyLines (stream_of E.contents E.has_failed error_stream.old)
        (stream_of E.contents E.has_failed error_stream.new) }
{
    if explained {
        tell_page(&file_page(alloc, inputs, name, fault), error_stream);
        return;
    }
}

// Returns the explanation of a fault of a file.
fn file_page<I: Inputs>(
    alloc: Global,
    inputs: &I,
    name: &str,
    fault: &Fault,
) -> Result<Page, AllocError> {
    match inputs.read_again(alloc, name)? {
        Again::Bytes(bytes) => explain(alloc, bytes.as_slice(), fault),
        Again::Words(words) => {
            let line = format!(in alloc; "{name}: {words}")?;
            page_of_words(alloc, line.as_str())
        }
    }
}

/// Explains a fault of the settings if asked: by the bytes that were read, or by the system's error for the file.
pub fn tell_settings<I: Inputs, E: Sink>(
    alloc: Global,
    explained: bool,
    inputs: &I,
    name: &str,
    bytes: &[u8],
    fault: &Fault,
    error_stream: &mut E,
)
    ensures { TellsMore explained AnyLines (stream_of E.contents E.has_failed error_stream.old)
        (stream_of E.contents E.has_failed error_stream.new) }
{
    match fault {
        Fault::Config { key } => tell_key(alloc, explained, bytes, key.as_str(), error_stream),
        _ => tell_file(alloc, explained, inputs, name, fault, error_stream),
    }
}

// Explains a wrong key of the settings if asked.
fn tell_key<E: Sink>(alloc: Global, explained: bool, bytes: &[u8], key: &str, error_stream: &mut E)
    ensures { TellsMore explained AnyLines (stream_of E.contents E.has_failed error_stream.old)
        (stream_of E.contents E.has_failed error_stream.new) }
{
    if explained {
        tell_page(&explain_settings(alloc, bytes, key), error_stream);
        return;
    }
}

/// Explains the findings of a text that was checked with this style, if asked.
pub fn tell_findings<E: Sink>(
    alloc: Global,
    explained: bool,
    bytes: &[u8],
    findings: &[Finding],
    style: &Style,
    error_stream: &mut E,
)
    ensures { TellsMore explained AnyLines (stream_of E.contents E.has_failed error_stream.old)
        (stream_of E.contents E.has_failed error_stream.new) }
{
    if explained {
        tell_page(&findings_page(alloc, bytes, findings, style), error_stream);
        return;
    }
}

// Writes the text of a page, unless the stream has failed or there is no page.
fn tell_page<E: Sink>(page: &Result<Page, AllocError>, error_stream: &mut E)
    ensures { TellsMore true (λ lines. IsOkAnd page.now (λ told. told ≡ lines))
        (stream_of E.contents E.has_failed error_stream.old) (stream_of E.contents E.has_failed error_stream.new) }
{
    let Ok(page) = page else {
        return;
    };
    if error_stream.failed() {
        return;
    }
    let _ = write_text(error_stream, page.as_str().as_bytes());
}
