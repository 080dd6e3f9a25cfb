//! The settings in force, as `--show-settings` prints them.
ghost use Rattle.std.specs.Prelude.{◌++◌};
ghost use Rattle.yf_program.specs.Answer.{UsageWritten};
ghost use Rattle.yf_program.specs.Run.{PageShown, file_heading, heading};
ghost use Rattle.yf_rules.specs.Runs.ByteStream.{WriteEnds, stream_of};
ghost use Rattle.yf_settings.specs.FileSettings.{AreKept};

use std::alloc::Global;
use yf_command_line::usage::Usage;
use yf_host::report::report;
use yf_host::streams::Streams;
use yf_lines::fault::Fault;
use yf_lines::output::write_text;
use yf_lines::shown::write_shown;
use yf_lines::text::OwnedText;
use yf_lines::watched::Sink;
use yf_settings::file_settings::FileSettings;
use yf_settings::page::settings_page;

/// Prints the name of the settings file and its settings. Returns the status.
pub fn show_settings<W: Sink, E: Sink>(
    alloc: Global,
    config: &Option<OwnedText>,
    settings: FileSettings,
    streams: &mut Streams<W, E>,
) -> u8
    ensures { AreKept settings → PageShown config.now settings result streams.old streams.new }
{
    match settings_page(alloc, settings) {
        Ok(page) => show_page(config, page.as_str(), streams),
        Err(_) => report(&Fault::Memory, &mut streams.errors),
    }
}

// Prints the page of a settings file. Returns the status.
fn show_page<W: Sink, E: Sink>(
    config: &Option<OwnedText>,
    page: &str,
    streams: &mut Streams<W, E>,
) -> u8
    ensures { UsageWritten (Usage.Help (heading config.now ++ page.now)) result streams.old streams.new }
{
    match write_page(config, page, &mut streams.output) {
        Ok(()) => 0,
        Err(fault) => report(&fault, &mut streams.errors),
    }
}

// Writes the heading of a settings file and its page.
fn write_page<W: Sink>(config: &Option<OwnedText>, page: &str, stream: &mut W) -> Result<(), Fault>
    ensures { WriteEnds (stream_of W.contents W.has_failed stream.old) (stream_of W.contents W.has_failed stream.new)
        (heading config.now ++ page.now) result }
{
    write_heading(config, stream)?;
    write_text(stream, page.as_bytes())
}

// Writes the name of a settings file as a comment.
fn write_heading<W: Sink>(config: &Option<OwnedText>, stream: &mut W) -> Result<(), Fault>
    ensures { WriteEnds (stream_of W.contents W.has_failed stream.old) (stream_of W.contents W.has_failed stream.new)
        (heading config.now) result }
{
    match config {
        Some(name) => write_file_heading(name.as_str(), stream),
        None => write_text(stream, b"# no settings file\n"),
    }
}

// Writes a name as a comment.
fn write_file_heading<W: Sink>(name: &str, stream: &mut W) -> Result<(), Fault>
    ensures { WriteEnds (stream_of W.contents W.has_failed stream.old) (stream_of W.contents W.has_failed stream.new)
        (file_heading name.now) result }
{
    write_text(stream, b"# ")?;
    write_shown(stream, name)?;
    write_text(stream, b"\n")
}
