//! A request with the settings that are in force.
ghost use Rattle.std.specs.Prelude.{◌≡◌, ◌||◌, [], unwrap_or, MatchResult};
ghost use Rattle.yf_rules.specs.Runs.ByteStream.{NothingWritten, WrittenOrFailed, stream_of};
ghost use Rattle.yf_program.specs.Answer.{DoesIn, InputsOpened, host_in};
ghost use Rattle.yf_host.specs.Report.{fault_status};
ghost use Rattle.yf_program.specs.Run.{DoesWith, EndsByLine, RequestDone, SettingsShown, SettingsTaken, TellsUnfound};
ghost use Rattle.yf_program.specs.Settings.{scope_of, settings_line};
ghost use Rattle.yf_program.specs.SettingsFile.{SettingsOfFile, Unset, settings_of};
ghost use Rattle.yf_host.specs.World.{StillKnown, world_in};

use crate::answer::do_command;
use crate::further::tell_settings;
use crate::program::read_settings;
use crate::scope::Scope;
use crate::search::{InForce, Unfound, report_unfound, settings_in_force};
use crate::settings_shown::show_settings;
use crate::task::Flags;
use crate::terminal::Terminal;
use crate::version::report_version;
use std::alloc::Global;
use yf_command_line::build::VERSION;
use yf_command_line::command::{Command, Request};
use yf_host::files::Links;
use yf_host::inputs::Inputs;
use yf_host::report::{report, report_named};
use yf_host::sources::Sources;
use yf_host::streams::Streams;
use yf_lines::fault::Fault;
use yf_lines::text::OwnedText;
use yf_lines::watched::Sink;
use yf_settings::file_settings::FileSettings;
use yf_settings::texts::allows;

/// Does what was asked for, with the settings that are in force. Returns the status.
pub fn do_request<I: Inputs, S: Links, W: Sink, E: Sink>(
    alloc: Global,
    request: Request,
    terminal: Terminal,
    sources: &mut Sources<I, S>,
    streams: &mut Streams<W, E>,
) -> u8
    ensures { RequestDone (host_in I.claim S.tells S.state S.leads sources.old) request terminal result
        (world_in I.opened sources.old streams.old) (world_in I.opened sources.new streams.new) }
{
    let Request {
        settings,
        shows_settings,
        explain,
        any_text,
        names,
        stdin_name,
        command,
    } = request;
    let flags = Flags {
        explain,
        any_text,
        names,
        stdin_name,
        terminal,
    };
    match settings_in_force(alloc, settings, &sources.inputs) {
        Ok(in_force) => {
            if shows_settings {
                return show_in_force(alloc, &in_force, explain, sources, streams);
            }
            do_in_force(alloc, in_force, flags, command, sources, streams)
        }
        Err(unfound) => stop_unfound(alloc, explain, &sources.inputs, &unfound, streams),
    }
}

// Reports why it isn't known which settings file is in force. Returns the status.
fn stop_unfound<I: Inputs, W: Sink, E: Sink>(
    alloc: Global,
    explain: bool,
    inputs: &I,
    unfound: &Unfound,
    streams: &mut Streams<W, E>,
) -> u8
    ensures output { NothingWritten streams.old.output streams.new.output }
    ensures errors { TellsUnfound explain unfound.now result streams.old.errors streams.new.errors }
{
    report_unfound(alloc, explain, inputs, unfound, &mut streams.errors)
}

// Prints the settings of the file in force. Returns the status.
fn show_in_force<I: Inputs, S: Links, W: Sink, E: Sink>(
    alloc: Global,
    in_force: &InForce,
    explain: bool,
    sources: &mut Sources<I, S>,
    streams: &mut Streams<W, E>,
) -> u8
    ensures { SettingsShown (host_in I.claim S.tells S.state S.leads sources.old) in_force.now explain result
        (world_in I.opened sources.old streams.old) (world_in I.opened sources.new streams.new) }
{
    let mut bytes = Vec::new(alloc);
    match settings_set(alloc, &in_force.config, &mut sources.inputs, &mut bytes) {
        Ok(settings) => show_settings(alloc, &in_force.config, settings, streams),
        Err(fault) => report_unset(
            alloc,
            explain,
            in_force,
            &sources.inputs,
            bytes.as_slice(),
            &fault,
            &mut streams.errors,
        ),
    }
}

// Does a command with the settings of the file in force.
fn do_in_force<I: Inputs, S: Links, W: Sink, E: Sink>(
    alloc: Global,
    in_force: InForce,
    flags: Flags,
    command: Command,
    sources: &mut Sources<I, S>,
    streams: &mut Streams<W, E>,
) -> u8
    ensures { SettingsTaken (host_in I.claim S.tells S.state S.leads sources.old) in_force flags command result
        (world_in I.opened sources.old streams.old) (world_in I.opened sources.new streams.new) }
{
    let mut bytes = Vec::new(alloc);
    match settings_set(alloc, &in_force.config, &mut sources.inputs, &mut bytes) {
        Ok(settings) => do_with(alloc, in_force, settings, flags, command, sources, streams),
        Err(fault) => report_unset(
            alloc,
            flags.explain,
            &in_force,
            &sources.inputs,
            bytes.as_slice(),
            &fault,
            &mut streams.errors,
        ),
    }
}

// Returns the settings of the settings file, or the defaults if there is none. Keeps the bytes of the file.
fn settings_set<I: Inputs>(
    alloc: Global,
    config: &Option<OwnedText>,
    inputs: &mut I,
    kept: &mut Vec<u8>,
) -> Result<FileSettings, Fault>
    ensures opened { InputsOpened (I.claim inputs.old) (I.opened inputs.old) (I.opened inputs.new)
        (settings_of config.now) }
    ensures same { StillKnown (I.claim inputs.old) (I.claim inputs.new) }
    ensures set { MatchResult result (SettingsOfFile (I.claim inputs.old) config.now)
        (Unset (I.claim inputs.old) config.now) }
{
    let mut file = match config {
        Some(name) => match inputs.open_file(name.as_str()) {
            Ok(file) => file,
            Err(fault) => return Err(fault),
        },
        None => return Ok(FileSettings::defaults(alloc)),
    };
    read_settings(alloc, &mut file, kept)
}

// Reports a fault of the settings file, and explains it if asked. Returns the status of the fault.
fn report_unset<I: Inputs, E: Sink>(
    alloc: Global,
    explain: bool,
    in_force: &InForce,
    inputs: &I,
    bytes: &[u8],
    fault: &Fault,
    error_stream: &mut E,
) -> u8
    ensures { EndsByLine explain (settings_line in_force.now.is_nearest (unwrap_or in_force.now.config []) fault.now)
        fault.now result (stream_of E.contents E.has_failed error_stream.old)
        (stream_of E.contents E.has_failed error_stream.new) }
{
    let name = name_or_empty(&in_force.config);
    let status = report_line(in_force.is_nearest, name, fault, error_stream);
    tell_settings(alloc, explain, inputs, name, bytes, fault, error_stream);
    status
}

/// Returns the name of a file, or the empty name if there is none.
pub(crate) fn name_or_empty(config: &Option<OwnedText>) -> &str
    ensures { result.now ≡ unwrap_or config.now [] }
{
    match config {
        Some(name) => name.as_str(),
        None => "",
    }
}

// Writes the line of a settings file that is refused, and returns the status of the fault.
fn report_line<E: Sink>(is_nearest: bool, name: &str, fault: &Fault, error_stream: &mut E) -> u8
    ensures status { result ≡ fault_status fault.now }
    ensures line { WrittenOrFailed (stream_of E.contents E.has_failed error_stream.old)
        (stream_of E.contents E.has_failed error_stream.new) (settings_line is_nearest name.now fault.now) }
{
    if is_nearest {
        report_named(fault, name, error_stream)
    } else {
        report(fault, error_stream)
    }
}

// Does a command with these settings, unless they require another version of the program.
fn do_with<I: Inputs, S: Links, W: Sink, E: Sink>(
    alloc: Global,
    in_force: InForce,
    settings: FileSettings,
    flags: Flags,
    command: Command,
    sources: &mut Sources<I, S>,
    streams: &mut Streams<W, E>,
) -> u8
    ensures { DoesWith (host_in I.claim S.tells S.state S.leads sources.old) in_force settings flags command result
        (world_in I.opened sources.old streams.old) (world_in I.opened sources.new streams.new) }
{
    match allows(alloc, &settings.required, VERSION) {
        Ok(true) => do_taken(alloc, in_force, settings, flags, command, sources, streams),
        Ok(false) => report_version(&settings.required, &mut streams.errors),
        Err(_) => report(&Fault::Memory, &mut streams.errors),
    }
}

// Does a command in the style of these settings, with the inputs that they don't leave out.
fn do_taken<I: Inputs, S: Links, W: Sink, E: Sink>(
    alloc: Global,
    in_force: InForce,
    settings: FileSettings,
    flags: Flags,
    command: Command,
    sources: &mut Sources<I, S>,
    streams: &mut Streams<W, E>,
) -> u8
    ensures { DoesIn (host_in I.claim S.tells S.state S.leads sources.old) command
        (scope_of in_force settings flags) flags.explain
        settings.style result (world_in I.opened sources.old streams.old)
        (world_in I.opened sources.new streams.new) }
{
    let FileSettings {
        style,
        exclude,
        any_text,
        ..
    } = settings;
    let InForce {
        config,
        is_nearest,
        current,
    } = in_force;
    let explain = flags.explain;
    let scope = Scope {
        patterns: exclude,
        current,
        settings: owned_or_empty(alloc, config),
        any_text: either(flags.any_text, any_text),
        asks_any_text: flags.any_text,
        is_nearest,
        names: flags.names,
        stdin_name: flags.stdin_name,
        terminal: flags.terminal,
    };
    do_command(alloc, command, &scope, explain, style, sources, streams)
}

/// Returns whether one of two holds.
pub(crate) fn either(first: bool, second: bool) -> bool
    ensures { result ≡ first || second }
{
    first || second
}

// Returns the name of a settings file, or the empty name if there is none.
fn owned_or_empty(alloc: Global, config: Option<OwnedText>) -> OwnedText
    ensures { result ≡ unwrap_or config [] }
{
    match config {
        Some(name) => name,
        None => OwnedText::new(String::new(alloc)),
    }
}
