//! What a run knows of its inputs and its output: which inputs the settings leave out, which texts are skipped, their
//! names, and the terminal.
ghost use Rattle.std.specs.Prelude.{◌≡◌, ◌↔◌, IfOk, IsTrue};
ghost use Rattle.yf_command_line.specs.declared.command.Input.TheVariants.{Standard};
ghost use Rattle.yf_rules.specs.Runs.ByteStream.{stream_of};
ghost use Rattle.yf_program.specs.Settings.{Excludes, IsLeftOut, TellsLeftOut, left_out_line};

use crate::terminal::Terminal;
use std::alloc::{AllocError, Global};
use yf_command_line::command::Input;
use yf_excludes::located::excludes_file;
use yf_excludes::pattern::Pattern;
use yf_lines::output::write_text;
use yf_lines::text::OwnedText;
use yf_lines::watched::Sink;

/// What decides which inputs are left out, which texts are skipped, which names the lines have, and the form of
/// findings.
#[derive(Drop)]
pub struct Scope {
    /// The patterns of the settings file. Without a settings file there are none.
    pub patterns: Vec<Pattern>,
    /// The path of the current folder, or the empty path if it isn't known.
    pub current: Vec<u8>,
    /// The name of the settings file.
    pub settings: OwnedText,
    /// Whether texts that are no data are taken like any other.
    pub any_text: bool,
    /// Whether the command line asks for that.
    pub asks_any_text: bool,
    /// Whether the search for a settings file decided. Otherwise the command line did.
    pub is_nearest: bool,
    /// Whether lines have the name of their input, even if there is only one.
    pub names: bool,
    /// The name of standard input.
    pub stdin_name: Option<OwnedText>,
    /// What is known of standard output and the environment.
    pub terminal: Terminal,
}

const LEFT_OUT: &str = "left out: the settings exclude it\n";

/// Returns whether an input is left out.
pub fn is_left_out(alloc: Global, scope: &Scope, input: &Input) -> Result<bool, AllocError>
    ensures { IfOk result (λ out. IsTrue out ↔ IsLeftOut scope.now input.now) }
{
    match input {
        Input::Standard => is_standard_left_out(alloc, scope),
        Input::File(name) => is_file_left_out(alloc, scope, name.as_str()),
    }
}

// Returns whether standard input is left out. It is not if it has no name.
fn is_standard_left_out(alloc: Global, scope: &Scope) -> Result<bool, AllocError>
    ensures { IfOk result (λ out. IsTrue out ↔ IsLeftOut scope.now Standard) }
{
    match &scope.stdin_name {
        Some(name) => is_file_left_out(alloc, scope, name.as_str()),
        None => Ok(false),
    }
}

/// Returns whether the file with this name is left out.
pub fn is_file_left_out(alloc: Global, scope: &Scope, name: &str) -> Result<bool, AllocError>
    ensures { IfOk result (λ out. IsTrue out ↔ Excludes scope.now name.now) }
{
    excludes_file(
        alloc,
        scope.patterns.as_slice(),
        scope.current.as_slice(),
        scope.settings.as_str().as_bytes(),
        name.as_bytes(),
    )
}

/// Writes the line of an input that is left out, if the run explains what it does.
pub fn tell_left_out<E: Sink>(explain: bool, error_stream: &mut E)
    ensures { TellsLeftOut explain (stream_of E.contents E.has_failed error_stream.old)
        (stream_of E.contents E.has_failed error_stream.new) }
{
    if explain {
        let _ = write_text(error_stream, LEFT_OUT.as_bytes());
    }
}

/// Returns the line of an input that is left out, or the empty text if the run doesn't explain what it does.
pub fn left_out_line(explain: bool) -> &'static str
    ensures { result.now ≡ left_out_line explain }
{
    if explain {
        return LEFT_OUT;
    }
    ""
}
