//! Which settings file is in force.
ghost use Rattle.std.specs.Prelude.{◌≡◌, [], ℕ, IfOk, List, MatchOption, MatchResult, None, Some, length};
ghost use Rattle.yf_excludes.specs.Names.{Leads};
ghost use Rattle.yf_program.specs.Run.{TellsUnfound};
ghost use Rattle.yf_program.specs.Settings.{IsCurrent, IsInForce, IsUnfound};
ghost use Rattle.yf_command_line.specs.declared.command.Settings.TheVariants.{Nearest};
ghost use Rattle.yf_rules.specs.Runs.ByteStream.{stream_of};

use crate::further::tell_file;
use std::alloc::{AllocError, Global};
use yf_command_line::command::Settings;
use yf_discovery::folders::{Folders, There};
use yf_discovery::nearest::{Discovery, nearest_settings};
use yf_excludes::path::names_led;
use yf_host::inputs::Inputs;
use yf_host::report::{report, report_named};
use yf_lines::fault::Fault;
use yf_lines::output::write_text;
use yf_lines::text::OwnedText;
use yf_lines::watched::Sink;

/// The status if it isn't known which settings file is in force.
const UNFOUND: u8 = 3;

/// The settings file that is in force.
#[derive(Drop)]
pub struct InForce {
    /// Its name, if there is one.
    pub config: Option<OwnedText>,
    /// Whether the search decided. Otherwise the command line did.
    pub is_nearest: bool,
    /// The path of the current folder, or the empty path if it isn't known.
    pub current: Vec<u8>,
}

/// Why it isn't known which settings file is in force.
#[derive(Drop)]
pub enum Unfound {
    /// The search ends at this name, which is a folder or can't be looked at.
    Unreadable(OwnedText),
    /// The current folder has no path.
    NoFolder,
    /// Memory is refused.
    Memory,
}

/// Finds the settings file that is in force.
pub fn settings_in_force<I: Inputs>(
    alloc: Global,
    asked: Settings,
    inputs: &I,
) -> Result<InForce, Unfound>
    ensures { MatchResult result (IsInForce (I.claim inputs.now) asked) (IsUnfound (I.claim inputs.now) asked) }
{
    match asked {
        Settings::Nearest => search_above(alloc, inputs),
        Settings::File(name) => match current_or_empty(alloc, inputs) {
            Ok(current) => Ok(InForce {
                config: Some(name),
                is_nearest: false,
                current,
            }),
            Err(_) => Err(Unfound::Memory),
        },
        Settings::Defaults => match current_or_empty(alloc, inputs) {
            Ok(current) => Ok(InForce {
                config: None,
                is_nearest: false,
                current,
            }),
            Err(_) => Err(Unfound::Memory),
        },
    }
}

// Returns the path of the current folder, or the empty path if it isn't known.
fn current_or_empty<I: Inputs>(alloc: Global, inputs: &I) -> Result<Vec<u8>, AllocError>
    ensures { IfOk result (λ path. IsCurrent (I.claim inputs.now) path.items) }
{
    match inputs.current_path(alloc)? {
        Some(path) => Ok(path),
        None => Ok(Vec::new(alloc)),
    }
}

// Finds the nearest settings file.
fn search_above<I: Inputs>(alloc: Global, inputs: &I) -> Result<InForce, Unfound>
    ensures { MatchResult result (IsInForce (I.claim inputs.now) Nearest) (IsUnfound (I.claim inputs.now) Nearest) }
{
    match inputs.current_path(alloc) {
        Ok(Some(current)) => search_from(alloc, inputs, current),
        Ok(None) => Err(Unfound::NoFolder),
        Err(_) => Err(Unfound::Memory),
    }
}

// Finds the nearest settings file, from the current folder with this path.
fn search_from<I: Inputs>(alloc: Global, inputs: &I, current: Vec<u8>) -> Result<InForce, Unfound>
    requires { (I.claim inputs.now).current (Some current.items) }
    ensures { MatchResult result (IsInForce (I.claim inputs.now) Nearest) (IsUnfound (I.claim inputs.now) Nearest) }
{
    match folders_above(alloc, current.as_slice()) {
        Ok(Some(above)) => match nearest_settings(alloc, &FoldersOf { inputs }, above) {
            Ok(Discovery::Settings(name)) => Ok(InForce {
                config: Some(name),
                is_nearest: true,
                current,
            }),
            Ok(Discovery::Nothing) => Ok(InForce {
                config: None,
                is_nearest: true,
                current,
            }),
            Ok(Discovery::Fault(name)) => Err(Unfound::Unreadable(name)),
            Err(_) => Err(Unfound::Memory),
        },
        Ok(None) => Err(Unfound::NoFolder),
        Err(_) => Err(Unfound::Memory),
    }
}

// Returns how many folders are above the one with this path, or `None` if the path leads out of the root.
fn folders_above(alloc: Global, path: &[u8]) -> Result<Option<usize>, AllocError>
    ensures { IfOk result (λ o. MatchOption o (Leads [] path.now None)
        (λ above. (names : List (List ℕ)) × Leads [] path.now (Some names) × (above ≡ length names))) }
{
    match names_led(alloc, path)? {
        Some(names) => Ok(Some(names.len())),
        None => Ok(None),
    }
}

/// The folders of the inputs.
#[derive(Clone, Copy)]
pub(crate) struct FoldersOf<'i, I> {
    pub(crate) inputs: &'i I,
}

impl<I: Inputs> Folders for FoldersOf<'_, I> {
    ghost shows = { λ folders. (I.claim folders.inputs.now).shows };

    ghost current = { λ folders. (I.claim folders.inputs.now).current };

    fn look(&self, name: &str) -> There {
        self.inputs.look(name)
    }

    fn current_path(&self, alloc: Global) -> Result<Option<Vec<u8>>, AllocError> {
        self.inputs.current_path(alloc)
    }
}

/// Reports why it isn't known which settings file is in force. Returns the status.
pub fn report_unfound<I: Inputs, E: Sink>(
    alloc: Global,
    explain: bool,
    inputs: &I,
    unfound: &Unfound,
    error_stream: &mut E,
) -> u8
    ensures { TellsUnfound explain unfound.now result (stream_of E.contents E.has_failed error_stream.old)
        (stream_of E.contents E.has_failed error_stream.new) }
{
    match unfound {
        Unfound::Unreadable(name) => {
            let name = name.as_str();
            let status = report_named(&Fault::ReadFailed, name, error_stream);
            tell_file(
                alloc,
                explain,
                inputs,
                name,
                &Fault::ReadFailed,
                error_stream,
            );
            status
        }
        Unfound::NoFolder => {
            let _ = write_text(
                error_stream,
                b"can't look for a settings file: the path of the current folder is unknown\n",
            );
            UNFOUND
        }
        Unfound::Memory => report(&Fault::Memory, error_stream),
    }
}
