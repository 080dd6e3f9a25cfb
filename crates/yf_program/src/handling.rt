//! The settings of the documents of a server, and what they say of a document.
ghost use Rattle.std.specs.Prelude.{◌≡◌, ◌++◌, Some, IfOk, IsUtf8, MatchOption, MatchResult, codes};
ghost use Rattle.percent_encoding.specs.Percent.{percent_decode};
ghost use Rattle.yf_lines.specs.Text.{text_bytes};
ghost use Rattle.yf_program.specs.Handling.{HandlesAs, HandlesBy, HandlesNear, HandlesWith, HasNoPath, IsDecoded, IsHandled, IsNoFile, IsPath, is_memory, said, text_of, unset_words};
ghost use Rattle.yf_program.specs.Settings.{Excludes};
ghost use Rattle.yf_program.specs.SettingsFile.{SettingsOfFile, Unset};
ghost use Rattle.yf_program.specs.declared.handling.Handling.TheVariants as handling;

use crate::program::read_settings;
use crate::scope::{Scope, is_file_left_out};
use crate::search::FoldersOf;
use crate::with_settings::{either, name_or_empty};
use percent_encoding::{DecodeError, percent_decode};
use std::alloc::{AllocError, Global};
use std::borrow::CowStr;
use yf_command_line::build::VERSION;
use yf_discovery::nearest::{Discovery, nearest_to};
use yf_excludes::located::excludes_file;
use yf_excludes::read_pattern::begins_with;
use yf_forms::style::Style;
use yf_guarded::held::Held;
use yf_host::inputs::{Again, Inputs};
use yf_lines::fault::Fault;
use yf_lines::text::{OwnedText, Text};
use yf_settings::file_settings::FileSettings;
use yf_settings::texts::{Required, allows};

/// What a server knows from its start.
#[derive(Clone, Copy)]
pub struct Start<'a, I> {
    /// The files, as they are at each moment.
    pub inputs: &'a I,
    /// What the settings at the start leave out, and how they were found.
    pub scope: &'a Scope,
    /// The style of the settings at the start.
    pub style: &'a Style,
}

/// What the settings of a document say of it.
#[derive(Drop)]
pub enum Handling {
    /// It is formatted and checked.
    Taken {
        style: Style,
        /// Whether it is formatted also if its text is no data.
        any_text: bool,
    },
    /// It is left out.
    LeftOut,
    /// Its settings can't be used, for the reason in these words.
    Unset(OwnedText),
}

/// Returns what the settings of the document with a URI say of it.
///
/// If the search for a settings file decided at the start, the settings of a document are those of the nearest settings
/// file in its folder or above it, as the file is now. The settings at the start are those of all other documents.
///
/// # Errors
///
/// `AllocError` if memory is refused.
pub fn handling_of<I: Inputs>(
    alloc: Global,
    start: &Start<'_, I>,
    uri: &str,
) -> Result<Handling, AllocError>
    ensures { IfOk result (IsHandled (I.claim start.now.inputs.now) start.now.scope.now start.now.style.now uri.now) }
{
    match path_of(alloc, uri)? {
        None => Ok(Handling::Taken {
            style: *start.style,
            any_text: start.scope.any_text,
        }),
        Some(path) => {
            if start.scope.is_nearest {
                return handling_near(
                    alloc,
                    start.inputs,
                    start.scope.asks_any_text,
                    path.as_str(),
                );
            }
            handling_in(alloc, start.scope, start.style, path.as_str())
        }
    }
}

// Returns the path of the file with a URI. Returns `None` if it is not the URI of a file, or if the path is not UTF-8
// or doesn't begin at the root.
fn path_of<'a>(alloc: Global, uri: &'a str) -> Result<Option<Text<'a>>, AllocError>
    ensures { IfOk result (λ o. MatchOption o (HasNoPath uri.now) (λ path. IsPath uri.now (text_bytes path))) }
{
    match encoded_path(uri) {
        None => Ok(None),
        Some(encoded) => match decoded(alloc, encoded)? {
            None => Ok(None),
            Some(path) => {
                if begins_with(path.as_str().as_bytes(), b'/') {
                    return Ok(Some(path));
                }
                Ok(None)
            }
        },
    }
}

// Returns the path in the URI of a file, as it is written there.
fn encoded_path(uri: &str) -> Option<&str>
    ensures { MatchOption result (IsNoFile uri.now) (λ encoded. uri.now ≡ codes "file://" ++ encoded.now) }
{
    uri.strip_prefix("file://")
}

// Returns the text that a text with escapes means. Returns `None` if it is not UTF-8.
fn decoded<'a>(alloc: Global, encoded: &'a str) -> Result<Option<Text<'a>>, AllocError>
    ensures { IfOk result (λ o. MatchOption o (¬ IsUtf8 (percent_decode encoded.now))
        (λ text. IsDecoded encoded.now (text_bytes text))) }
{
    match percent_decode(encoded.as_bytes()).decode_utf8(alloc) {
        Ok(CowStr::Borrowed(part)) => Ok(Some(Text::Part(part))),
        Ok(CowStr::Owned(text)) => Ok(Some(Text::Owned(OwnedText::new(text)))),
        Err(DecodeError::Utf8(_)) => Ok(None),
        Err(DecodeError::OutOfMemory) => Err(AllocError),
    }
}

// Returns what the settings at the start say of the file with a path.
fn handling_in(
    alloc: Global,
    scope: &Scope,
    style: &Style,
    path: &str,
) -> Result<Handling, AllocError>
    ensures { IfOk result (HandlesAs (Excludes scope.now path.now) style.now scope.now.any_text) }
{
    if is_file_left_out(alloc, scope, path)? {
        return Ok(Handling::LeftOut);
    }
    Ok(Handling::Taken {
        style: *style,
        any_text: scope.any_text,
    })
}

// Returns what the nearest settings file says of the file with a path.
fn handling_near<I: Inputs>(
    alloc: Global,
    inputs: &I,
    asks_any_text: bool,
    path: &str,
) -> Result<Handling, AllocError>
    ensures { IfOk result (HandlesNear (I.claim inputs.now) asks_any_text path.now) }
{
    let found = nearest_to(alloc, &FoldersOf { inputs }, path)?;
    match found {
        Discovery::Settings(name) => {
            handling_with(alloc, inputs, &Some(name), asks_any_text, path)
        }
        Discovery::Nothing => handling_with(alloc, inputs, &None, asks_any_text, path),
        Discovery::Fault(name) => unset_by(alloc, name.as_str(), &Fault::ReadFailed),
    }
}

// Returns what this settings file says of the file with a path, or what the defaults say.
fn handling_with<I: Inputs>(
    alloc: Global,
    inputs: &I,
    config: &Option<OwnedText>,
    asks_any_text: bool,
    path: &str,
) -> Result<Handling, AllocError>
    ensures { IfOk result (HandlesWith (I.claim inputs.now) config.now asks_any_text path.now) }
{
    match settings_now(alloc, inputs, config) {
        Ok(settings) => handling_by(alloc, config, &settings, asks_any_text, path),
        Err(fault) => {
            if is_memory(&fault) {
                return Err(AllocError);
            }
            unset_by(alloc, name_or_empty(config), &fault)
        }
    }
}

// Returns the settings of the settings file as it is now, or the defaults if there is none.
fn settings_now<I: Inputs>(
    alloc: Global,
    inputs: &I,
    config: &Option<OwnedText>,
) -> Result<FileSettings, Fault>
    ensures { MatchResult result (SettingsOfFile (I.claim inputs.now) config.now)
        (Unset (I.claim inputs.now) config.now) }
{
    match config {
        Some(name) => settings_again(alloc, inputs, name.as_str()),
        None => Ok(FileSettings::defaults(alloc)),
    }
}

// Returns the settings of the settings file with this name, as it is now.
fn settings_again<I: Inputs>(alloc: Global, inputs: &I, name: &str) -> Result<FileSettings, Fault>
    ensures { MatchResult result (SettingsOfFile (I.claim inputs.now) (Some name.now))
        (Unset (I.claim inputs.now) (Some name.now)) }
{
    match inputs.read_again(alloc, name) {
        Ok(Again::Bytes(bytes)) => {
            let mut held = Held {
                rest: bytes.as_slice(),
            };
            let mut kept = Vec::new(alloc);
            read_settings(alloc, &mut held, &mut kept)
        }
        Ok(Again::Words(_)) => Err(Fault::ReadFailed),
        Err(_) => Err(Fault::Memory),
    }
}

// Returns what these settings say of the file with a path.
fn handling_by(
    alloc: Global,
    config: &Option<OwnedText>,
    settings: &FileSettings,
    asks_any_text: bool,
    path: &str,
) -> Result<Handling, AllocError>
    ensures { IfOk result (HandlesBy config.now settings.now asks_any_text path.now) }
{
    let name = name_or_empty(config);
    if !allows(alloc, &settings.required, VERSION)? {
        let required = text_of(&settings.required);
        return unset(alloc, name, OTHER_VERSION, required);
    }
    let patterns = settings.exclude.as_slice();
    if excludes_file(alloc, patterns, b"", name.as_bytes(), path.as_bytes())? {
        return Ok(Handling::LeftOut);
    }
    Ok(Handling::Taken {
        style: settings.style,
        any_text: either(asks_any_text, settings.any_text),
    })
}

/// What is said before the versions that settings require.
const OTHER_VERSION: &str = ": required_version: the settings require yamlfmt ";

// Returns which versions of the program settings require, in words.
fn text_of(required: &Required) -> &str
    ensures { result.now ≡ text_of required.now }
{
    match required {
        Required::Any => "",
        Required::Versions(requirement) => requirement.text.as_str(),
    }
}

// Returns that settings can't be used, because of a fault of their file.
fn unset_by(alloc: Global, name: &str, fault: &Fault) -> Result<Handling, AllocError>
    ensures { IfOk result (λ h. h ≡ handling.Unset (unset_words name.now fault.now)) }
{
    match fault {
        Fault::Config { key } => unset(alloc, name, ": config: ", key.as_str()),
        _ => unset(alloc, name, ": read failed", ""),
    }
}

// Returns that settings can't be used: the name of the file, and what is wrong.
fn unset(alloc: Global, name: &str, what: &str, more: &str) -> Result<Handling, AllocError>
    ensures { IfOk result (λ h. h ≡ handling.Unset (said name.now what.now more.now)) }
{
    let mut words = String::from_str(alloc, name)?;
    words.push_str(what)?;
    words.push_str(more)?;
    Ok(Handling::Unset(OwnedText::new(words)))
}

/// Returns whether a fault is that memory was refused.
pub fn is_memory(fault: &Fault) -> bool
    ensures { result ≡ is_memory fault.now }
{
    matches!(fault, Fault::Memory)
}
