//! The settings in the TOML text of a settings file.
ghost use Rattle.std.specs.Prelude.{List, ℕ, MatchResult, codes};
ghost use Rattle.toml.specs.Data.{get_member};
ghost use Rattle.toml.specs.View.{table_view};
ghost use Rattle.yf_settings.specs.FileSettings.{AreDefaults, HasSettings, KeepsSettings, RefusesFile, RefusesTable, TextsAreRight};
ghost use Rattle.yf_settings.specs.Settings.{IsWrong};
ghost use Rattle.yf_settings.specs.Texts.{Excludes, Requires};

use crate::settings::{any_text_at, least_wrong_key, no_key, style_of, wrong_key};
use crate::texts::{Required, patterns_at, required_at};
use std::alloc::Global;
use toml::Table;
use yf_excludes::pattern::Pattern;
use yf_forms::style::Style;
use yf_lines::fault::Fault;

/// The settings of a settings file.
#[derive(Drop)]
pub struct FileSettings {
    /// The style.
    pub style: Style,
    /// The patterns of the files to leave out.
    pub exclude: Vec<Pattern>,
    /// The versions of the program that the file requires.
    pub required: Required,
    /// Whether texts that are no data are taken like any other.
    pub any_text: bool,
    /// The table of the file's text. Without a settings file it is empty.
    pub table: Table,
}

impl FileSettings {
    /// Returns the settings that hold without a settings file.
    pub fn defaults(alloc: Global) -> FileSettings
        ensures { AreDefaults result }
    {
        FileSettings {
            style: Style::house(),
            exclude: Vec::new(alloc),
            required: Required::Any,
            any_text: false,
            table: Table::new(alloc),
        }
    }
}

/// Returns the settings of a text. The text is a TOML document with the keys `indent` (an integer from 2 to 8),
/// `max_line` (an integer from 40 to 1000), `quotes` (`"double"` or `"single"`), `seq_indent` (a boolean),
/// `document_start` (`"always"` or `"keep"`), `comments` (`"next"` or `"block"`), `invisible` (`"plain"` or
/// `"escaped"`), `any_text` (a boolean), `required_version` (a requirement for a version, for example `">=0.2, <0.3"`)
/// and `exclude` (an array of patterns). A setting without a key has the value that it has without a settings file.
///
/// # Errors
///
/// - `Fault::Config` with the least key, by its bytes, that is not one of these or has another value. The key is empty
///   if the text is not TOML.
/// - `Fault::Memory` if memory is refused. A text without a key takes no memory.
pub fn settings_from_toml(alloc: Global, text: &str) -> Result<FileSettings, Fault>
    ensures { MatchResult result (HasSettings text.now) (RefusesFile text.now) }
{
    match toml::table_from_str(alloc, text) {
        Ok(table) => settings_of(alloc, table),
        Err(error) => {
            if error.is_memory() {
                return Err(Fault::Memory);
            }
            Err(no_key(alloc))
        }
    }
}

// Returns the settings of a table.
fn settings_of(alloc: Global, table: Table) -> Result<FileSettings, Fault>
    ensures { MatchResult result (KeepsSettings (table_view table)) (RefusesTable (table_view table)) }
{
    let required = match required_at(alloc, &table) {
        Ok(required) => required,
        Err(_) => return Err(Fault::Memory),
    };
    let exclude = match patterns_at(alloc, &table) {
        Ok(exclude) => exclude,
        Err(_) => return Err(Fault::Memory),
    };
    match required {
        Some(required) => match exclude {
            Some(exclude) => settings_with(alloc, table, required, exclude),
            None => Err(refusal(alloc, &table, true, false)),
        },
        None => match exclude {
            Some(_) => Err(refusal(alloc, &table, false, true)),
            None => Err(refusal(alloc, &table, false, false)),
        },
    }
}

// Returns the settings of a table with right values of `required_version` and `exclude`.
fn settings_with(
    alloc: Global,
    table: Table,
    required: Required,
    exclude: Vec<Pattern>,
) -> Result<FileSettings, Fault>
    requires required_read { Requires (get_member (codes "required_version") (table_view table)) required }
    requires exclude_read { Excludes (get_member (codes "exclude") (table_view table)) exclude.items }
    ensures { MatchResult result (KeepsSettings (table_view table)) (RefusesTable (table_view table)) }
{
    match least_wrong_key(&table, true, true) {
        Some(key) => Err(wrong_key(alloc, key)),
        None => Ok(FileSettings {
            style: style_of(&table),
            exclude,
            required,
            any_text: any_text_at(&table),
            table,
        }),
    }
}

// Returns the fault of a table with a wrong value of `required_version` or `exclude`.
fn refusal(alloc: Global, table: &Table, version: bool, patterns: bool) -> Fault
    requires texts { TextsAreRight (table_view table.now) version patterns }
    requires wrong { (key : List ℕ) × IsWrong version patterns (table_view table.now) key }
    ensures { RefusesTable (table_view table.now) result }
{
    match least_wrong_key(table, version, patterns) {
        Some(key) => wrong_key(alloc, key),
        None => unreachable!(),
    }
}
