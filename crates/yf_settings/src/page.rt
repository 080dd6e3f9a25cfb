//! The page that shows settings.
ghost use Rattle.std.specs.Prelude.{◌≡◌, ◌∷◌, IfOk, OnOk, [], codes, string_bytes};
ghost use Rattle.toml.specs.Data.{string};
ghost use Rattle.toml.specs.View.{table_view, view};
ghost use Rattle.yf_settings.specs.FileSettings.{AreKept};
ghost use Rattle.yf_settings.specs.Page.{Completes, ShowsSettings, house_values};

use crate::file_settings::FileSettings;
use crate::settings::{
    COMMENTS, DOCUMENT_START, INDENT, INVISIBLE, MAX_LINE, QUOTES, SEQ_INDENT, value_at,
};
use std::alloc::{AllocError, Global};
use toml::{Table, Value};

/// Returns a TOML text with these settings. It sets each setting of the style, and the others if the settings file sets
/// them.
///
/// # Errors
///
/// `AllocError` if memory is refused.
pub fn settings_page(alloc: Global, settings: FileSettings) -> Result<String, AllocError>
    ensures { IfOk result (λ page. AreKept settings → ShowsSettings settings (string_bytes page)) }
{
    let FileSettings { table, .. } = settings;
    let table = completed(alloc, table)?;
    match toml::table_to_string(alloc, &table) {
        Ok(page) => Ok(page),
        Err(_) => Err(AllocError),
    }
}

// Returns the table with the values of the house style at the keys of the style that it doesn't have.
fn completed(alloc: Global, table: Table) -> Result<Table, AllocError>
    ensures { IfOk result (λ t. Completes house_values (table_view table) (table_view t)) }
{
    let mut table = table;
    set_value(alloc, &mut table, SEQ_INDENT, Value::from(true))?;
    set_word(alloc, &mut table, QUOTES, "double")?;
    set_value(alloc, &mut table, MAX_LINE, Value::from(100i64))?;
    set_word(alloc, &mut table, INVISIBLE, "plain")?;
    set_value(alloc, &mut table, INDENT, Value::from(2i64))?;
    set_word(alloc, &mut table, DOCUMENT_START, "always")?;
    set_word(alloc, &mut table, COMMENTS, "next")?;
    Ok(table)
}

// Sets a key that the table doesn't have to a word.
fn set_word(alloc: Global, table: &mut Table, key: &str, word: &str) -> Result<(), AllocError>
    ensures { OnOk result (Completes ((key.now, string word.now) ∷ []) (table_view table.old) (table_view table.new)) }
{
    let value = Value::string(alloc, word)?;
    set_value(alloc, table, key, value)
}

// Sets a key that the table doesn't have.
fn set_value(alloc: Global, table: &mut Table, key: &str, value: Value) -> Result<(), AllocError>
    ensures { OnOk result (Completes ((key.now, view value) ∷ []) (table_view table.old) (table_view table.new)) }
{
    if value_at(table, key).is_some() {
        return Ok(());
    }
    let key = String::from_str(alloc, key)?;
    match table.insert(key, value) {
        Ok(_) => Ok(()),
        Err(_) => Err(AllocError),
    }
}
