//! The style that the TOML text of a settings file sets, and the wrong keys of the text.
ghost use Rattle.std.specs.Prelude.{◌≡◌, ◌⊎◌, ℕ, ◌≤◌, [], Some, codes, false, true, MatchOption, MatchResult};
ghost use Rattle.std.specs.Prelude.{List, option_map};
ghost use Rattle.toml.specs.Data.{get_member};
ghost use Rattle.toml.specs.View.{view, table_view};
ghost use Rattle.yf_settings.specs.Settings.{number_between, indent_of, max_line_of, quotes_of, seq_indent_of};
ghost use Rattle.yf_settings.specs.Settings.{document_start_of, comments_of, invisible_of, any_text_of, is_right, IsRight};
ghost use Rattle.yf_settings.specs.Settings.{IsLeastWrong, setting, SetsStyle, RefusesSettings, StyleOfTable};
ghost use Rattle.yf_forms.specs.declared.style.CommentColumns.TheVariants.{Next};
ghost use Rattle.yf_forms.specs.declared.style.DocumentStart.TheVariants.{Always};
ghost use Rattle.yf_lines.specs.declared.invisible.Invisible.TheVariants.{Plain};
ghost use Rattle.yf_lines.specs.declared.quotes.Quotes.TheVariants.{Double};

use crate::texts::{EXCLUDE, REQUIRED_VERSION};
use std::alloc::Global;
use toml::{Table, Value};
use yf_forms::style::{CommentColumns, DocumentStart, Style};
use yf_lines::fault::Fault;
use yf_lines::invisible::Invisible;
use yf_lines::quotes::Quotes;
use yf_lines::text::OwnedText;

pub(crate) const INDENT: &str = "indent";

pub(crate) const MAX_LINE: &str = "max_line";

pub(crate) const QUOTES: &str = "quotes";

pub(crate) const SEQ_INDENT: &str = "seq_indent";

pub(crate) const DOCUMENT_START: &str = "document_start";

pub(crate) const COMMENTS: &str = "comments";

pub(crate) const INVISIBLE: &str = "invisible";

const ANY_TEXT: &str = "any_text";

/// Returns the style that a settings text sets. The text is a TOML document with the keys `indent` (an integer from 2
/// to 8), `max_line` (an integer from 40 to 1000), `quotes` (`"double"` or `"single"`), `seq_indent` (a boolean),
/// `document_start` (`"always"` or `"keep"`), `comments` (`"next"` or `"block"`) and `invisible` (`"plain"` or
/// `"escaped"`). A key that the text doesn't set has the value of the house style. `any_text` (a boolean) is no part of
/// a style, and `required_version` and `exclude` are not keys here (see `settings_from_toml`).
///
/// # Errors
///
/// - `Fault::Config` with the least key, by its bytes, that is not one of these or has another value. The key is empty
///   if the text is not TOML.
/// - `Fault::Memory` if memory is refused. A text without a key takes no memory.
pub fn style_from_toml(alloc: Global, text: &str) -> Result<Style, Fault>
    ensures { MatchResult result (λ style. SetsStyle text.now style) (λ fault. RefusesSettings text.now fault) }
{
    match toml::table_from_str(alloc, text) {
        Ok(table) => match least_wrong_key(&table, false, false) {
            Some(key) => Err(wrong_key(alloc, key)),
            None => Ok(style_of(&table)),
        },
        Err(error) => {
            if error.is_memory() {
                return Err(Fault::Memory);
            }
            Err(no_key(alloc))
        }
    }
}

/// Returns the fault of a text that is not TOML.
pub fn no_key(alloc: Global) -> Fault
    ensures { result ≡ Fault.Config [] }
{
    Fault::Config {
        key: OwnedText::new(String::new(alloc)),
    }
}

// Returns the fault of a wrong key.
pub(crate) fn wrong_key(alloc: Global, key: &str) -> Fault
    ensures { (result ≡ Fault.Config key.now) ⊎ (result ≡ Fault.Memory) }
{
    match String::from_str(alloc, key) {
        Ok(copy) => Fault::Config {
            key: OwnedText::new(copy),
        },
        Err(_) => Fault::Memory,
    }
}

// Returns the least key of the table that is not a setting, or has a value that the setting can't have. (version,
// patterns: whether the values of `required_version` and `exclude` are right)
pub(crate) fn least_wrong_key<'t>(
    table: &'t Table,
    version: bool,
    patterns: bool,
) -> Option<&'t str>
    ensures { MatchOption result ((key : List ℕ) → IsRight version patterns (table_view table.now) key)
        (λ key. IsLeastWrong version patterns (table_view table.now) key.now) }
{
    for (key, value) in table {
        if !is_right(version, patterns, key.as_str(), value) {
            return Some(key.as_str());
        }
    }
    None
}

// Returns whether the key is a setting, and the value is one that the setting can have.
fn is_right(version: bool, patterns: bool, key: &str, value: &Value) -> bool
    ensures { result ≡ is_right version patterns key.now (view value.now) }
{
    if key == INDENT {
        return number_between(value, 2, 8).is_some();
    }
    if key == MAX_LINE {
        return number_between(value, 40, 1000).is_some();
    }
    if key == QUOTES {
        return quotes_of(value).is_some();
    }
    if key == SEQ_INDENT {
        return value.as_bool().is_some();
    }
    if key == DOCUMENT_START {
        return document_start_of(value).is_some();
    }
    if key == COMMENTS {
        return comments_of(value).is_some();
    }
    if key == INVISIBLE {
        return invisible_of(value).is_some();
    }
    if key == ANY_TEXT {
        return value.as_bool().is_some();
    }
    if key == REQUIRED_VERSION {
        return version;
    }
    if key == EXCLUDE {
        return patterns;
    }
    false
}

fn number_between(value: &Value, least: usize, most: usize) -> Option<usize>
    ensures { result ≡ number_between least most (view value.now) }
{
    let integer = match value.as_integer() {
        Some(integer) => integer,
        None => return None,
    };
    match usize::try_from(integer) {
        Ok(number) => {
            if least <= number {
                if number <= most {
                    return Some(number);
                }
            }
            None
        }
        Err(_) => None,
    }
}

fn quotes_of(value: &Value) -> Option<Quotes>
    ensures { result ≡ quotes_of (view value.now) }
{
    match value.as_str() {
        Some(word) => {
            if word == "double" {
                return Some(Quotes::Double);
            }
            if word == "single" {
                return Some(Quotes::Single);
            }
            None
        }
        None => None,
    }
}

fn document_start_of(value: &Value) -> Option<DocumentStart>
    ensures { result ≡ document_start_of (view value.now) }
{
    match value.as_str() {
        Some(word) => {
            if word == "always" {
                return Some(DocumentStart::Always);
            }
            if word == "keep" {
                return Some(DocumentStart::Keep);
            }
            None
        }
        None => None,
    }
}

fn comments_of(value: &Value) -> Option<CommentColumns>
    ensures { result ≡ comments_of (view value.now) }
{
    match value.as_str() {
        Some(word) => {
            if word == "next" {
                return Some(CommentColumns::Next);
            }
            if word == "block" {
                return Some(CommentColumns::Block);
            }
            None
        }
        None => None,
    }
}

fn invisible_of(value: &Value) -> Option<Invisible>
    ensures { result ≡ invisible_of (view value.now) }
{
    match value.as_str() {
        Some(word) => {
            if word == "plain" {
                return Some(Invisible::Plain);
            }
            if word == "escaped" {
                return Some(Invisible::Escaped);
            }
            None
        }
        None => None,
    }
}

// Returns the style that the table sets, if its keys are right.
pub(crate) fn style_of(table: &Table) -> Style
    ensures { StyleOfTable (table_view table.now) result }
{
    let house = Style::house();
    Style {
        indent: number_at(table, INDENT, 2, 8, house.indent),
        max_line: number_at(table, MAX_LINE, 40, 1000, house.max_line),
        quotes: quotes_at(table, house.quotes),
        seq_indent: seq_indent_at(table, house.seq_indent),
        document_start: document_start_at(table, house.document_start),
        comments: comments_at(table, house.comments),
        invisible: invisible_at(table, house.invisible),
    }
}

fn number_at(table: &Table, key: &str, least: usize, most: usize, house: usize) -> usize
    requires house_from { least ≤ house }
    requires house_to { house ≤ most }
    ensures value { result ≡ setting (number_between least most) key.now house (table_view table.now) }
    ensures from { least ≤ result }
    ensures to { result ≤ most }
{
    match value_at(table, key) {
        Some(value) => match number_between(value, least, most) {
            Some(number) => number,
            None => house,
        },
        None => house,
    }
}

fn quotes_at(table: &Table, house: Quotes) -> Quotes
    ensures { result ≡ setting quotes_of (codes "quotes") house (table_view table.now) }
{
    match value_at(table, QUOTES) {
        Some(value) => quotes_of(value).unwrap_or(house),
        None => house,
    }
}

fn seq_indent_at(table: &Table, house: bool) -> bool
    ensures { result ≡ setting seq_indent_of (codes "seq_indent") house (table_view table.now) }
{
    match value_at(table, SEQ_INDENT) {
        Some(value) => value.as_bool().unwrap_or(house),
        None => house,
    }
}

fn document_start_at(table: &Table, house: DocumentStart) -> DocumentStart
    ensures { result ≡ setting document_start_of (codes "document_start") house (table_view table.now) }
{
    match value_at(table, DOCUMENT_START) {
        Some(value) => document_start_of(value).unwrap_or(house),
        None => house,
    }
}

fn comments_at(table: &Table, house: CommentColumns) -> CommentColumns
    ensures { result ≡ setting comments_of (codes "comments") house (table_view table.now) }
{
    match value_at(table, COMMENTS) {
        Some(value) => comments_of(value).unwrap_or(house),
        None => house,
    }
}

fn invisible_at(table: &Table, house: Invisible) -> Invisible
    ensures { result ≡ setting invisible_of (codes "invisible") house (table_view table.now) }
{
    match value_at(table, INVISIBLE) {
        Some(value) => invisible_of(value).unwrap_or(house),
        None => house,
    }
}

// Returns whether the table takes any text, if its keys are right.
pub(crate) fn any_text_at(table: &Table) -> bool
    ensures { result ≡ setting any_text_of (codes "any_text") false (table_view table.now) }
{
    match value_at(table, ANY_TEXT) {
        Some(value) => value.as_bool().unwrap_or(false),
        None => false,
    }
}

// Returns the value at a key of the table.
pub(crate) fn value_at<'t>(table: &'t Table, key: &str) -> Option<&'t Value>
    ensures { option_map (λ v. view v.now) result ≡ get_member key.now (table_view table.now) }
{
    table.get(key)
}
