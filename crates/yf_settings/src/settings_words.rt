//! The explanation of settings that are refused: the position, the allowed values of the key, and the line.

use std::alloc::{AllocError, Global};
use yf_chars::utf8::{BadByte, check_utf8};
use yf_explain::{Page, explain, page_at};
use yf_lines::fault::Fault;

/// The keys, and the allowed values of each.
const ALLOWED: [(&str, &str); 10] = [
    ("any_text", "`any_text` is true or false"),
    ("comments", "`comments` is \"next\" or \"block\""),
    (
        "document_start",
        "`document_start` is \"always\" or \"keep\"",
    ),
    (
        "exclude",
        "`exclude` is a list of patterns, each as in .gitignore",
    ),
    ("indent", "`indent` is a whole number from 2 to 8"),
    ("invisible", "`invisible` is \"plain\" or \"escaped\""),
    ("max_line", "`max_line` is a whole number from 40 to 1000"),
    ("quotes", "`quotes` is \"double\" or \"single\""),
    (
        "required_version",
        "`required_version` is a text such as \">=0.2, <0.3\"",
    ),
    ("seq_indent", "`seq_indent` is true or false"),
];

/// The explanation of any other key.
const NO_KEY: &str = "no such setting; docs/STYLE.md and `man yamlfmt` list all settings";

/// Returns the explanation of the bytes of a settings file with a refused `key`. An empty key means that the text is
/// not TOML.
///
/// # Errors
///
/// `AllocError` if memory is refused.
pub fn explain_settings(alloc: Global, bytes: &[u8], key: &str) -> Result<Page, AllocError> {
    let text = match check_utf8(bytes) {
        Ok(text) => text,
        Err(BadByte { offset }) => return explain(alloc, bytes, &Fault::NotUtf8 { offset }),
    };
    match toml::table_from_str(alloc, text) {
        Ok(_) => page_at(alloc, text, key_offset(text, key), allowed(key)),
        Err(error) => {
            if error.is_memory() {
                return Err(AllocError);
            }
            let start = match error.span() {
                Some(span) => span.start,
                None => 0,
            };
            page_at(alloc, text, start, error.message())
        }
    }
}

// Returns the allowed values of a key, or that there is no such key.
fn allowed(key: &str) -> &'static str {
    for (name, words) in &ALLOWED {
        if *name == key {
            return words;
        }
    }
    NO_KEY
}

// Returns the byte offset of the line that sets a key, or 0 if no line does.
fn key_offset(text: &str, key: &str) -> usize {
    let mut start = 0;
    for line in text.split('\n') {
        if sets(line, key) {
            return start;
        }
        start = start.saturating_add(line.len()).saturating_add(1);
    }
    0
}

// Returns whether a line sets a key, or begins its table.
fn sets(line: &str, key: &str) -> bool {
    let name = line.trim_start_matches([' ', '\t', '[', '"', '\'']);
    match name.strip_prefix(key) {
        Some(rest) => !key.is_empty() && rest.starts_with([' ', '\t', '=', '.', ']', '"', '\'']),
        None => false,
    }
}
