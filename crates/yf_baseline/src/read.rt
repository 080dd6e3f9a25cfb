//! Reading a baseline.
ghost use Rattle.std.specs.Prelude.{◌≡◌, ◌≢◌, ◌==◌, Ok, Err, Some, None, codes, option_map, option_and_then};
ghost use Rattle.std.specs.Prelude.{is_some, IfErr, IfOk, IfSome, MatchOption};
ghost use Rattle.json.specs.Json.{document};
ghost use Rattle.json.specs.Find.{as_array, get};
ghost use Rattle.json.specs.Value.{items_view, value_view};
ghost use Rattle.yf_baseline.specs.Baselines.{baseline_in, entries_from, entries_in, entry_in, if_entries};
ghost use Rattle.yf_baseline.specs.Baselines.{if_json, if_version, number_in, text_in, without_feed};
ghost use Rattle.yf_baseline.specs.declared.refusal.Refusal.TheVariants as refusal;

use crate::entries::owned;
use crate::entry::Entry;
use crate::refusal::Refusal;
use json::{Error, Scratch, Value};
use std::alloc::{AllocError, Global};

/// Returns the entries of a baseline, in their order in the text.
///
/// # Errors
///
/// `Memory` if memory runs out. Otherwise a `Refusal` says why the text is not a baseline.
pub fn read_baseline(alloc: Global, text: &str) -> Result<Vec<Entry>, Refusal>
    ensures ok { IfOk result (λ es. baseline_in text.now ≡ Ok es.items) }
    ensures refused { IfErr result (λ e. e ≢ Refusal.Memory → baseline_in text.now ≡ Err e) }
{
    let body = without_feed(text);
    let mut scratch = Scratch::new(alloc);
    match Value::parse(alloc, body, &mut scratch) {
        Ok(value) => entries_of_value(alloc, &value),
        Err(Error::Invalid) => Err(Refusal::NotJson),
        Err(_) => Err(Refusal::Memory),
    }
}

// Returns the text without a line feed at its end.
fn without_feed(text: &str) -> &str
    ensures { result.now ≡ without_feed text.now }
{
    match text.strip_suffix('\n') {
        Some(body) => body,
        None => text,
    }
}

// Returns the entries of a value that is a baseline.
fn entries_of_value(alloc: Global, value: &Value<'_>) -> Result<Vec<Entry>, Refusal>
    ensures ok { IfOk result (λ es. if_json (Some (value_view value.now)) ≡ Ok es.items) }
    ensures refused { IfErr result (λ e. e ≢ Refusal.Memory → if_json (Some (value_view value.now)) ≡ Err e) }
{
    match number_in(value, "version") {
        Some(1) => entries_listed(alloc, value),
        _ => Err(Refusal::Version),
    }
}

// Returns the entries of a value, if it has some.
fn entries_listed(alloc: Global, value: &Value<'_>) -> Result<Vec<Entry>, Refusal>
    ensures ok { IfOk result (λ es. if_entries (entries_in (value_view value.now)) ≡ Ok es.items) }
    ensures refused { IfErr result (λ e. e ≢ Refusal.Memory
        → if_entries (entries_in (value_view value.now)) ≡ Err e) }
{
    match entries_in(alloc, value)? {
        Some(entries) => Ok(entries),
        None => Err(Refusal::Shape),
    }
}

// Returns the entries of a value, if its member `findings` is an array of entries.
fn entries_in(alloc: Global, value: &Value<'_>) -> Result<Option<Vec<Entry>>, AllocError>
    ensures { IfOk result (λ found. option_map (λ es. es.items) found ≡ entries_in (value_view value.now)) }
{
    match value.get("findings") {
        Some(Value::Array(items)) => entries_from(alloc, items.as_slice()),
        _ => Ok(None),
    }
}

// Returns the entries that these values are, if each is an entry.
fn entries_from(alloc: Global, items: &[Value<'_>]) -> Result<Option<Vec<Entry>>, AllocError>
    ensures { IfOk result (λ found. option_map (λ es. es.items) found ≡ entries_from (items_view items.now)) }
{
    let mut entries = Vec::new(alloc);
    for item in items {
        match entry_in(alloc, item)? {
            Some(entry) => entries.push(entry)?,
            None => return Ok(None),
        }
    }
    Ok(Some(entries))
}

// Returns the entry that a value is.
fn entry_in(alloc: Global, value: &Value<'_>) -> Result<Option<Entry>, AllocError>
    ensures { IfOk result (λ found. found ≡ entry_in (value_view value.now)) }
{
    let file = match text_in(value, "file") {
        Some(file) => file,
        None => return Ok(None),
    };
    let hash = match text_in(value, "hash") {
        Some(hash) => hash,
        None => return Ok(None),
    };
    let ordinal = match number_in(value, "ordinal") {
        Some(ordinal) => ordinal,
        None => return Ok(None),
    };
    let rule = match text_in(value, "rule") {
        Some(rule) => rule,
        None => return Ok(None),
    };
    Ok(Some(Entry {
        file: owned(alloc, file)?,
        rule: owned(alloc, rule)?,
        hash: owned(alloc, hash)?,
        ordinal,
    }))
}

// Returns the text of a member.
fn text_in<'a>(value: &Value<'a>, name: &str) -> Option<&'a str>
    ensures { option_map (λ s. s.now) result ≡ text_in name.now (value_view value.now) }
{
    match value.get(name) {
        Some(member) => member.as_str(),
        None => None,
    }
}

// Returns the number of a member.
fn number_in(value: &Value<'_>, name: &str) -> Option<u64>
    ensures { result ≡ number_in name.now (value_view value.now) }
{
    match value.get(name) {
        Some(member) => member.as_u64(),
        None => None,
    }
}
