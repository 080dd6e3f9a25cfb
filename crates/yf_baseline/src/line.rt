//! An entry as a line of a baseline.
ghost use Rattle.std.specs.Prelude.{◌≡◌, string_bytes, IfOk, OnOk};
ghost use Rattle.json.specs.Tree.{json_tokens};
ghost use Rattle.yf_report.specs.Members.{Adds};
ghost use Rattle.yf_baseline.specs.Baselines.{entry_json, entry_line};

use crate::entry::Entry;
use json::Writer;
use std::alloc::{AllocError, Global};
use yf_report::members::{write_number, write_text};

/// Returns an entry as a JSON object without white space. Its members are in the order of their names.
///
/// # Errors
///
/// `AllocError` if memory runs out.
pub fn entry_line(alloc: Global, entry: &Entry) -> Result<String, AllocError>
    ensures { IfOk result (λ line. string_bytes line ≡ entry_line entry.now) }
{
    let mut out = Writer::new(Vec::new(alloc));
    write_entry(&mut out, entry)?;
    match String::from_utf8(out.into_inner()) {
        Ok(line) => Ok(line),
        Err(_) => unreachable!(),
    }
}

// Adds the object of an entry.
fn write_entry(out: &mut Writer, entry: &Entry) -> Result<(), AllocError>
    ensures { OnOk result (Adds out.old out.new (json_tokens (entry_json entry.now))) }
{
    out.begin_object()?;
    write_text(out, "file", entry.file.as_str())?;
    write_text(out, "hash", entry.hash.as_str())?;
    write_number(out, "ordinal", entry.ordinal as usize)?;
    write_text(out, "rule", entry.rule.as_str())?;
    out.end_object()?;
    Ok(())
}
