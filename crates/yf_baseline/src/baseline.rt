//! A baseline as a file.
ghost use Rattle.std.specs.Prelude.{◌≡◌, ◌++◌, Ok, false, IfOk, OnOk};
ghost use Rattle.yf_baseline.specs.Baselines.{AllFit, baseline_in, baseline_text, lines_text, separator};

use crate::entry::Entry;
use crate::line::entry_line;
use std::alloc::{AllocError, Global};

/// Returns a baseline with these entries, in their order: a JSON object with the members `findings`, an array of the
/// entries with each on a line of its own, and `version`, which is 1.
///
/// # Errors
///
/// `AllocError` if memory runs out.
pub fn write_baseline(alloc: Global, entries: &[Entry]) -> Result<Vec<u8>, AllocError>
    ensures text { IfOk result (λ b. b.items ≡ baseline_text entries.now) }
    ensures reads_back { IfOk result (λ b. AllFit entries.now → baseline_in b.items ≡ Ok entries.now) }
{
    let mut out = Vec::new(alloc);
    out.extend_from_slice(b"{\"findings\":[")?;
    push_lines(alloc, &mut out, entries)?;
    out.extend_from_slice(b"\n],\"version\":1}\n")?;
    Ok(out)
}

// Adds the lines of the entries, with commas between.
fn push_lines(alloc: Global, out: &mut Vec<u8>, entries: &[Entry]) -> Result<(), AllocError>
    ensures { OnOk result (out.new.items ≡ out.old.items ++ lines_text false entries.now) }
{
    let mut after = false;
    for entry in entries {
        let line = entry_line(alloc, entry)?;
        push_separator(out, after)?;
        out.extend_from_slice(line.as_bytes())?;
        after = true;
    }
    Ok(())
}

// Adds the text before a line: a comma after another line, and a line feed.
fn push_separator(out: &mut Vec<u8>, after: bool) -> Result<(), AllocError>
    ensures { OnOk result (out.new.items ≡ out.old.items ++ separator after) }
{
    if after {
        return out.extend_from_slice(b",\n");
    }
    out.extend_from_slice(b"\n")
}
