//! The unified diff of two texts.
ghost use Rattle.std.specs.Prelude.{◌≡◌, ◌++◌, [], ℕ, List, IfOk};
ghost use Rattle.yf_diff.specs.Diff.{AddsDiff};
ghost use Rattle.yf_diff.specs.Unified.{has_space, name_text, unified};

use crate::hashed_line::hashed_lines;
use crate::hunks::{any_change, push_hunks};
use crate::script::script;
use crate::step::Step;
use std::alloc::{AllocError, Global};

/// Returns whether the name contains a space.
fn has_space(name: &[u8]) -> bool
    ensures { result ≡ has_space name.now }
{
    for byte in name {
        if *byte == b' ' {
            return true;
        }
    }
    false
}

/// Adds the name of a text.
fn push_name(out: &mut Vec<u8>, name: &[u8]) -> Result<(), AllocError>
    ensures { IfOk result (λ _. out.new.items ≡ out.old.items ++ name_text name.now) }
{
    out.extend_from_slice(name)?;
    if has_space(name) {
        return out.extend_from_slice(b"\t");
    }
    Ok(())
}

/// Adds the unified diff of a script, under two names.
fn push_script(
    out: &mut Vec<u8>,
    old_name: &str,
    new_name: &str,
    steps: &[Step<'_>],
) -> Result<(), AllocError>
    ensures { IfOk result (λ _. out.new.items ≡ out.old.items ++ unified old_name.now new_name.now steps.now) }
{
    if !any_change(steps) {
        return Ok(());
    }
    out.extend_from_slice(b"--- ")?;
    push_name(out, old_name.as_bytes())?;
    out.extend_from_slice(b"\n+++ ")?;
    push_name(out, new_name.as_bytes())?;
    out.extend_from_slice(b"\n")?;
    push_hunks(out, steps)
}

/// Adds the unified diff of an old and a new text, as GNU `diff -u` writes it, but without times: each name follows its
/// sign, `---` or `+++`, and a tab follows a name with a space. It adds nothing if and only if the texts are equal.
///
/// Fails only if memory is refused; a part of the diff may then have been added.
pub fn push_diff(
    alloc: Global,
    out: &mut Vec<u8>,
    old_name: &str,
    new_name: &str,
    old: &[u8],
    new: &[u8],
) -> Result<(), AllocError>
    ensures written { IfOk result (λ _. AddsDiff old_name.now new_name.now old.now new.now out.old.items out.new.items) }
    ensures told { IfOk result (λ _. out.new.items ≡ out.old.items → old.now ≡ new.now) }
    ensures same { old.now ≡ new.now → IfOk result (λ _. out.new.items ≡ out.old.items) }
{
    if old == new {
        return Ok(());
    }
    let old_lines = hashed_lines(alloc, old)?;
    let new_lines = hashed_lines(alloc, new)?;
    let steps = script(alloc, &old_lines, &new_lines)?;
    push_script(out, old_name, new_name, &steps)?;
    Ok(())
}
