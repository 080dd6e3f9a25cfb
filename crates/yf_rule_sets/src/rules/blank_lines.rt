//! Rule 8, blank-lines.
ghost use Rattle.std.specs.Prelude.{◌≡◌, ◌<◌, length, IfOk, MatchBool};
ghost use Rattle.yf_events.specs.declared.lists.Lists.{Lists};
ghost use Rattle.yf_lines.specs.Lines.{Table};
ghost use Rattle.yf_rule_sets.specs.RuleSets.BlankLines.{MisplacedBlank};
ghost use Rattle.yf_rule_sets.specs.Passes.BlankNotes.{AreNotes, IsAfterBlankOrMarker, LastLine, IsBeforeMarker};
ghost use Rattle.yf_rule_sets.specs.RuleSets.Exact.{IsTheOne, Exactly};

use crate::facts::found::{FoundOffsets, Global, Reading, Src, push_found};
use crate::facts::notes::{Notes, find_notes, flag};
pub use crate::rules::StyleRule::BlankLines;

/// Returns the start of each blank line that is the first line, follows another one or a `---` with only white space
/// after it, is directly before a document marker or a directive, or has only blank lines after it.
pub fn offsets(alloc: Global, src: &Src, reading: &Reading) -> FoundOffsets
    ensures { IfOk result (λ offsets. Exactly (MisplacedBlank src.now reading.now) offsets.items) }
{
    let notes = find_notes(alloc, src, reading)?;
    let last = last_line(notes.blank.as_slice());
    let mut offsets = Vec::new(alloc);
    for k in 0..src.lines().len() {
        push_found(&mut offsets, misplaced(src, &notes, last, k))?;
    }
    Ok(offsets)
}

/// Returns the number of lines up to the last one that is not blank.
fn last_line(blank: &[bool]) -> usize
    ensures { LastLine blank.now result }
{
    let mut at = blank.len();
    while at > 0 {
        if !blank[at - 1] {
            return at;
        }
        at -= 1;
    }
    at
}

/// Returns whether the line of that index follows one that no blank line may follow.
fn follows(notes: &Notes, k: usize) -> bool
    requires { k < length notes.now.blank.items }
    ensures { (src : Table) (r : Lists) → AreNotes src r notes.now.blank.items notes.now.markers.items notes.now.directives.items
        → MatchBool result (IsAfterBlankOrMarker src r k) (IsAfterBlankOrMarker src r k → ⊥) }
{
    if k == 0 {
        return true;
    }
    if notes.blank[k - 1] {
        return true;
    }
    flag(notes.markers.as_slice(), k - 1)
}

/// Returns whether the line of that index precedes one that no blank line may precede.
fn precedes(src: &Src, notes: &Notes, k: usize) -> bool
    requires { k < length src.now.lines }
    ensures { (r : Lists) → AreNotes src.now r notes.now.blank.items notes.now.markers.items notes.now.directives.items
        → MatchBool result (IsBeforeMarker src.now r k) (IsBeforeMarker src.now r k → ⊥) }
{
    let lines = src.lines();
    let count = lines.len();
    if k + 1 >= count {
        return false;
    }
    if lines.is_forbidden(k + 1) {
        return true;
    }
    flag(notes.directives.as_slice(), k + 1)
}

/// Returns the start of the line of that index, if it is blank and at fault. All lines from `last` on are blank.
fn misplaced(src: &Src, notes: &Notes, last: usize, k: usize) -> Option<usize>
    requires line { k < length src.now.lines }
    requires last { LastLine notes.now.blank.items last }
    requires count { length notes.now.blank.items ≡ length src.now.lines }
    ensures { (r : Lists) → AreNotes src.now r notes.now.blank.items notes.now.markers.items notes.now.directives.items
        → IsTheOne (MisplacedBlank src.now r k) result }
{
    if !notes.blank[k] {
        return None;
    }
    let start = src.lines().line(k).start;
    if k >= last {
        return Some(start);
    }
    if follows(notes, k) {
        return Some(start);
    }
    if precedes(src, notes, k) {
        return Some(start);
    }
    None
}
