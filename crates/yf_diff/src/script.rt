//! Edit scripts between two texts.
ghost use Rattle.std.specs.Prelude.{◌≡◌, ◌+◌, ◌<◌, ◌≤◌, ◌++◌, ◌∷◌, [], length, drop, true, IsTrue, IfOk, is_ok, if◌then◌else◌};
ghost use Rattle.yf_diff.specs.Script.{in_order, news, olds};
ghost use Rattle.yf_diff.specs.Walk.{IsCommon, May};

use crate::fate::Fate;
use crate::hashed_line::HashedLine;
use crate::search::Search;
use crate::single_lines::Indices;
use crate::step::Step;
use std::alloc::{AllocError, Global};

/// Returns whether both texts have equal lines there.
fn is_common(old: &[HashedLine<'_>], i: usize, new: &[HashedLine<'_>], j: usize) -> bool
    ensures { IsTrue result → IsCommon old.now i new.now j }
{
    if i >= old.len() {
        return false;
    }
    if j >= new.len() {
        return false;
    }
    old[i].hash() == new[j].hash() && old[i].text() == new[j].text()
}

/// Decides about the next lines of both texts, one of which hasn't ended. `is_same` says whether they are equal, and
/// `goes` whether to drop the old line before adding the new one.
fn fate(
    is_same: bool,
    goes: bool,
    old: &[HashedLine<'_>],
    i: usize,
    new: &[HashedLine<'_>],
    j: usize,
) -> Fate
    requires left { i + j < length old.now + length new.now }
    requires in_old { i ≤ length old.now }
    requires in_new { j ≤ length new.now }
    requires same { IsTrue is_same → IsCommon old.now i new.now j }
    ensures { May result old.now i new.now j }
{
    if is_same {
        return Fate::Kept;
    }
    if i >= old.len() {
        return Fate::Added;
    }
    if j >= new.len() {
        return Fate::Dropped;
    }
    if goes {
        return Fate::Dropped;
    }
    Fate::Added
}

/// Adds steps that add the lines of the new text from `from` to `to`.
fn push_added<'a>(
    steps: &mut Vec<Step<'a>>,
    new: &[HashedLine<'a>],
    from: usize,
    to: usize,
) -> Result<(), AllocError>
    requires order { from ≤ to }
    requires within { to ≤ length new.now }
    ensures olds { IfOk result (λ _. olds steps.new.items ≡ olds steps.old.items) }
    ensures news { IfOk result (λ _. news steps.new.items ++ drop to new.now ≡ news steps.old.items ++ drop from new.now) }
    ensures order { IfOk result (λ _. in_order steps.new.items ≡ in_order steps.old.items) }
{
    let mut index = from;
    while index < to {
        steps.push(Step::new(Fate::Added, new[index].text()))?;
        index += 1;
    }
    Ok(())
}

/// Returns a script from the lines of one text to those of another. Between two kept lines, dropped lines come before
/// added ones.
pub fn script<'a>(
    alloc: Global,
    old: &[HashedLine<'a>],
    new: &[HashedLine<'a>],
) -> Result<Vec<Step<'a>>, AllocError>
    ensures olds { IfOk result (λ steps. olds steps.items ≡ old.now) }
    ensures news { IfOk result (λ steps. news steps.items ≡ new.now) }
    ensures order { IfOk result (λ steps. in_order steps.items ≡ true) }
{
    let mut steps = Vec::new(alloc);
    let mut search = Search::new(alloc, old, new)?;
    let mut i = 0;
    let mut j = 0;
    let mut from = 0;
    while i < old.len() || j < new.len() {
        let is_same = is_common(old, i, new, j);
        let goes = if is_same {
            false
        } else {
            search.drops(alloc, old, new, Indices { old: i, new: j })?
        };
        match fate(is_same, goes, old, i, new, j) {
            Fate::Kept => {
                push_added(&mut steps, new, from, j)?;
                steps.push(Step::new(Fate::Kept, old[i].text()))?;
                i += 1;
                j += 1;
                from = j;
            }
            Fate::Dropped => {
                steps.push(Step::new(Fate::Dropped, old[i].text()))?;
                i += 1;
            }
            Fate::Added => {
                j += 1;
            }
        }
    }
    push_added(&mut steps, new, from, j)?;
    Ok(steps)
}
