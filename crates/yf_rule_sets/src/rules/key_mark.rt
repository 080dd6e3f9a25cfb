//! Rule 13, key-mark.
ghost use Rattle.std.specs.Prelude.{◌≡◌, ◌<◌, ℕ, false, true, if◌then◌else◌, List, None, Some, length, slice_get, IfOk, IfSome};
ghost use Rattle.yf_forms.specs.declared.style.Style.{Style};
ghost use Rattle.yf_forms.specs.Nodes.ImplicitKeys.{is_atom, is_implicit_atom};
ghost use Rattle.yf_events.specs.Event.{EventValue, event_value};
ghost use Rattle.yf_events.specs.Reading.{events_of};
ghost use Rattle.yf_events.specs.Tree.{DocumentTree};
ghost use Rattle.yf_rule_sets.specs.RuleSets.Exact.{IsTheOne};
ghost use Rattle.yf_rule_sets.specs.RuleSets.Layouts.{NeedlessMark};
ghost use Rattle.yf_rule_sets.specs.Passes.BlockKeys.{AnswersAtom};
ghost use Rattle.yf_rule_sets.specs.Passes.MarkedKeys.{TellsKeys};
ghost use Rattle.yf_rule_sets.specs.RuleSets.QuestionMarks.{IsMarked};
ghost use Rattle.yf_rule_sets.specs.Passes.OuterFlow.{FlowsDone};
ghost use Rattle.yf_rule_sets.specs.Sets.{key_mark_at};

use crate::facts::block_keys::{Role, pass};
use crate::facts::found::{AllocError, FoundOffsets, Global, Reading, Src, Style, push_found};
use crate::facts::outer_flow::past_flow;
use crate::facts::whites::has_question_mark;
pub use crate::rules::StyleRule::KeyMark;
use yf_events::event::Event;
use yf_forms::form::decide::decide;
use yf_forms::form::forms::Forms;
use yf_forms::form::keys::is_implicit_atom;
use yf_forms::form::measure::measure_all;

/// Returns the `?` of each entry of a block mapping whose key the house style writes without it.
pub fn offsets(alloc: Global, src: &Src, reading: &Reading, style: &Style) -> FoundOffsets
    ensures { IfOk result (λ offsets. key_mark_at src.now reading.now style.now offsets.items) }
{
    if !has_marks(src, reading) {
        return Ok(Vec::new(alloc));
    }
    match without_forms(alloc, src, reading, style)? {
        Some(offsets) => Ok(offsets),
        None => by_forms(alloc, src, reading, style),
    }
}

/// Finds the faults from the forms of all nodes, because the column of an entry may decide whether a collection is
/// written without `?`.
fn by_forms(alloc: Global, src: &Src, reading: &Reading, style: &Style) -> FoundOffsets
    ensures { IfOk result (λ offsets. key_mark_at src.now reading.now style.now offsets.items) }
{
    let measures = measure_all(alloc, src, reading, style)?;
    let forms = decide(alloc, &measures, reading, style)?;
    let mut offsets = Vec::new(alloc);
    let mut done = 0;
    for i in 0..reading.len() {
        push_found(&mut offsets, needless(src, reading, &forms, i, done))?;
        done = past_flow(reading, &measures, i, done);
    }
    Ok(offsets)
}

/// Finds the faults without forms, or returns `None` if a key after a `?` is a collection. Whether a scalar or an alias
/// is written without `?` depends on nothing around it.
fn without_forms(
    alloc: Global,
    src: &Src,
    reading: &Reading,
    style: &Style,
) -> Result<Option<Vec<usize>>, AllocError>
    ensures { IfOk result (λ answer. IfSome answer (λ offsets. key_mark_at src.now reading.now style.now offsets.items)) }
{
    let mut offsets = Vec::new(alloc);
    let mut stack: Vec<Role> = Vec::new(alloc);
    for i in 0..reading.len() {
        let role = pass(&mut stack, reading, i)?;
        match needless_atom(src, reading, style, i, role) {
            Some(mark) => push_found(&mut offsets, mark)?,
            None => return Ok(None),
        }
    }
    Ok(Some(offsets))
}

/// Returns the `?` before the event, if the event is a scalar or an alias, a key, and written without `?` in the house
/// style; otherwise `Some(None)`. Returns `None` if the key after a `?` is a collection, because this pass can't decide
/// on it.
fn needless_atom(
    src: &Src,
    reading: &Reading,
    style: &Style,
    i: usize,
    role: Role,
) -> Option<Option<usize>>
    requires { i < length reading.now.events }
    ensures { IfSome result (λ answer. (v : EventValue) → slice_get (events_of reading.now) i ≡ Some v
        → AnswersAtom src.now.text reading.now style.now i role v answer) }
{
    if !matches!(role, Role::Key) {
        return Some(None);
    }
    match mark_of(src, reading, i) {
        Some(mark) => mark_if_needless(&reading.event(i), mark, style),
        None => Some(None),
    }
}

/// Decides for a key after the `?` at an offset.
fn mark_if_needless(key: &Event, mark: usize, style: &Style) -> Option<Option<usize>>
    ensures { IfSome result (λ answer. (is_atom (event_value key.now) ≡ true)
        × (answer ≡ if is_implicit_atom style.now (event_value key.now) then Some mark else None)) }
{
    match key {
        Event::Scalar { .. } | Event::Alias { .. } => {
            if is_implicit_atom(key, style) {
                return Some(Some(mark));
            }
            Some(None)
        }
        _ => None,
    }
}

/// Returns the `?` of the entry that the event begins, if it has one.
fn mark_of(src: &Src, reading: &Reading, i: usize) -> Option<usize>
    requires { i < length reading.now.events }
    ensures { IsTheOne (IsMarked src.now.text reading.now i) result }
{
    match reading.entry(i) {
        Some(entry) => {
            if has_question_mark(src.text(), entry) {
                return Some(entry.start);
            }
            None
        }
        None => None,
    }
}

/// Returns whether any entry is written with a `?`.
fn has_marks(src: &Src, reading: &Reading) -> bool
    ensures { result ≡ false → (i o : ℕ) → IsMarked src.now.text reading.now i o → ⊥ }
{
    for i in 0..reading.len() {
        match mark_of(src, reading, i) {
            Some(_) => return true,
            None => {}
        }
    }
    false
}

/// Returns the `?` before the key, if the house style writes the key without it. Keys that begin up to the event of the
/// index `done` are in a flow collection.
fn needless(src: &Src, reading: &Reading, forms: &Forms, i: usize, done: usize) -> Option<usize>
    requires { i < length reading.now.events }
    ensures { (house : Style) (trees : List DocumentTree) → TellsKeys src.now.text reading.now house trees forms.now
        → FlowsDone reading.now.events i done → IsTheOne (NeedlessMark src.now reading.now house trees i) result }
{
    if i <= done {
        return None;
    }
    if forms.at(i).is_implicit {
        return mark_of(src, reading, i);
    }
    None
}
