//! Anchors that no alias uses, and anchors that are defined again in their document (YAML 1.2.2, section 3.2.2.2).
ghost use Rattle.std.specs.Prelude.{◌≡◌, ◌++◌, ℕ, Bool, List, [], reverse, IfOk};
ghost use Rattle.yf_events.specs.Event.{event_value};
ghost use Rattle.yf_lint.specs.Anchors as Anchors;
ghost use Rattle.yf_lint.specs.Anchors.{has, or_named, repeated, unless_defined, unused, unused_at, used_from};
ghost use Rattle.yf_lint.specs.NameSets.{IsNameSet};
ghost use Rattle.yf_props.specs.Props.{name_value};

use std::alloc::{AllocError, Global};
use std::collections::BTreeSet;
use yf_events::event::{Event, Span};
use yf_events::reading::Reading;

fn start_of(span: Option<Span>) -> usize
    ensures { result ≡ Anchors.start_of span }
{
    match span {
        Some(span) => span.start,
        None => 0,
    }
}

/// Adds a name to a set: whether it was there already.
fn add_name<'r>(names: &mut BTreeSet<&'r str>, name: &'r str) -> Result<bool, AllocError>
    ensures { IfOk result (λ was. (test : List ℕ → Bool) → IsNameSet test names.old
        → IsNameSet (or_named name.entry.now test) names.new × (was ≡ test name.entry.now)) }
{
    let is_new = names.insert(name)?;
    Ok(!is_new)
}

/// Takes a name out of a set: whether it was there.
fn take_name<'r>(names: &mut BTreeSet<&'r str>, name: &'r str) -> bool
    ensures { (test : List ℕ → Bool) → IsNameSet test names.old
        → IsNameSet (unless_defined (Some name.entry.now) test) names.new × (result ≡ test name.entry.now) }
{
    names.remove(&name)
}

/// Passes a node with the anchor, going back. The start of the node is at fault if the name isn't used later.
fn pass_anchor<'r>(
    anchor: Option<&'r str>,
    span: Option<Span>,
    names: &mut BTreeSet<&'r str>,
    offsets: &mut Vec<usize>,
) -> Result<(), AllocError>
    ensures { IfOk result (λ _. (later : List ℕ → Bool) → IsNameSet later names.old
        → IsNameSet (unless_defined (name_value anchor.entry) later) names.new
        × (reverse offsets.new.items ≡ unused_at (name_value anchor.entry) (Anchors.start_of span) later ++ reverse offsets.old.items)) }
{
    match anchor {
        Some(name) => {
            if take_name(names, name) {
                return Ok(());
            }
            offsets.push(start_of(span))?;
            Ok(())
        }
        None => Ok(()),
    }
}

/// Passes one event with its span, going back.
fn pass_back<'r>(
    event: Event<'r>,
    span: Option<Span>,
    names: &mut BTreeSet<&'r str>,
    offsets: &mut Vec<usize>,
) -> Result<(), AllocError>
    ensures { IfOk result (λ _. (later : List ℕ → Bool) → IsNameSet later names.old
        → IsNameSet (used_from (event_value event.entry) later) names.new
        × (reverse offsets.new.items ≡ unused_at (Anchors.anchor_of (event_value event.entry)) (Anchors.start_of span) later ++ reverse offsets.old.items)) }
{
    match event {
        Event::Scalar { props, .. } => pass_anchor(props.anchor, span, names, offsets),
        Event::SeqStart { props, .. } => pass_anchor(props.anchor, span, names, offsets),
        Event::MapStart { props, .. } => pass_anchor(props.anchor, span, names, offsets),
        Event::Alias { name } => {
            add_name(names, name)?;
            Ok(())
        }
        Event::DocEnd { .. } => {
            names.clear();
            Ok(())
        }
        Event::SeqEnd => Ok(()),
        Event::MapEnd => Ok(()),
        Event::StreamStart => Ok(()),
        Event::StreamEnd => Ok(()),
        Event::DocStart { .. } => Ok(()),
    }
}

/// Returns the byte offsets of the nodes whose anchors no alias uses, the last first: no alias with the name follows in
/// the document before a node defines the name again.
///
/// The time is linear, up to a logarithm, in the number of events.
pub fn unused_anchors(alloc: Global, reading: &Reading) -> Result<Vec<usize>, AllocError>
    ensures { IfOk result (λ offsets. reverse offsets.items ≡ unused reading.now.events) }
{
    let mut names = BTreeSet::new(alloc);
    let mut offsets = Vec::new(alloc);
    let mut i = reading.len();
    while i > 0 {
        i -= 1;
        pass_back(reading.event(i), reading.span(i), &mut names, &mut offsets)?;
    }
    Ok(offsets)
}

/// Adds the start of a node if its anchor is among the names, and the anchor to the names.
fn pass_again<'r>(
    anchor: Option<&'r str>,
    span: Option<Span>,
    names: &mut BTreeSet<&'r str>,
    offsets: &mut Vec<usize>,
) -> Result<(), AllocError>
    ensures { IfOk result (λ _. (before : List (List ℕ)) → IsNameSet (has before) names.old
        → IsNameSet (has (Anchors.with_anchor (name_value anchor.entry) before)) names.new
        × (offsets.new.items ≡ offsets.old.items ++ Anchors.repeated_at before (name_value anchor.entry) (Anchors.start_of span))) }
{
    match anchor {
        Some(name) => {
            if add_name(names, name)? {
                offsets.push(start_of(span))?;
            }
            Ok(())
        }
        None => Ok(()),
    }
}

/// Passes one event with its span.
fn pass_on<'r>(
    event: Event<'r>,
    span: Option<Span>,
    names: &mut BTreeSet<&'r str>,
    offsets: &mut Vec<usize>,
) -> Result<(), AllocError>
    ensures { IfOk result (λ _. (before : List (List ℕ)) → IsNameSet (has before) names.old
        → IsNameSet (has (Anchors.names_after (event_value event.entry) before)) names.new
        × (offsets.new.items ≡ offsets.old.items ++ Anchors.repeated_at before (Anchors.anchor_of (event_value event.entry)) (Anchors.start_of span))) }
{
    match event {
        Event::Scalar { props, .. } => pass_again(props.anchor, span, names, offsets),
        Event::SeqStart { props, .. } => pass_again(props.anchor, span, names, offsets),
        Event::MapStart { props, .. } => pass_again(props.anchor, span, names, offsets),
        Event::DocStart { .. } => {
            names.clear();
            Ok(())
        }
        Event::Alias { .. } => Ok(()),
        Event::SeqEnd => Ok(()),
        Event::MapEnd => Ok(()),
        Event::StreamStart => Ok(()),
        Event::StreamEnd => Ok(()),
        Event::DocEnd { .. } => Ok(()),
    }
}

/// Returns the byte offsets of the nodes with anchors that an earlier node of their document has too.
///
/// The time is linear, up to a logarithm, in the number of events.
pub fn repeated_anchors(alloc: Global, reading: &Reading) -> Result<Vec<usize>, AllocError>
    ensures { IfOk result (λ offsets. offsets.items ≡ repeated [] reading.now.events) }
{
    let mut names = BTreeSet::new(alloc);
    let mut offsets = Vec::new(alloc);
    for i in 0..reading.len() {
        pass_on(reading.event(i), reading.span(i), &mut names, &mut offsets)?;
    }
    Ok(offsets)
}
