//! Plain scalars that YAML 1.1 and YAML 1.2 read as different types or values.
ghost use Rattle.std.specs.Prelude.{◌≡◌, ◌++◌, List, [], flat_map, is_none, reverse, true, IfOk};
ghost use Rattle.yf_events.specs.Event.{event_value};
ghost use Rattle.yf_events.specs.Tree.{DocumentTree, TreesOf};
ghost use Rattle.yf_guard.specs.Guards as Guards;
ghost use Rattle.yf_lint.specs.AmbiguousPlains as AmbiguousPlains;
ghost use Rattle.yf_lint.specs.AmbiguousPlains.{ambiguous_plains_of, PlainsAgree};
ghost use Rattle.yf_lint.specs.Anchors as Anchors;
ghost use Rattle.yf_lint.specs.EmptyValues as EmptyValues;
ghost use Rattle.yf_lint.specs.PlainPass as PlainPass;
ghost use Rattle.yf_props.specs.Props.{props_value};

use std::alloc::{AllocError, Global};
use yf_events::event::{Event, ScalarStyle, Span};
use yf_events::reading::Reading;
use yf_props::props::Props;
use yf_types::agreement::is_ambiguous;

/// What comes next in an open collection.
#[derive(Clone, Copy)]
pub enum NextNode {
    Item,
    Key,
    Value,
}

fn turned(next: NextNode) -> NextNode
    ensures { result ≡ PlainPass.turned next }
{
    match next {
        NextNode::Item => NextNode::Item,
        NextNode::Key => NextNode::Value,
        NextNode::Value => NextNode::Key,
    }
}

fn node_counts(keys: bool, next: NextNode) -> bool
    ensures { result ≡ PlainPass.node_counts keys next }
{
    match next {
        NextNode::Item => true,
        NextNode::Key => keys,
        NextNode::Value => true,
    }
}

/// Passes a node in the innermost open collection. Returns whether a scalar counts there.
fn pass_node(stack: &mut Vec<NextNode>, keys: bool) -> Result<bool, AllocError>
    ensures stack { IfOk result (λ _. reverse stack.new.items ≡ PlainPass.after (reverse stack.old.items)) }
    ensures counts { IfOk result (λ c. c ≡ PlainPass.counts keys (reverse stack.old.items)) }
{
    match stack.pop() {
        Some(next) => {
            stack.push(turned(next))?;
            Ok(node_counts(keys, next))
        }
        None => Ok(true),
    }
}

/// Passes the end of the innermost open collection.
fn pass_end(stack: &mut Vec<NextNode>)
    ensures { reverse stack.new.items ≡ PlainPass.without_first (reverse stack.old.items) }
{
    match stack.pop() {
        Some(_) => {}
        None => {}
    }
}

fn start_of(span: Option<Span>) -> usize
    ensures { result ≡ Anchors.start_of span }
{
    match span {
        Some(span) => span.start,
        None => 0,
    }
}

fn is_plain(style: ScalarStyle) -> bool
    ensures { result ≡ Guards.is_plain style }
{
    match style {
        ScalarStyle::Plain => true,
        ScalarStyle::Single => false,
        ScalarStyle::Double => false,
        ScalarStyle::Literal => false,
        ScalarStyle::Folded => false,
    }
}

fn has_no_tag(props: &Props) -> bool
    ensures { result ≡ is_none (props_value props.now).tag }
{
    match props.tag {
        Some(_) => false,
        None => true,
    }
}

fn is_at_fault(counts: bool, props: &Props, style: ScalarStyle, text: &str) -> bool
    ensures { result ≡ AmbiguousPlains.is_at_fault counts (props_value props.now) style text.now }
{
    counts && ((is_plain(style) && has_no_tag(props)) && is_ambiguous(text))
}

fn push_if(offsets: &mut Vec<usize>, is_fault: bool, offset: usize) -> Result<(), AllocError>
    ensures { IfOk result (λ _. offsets.new.items ≡ offsets.old.items ++ EmptyValues.offset_if is_fault offset) }
{
    if is_fault {
        offsets.push(offset)?;
    }
    Ok(())
}

/// Passes one event with its start.
fn pass(
    event: Event,
    start: usize,
    keys: bool,
    stack: &mut Vec<NextNode>,
    offsets: &mut Vec<usize>,
) -> Result<(), AllocError>
    ensures stack { IfOk result (λ _. reverse stack.new.items
        ≡ PlainPass.next (event_value event.entry) (reverse stack.old.items)) }
    ensures offsets { IfOk result (λ _. offsets.new.items ≡ offsets.old.items
        ++ PlainPass.found_by keys (event_value event.entry) start (reverse stack.old.items)) }
{
    match event {
        Event::Scalar { props, style, text } => {
            let counts = pass_node(stack, keys)?;
            push_if(offsets, is_at_fault(counts, &props, style, text), start)
        }
        Event::Alias { .. } => {
            pass_node(stack, keys)?;
            Ok(())
        }
        Event::SeqStart { .. } => {
            pass_node(stack, keys)?;
            stack.push(NextNode::Item)?;
            Ok(())
        }
        Event::MapStart { .. } => {
            pass_node(stack, keys)?;
            stack.push(NextNode::Key)?;
            Ok(())
        }
        Event::SeqEnd => {
            pass_end(stack);
            Ok(())
        }
        Event::MapEnd => {
            pass_end(stack);
            Ok(())
        }
        Event::StreamStart => Ok(()),
        Event::StreamEnd => Ok(()),
        Event::DocStart { .. } => Ok(()),
        Event::DocEnd { .. } => Ok(()),
    }
}

/// Returns the byte offsets of the untagged plain scalars that YAML 1.1, as PyYAML resolves them, and the core schema
/// of YAML 1.2 read as different types or values, in their order. The offset is that of the node with its properties.
/// Scalars that are keys of mappings are left out unless `keys` is set. Scalars with a tag are left out, also those with
/// the tag `!`, which PyYAML ignores.
///
/// The time is linear in the length of the text.
pub fn ambiguous_plains(
    alloc: Global,
    reading: &Reading,
    keys: bool,
) -> Result<Vec<usize>, AllocError>
    ensures { IfOk result (λ offsets. (trees : List DocumentTree) → TreesOf reading.now trees
        → offsets.items ≡ flat_map (ambiguous_plains_of keys) trees) }
{
    let mut stack = Vec::new(alloc);
    let mut offsets = Vec::new(alloc);
    for i in 0..reading.len() {
        let start = start_of(reading.span(i));
        pass(reading.event(i), start, keys, &mut stack, &mut offsets)?;
    }
    Ok(offsets)
}

/// Does nothing. If no plain scalar is ambiguous, keys included, YAML 1.1 and YAML 1.2 give each untagged plain scalar
/// one type and one value.
pub fn unambiguous_plains_agree(_reading: &Reading)
    ensures { (trees : List DocumentTree) → TreesOf _reading.now trees → flat_map (ambiguous_plains_of true) trees ≡ []
        → PlainsAgree _reading.now.events }
{}
