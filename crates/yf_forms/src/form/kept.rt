//! The text of a flow collection that is kept on one line.
ghost use Rattle.std.specs.Prelude.{◌≡◌, [], ◌∷◌, ◌++◌, encode_utf8, false, get_or, option_map, reverse, IfErr, IfOk, OnOk};
ghost use Rattle.std.specs.String.{string_bytes};
ghost use Rattle.yf_props.specs.Props.{props_value};
ghost use Rattle.yf_events.specs.Event.{event_value};
ghost use Rattle.yf_forms.specs.Nodes.FlowTexts.{TellsFlow, text_measured};
ghost use Rattle.yf_forms.specs.Nodes.SingleNodes.{AddsKept};
ghost use Rattle.yf_forms.specs.NormalForms.Measures.{IsKeptText, TellsKept, no_measure};
ghost use Rattle.yf_forms.specs.NormalForms.Normal.{setting_of};
ghost use Rattle.yf_forms.specs.NormalForms.Textual.{CommentsAscend};
ghost use Rattle.yf_forms.specs.Passes.OneLinePass as OneLineRun;
ghost use Rattle.yf_forms.specs.Passes.OneLinePass.{added, expected_after_in, between, next_open, outside, run, separator_in};

use crate::form::measure::measure_all;
use crate::form::measures::Measures;
use crate::style::Style;
use crate::text::wanted::wanted_of;
use crate::text::written::{has_props, push_props_before, push_scalar};
use std::alloc::{AllocError, Global};
use yf_events::event::Event;
use yf_events::reading::Reading;
use yf_lines::fault::Fault;
use yf_lines::source_text::Src;
use yf_props::props::Props;

/// The next node or bracket between two brackets.
#[derive(Clone, Copy)]
enum Expected {
    FirstItem,
    Item,
    FirstKey,
    Key,
    Value,
    /// The value of a key that is an alias.
    ValueOfAlias,
}

/// Appends the separator before a node: nothing, a comma, or the `:` of its key.
#[inline(always)]
fn push_separator(out: &mut String, expected: Expected) -> Result<(), AllocError>
    ensures { OnOk result (string_bytes out.new ≡ string_bytes out.old ++ OneLineRun.separator expected) }
{
    match expected {
        Expected::FirstItem | Expected::FirstKey => Ok(()),
        Expected::Item | Expected::Key => out.push_str(", "),
        Expected::Value => out.push_str(": "),
        Expected::ValueOfAlias => out.push_str(" : "),
    }
}

/// Returns the node or bracket that comes after a node.
fn expected_after(is_alias: bool, expected: Expected) -> Expected
    ensures { result ≡ OneLineRun.expected_after is_alias expected }
{
    match expected {
        Expected::FirstItem | Expected::Item => Expected::Item,
        Expected::FirstKey | Expected::Key => {
            if is_alias {
                return Expected::ValueOfAlias;
            }
            Expected::Value
        }
        Expected::Value | Expected::ValueOfAlias => Expected::Key,
    }
}

/// The next node or bracket for each pair of open brackets, the innermost last.
#[derive(Drop)]
struct Brackets {
    open: Vec<Expected>,
}

impl Brackets {
    /// Appends the separator before the next node, and passes the node.
    fn before_node(&mut self, out: &mut String, is_alias: bool) -> Result<(), AllocError>
        ensures adds { OnOk result (string_bytes out.new ≡ string_bytes out.old ++ separator_in (reverse self.old.open.items)) }
        ensures next { OnOk result (reverse self.new.open.items ≡ expected_after_in is_alias (reverse self.old.open.items)) }
    {
        match self.open.pop() {
            Some(expected) => {
                push_separator(out, expected)?;
                self.open.push(expected_after(is_alias, expected))?;
                Ok(())
            }
            None => Ok(()),
        }
    }

    /// Appends the separator and the properties before the text of a node other than an alias.
    #[inline(always)]
    fn before_text(&mut self, out: &mut String, props: &Props) -> Result<(), AllocError>
        ensures adds { OnOk result (string_bytes out.new ≡ string_bytes out.old ++ OneLineRun.before_text (reverse self.old.open.items)
            (props_value props.now)) }
        ensures next { OnOk result (reverse self.new.open.items ≡ expected_after_in false (reverse self.old.open.items)) }
    {
        self.before_node(out, false)?;
        if !has_props(props) {
            return Ok(());
        }
        let written = Props {
            anchor: props.anchor,
            tag: props.tag,
        };
        push_props_before(out, &written)
    }

    /// Appends the separator and the properties before a collection's bracket, but not the properties of the
    /// outermost collection.
    #[inline(always)]
    fn before_bracket(&mut self, out: &mut String, props: &Props) -> Result<(), AllocError>
        ensures adds { OnOk result (string_bytes out.new ≡ string_bytes out.old ++ OneLineRun.before_bracket (reverse self.old.open.items)
            (props_value props.now)) }
        ensures next { OnOk result (reverse self.new.open.items ≡ expected_after_in false (reverse self.old.open.items)) }
    {
        if self.open.is_empty() {
            return Ok(());
        }
        self.before_text(out, props)
    }

    /// Begins a collection with these properties. `first` comes first between its brackets.
    #[inline(always)]
    fn begin(
        &mut self,
        out: &mut String,
        props: &Props,
        bracket: char,
        first: Expected,
    ) -> Result<(), AllocError>
        ensures adds { OnOk result (string_bytes out.new ≡ string_bytes out.old ++ (OneLineRun.before_bracket (reverse self.old.open.items)
            (props_value props.now) ++ encode_utf8 bracket)) }
        ensures next { OnOk result (reverse self.new.open.items ≡ first ∷ expected_after_in false (reverse self.old.open.items)) }
    {
        self.before_bracket(out, props)?;
        out.push(bracket)?;
        self.open.push(first)?;
        Ok(())
    }

    /// Ends the innermost collection.
    fn close(&mut self, out: &mut String, bracket: char) -> Result<(), AllocError>
        ensures adds { OnOk result (string_bytes out.new ≡ string_bytes out.old ++ encode_utf8 bracket) }
        ensures next { OnOk result (reverse self.new.open.items ≡ outside (reverse self.old.open.items)) }
    {
        let _ = self.open.pop();
        out.push(bracket)
    }

    /// Appends what one event adds.
    #[inline(always)]
    fn push_event(
        &mut self,
        out: &mut String,
        event: &Event,
        house: &Style,
    ) -> Result<(), AllocError>
        ensures adds { OnOk result (string_bytes out.new ≡ string_bytes out.old ++ added house.now (reverse self.old.open.items)
            (event_value event.now)) }
        ensures next { OnOk result (reverse self.new.open.items ≡ next_open (reverse self.old.open.items) (event_value event.now)) }
    {
        match event {
            Event::Scalar { props, style, text } => {
                self.before_text(out, props)?;
                push_scalar(out, wanted_of(*style, text, house), text, house)
            }
            Event::Alias { name } => {
                self.before_node(out, true)?;
                out.push('*')?;
                out.push_str(name)
            }
            Event::SeqStart { props, .. } => self.begin(out, props, '[', Expected::FirstItem),
            Event::MapStart { props, .. } => self.begin(out, props, '{', Expected::FirstKey),
            Event::SeqEnd => self.close(out, ']'),
            Event::MapEnd => self.close(out, '}'),
            Event::StreamStart | Event::StreamEnd | Event::DocStart { .. } | Event::DocEnd { .. } =>
                Ok(()),
        }
    }
}

/// Appends the text that the events from one index to the other add.
fn push_between(
    text: &mut String,
    brackets: &mut Brackets,
    reading: &Reading,
    first: usize,
    last: usize,
    style: &Style,
) -> Result<(), AllocError>
    ensures { OnOk result (string_bytes text.new ≡ string_bytes text.old ++ run style.now (reverse brackets.old.open.items)
        (between first last reading.now.events)) }
{
    for k in first..reading.len() {
        if last < k {
            break;
        }
        brackets.push_event(text, &reading.event(k), style)?;
    }
    Ok(())
}

/// Returns the text on one line, from bracket to bracket, of the flow collection that the event at an index begins.
///
/// Returns `None` if the collection can't be kept at any column: a comment is between its brackets, or it holds an
/// empty scalar or a plain one that does not stay plain. Returns `None` too for an empty collection, and for an event
/// that begins no flow collection. The measures are those of the reading; for a flow collection, those of flow
/// collections are enough.
pub fn kept_text_of(
    alloc: Global,
    measures: &Measures,
    reading: &Reading,
    i: usize,
    style: &Style,
) -> Result<Option<String>, AllocError>
    ensures kept { IfOk result (λ o. TellsKept reading.now.events style.now measures.now i (option_map string_bytes o)) }
    ensures exact { IfOk result (λ o. option_map string_bytes o
        ≡ text_measured style.now reading.now.events i (get_or measures.now i no_measure)) }
    ensures tells { IfOk result (λ o. TellsFlow reading.now.events style.now measures.now i (option_map string_bytes o)) }
{
    let measure = measures.at(i);
    if !measure.can_be_kept {
        return Ok(None);
    }
    let mut text = String::new(alloc);
    push_kept(alloc, &mut text, reading, i, measure.last, style)?;
    Ok(Some(text))
}

/// Appends the flow collection with the events from one index to the other, on one line from bracket to bracket.
pub fn push_kept(
    alloc: Global,
    text: &mut String,
    reading: &Reading,
    first: usize,
    last: usize,
    style: &Style,
) -> Result<(), AllocError>
    ensures run { OnOk result (string_bytes text.new ≡ string_bytes text.old ++ run style.now []
        (between first last reading.now.events)) }
    ensures kept { OnOk result (AddsKept reading.now.events style.now first last (string_bytes text.old) (string_bytes text.new)) }
{
    let mut brackets = Brackets {
        open: Vec::new(alloc),
    };
    push_between(text, &mut brackets, reading, first, last, style)?;
    Ok(())
}

fn kept_within(
    alloc: Global,
    src: &Src,
    reading: &Reading,
    i: usize,
    style: &Style,
) -> Result<Option<String>, AllocError>
    ensures { IfOk result (λ o. CommentsAscend reading.now
        → IsKeptText src.now.text (setting_of reading.now style.now) reading.now.events i (option_map string_bytes o)) }
{
    let measures = measure_all(alloc, src, reading, style)?;
    kept_text_of(alloc, &measures, reading, i, style)
}

/// Returns the text on one line, from bracket to bracket, of the flow collection that the event at an index begins in
/// a reading of the text: `[a, b]`, `{a: b}`, and a single pair as `[{a: b}]`.
///
/// Returns `None` if the collection can't be kept at any length of lines: a comment is between its brackets, or it
/// holds an empty scalar or a plain one that does not stay plain. Returns `None` too for an empty collection, and for
/// an event that begins no flow collection.
///
/// # Errors
///
/// Fails with `Fault::Memory` if the allocator refuses memory.
pub fn kept_text(
    alloc: Global,
    src: &Src,
    reading: &Reading,
    i: usize,
    style: &Style,
) -> Result<Option<String>, Fault>
    ensures text { IfOk result (λ o. CommentsAscend reading.now
        → IsKeptText src.now.text (setting_of reading.now style.now) reading.now.events i (option_map string_bytes o)) }
    ensures refused { IfErr result (λ fault. fault ≡ Fault.Memory) }
{
    match kept_within(alloc, src, reading, i, style) {
        Ok(text) => Ok(text),
        Err(AllocError) => Err(Fault::Memory),
    }
}
