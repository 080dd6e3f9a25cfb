//! The resolved tags of a stream (YAML 1.2.2, section 6.9.1), and the first breach in it.
ghost use Rattle.std.specs.Prelude.{◌≡◌, ◌≤◌, ◌<◌, [], ◌∷◌, ◌++◌, false, drop, length, IfOk};
ghost use Rattle.yf_props.specs.Props.{name_value, optional_tag_value};
ghost use Rattle.yf_events.specs.Event.{event_value, props_of};
ghost use Rattle.yf_stream.specs.TagPass.{AllPassed, EventAt, FirstOf, FirstOfBoth, PassTags, EventPassed, TagsResolved, SameDeclarations, SameNames, StartsDocument, TagAdded, TagOf, directives_of, stream_breaches};
ghost use Rattle.yf_stream.specs.BareRun.{BarePassed};
ghost use Rattle.yf_stream.specs.TagPass as TagPass;
ghost use Rattle.yf_stream.specs.WellFormed.{alias_breaches, alias_of, breach_if, declarations, directive_breaches, is_unknown, offset_or, start_or, with_name};

use crate::anchors::Anchors;
use crate::breaches::{Breach, BreachKind, keep_escapes, keep_if};
use crate::declarations::declare_all;
use crate::prefixes::Prefixes;
use std::alloc::{AllocError, Global};
use yf_events::document::{Doc, Documents};
use yf_events::event::Event;
use yf_events::events::Events;
use yf_events::tags::Tags;
use yf_events::values::Values;
use yf_lines::fault::Fault;
use yf_props::props::{Props, Tag};
use yf_props::resolved::ResolvedTag;

/// The resolved tag of the node that each event begins, and the first breach, if any.
#[derive(Drop)]
pub(crate) struct Resolved<'a> {
    pub(crate) tags: Tags<'a>,
    pub(crate) first: Option<Breach>,
}

/// Resolves all tags of a stream, and finds the first breach.
pub(crate) fn resolve<'a>(
    alloc: Global,
    events: &Events<'a>,
    documents: &Documents<'a>,
    escapes: &Values<usize>,
    resolved: &mut Resolved<'a>,
) -> Result<(), AllocError>
    requires nothing { resolved.old ≡ record { tags = []; first = None } }
    ensures first { IfOk result (λ _. FirstOf (stream_breaches documents.now events.now escapes.now) resolved.new.first) }
    ensures tags { IfOk result (λ _. resolved.new.first ≡ None → PassTags documents.now [] events.now resolved.new.tags) }
{
    keep_escapes(&mut resolved.first, escapes.as_slice());
    let documents = documents.as_slice();
    let mut at = resolve_events(alloc, events, 0, None, resolved)?;
    let mut begun = 0;
    'documents: while at < events.len() {
        resolved.tags.push(None)?;
        at = resolve_events(alloc, events, at + 1, documents.get(begun), resolved)?;
        begun += 1;
    }
    Ok(())
}

// Resolves the tags of the events from an index on, in a document with these directives, up to the start of the next
// document. Returns the index of that start, or of the end.
fn resolve_events<'e, 'a>(
    alloc: Global,
    events: &'e Events<'a>,
    start: usize,
    document: Option<&Doc<'a>>,
    resolved: &mut Resolved<'a>,
) -> Result<usize, AllocError>
    requires { start ≤ length events.now }
    ensures end { IfOk result (λ end. (start ≤ end) × (end ≤ length events.now)) }
    ensures next { IfOk result (λ end. StartsDocument (drop end events.now)) }
    ensures resolves { IfOk result (λ end. TagsResolved events.now (directives_of document.entry) start end
        resolved.old.first resolved.new.first resolved.old.tags resolved.new.tags) }
{
    let mut handles = Prefixes::new(alloc);
    let mut anchors = Anchors::new(alloc);
    resolve_from(
        alloc,
        events,
        start,
        document,
        &mut handles,
        &mut anchors,
        resolved,
    )
}

// Does the work of `resolve_events`, with no handles and no anchors yet. It skips runs of events that name nothing.
fn resolve_from<'e, 'a>(
    alloc: Global,
    events: &'e Events<'a>,
    start: usize,
    document: Option<&Doc<'a>>,
    handles: &mut Prefixes<'a>,
    anchors: &mut Anchors<'e>,
    resolved: &mut Resolved<'a>,
) -> Result<usize, AllocError>
    requires start { start ≤ length events.now }
    requires handles { handles.old ≡ [] }
    requires anchors { anchors.old ≡ [] }
    ensures end { IfOk result (λ end. (start ≤ end) × (end ≤ length events.now)) }
    ensures next { IfOk result (λ end. StartsDocument (drop end events.now)) }
    ensures resolves { IfOk result (λ end. TagsResolved events.now (directives_of document.entry) start end
        resolved.old.first resolved.new.first resolved.old.tags resolved.new.tags) }
{
    declare_handles(document, handles, &mut resolved.first)?;
    let mut at = pass_bare(events, start, &mut resolved.tags)?;
    'events: while at < events.len() {
        if document_starts(events, at) {
            return Ok(at);
        }
        add_tag(alloc, events, at, handles, resolved)?;
        note_event(
            events.event(at),
            start_of(events, at),
            anchors,
            &mut resolved.first,
        )?;
        at = pass_bare(events, at + 1, &mut resolved.tags)?;
    }
    Ok(at)
}

// Passes the events that name nothing, up to the next one that may name something, or the end.
#[inline(always)]
fn pass_bare(events: &Events, at: usize, tags: &mut Tags) -> Result<usize, AllocError>
    requires { at ≤ length events.now }
    ensures end { IfOk result (λ end. (at ≤ end) × (end ≤ length events.now)) }
    ensures passed { IfOk result (λ end. BarePassed events.now at end tags.old tags.new) }
{
    let end = events.naming_from(at);
    tags.push_none(end - at)?;
    Ok(end)
}

// Returns whether a document starts at an index.
#[inline(always)]
fn document_starts(events: &Events, at: usize) -> bool
    requires { at < length events.now }
    ensures { EventAt events.now at (λ e. result ≡ TagPass.starts_document e.event) }
{
    starts_document(&events.event(at))
}

#[inline(always)]
fn starts_document(event: &Event) -> bool
    ensures { result ≡ TagPass.starts_document (event_value event.now) }
{
    matches!(event, Event::DocStart { .. })
}

// Adds the resolved tag of an event.
fn add_tag<'a>(
    alloc: Global,
    events: &Events<'a>,
    at: usize,
    handles: &Prefixes<'a>,
    resolved: &mut Resolved<'a>,
) -> Result<(), AllocError>
    requires { at < length events.now }
    ensures { IfOk result (λ _. EventAt events.now at (λ e. TagAdded handles.now e resolved.old.first resolved.new.first
        resolved.old.tags resolved.new.tags)) }
{
    let tag = resolve_tag(
        alloc,
        events.tag(at),
        tag_offset(events, at),
        handles,
        &mut resolved.first,
    )?;
    resolved.tags.push(tag)
}

fn tag_offset(events: &Events, at: usize) -> Option<usize>
    requires { at < length events.now }
    ensures { EventAt events.now at (λ e. result ≡ e.tag_offset) }
{
    events.at(at).tag_offset
}

// Returns the start of the node or alias, or 0 if the event has no span.
fn start_of(events: &Events, at: usize) -> usize
    requires { at < length events.now }
    ensures { EventAt events.now at (λ e. result ≡ start_or 0 e.span) }
{
    match events.span(at) {
        Some(span) => span.start,
        None => 0,
    }
}

// Declares the handles of a document.
fn declare_handles<'a>(
    document: Option<&Doc<'a>>,
    handles: &mut Prefixes<'a>,
    first: &mut Option<Breach>,
) -> Result<(), AllocError>
    ensures handles { IfOk result (λ _. SameDeclarations handles.new (declarations handles.old (directives_of document.entry))) }
    ensures found { IfOk result (λ _. FirstOfBoth first.old first.new (directive_breaches false handles.old (directives_of document.entry))) }
{
    match document {
        Some(document) => declare_all(document.directives.as_slice(), handles, first),
        None => Ok(()),
    }
}

// Adds the anchor of the node that the event begins, and keeps a breach if the event is an alias of no anchor before
// it.
fn note_event<'e>(
    event: Event<'e>,
    offset: usize,
    anchors: &mut Anchors<'e>,
    first: &mut Option<Breach>,
) -> Result<(), AllocError>
    ensures names { IfOk result (λ _. SameNames anchors.new (with_name (props_of (event_value event.entry)).anchor anchors.old)) }
    ensures found { IfOk result (λ _. FirstOfBoth first.old first.new
        (alias_breaches anchors.old offset (alias_of (event_value event.entry)))) }
{
    match event {
        Event::Scalar { props, .. }
        | Event::SeqStart { props, .. }
        | Event::MapStart { props, .. } => note_anchor(props, anchors),
        Event::Alias { name } => {
            keep_if(
                first,
                !anchors.contains(name),
                BreachKind::UnknownAlias,
                offset,
            );
            Ok(())
        }
        _ => Ok(()),
    }
}

fn note_anchor<'a>(props: Props<'a>, anchors: &mut Anchors<'a>) -> Result<(), AllocError>
    ensures { IfOk result (λ _. SameNames anchors.new (with_name (name_value props.entry.anchor) anchors.old)) }
{
    if let Some(name) = props.anchor {
        anchors.insert(name)?;
    }
    Ok(())
}

// Resolves the tag, and keeps a breach if its handle is unknown.
fn resolve_tag<'a>(
    alloc: Global,
    tag: Option<Tag<'a>>,
    offset: Option<usize>,
    handles: &Prefixes<'a>,
    first: &mut Option<Breach>,
) -> Result<Option<ResolvedTag<'a>>, AllocError>
    ensures tag { IfOk result (λ r. is_unknown handles.now (optional_tag_value tag.entry) ≡ false
        → TagOf handles.now (optional_tag_value tag.entry) r) }
    ensures found { IfOk result (λ _. FirstOfBoth first.old first.new
        (breach_if (is_unknown handles.now (optional_tag_value tag.entry)) BreachKind.UnknownHandle (offset_or 0 offset))) }
{
    let Some(tag) = tag else {
        return Ok(None);
    };
    match handles.resolve(alloc, &tag) {
        Ok(tag) => Ok(Some(tag)),
        Err(Fault::UnknownHandle { .. }) => {
            keep_if(first, true, BreachKind::UnknownHandle, offset.unwrap_or(0));
            Ok(None)
        }
        Err(_) => Err(AllocError),
    }
}
