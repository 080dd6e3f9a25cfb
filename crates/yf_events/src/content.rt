//! The content of a reading, whatever its styles, markers and offsets.
ghost use Rattle.std.specs.Prelude.{◌≡◌, ◌++◌, map, IfOk, MatchResult};
ghost use Rattle.std.specs.List.{flat_map};
ghost use Rattle.yf_events.specs.Content.{before_value, content_of, content_value, item_value, items_listed, items_of_directive, items_of_document, items_of_event, kind_of, kind_value, nodes_of};
ghost use Rattle.yf_events.specs.Event.{event_value};
ghost use Rattle.yf_props.specs.Props.{name_value};

use crate::directive::Directive;
use crate::document::Doc;
use crate::event::{Event, ScalarStyle};
use crate::reading::Reading;
use std::alloc::{AllocError, Global};
use yf_lines::fault::Fault;
use yf_lines::steady::is_steady;
use yf_props::resolved::ResolvedTag;

/// The facts about a scalar's type.
#[derive(Clone, Copy, PartialEq, Eq)]
pub enum ScalarType<'r> {
    /// It has this resolved tag.
    Tagged(&'r ResolvedTag<'r>),
    /// It has no tag, is plain, and may stay plain on one line, so a schema may take it for a number or another type.
    PlainAndSteady,
    /// It has no tag, and is not such a plain scalar.
    Untagged,
}

/// One item of the content.
#[derive(Clone, Copy, PartialEq, Eq)]
pub enum ContentItem<'r> {
    /// A document begins.
    Document,
    Scalar {
        anchor: Option<&'r str>,
        kind: ScalarType<'r>,
        text: &'r str,
    },
    Alias {
        name: &'r str,
    },
    Sequence {
        anchor: Option<&'r str>,
        tag: Option<&'r ResolvedTag<'r>>,
    },
    SequenceEnd,
    Mapping {
        anchor: Option<&'r str>,
        tag: Option<&'r ResolvedTag<'r>>,
    },
    MappingEnd,
}

/// One item of the text before the documents.
#[derive(Clone, Copy, PartialEq, Eq)]
pub enum DirectiveItem<'r> {
    /// The directives of the next document follow.
    Document,
    /// The words of a directive follow.
    Directive,
    /// One word.
    Word(&'r str),
}

/// The content of a reading: its documents, each with the words of its directives and its tree. It keeps the kind of
/// a node, the anchor, the resolved tag, and the text, the name, the items or the pairs, and for a scalar without a
/// tag also whether it is plain and steady.
#[derive(Drop, PartialEq, Eq)]
pub struct Content<'r> {
    directives: Vec<DirectiveItem<'r>>,
    nodes: Vec<ContentItem<'r>>,
}

fn scalar_kind<'r>(
    tag: Option<&'r ResolvedTag<'r>>,
    style: ScalarStyle,
    text: &str,
) -> ScalarType<'r>
    ensures { kind_value result ≡ kind_of (name_value tag.entry) style text.now }
{
    match tag {
        Some(tag) => ScalarType::Tagged(tag),
        None => match style {
            ScalarStyle::Plain => {
                if is_steady(text) {
                    return ScalarType::PlainAndSteady;
                }
                ScalarType::Untagged
            }
            ScalarStyle::Single
            | ScalarStyle::Double
            | ScalarStyle::Literal
            | ScalarStyle::Folded => ScalarType::Untagged,
        },
    }
}

/// Returns the item that an event adds to the content, with the resolved tag of the node that it begins.
fn item<'r>(event: Event<'r>, tag: Option<&'r ResolvedTag<'r>>) -> Option<ContentItem<'r>>
    ensures { items_listed result ≡ items_of_event (event_value event.entry) (name_value tag.entry) }
{
    match event {
        Event::StreamStart | Event::StreamEnd | Event::DocEnd { .. } => None,
        Event::DocStart { .. } => Some(ContentItem::Document),
        Event::SeqStart { props, .. } => Some(ContentItem::Sequence {
            anchor: props.anchor,
            tag,
        }),
        Event::SeqEnd => Some(ContentItem::SequenceEnd),
        Event::MapStart { props, .. } => Some(ContentItem::Mapping {
            anchor: props.anchor,
            tag,
        }),
        Event::MapEnd => Some(ContentItem::MappingEnd),
        Event::Scalar { props, style, text } => Some(ContentItem::Scalar {
            anchor: props.anchor,
            kind: scalar_kind(tag, style, text),
            text,
        }),
        Event::Alias { name } => Some(ContentItem::Alias { name }),
    }
}

fn add_item<'r>(
    items: &mut Vec<ContentItem<'r>>,
    added: Option<ContentItem<'r>>,
) -> Result<(), AllocError>
    ensures { IfOk result (λ _. map item_value items.new.items ≡ map item_value items.old.items ++ items_listed added.entry) }
{
    match added {
        Some(item) => {
            items.push(item)?;
            Ok(())
        }
        None => Ok(()),
    }
}

fn nodes<'r>(alloc: Global, reading: &'r Reading<'r>) -> Result<Vec<ContentItem<'r>>, AllocError>
    ensures { IfOk result (λ items. map item_value items.items ≡ nodes_of reading.now) }
{
    let mut items = Vec::new(alloc);
    let mut cursor = 0;
    for i in 0..reading.len() {
        let tag = reading.resolved_at_cursor(i, &mut cursor);
        add_item(&mut items, item(reading.event(i), tag))?;
    }
    Ok(items)
}

fn add_directive<'r>(
    items: &mut Vec<DirectiveItem<'r>>,
    directive: &'r Directive<'r>,
) -> Result<(), AllocError>
    ensures { IfOk result (λ _. map before_value items.new.items ≡ map before_value items.old.items ++ items_of_directive directive.now) }
{
    items.push(DirectiveItem::Directive)?;
    for word in directive.words.as_slice() {
        items.push(DirectiveItem::Word(word))?;
    }
    Ok(())
}

fn add_document<'r>(
    document: &'r Doc<'r>,
    items: &mut Vec<DirectiveItem<'r>>,
) -> Result<(), AllocError>
    ensures { IfOk result (λ _. map before_value items.new.items ≡ map before_value items.old.items ++ items_of_document document.now) }
{
    items.push(DirectiveItem::Document)?;
    for directive in document.directives.as_slice() {
        add_directive(items, directive)?;
    }
    Ok(())
}

fn directives<'r>(
    alloc: Global,
    documents: &'r [Doc<'r>],
) -> Result<Vec<DirectiveItem<'r>>, AllocError>
    ensures { IfOk result (λ items. map before_value items.items ≡ flat_map items_of_document documents.now) }
{
    let mut items = Vec::new(alloc);
    for document in documents {
        add_document(document, &mut items)?;
    }
    Ok(items)
}

impl<'a> Reading<'a> {
    /// Returns the content of the reading, whatever its styles, markers and offsets. Fails with `Fault::Memory` if
    /// the allocator refuses memory.
    pub fn content<'r>(&'r self, alloc: Global) -> Result<Content<'r>, Fault>
        ensures { MatchResult result (λ content. content_value content ≡ content_of self.now) (λ fault. fault ≡ Fault.Memory) }
    {
        match content_within(alloc, self) {
            Ok(content) => Ok(content),
            Err(AllocError) => Err(Fault::Memory),
        }
    }
}

#[tactic(auto, unfolding(crate::specs::Content::content_of))]
fn content_within<'r>(alloc: Global, reading: &'r Reading<'r>) -> Result<Content<'r>, AllocError>
    ensures { IfOk result (λ content. content_value content ≡ content_of reading.now) }
{
    let directives = directives(alloc, reading.documents())?;
    let nodes = nodes(alloc, reading)?;
    Ok(Content { directives, nodes })
}
