//! Readings.
ghost use Rattle.std.specs.Prelude.{◌≡◌, ◌<◌, count_by, length, map, nat_lt, slice_get, IfOk, IfSome, MatchOption, MatchResult};

use crate::document::Doc;
use crate::event::{Entry, Event, Span};
use crate::leaves::leaves_before;
use crate::lists::Lists;
use crate::nesting::is_stream;
use std::alloc::{AllocError, Global};
use std::marker::Model;
use yf_comments::comment::Comment;
use yf_lines::fault::Fault;
use yf_props::resolved::ResolvedTag;

/// The most collections that may be open at once. A single pair of a flow sequence counts as a mapping.
pub const DEPTH: usize = 1024;

/// The most bytes of a text with a reading: 1 GiB. A reading keeps offsets in 32 bits, and no column is larger.
pub const LONGEST: usize = 1 << 30;

/// A stream of YAML: its events, comments and documents, each with its offsets. The events are well nested, and at
/// most `DEPTH` collections are open at once. In a contract it is the lists from which it was made.
#[derive(Drop)]
pub struct Reading<'a> {
    lists: Lists<'a>,
}

impl<'a> Model for Reading<'a> {
    ghost use Rattle.yf_events.specs.declared.lists.Lists.{Lists};

    ghost Value = { Lists };

    ghost view = { λ r. r.lists };

    ghost use Rattle.yf_events.specs.Reading.{IsReading};

    ghost invariant = { λ r. IsReading r.lists };
}

impl<'a> Reading<'a> {
    ghost use Rattle.yf_comments.specs.Comment.{comment_value};
    ghost use Rattle.yf_events.specs.Event.{event_value};
    ghost use Rattle.yf_props.specs.Props.{name_value};
    ghost use Rattle.yf_events.specs.Nested.{IsStream};
    ghost use Rattle.yf_events.specs.Reading.{ListsFit, documents_before, leaves_before, entries_of, events_of, folded_of, spans_of, place_at};

    /// Returns the reading of the lists, or `None` if the events are not a well nested stream or open more than
    /// `DEPTH` collections at once. The lists must have a resolved tag or none for each event, and a note for each
    /// comment. Fails with `Fault::Memory` if the allocator refuses memory.
    pub fn build(alloc: Global, lists: Lists<'a>) -> Result<Option<Reading<'a>>, Fault>
        requires { ListsFit lists }
        ensures { MatchResult result (λ o. MatchOption o (IsStream DEPTH (events_of lists.entry) → ⊥)
            (λ r. (r ≡ lists.entry) × IsStream DEPTH (events_of r))) (λ fault. fault ≡ Fault.Memory) }
    {
        match is_stream(alloc, &lists.events, DEPTH) {
            Ok(true) => Ok(Some(Reading { lists })),
            Ok(false) => {
                leave(lists);
                Ok(None)
            }
            Err(AllocError) => {
                leave(lists);
                Err(Fault::Memory)
            }
        }
    }

    /// Returns the reading of the lists without a test. The events must be a well nested stream with at most `DEPTH`
    /// collections open at once. As for `build`, the lists must have a resolved tag or none for each event, and a
    /// note for each comment.
    pub fn of_stream(lists: Lists<'a>) -> Reading<'a>
        requires fits { ListsFit lists }
        requires nested { IsStream DEPTH (events_of lists) }
        ensures { result ≡ lists.entry }
    {
        Reading { lists }
    }

    /// Returns the lists from which the reading was made.
    #[inline(always)]
    pub fn lists(&self) -> &Lists<'a>
        ensures same { result.now ≡ self.now }
        ensures fit { ListsFit self.now }
        ensures nested { IsStream DEPTH (events_of self.now) }
    {
        &self.lists
    }

    /// Returns the lists by value, and drops the reading.
    #[inline(always)]
    pub fn into_lists(self) -> Lists<'a>
        ensures same { result ≡ self.entry }
        ensures fit { ListsFit self.entry }
        ensures nested { IsStream DEPTH (events_of self.entry) }
    {
        self.lists
    }

    /// Returns the number of events, including `StreamStart` and `StreamEnd`.
    #[inline(always)]
    pub fn len(&self) -> usize
        ensures { result ≡ length self.now.events }
    {
        self.lists.events.len()
    }

    /// Returns the event at an index; `StreamStart` is event 0.
    #[inline(always)]
    pub fn event(&self, i: usize) -> Event<'_>
        requires { i < length self.now.events }
        ensures { slice_get (events_of self.now) i ≡ Some (event_value result) }
    {
        self.lists.events.event(i)
    }

    /// Returns the event at an index if it begins no node with properties and its text is a slice of the source, like
    /// most events. May return `None` for other such events.
    #[inline(always)]
    pub fn bare_event(&self, i: usize) -> Option<Event<'_>>
        requires { i < length self.now.events }
        ensures { IfSome result (λ e. slice_get (events_of self.now) i ≡ Some (event_value e)) }
    {
        self.lists.events.bare_event(i)
    }

    /// Returns the span of the node that the event begins, with its properties. An empty node has none.
    #[inline(always)]
    pub fn span(&self, i: usize) -> Option<Span>
        requires { i < length self.now.events }
        ensures { slice_get (spans_of self.now) i ≡ Some result }
    {
        self.lists.events.span(i)
    }

    /// Returns the entry that the event begins, as its item or key.
    #[inline(always)]
    pub fn entry(&self, i: usize) -> Option<Entry>
        requires { i < length self.now.events }
        ensures { slice_get (entries_of self.now) i ≡ Some result }
    {
        self.lists.events.entry(i)
    }

    /// Returns the lines of the scalar at an index if it was read as a folded one, and none otherwise.
    pub fn folded_lines(&self, i: usize) -> &[&str]
        requires { i < length self.now.events }
        ensures { slice_get (folded_of self.now) i ≡ Some (map (λ line. line.now) result.now) }
    {
        self.lists.events.folded(i)
    }

    /// Returns the resolved tag of the node that the event begins, if it has a tag.
    #[inline(always)]
    pub fn resolved(&self, i: usize) -> Option<&ResolvedTag<'a>>
        requires { i < length self.now.events }
        ensures { slice_get self.now.resolved i ≡ Some (name_value result) }
    {
        self.lists.resolved.at(i)
    }

    /// Like `resolved`, in a pass over the events. `cursor` is the result of the call for an earlier event, and 0 at
    /// first. It only makes the search short.
    #[inline(always)]
    pub fn resolved_at_cursor(&self, i: usize, cursor: &mut usize) -> Option<&ResolvedTag<'a>>
        requires { i < length self.now.events }
        ensures { slice_get self.now.resolved i ≡ Some (name_value result) }
    {
        self.lists.resolved.at_cursor(i, cursor)
    }

    /// Returns the comments, in the order of the text.
    pub fn comments(&self) -> &[Comment<'a>]
        ensures { map comment_value result.now ≡ self.now.comments }
    {
        self.lists.comments.as_slice()
    }

    /// Returns the documents, in the order of the text.
    pub fn documents(&self) -> &[Doc<'a>]
        ensures { result.now ≡ self.now.documents }
    {
        self.lists.documents.as_slice()
    }

    /// Returns whether a comment is on the line on which the last leaf with characters before it ends.
    pub fn on_leaf_line(&self, k: usize) -> bool
        requires { k < length self.now.comments }
        ensures { slice_get self.now.on_leaf_line k ≡ Some result }
    {
        *self.lists.on_leaf_line.at(k)
    }

    /// Returns the place of a comment: how many documents begin before it, and how many leaves with characters.
    pub fn place_of(&self, k: usize) -> (usize, usize)
        requires { k < length self.now.comments }
        ensures { place_at self.now k ≡ Some result }
    {
        let offset = self.lists.comments.at(k).offset;
        let documents = documents_before(self.documents(), offset);
        let leaves = leaves_before(&self.lists.events, offset);
        (documents, leaves)
    }
}

// Drops lists that are not a reading. This function exists because the drop of each part is long if it is inlined at
// each exit.
fn leave(_lists: Lists) {}

fn documents_before(documents: &[Doc], offset: usize) -> usize
    ensures { result ≡ count_by (λ d. nat_lt d.start offset) documents.now }
{
    documents.iter().filter(|d| d.start < offset).count()
}
