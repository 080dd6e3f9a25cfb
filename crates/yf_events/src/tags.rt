//! The resolved tags of events.
ghost use Rattle.std.specs.Prelude.{◌≡◌, ◌<◌, ℕ, [], ◌∷◌, ◌++◌, length, slice_get, true, Some, None, IfOk, MatchResult, if◌then◌else◌, is_ok, replicate};
ghost use Rattle.yf_events.specs.Tags.{event_at, tag_at};
ghost use Rattle.yf_props.specs.Props.{name_value};

use std::alloc::{AllocError, Global};
use std::marker::Model;
use yf_props::resolved::ResolvedTag;

/// A resolved tag, with the index of the event that begins its node.
#[derive(Drop)]
pub struct TaggedEvent<'a> {
    event: usize,
    tag: ResolvedTag<'a>,
}

/// For each event, the resolved tag of the node that it begins, if it has a tag (YAML 1.2.2, section 6.9.1). An event
/// without a tag takes no memory. In a contract it is the list that has a tag or none for each event.
#[derive(Drop)]
pub struct Tags<'a> {
    count: usize,
    tagged: Vec<TaggedEvent<'a>>,
}

impl<'a> Model for Tags<'a> {
    ghost use Rattle.std.specs.Prelude.{List, Option, ℕ};
    ghost use Rattle.yf_events.specs.Tags.{TagsInOrder, tags_listed};

    ghost Value = { List (Option (List ℕ)) };

    ghost view = { λ t. tags_listed t.count t.tagged.items };

    ghost invariant = { λ t. TagsInOrder t.count t.tagged.items };
}

impl<'a> Tags<'a> {
    pub fn new(alloc: Global) -> Tags<'a>
        ensures { result ≡ [] }
    {
        Tags {
            count: 0,
            tagged: Vec::new(alloc),
        }
    }

    /// Returns the number of events.
    pub fn len(&self) -> usize
        ensures { result ≡ length self.now }
    {
        self.count
    }

    /// Adds the tag of the next event, or none.
    pub fn push(&mut self, tag: Option<ResolvedTag<'a>>) -> Result<(), AllocError>
        ensures { self.new ≡ (if is_ok result then self.old ++ tag.entry ∷ [] else self.old) }
    {
        let event = self.count;
        let Some(count) = event.checked_add(1) else {
            return Err(AllocError);
        };
        if let Some(tag) = tag {
            self.tagged.push(TaggedEvent { event, tag })?;
        }
        self.count = count;
        Ok(())
    }

    /// Adds `count` events without a tag.
    #[inline(always)]
    pub fn push_none(&mut self, count: usize) -> Result<(), AllocError>
        ensures { self.new ≡ (if is_ok result then self.old ++ replicate count None else self.old) }
    {
        let Some(count) = self.count.checked_add(count) else {
            return Err(AllocError);
        };
        self.count = count;
        Ok(())
    }

    /// Returns the resolved tag of the event at an index.
    #[inline(always)]
    pub fn at(&self, i: usize) -> Option<&ResolvedTag<'a>>
        requires { i < length self.now }
        ensures { slice_get self.now i ≡ Some (name_value result) }
    {
        let mut cursor = 0;
        self.at_cursor(i, &mut cursor)
    }

    /// Like `at`, in a pass over the events. `cursor` is the result of the call for an earlier event, and 0 at first.
    /// It only makes the search short. Most texts have no tags.
    #[inline(always)]
    #[tactic(auto, using(crate::proofs::TagLists::none_kept))]
    pub fn at_cursor(&self, i: usize, cursor: &mut usize) -> Option<&ResolvedTag<'a>>
        requires { i < length self.now }
        ensures { slice_get self.now i ≡ Some (name_value result) }
    {
        if self.tagged.is_empty() {
            return None;
        }
        self.found(i, cursor)
    }

    // Returns the resolved tag of the event at an index from the kept tags.
    #[inline(never)]
    fn found(&self, i: usize, cursor: &mut usize) -> Option<&ResolvedTag<'a>>
        requires { i < length self.now }
        ensures { slice_get self.now i ≡ Some (name_value result) }
    {
        match tag_from(self.tagged.as_slice(), i, *cursor) {
            Ok(place) => {
                *cursor = place.saturating_add(1);
                Some(&self.tagged[place].tag)
            }
            Err(place) => {
                *cursor = place;
                None
            }
        }
    }

    /// Returns the tags, sharing their texts.
    pub fn lent(&self, alloc: Global) -> Result<Tags<'_>, AllocError>
        ensures { IfOk result (λ copy. copy ≡ self.now) }
    {
        Ok(Tags {
            count: self.count,
            tagged: all_lent(alloc, self.tagged.as_slice())?,
        })
    }
}

// Returns whether the tags before an index belong to events before this one, and those from the index on to later
// events.
#[inline(always)]
fn has_none_around(tagged: &[TaggedEvent], place: usize, event: usize) -> bool
    requires { (j k : ℕ) → j < k → k < length tagged.now → event_at tagged.now j < event_at tagged.now k }
    ensures { result ≡ true → tag_at tagged.now event ≡ None }
{
    if place > tagged.len() {
        return false;
    }
    if place > 0 {
        if tagged[place - 1].event >= event {
            return false;
        }
    }
    if place < tagged.len() {
        return event < tagged[place].event;
    }
    true
}

// Returns the next index if the tag at this one belongs to an event before this one, because no call asked for it.
#[inline(always)]
fn past_earlier(tagged: &[TaggedEvent], place: usize, event: usize) -> usize {
    if place < tagged.len() {
        if tagged[place].event < event {
            return place.saturating_add(1);
        }
    }
    place
}

// Returns the index of an event's tag, or an error if it has none. Needs no search if the tag is, or would be, at the
// cursor or the index after it.
#[inline(always)]
fn tag_from(tagged: &[TaggedEvent], event: usize, cursor: usize) -> Result<usize, usize>
    requires { (j k : ℕ) → j < k → k < length tagged.now → event_at tagged.now j < event_at tagged.now k }
    ensures { MatchResult result (λ k. (k < length tagged.now) × (event_at tagged.now k ≡ event)) (λ _. tag_at tagged.now event ≡ None) }
{
    let place = past_earlier(tagged, cursor, event);
    if place < tagged.len() {
        if tagged[place].event == event {
            return Ok(place);
        }
    }
    if has_none_around(tagged, place, event) {
        return Err(place);
    }
    place_of(tagged, event)
}

// Like `tag_from`, by halving.
fn place_of(tagged: &[TaggedEvent], event: usize) -> Result<usize, usize>
    requires { (j k : ℕ) → j < k → k < length tagged.now → event_at tagged.now j < event_at tagged.now k }
    ensures { MatchResult result (λ k. (k < length tagged.now) × (event_at tagged.now k ≡ event)) (λ _. tag_at tagged.now event ≡ None) }
{
    tagged.binary_search_by_key(&event, |tagged| tagged.event)
}

fn all_lent<'r>(
    alloc: Global,
    tagged: &'r [TaggedEvent],
) -> Result<Vec<TaggedEvent<'r>>, AllocError>
    ensures { IfOk result (λ copy. copy.items ≡ tagged.now) }
{
    let mut copy = Vec::new(alloc);
    for one in tagged {
        copy.push(TaggedEvent {
            event: one.event,
            tag: one.tag.lent(),
        })?;
    }
    Ok(copy)
}
