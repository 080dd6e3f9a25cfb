//! Rule 12, repeated-keys.
ghost use Rattle.std.specs.Prelude.{◌≡◌, ◌<◌, ◌∷◌, ◌++◌, ◌&&◌, false, List, Some, None, drop, length, reverse, slice_get, IfOk};
ghost use Rattle.yf_events.specs.Event.{EventValue, EventInText};
ghost use Rattle.yf_events.specs.Reading.{events_of};
ghost use Rattle.yf_events.specs.Tree.{DocumentTree, TreesOf};
ghost use Rattle.yf_rule_sets.specs.RuleSets.Exact.{Exactly};
ghost use Rattle.yf_rule_sets.specs.RuleSets.Nodes.{RepeatedKey};
ghost use Rattle.yf_rule_sets.specs.Passes.KeyPass.{AreCollections, IsCollection, IsLast, OpenCollection, after, event_place, has_key, holds_key, is_repeat, key_value, new_collection, next, past_key, repeats_in, same_value, takes_key, with_key, without_first};

use crate::facts::found::{AllocError, FoundOffsets, Global, Reading};
pub use crate::rules::StyleRule::RepeatedKeys;
use std::collections::BTreeSet;
use yf_events::event::Event;
use yf_props::resolved::ResolvedTag;

/// Returns each scalar key with the text and the resolved tag of an earlier scalar key of its mapping.
pub fn offsets(alloc: Global, reading: &Reading) -> FoundOffsets
    ensures { IfOk result (λ offsets. (trees : List DocumentTree) → TreesOf reading.now trees → Exactly (RepeatedKey reading.now trees) offsets.items) }
{
    let mut stack = Vec::new(alloc);
    let mut keys = Vec::new(alloc);
    let mut offsets = Vec::new(alloc);
    let mut cursor = 0;
    for i in 0..reading.len() {
        if pass(alloc, &mut stack, &mut keys, &mut cursor, &*reading, i)? {
            offsets.push(key_offset(reading, i))?;
        }
    }
    Ok(offsets)
}

/// A scalar key: its text and its resolved tag.
#[derive(Clone, Copy, PartialEq, Eq, PartialOrd, Ord)]
struct ScalarKey<'r> {
    text: &'r str,
    tag: Option<&'r ResolvedTag<'r>>,
}

/// The number of scalar keys of a mapping that are searched one by one.
const FEW: usize = 8;

/// An open collection.
#[derive(Drop)]
struct KeyedCollection<'r> {
    is_map: bool,
    /// Whether a value comes next.
    at_value: bool,
    /// The index of its first key in the list of the first few keys of all open mappings.
    first: usize,
    /// The further scalar keys so far, of a mapping.
    more: BTreeSet<ScalarKey<'r>>,
}

/// Returns whether two keys are equal.
#[inline(always)]
fn is_same(a: ScalarKey, b: ScalarKey) -> bool
    ensures { result ≡ same_value (key_value a.entry) (key_value b.entry) }
{
    a == b
}

/// Returns whether a key is in the list from an index on.
#[inline(always)]
fn is_among(keys: &[ScalarKey], first: usize, key: ScalarKey) -> bool
    ensures { result ≡ holds_key (key_value key.entry) (drop first keys.now) }
{
    let mut k = first;
    while k < keys.len() {
        if is_same(keys[k], key) {
            return true;
        }
        k += 1;
    }
    false
}

/// Adds a key to the further ones of a mapping. Returns whether it was there already.
#[inline(never)]
fn add_more<'r>(
    collection: &mut KeyedCollection<'r>,
    key: ScalarKey<'r>,
) -> Result<bool, AllocError>
    ensures { IfOk result (λ hit. (own : List ScalarKey) (l : OpenCollection) → IsCollection own collection.old l → holds_key (key_value key.entry) own ≡ false
        → (collection.new.first ≡ collection.old.first) × IsCollection own collection.new (with_key (key_value key.entry) l)
        × (hit ≡ has_key (key_value key.entry) l.keys)) }
{
    let is_new = collection.more.insert(key)?;
    Ok(!is_new)
}

/// Adds a key to those of the innermost mapping. Returns whether it was there already.
#[inline(always)]
fn add_key<'r>(
    collection: &mut KeyedCollection<'r>,
    keys: &mut Vec<ScalarKey<'r>>,
    key: ScalarKey<'r>,
) -> Result<bool, AllocError>
    ensures { IfOk result (λ hit. (outer : List ScalarKey) (l : OpenCollection) → IsLast outer keys.old.items collection.old l
        → IsLast outer keys.new.items collection.new (with_key (key_value key.entry) l) × (hit ≡ has_key (key_value key.entry) l.keys)) }
{
    if is_among(keys.as_slice(), collection.first, key) {
        return Ok(true);
    }
    if keys.len().saturating_sub(collection.first) < FEW {
        if collection.more.is_empty() {
            keys.push(key)?;
            return Ok(false);
        }
    }
    add_more(collection, key)
}

/// Passes a node in a collection, but adds no key.
#[inline(always)]
fn turn(collection: &mut KeyedCollection)
    ensures first { collection.new.first ≡ collection.old.first }
    ensures turned { (own : List ScalarKey) (l : OpenCollection) → IsCollection own collection.old l → IsCollection own collection.new (past_key None l) }
{
    collection.at_value = !collection.at_value;
}

/// Returns whether the next node in a collection is a key.
#[inline(always)]
fn is_key_next(collection: &KeyedCollection) -> bool
    ensures { (own : List ScalarKey) (l : OpenCollection) → IsCollection own collection.now l → result ≡ takes_key l }
{
    collection.is_map && !collection.at_value
}

/// Passes a scalar in the innermost collection. Returns whether it is a key that the collection has already. The tag of
/// a scalar that is not a key isn't looked up.
#[inline(always)]
fn turn_scalar<'r>(
    collection: &mut KeyedCollection<'r>,
    keys: &mut Vec<ScalarKey<'r>>,
    cursor: &mut usize,
    text: &'r str,
    reading: &'r Reading<'r>,
    i: usize,
) -> Result<bool, AllocError>
    requires { i < length reading.now.events }
    ensures { IfOk result (λ hit. (outer : List ScalarKey) (l : OpenCollection) → IsLast outer keys.old.items collection.old l
        → IsLast outer keys.new.items collection.new (past_key (Some (text.now, slice_get reading.now.resolved i)) l)
        × (hit ≡ (takes_key l && has_key (text.now, slice_get reading.now.resolved i) l.keys))) }
{
    let takes_key = is_key_next(&*collection);
    turn(collection);
    if takes_key {
        let tag = reading.resolved_at_cursor(i, cursor);
        return add_key(collection, keys, ScalarKey { text, tag });
    }
    Ok(false)
}

/// Passes a node that is not a scalar, in the innermost open collection.
#[inline(always)]
fn pass_node(stack: &mut Vec<KeyedCollection>)
    ensures { (ks : List ScalarKey) (st : List OpenCollection) → AreCollections ks (reverse stack.old.items) st → AreCollections ks (reverse stack.new.items) (after None st) }
{
    match stack.last_mut() {
        Some(collection) => turn(collection),
        None => {}
    }
}

/// Passes a scalar. Returns whether it is a key that its mapping has already.
#[inline(always)]
fn pass_scalar<'r>(
    stack: &mut Vec<KeyedCollection<'r>>,
    keys: &mut Vec<ScalarKey<'r>>,
    cursor: &mut usize,
    text: &'r str,
    reading: &'r Reading<'r>,
    i: usize,
) -> Result<bool, AllocError>
    requires { i < length reading.now.events }
    ensures { IfOk result (λ hit. (st : List OpenCollection) → AreCollections keys.old.items (reverse stack.old.items) st
        → AreCollections keys.new.items (reverse stack.new.items) (after (Some (text.now, slice_get reading.now.resolved i)) st)
        × (hit ≡ repeats_in (text.now, slice_get reading.now.resolved i) st)) }
{
    match stack.last_mut() {
        Some(collection) => turn_scalar(collection, keys, cursor, text, reading, i),
        None => Ok(false),
    }
}

/// Passes the start of a collection with keys that begin at that index.
#[inline(always)]
fn pass_start(
    alloc: Global,
    stack: &mut Vec<KeyedCollection>,
    first: usize,
    is_map: bool,
) -> Result<(), AllocError>
    ensures { IfOk result (λ _. (ks : List ScalarKey) (st : List OpenCollection) → length ks ≡ first → AreCollections ks (reverse stack.old.items) st
        → AreCollections ks (reverse stack.new.items) (new_collection is_map ∷ after None st)) }
{
    pass_node(stack);
    stack.push(KeyedCollection {
        is_map,
        at_value: false,
        first,
        more: BTreeSet::new(alloc),
    })?;
    Ok(())
}

/// Passes the end of a collection.
#[inline(always)]
fn pass_end<'r>(stack: &mut Vec<KeyedCollection<'r>>, keys: &mut Vec<ScalarKey<'r>>)
    ensures { (st : List OpenCollection) → AreCollections keys.old.items (reverse stack.old.items) st → AreCollections keys.new.items (reverse stack.new.items) (without_first st) }
{
    match stack.last() {
        Some(collection) => keys.truncate(collection.first),
        None => return,
    }
    match stack.pop() {
        Some(_) => return,
        None => {}
    }
}

/// Passes an event. Returns whether it is a scalar key that its mapping has already.
#[inline(always)]
fn pass<'r>(
    alloc: Global,
    stack: &mut Vec<KeyedCollection<'r>>,
    keys: &mut Vec<ScalarKey<'r>>,
    cursor: &mut usize,
    reading: &'r Reading<'r>,
    i: usize,
) -> Result<bool, AllocError>
    requires { i < length reading.now.events }
    ensures { IfOk result (λ hit. (st : List OpenCollection) (e : EventValue) → slice_get (events_of reading.now) i ≡ Some e
        → AreCollections keys.old.items (reverse stack.old.items) st → AreCollections keys.new.items (reverse stack.new.items)
        (next e (slice_get reading.now.resolved i) st) × (hit ≡ is_repeat e (slice_get reading.now.resolved i) st)) }
{
    match reading.event(i) {
        Event::Scalar { text, .. } => pass_scalar(stack, keys, cursor, text, reading, i),
        Event::Alias { .. } => {
            pass_node(stack);
            Ok(false)
        }
        Event::SeqStart { .. } => {
            pass_start(alloc, stack, keys.len(), false)?;
            Ok(false)
        }
        Event::MapStart { .. } => {
            pass_start(alloc, stack, keys.len(), true)?;
            Ok(false)
        }
        Event::SeqEnd | Event::MapEnd => {
            pass_end(stack, keys);
            Ok(false)
        }
        Event::StreamStart | Event::StreamEnd | Event::DocStart { .. } | Event::DocEnd { .. } => {
            Ok(false)
        }
    }
}

/// Returns the offset of a key: its first character, or, if it is empty, its `:`, or its `?` if its entry has no `:`.
fn key_offset(reading: &Reading, i: usize) -> usize
    requires { i < length reading.now.events }
    ensures { (e : EventInText) → slice_get reading.now.events i ≡ Some e → result ≡ event_place e }
{
    if let Some(span) = reading.span(i) {
        return span.start;
    }
    match reading.entry(i) {
        Some(entry) => match entry.colon {
            Some(colon) => colon,
            None => entry.start,
        },
        None => 0,
    }
}
