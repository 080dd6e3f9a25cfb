//! Finds the comments at the ends of lines, after other text: they trail a leaf or a key.
ghost use Rattle.std.specs.Prelude.{◌≡◌, ◌<◌, ◌≤◌, false, get_or, length, map, replicate, set, slice_get, true, IfOk, None};
ghost use Rattle.yf_comments.specs.Comment.{comment_value};
ghost use Rattle.yf_print.specs.Passes.TrailPass as Trailing;
ghost use Rattle.yf_print.specs.Passes.TrailPass.{all_found, found, given, keys_taken, leaf_if, state, taken};

use crate::leaf_trails::LeafTrails;
use std::alloc::{AllocError, Global};
use yf_events::event::Span;
use yf_events::reading::Reading;
use yf_forms::form::comments_before::first_after;
use yf_forms::form::forms::Forms;
use yf_forms::form::measures::Measures;

/// The comments of a reading that trail a leaf or a key.
#[derive(Drop)]
pub struct Trails {
    /// For each event that begins a leaf, the index of the comment that trails it.
    of_leaf: LeafTrails,
    /// For each comment, whether it trails a leaf or a key.
    is_trailing: Vec<bool>,
}

impl Trails {
    /// Returns the index of the comment that trails the leaf that the event at an index begins.
    pub fn of_leaf(&self, i: usize) -> Option<usize>
        ensures { result ≡ get_or self.now.of_leaf i None }
    {
        self.of_leaf.at(i)
    }

    /// Returns whether the comment at an index trails a leaf or a key.
    pub fn is_trailing(&self, k: usize) -> bool
        ensures { result ≡ get_or self.now.is_trailing.items k false }
    {
        match self.is_trailing.get(k) {
            Some(is_trailing) => *is_trailing,
            None => false,
        }
    }
}

/// A leaf that the next comment may trail.
#[derive(Clone, Copy)]
pub struct Leaf {
    pub event: usize,
    /// The byte offset of its end.
    pub end: usize,
    /// The index of the first comment that begins after its start.
    pub first: usize,
}

/// Marks a comment as trailing.
fn take(is_trailing: &mut Vec<bool>, k: usize)
    ensures { is_trailing.new.items ≡ set is_trailing.old.items k true }
{
    if k < is_trailing.len() {
        is_trailing[k] = true;
    }
}

/// Marks a comment, if any, as trailing a key.
fn take_key(is_trailing: &mut Vec<bool>, comment: Option<usize>)
    ensures { is_trailing.new.items ≡ taken is_trailing.old.items comment }
{
    if let Some(k) = comment {
        take(is_trailing, k);
    }
}

/// Returns whether a comment is within the leaf or on the line on which the leaf ends. The comment begins after the
/// leaf's start and before the next leaf.
fn is_at(reading: &Reading, end: usize, k: usize) -> bool
    ensures { result ≡ Trailing.is_at reading.now end k }
{
    let comments = reading.comments();
    if k < comments.len() {
        if comments[k].offset < end {
            return true;
        }
        return reading.on_leaf_line(k);
    }
    false
}

/// Returns whether the first comment after a leaf trails it. The next leaf begins after the comments before `until`.
fn trails_leaf(trails: &Trails, reading: &Reading, leaf: &Leaf, until: usize) -> bool
    ensures { result ≡ Trailing.trails_leaf reading.now trails.now.is_trailing.items leaf.now until }
{
    if leaf.first < until {
        if trails.is_trailing(leaf.first) {
            return false;
        }
        return is_at(reading, leaf.end, leaf.first);
    }
    false
}

/// Gives the leaf the first of the comments from its start to the index `until`, if that comment trails it.
fn close(
    trails: &mut Trails,
    reading: &Reading,
    leaf: Option<Leaf>,
    until: usize,
) -> Result<(), AllocError>
    ensures { IfOk result (λ _. found trails.new ≡ given reading.now leaf until (found trails.old)) }
{
    if let Some(leaf) = leaf {
        if trails_leaf(trails, reading, &leaf, until) {
            take(&mut trails.is_trailing, leaf.first);
            trails.of_leaf.set(leaf.event, leaf.first)?;
        }
    }
    Ok(())
}

/// Returns the leaf that the event at an index begins, if any. The comments before the index `from` begin before it.
fn leaf_at(
    reading: &Reading,
    measures: &Measures,
    i: usize,
    span: Option<Span>,
    from: usize,
) -> Option<Leaf>
    ensures { result ≡ leaf_if (Trailing.is_leaf measures.now i) reading.now.comments i from span }
{
    if measures.at(i).is_leaf(i) {
        if let Some(span) = span {
            return Some(Leaf {
                event: i,
                end: span.end,
                first: first_after(reading.comments(), from, span.start),
            });
        }
    }
    None
}

/// Returns the index of the first comment after the leaf's start, or 0 if there is no leaf.
fn first_of(leaf: Option<Leaf>) -> usize
    ensures { result ≡ Trailing.first_of leaf }
{
    match leaf {
        Some(leaf) => leaf.first,
        None => 0,
    }
}

/// Passes one event, which begins a leaf with this span, or none, and returns the last leaf.
fn pass(
    trails: &mut Trails,
    reading: &Reading,
    measures: &Measures,
    i: usize,
    span: Option<Span>,
    last: Option<Leaf>,
) -> Result<Option<Leaf>, AllocError>
    ensures { IfOk result (λ next. state (found trails.new) next ≡ Trailing.next reading.now measures.now i span
        (state (found trails.old) last)) }
{
    match leaf_at(reading, measures, i, span, first_of(last)) {
        Some(leaf) => {
            close(trails, reading, last, leaf.first)?;
            Ok(Some(leaf))
        }
        None => Ok(last),
    }
}

/// Returns the number of comments.
fn comment_count(reading: &Reading) -> usize
    ensures { result ≡ length reading.now.comments }
{
    reading.comments().len()
}

/// Returns a list for `count` comments, none of them trailing.
fn none_trailing(alloc: Global, count: usize) -> Result<Vec<bool>, AllocError>
    ensures { IfOk result (λ list. list.items ≡ replicate count false) }
{
    let list = vec![in alloc; false; count]?;
    Ok(list)
}

/// Marks the comments that trail a key.
fn take_keys(is_trailing: &mut Vec<bool>, forms: &Forms)
    ensures { is_trailing.new.items ≡ keys_taken forms.now is_trailing.old.items }
{
    for i in 0..forms.len() {
        take_key(is_trailing, forms.at(i).key_comment);
    }
}

/// Returns the trails of keys, without those of leaves.
fn trails_of_keys(alloc: Global, reading: &Reading, forms: &Forms) -> Result<Trails, AllocError>
    ensures { IfOk result (λ trails. found trails ≡ (Trailing.start reading.now forms.now).found) }
{
    let mut is_trailing = none_trailing(alloc, comment_count(reading))?;
    take_keys(&mut is_trailing, forms);
    let of_leaf = LeafTrails::none(alloc, reading.len())?;
    Ok(Trails {
        of_leaf,
        is_trailing,
    })
}

/// Finds the comments that trail: those that end the line of a key, and for each leaf the first comment after its start
/// and before the next leaf, if the comment is within the leaf or on the line on which the leaf ends.
pub fn find_trails(
    alloc: Global,
    reading: &Reading,
    measures: &Measures,
    forms: &Forms,
) -> Result<Trails, AllocError>
    ensures { IfOk result (λ trails. found trails ≡ all_found reading.now measures.now forms.now) }
{
    let mut trails = trails_of_keys(alloc, reading, forms)?;
    let mut last: Option<Leaf> = None;
    let count = comment_count(reading);
    for i in 0..reading.len() {
        if count <= first_of(last) {
            return Ok(trails);
        }
        last = pass(&mut trails, reading, measures, i, reading.span(i), last)?;
    }
    close(&mut trails, reading, last, count)?;
    Ok(trails)
}
