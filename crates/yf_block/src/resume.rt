//! Steps after a node, at the start of a line: the next entry of an open collection, or the end of collections.
ghost use Rattle.std.specs.Prelude.{◌≡◌, ℕ, ◌+◌, ◌-◌, ◌<◌, ◌++◌, IfOk, IfSome, MatchOption, reverse, length};
ghost use Rattle.std.specs.Str.{IsCharBoundary};
ghost use Rattle.yf_events.specs.Edit.{edited, ended};
ghost use Rattle.yf_grammar.specs.BlockReader.BlockParser.{BlockTask};
ghost use Rattle.yf_block.specs.BlockStepTied.{AtResume, AtDone, AtFit, AtPair};
ghost use Rattle.yf_block.specs.BlockTied.{colons_if};
ghost use Rattle.yf_block.specs.CollectionEnds.{closing};
ghost use Rattle.yf_block.specs.Counted.{CountedAt, CountedInside};
ghost use Rattle.yf_block.specs.LineFits.{FitsLine, PlaceTied};
ghost use Rattle.yf_block.specs.LookTests.{NotWithinBreak};
ghost use Rattle.yf_block.specs.Machine.{IsReaderReady, MayPlace, FitsAt};
ghost use Rattle.yf_block.specs.NextItems.{ItemBelow, TopSequence};
ghost use Rattle.yf_block.specs.NextKeys.{KeyBelow, TopMapping};
ghost use Rattle.yf_block.specs.StepAnswers.{StepPromises};

use crate::entry::{await_node, entry_at};
use crate::frame::{BlockContext, BlockReader, CollectionKind, EntryStart, Frame, Frames, Step};
use crate::look::{entry_place, is_dash_at, is_entry_sign_at, is_sign_at};
use std::alloc::{AllocError, Global};
use yf_events::event::NewEvent;
use yf_events::part::Part;
use yf_flow::node::{empty_node, unplaced};

// The relation of a line to an open collection.
#[derive(Clone, Copy)]
enum Fit {
    // The next entry of a sequence begins at the offset.
    Item(usize),
    // The next entry of a mapping begins there, or the `:` of one with a `?`.
    Entry(usize),
    // The line is indented more than the entries, up to the offset.
    Deeper(usize),
    // The collection ends before the line.
    EndsBefore,
}

// The innermost collection that doesn't end before a line, and the relation of the line to it. It is no longer on the
// stack.
#[derive(Clone, Copy)]
struct ResumedFrame {
    frame: Frame,
    fit: Fit,
}

impl<'a> BlockReader<'a> {
    /// Goes on at the start of a line after a node. Usually a key of the innermost mapping begins there, or an item
    /// of the innermost sequence.
    pub(crate) fn resume(&mut self, scope: BlockContext<'a>, at: usize) -> Result<Step, AllocError>
        requires { IsReaderReady scope.text.now at self.old }
        ensures { StepPromises AtResume CountedAt scope.entry at 0 self.old self.new result }
    {
        let place = entry_place(scope.text, at);
        match key_below(scope.text, at, place, &self.frames) {
            Some(start) => {
                let entry = entry_at(scope.text, self.progress.floor, start, None);
                self.take_key(scope, start - at, entry)
            }
            None => match item_below(scope.text, at, place, &self.frames) {
                Some(start) => {
                    let item = entry_at(scope.text, self.progress.floor, start, None);
                    let progress = &mut self.progress;
                    Ok(await_node(start, true, false, start - at, Some(item), progress))
                }
                None => self.resume_below(scope, at, place),
            },
        }
    }

    // Like `resume`, for any line. `place` is the offset of its first character, if an entry may begin there.
    fn resume_below(
        &mut self,
        scope: BlockContext<'a>,
        at: usize,
        place: Option<usize>,
    ) -> Result<Step, AllocError>
        requires standing { IsReaderReady scope.text.now at self.old }
        requires place { MayPlace scope.text.now at place }
        requires entry { NotWithinBreak scope.text.now at → PlaceTied scope.text.now at place }
        ensures { StepPromises AtResume CountedAt scope.entry at 0 self.old self.new result }
    {
        match self.end_collections(scope, at, place)? {
            None => Ok(Step::Done(at)),
            Some(ResumedFrame { frame, fit }) => match fit {
                Fit::Item(start) => self.take_item(scope, EntryStart { frame, at: start }),
                Fit::Entry(start) => self.next_entry(scope, EntryStart { frame, at: start }),
                Fit::Deeper(start) => Ok(Step::Failed(start)),
                Fit::EndsBefore => Ok(Step::Failed(at)),
            },
        }
    }

    // Ends the collections that end before the line at an offset. Returns `None` if all of them do.
    fn end_collections(
        &mut self,
        scope: BlockContext<'a>,
        at: usize,
        place: Option<usize>,
    ) -> Result<Option<ResumedFrame>, AllocError>
        requires standing { IsReaderReady scope.text.now at self.old }
        requires place { MayPlace scope.text.now at place }
        requires entry { NotWithinBreak scope.text.now at → PlaceTied scope.text.now at place }
        ensures standing { IfOk result (λ _. IsReaderReady scope.entry.text.now at self.new) }
        ensures places { IfOk result (λ o. IfSome o (λ n. FitsAt scope.entry.text.now at n.fit)) }
        ensures tied { (d : ℕ) → (root : BlockTask) → (before : Part)
            → AtResume scope.entry.text.now d root before (reverse self.old.frames.items) at self.old.progress self.old.part
            → IfOk result (λ o. MatchOption o (AtDone scope.entry.text.now d root before at self.new.progress self.new.part)
            (λ n. AtFit scope.entry.text.now d root before (reverse self.new.frames.items) at n self.new.progress self.new.part)) }
        ensures fewer { IfOk result (λ o. IfSome o (λ _. length self.new.frames.items < length self.old.frames.items)) }
    {
        'frames: while let Some(frame) = self.frames.pop() {
            self.progress.colons = colons_without(&frame, self.progress.colons);
            let fit = fit_of(scope.text, at, place, &frame);
            match fit {
                Fit::EndsBefore => {
                    end_collection(scope.alloc, frame, self.progress.last, &mut self.part)?;
                }
                _ => return Ok(Some(ResumedFrame { frame, fit })),
            }
        }
        Ok(None)
    }

    // Takes the next entry of a mapping, or the `:` of an entry with a `?` and the value after it
    // (l-block-map-explicit-value, production 191).
    fn next_entry(&mut self, scope: BlockContext<'a>, slot: EntryStart) -> Result<Step, AllocError>
        requires { IsReaderReady scope.text.now slot.at self.old }
        ensures { StepPromises (AtPair slot.frame) CountedInside scope.entry slot.at 0 self.old self.new result }
    {
        let EntryStart { frame, at } = slot;
        if frame.awaits_colon {
            if is_sign_at(scope.text, at, b':') {
                self.part.events.set_colon(frame.entry_event, at)?;
                self.frames.push(Frame {
                    awaits_colon: false,
                    ..frame
                })?;
                let progress = &mut self.progress;
                return Ok(await_node(at, true, true, frame.column, None, progress));
            }
            self.part.events.push(empty_node(scope.alloc, None))?;
            return self.take_entry(scope, slot);
        }
        self.take_entry(scope, slot)
    }
}

// Returns the start of a key of the innermost collection on the line at an offset, without a sign before it. `place`
// is the offset of the line's first character, if an entry may begin there.
#[inline(always)]
fn key_below(text: &str, at: usize, place: Option<usize>, frames: &Frames) -> Option<usize>
    requires { MayPlace text.now at place }
    ensures { IfSome result (λ start. KeyBelow text.now at place (reverse frames.now.items) start) }
{
    match place {
        None => None,
        Some(start) => match top_mapping(frames) {
            None => None,
            Some(column) => {
                if start - at != column {
                    return None;
                }
                if is_entry_sign_at(text, start) {
                    return None;
                }
                Some(start)
            }
        },
    }
}

// Returns the column of the innermost collection, if it is a mapping that awaits no `:`.
#[inline(always)]
fn top_mapping(frames: &Frames) -> Option<usize>
    ensures { IfSome result (λ column. TopMapping (reverse frames.now.items) column) }
{
    let items = frames.as_slice();
    let count = items.len();
    if count == 0 {
        return None;
    }
    let frame = items[count - 1];
    if frame.awaits_colon {
        return None;
    }
    match frame.kind {
        CollectionKind::Sequence => None,
        CollectionKind::Mapping => Some(frame.column),
    }
}

// Returns the start of an item of the innermost collection on the line at an offset. `place` is the offset of the
// line's first character, if an entry may begin there.
#[inline(always)]
fn item_below(text: &str, at: usize, place: Option<usize>, frames: &Frames) -> Option<usize>
    requires { MayPlace text.now at place }
    ensures item { IfSome result (λ start. ItemBelow text.now at place (reverse frames.now.items) start) }
    ensures boundary { IfSome result (λ start. IsCharBoundary text.now (start + 1)) }
{
    match place {
        None => None,
        Some(start) => match top_sequence(frames) {
            None => None,
            Some(column) => {
                if start - at == column {
                    if is_dash_at(text, start) {
                        return Some(start);
                    }
                }
                None
            }
        },
    }
}

// Returns the column of the innermost collection, if it is a sequence.
#[inline(always)]
fn top_sequence(frames: &Frames) -> Option<usize>
    ensures { IfSome result (λ column. TopSequence (reverse frames.now.items) column) }
{
    let items = frames.as_slice();
    let count = items.len();
    if count == 0 {
        return None;
    }
    let frame = items[count - 1];
    if frame.awaits_colon {
        return None;
    }
    match frame.kind {
        CollectionKind::Sequence => Some(frame.column),
        CollectionKind::Mapping => None,
    }
}

// Returns how many of the collections await a `:` without this one.
fn colons_without(frame: &Frame, colons: usize) -> usize
    ensures { result ≡ colons - colons_if frame.now.awaits_colon }
{
    if frame.awaits_colon {
        return colons.saturating_sub(1);
    }
    colons
}

// Returns the relation of the line at an offset to a collection. `place` is the offset of the line's first character,
// if an entry may begin there.
fn fit_of(text: &str, at: usize, place: Option<usize>, frame: &Frame) -> Fit
    requires { MayPlace text.now at place }
    ensures places { FitsAt text.now at result }
    ensures line { PlaceTied text.now at place → FitsLine text.now at frame.now result }
{
    match place {
        None => Fit::EndsBefore,
        Some(start) => {
            let column = start - at;
            if column < frame.column {
                return Fit::EndsBefore;
            }
            if column > frame.column {
                return Fit::Deeper(start);
            }
            match frame.kind {
                CollectionKind::Sequence => {
                    if is_dash_at(text, start) {
                        return Fit::Item(start);
                    }
                    Fit::EndsBefore
                }
                CollectionKind::Mapping => Fit::Entry(start),
            }
        }
    }
}

// Ends a collection; its last node or indicator ends at the offset `last`.
fn end_collection<'a>(
    alloc: Global,
    frame: Frame,
    last: usize,
    part: &mut Part<'a>,
) -> Result<(), AllocError>
    ensures events { IfOk result (λ _. part.new.events ≡ edited (ended last) frame.event (part.old.events ++ closing frame)) }
    ensures comments { part.new.comments ≡ part.old.comments }
    ensures escapes { part.new.escapes ≡ part.old.escapes }
{
    let event = match frame.kind {
        CollectionKind::Sequence => NewEvent::SeqEnd,
        CollectionKind::Mapping => NewEvent::MapEnd,
    };
    if frame.awaits_colon {
        part.events.push(empty_node(alloc, None))?;
    }
    part.events.push(unplaced(alloc, event, None))?;
    part.events.set_end(frame.event, last)
}
