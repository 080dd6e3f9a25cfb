//! The last offset at which all open nodes may end. The reader falls back on it if the text goes wrong later.
ghost use Rattle.std.specs.Prelude.{◌≡◌, ℕ, MatchBool, length, reverse, take};
ghost use Rattle.std.specs.Str.{IsCharBoundary};
ghost use Rattle.yf_block.specs.AwaitedColons.{AwaitedColon, AwaitsAt};
ghost use Rattle.yf_block.specs.LookTests.{NotWithinBreak};
ghost use Rattle.yf_block.specs.Machine.{MayBoundary, ProgressAt};
ghost use Rattle.yf_block.specs.HaltNotes.{ColonsCounted, EmptyNoted, IsOutermost, NodeNoted, ShorterNoted};

use crate::frame::{BlockCursor, Frames};
use crate::look::{entry_place, is_sign_at, last_line_start};
use yf_events::part::Part;

/// The lengths of a part's lists at some moment.
#[derive(Clone, Copy)]
pub(crate) struct Counts {
    pub(crate) events: usize,
    pub(crate) comments: usize,
    pub(crate) escapes: usize,
}

impl Counts {
    pub(crate) fn of(part: &Part) -> Counts
        ensures events { result.events ≡ length part.now.events }
        ensures comments { result.comments ≡ length part.now.comments }
        ensures escapes { result.escapes ≡ length part.now.escapes }
    {
        Counts {
            events: part.events.len(),
            comments: part.comments.len(),
            escapes: part.escapes.len(),
        }
    }

    /// Cuts a part back to these lengths.
    pub(crate) fn cut(self, part: &mut Part)
        ensures events { part.new.events ≡ take self.events part.old.events }
        ensures comments { part.new.comments ≡ take self.comments part.old.comments }
        ensures escapes { part.new.escapes ≡ take self.escapes part.old.escapes }
    {
        part.events.truncate(self.events);
        part.comments.truncate(self.comments);
        part.escapes.truncate(self.escapes);
    }
}

// Returns whether an awaited node may be empty. The outermost one may not, unless it has properties.
fn may_be_empty(progress: &BlockCursor, frames: &Frames) -> bool
    ensures { MatchBool result (IsOutermost progress.now.wanted.outer (reverse frames.now.items) → ⊥)
        (IsOutermost progress.now.wanted.outer (reverse frames.now.items)) }
{
    if progress.wanted.outer.is_some() {
        return true;
    }
    frames.len() > 0
}

// Returns whether the line at the offset has the `:` of an open entry with a `?`. If so, the value of that entry may
// not be taken as empty before it. `colons` is the number of open collections that await one.
fn value_follows(text: &str, at: usize, colons: usize, frames: &Frames) -> bool
    requires { IsCharBoundary text.now at }
    ensures { MatchBool result (AwaitedColon text.now at (reverse frames.now.items))
        (NotWithinBreak text.now at → (colons ≡ 0 → (m : ℕ) → AwaitsAt m (reverse frames.now.items) → ⊥)
        → AwaitedColon text.now at (reverse frames.now.items) → ⊥) }
{
    if colons == 0 {
        return false;
    }
    match entry_place(text, at) {
        None => false,
        Some(place) => {
            if !is_sign_at(text, place, b':') {
                return false;
            }
            awaits_colon_at(frames, place - at)
        }
    }
}

// Returns whether an open mapping awaits a `:` at the column.
fn awaits_colon_at(frames: &Frames, column: usize) -> bool
    ensures { MatchBool result (AwaitsAt column (reverse frames.now.items)) (AwaitsAt column (reverse frames.now.items) → ⊥) }
{
    let items = frames.as_slice();
    let mut index = items.len();
    'frames: while index > 0 {
        index -= 1;
        let frame = items[index];
        if frame.column < column {
            return false;
        }
        if frame.column == column {
            if frame.awaits_colon {
                return true;
            }
        }
    }
    false
}

/// Notes that the node awaited at a line may be empty, or have only its properties.
pub(crate) fn note_empty(text: &str, at: usize, progress: &mut BlockCursor, frames: &Frames)
    requires place { IsCharBoundary text.now at }
    requires progress { ProgressAt text.now progress.old }
    ensures progress { ProgressAt text.now progress.new }
    ensures others { progress.new ≡ record progress.old { halt = progress.new.halt } }
    ensures outermost { IsOutermost progress.old.wanted.outer (reverse frames.now.items) → progress.new.halt ≡ progress.old.halt }
    ensures noted { (IsOutermost progress.old.wanted.outer (reverse frames.now.items) → ⊥) → NotWithinBreak text.now at
        → ColonsCounted progress.old.colons (reverse frames.now.items)
        → EmptyNoted text.now progress.old.from at (reverse frames.now.items) progress.old.halt progress.new.halt }
{
    if !may_be_empty(progress, frames) {
        return;
    }
    if value_follows(text, at, progress.colons, frames) {
        if let Some(end) = last_line_start(text, progress.from, at) {
            progress.halt = Some(end);
        }
        return;
    }
    progress.halt = Some(at);
}

/// Notes that all nodes may end at the line after a node that ends at `from`. `plain` is the start of a plain scalar.
#[inline(always)]
pub(crate) fn note_node(
    text: &str,
    plain: Option<usize>,
    from: usize,
    at: usize,
    progress: &mut BlockCursor,
    frames: &Frames,
)
    requires from { IsCharBoundary text.now from }
    requires place { IsCharBoundary text.now at }
    requires plain { MayBoundary text.now plain }
    requires progress { ProgressAt text.now progress.old }
    ensures progress { ProgressAt text.now progress.new }
    ensures others { progress.new ≡ record progress.old { halt = progress.new.halt } }
    ensures noted { NotWithinBreak text.now at → ColonsCounted progress.old.colons (reverse frames.now.items)
        → NodeNoted text.now plain from at (reverse frames.now.items) progress.old.halt progress.new.halt }
{
    if value_follows(text, at, progress.colons, frames) {
        match last_line_start(text, from, at) {
            Some(end) => progress.halt = Some(end),
            None => note_shorter(text, plain, from, progress),
        }
        return;
    }
    progress.halt = Some(at);
}

/// Notes that all nodes may end before the last line of a plain scalar with several lines. `plain` is its start.
#[inline(never)]
pub(crate) fn note_shorter(text: &str, plain: Option<usize>, end: usize, progress: &mut BlockCursor)
    requires plain { MayBoundary text.now plain }
    requires progress { ProgressAt text.now progress.old }
    ensures progress { ProgressAt text.now progress.new }
    ensures others { progress.new ≡ record progress.old { halt = progress.new.halt } }
    ensures noted { ShorterNoted text.now end progress.old.halt plain progress.new.halt }
{
    if let Some(start) = plain {
        if let Some(line) = last_line_start(text, start, end) {
            progress.halt = Some(line);
        }
    }
}
