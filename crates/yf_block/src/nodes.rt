//! The reader of block nodes: one forward pass, with a stack of the open collections.
ghost use Rattle.std.specs.List.{All};
ghost use Rattle.std.specs.Prelude.{◌≡◌, ℕ, ℤ, pos, ◌+ℤ◌, ◌^◌, ◌<◌, ◌≤◌, [], true, false, IfOk, ◌+◌, length, MatchBool, MatchOption, Some, None, Ok, reverse};
ghost use Rattle.std.specs.Str.{IsCharBoundary, IsUtf8};
ghost use Rattle.yf_lines.specs.Basic.{is_block};
ghost use Rattle.yf_grammar.specs.BlockReader.BlockParser.{Nothing, Awaited, BlockTask};
ghost use Rattle.yf_flow.specs.Depth.{openers_from};
ghost use Rattle.yf_block.specs.BlockStepTied.{BlockTied, is_out};
ghost use Rattle.yf_block.specs.BlockTied.{TextTied};
ghost use Rattle.yf_block.specs.ContentTied.{CountsOf};
ghost use Rattle.yf_block.specs.Counted.{CountedAt, StepCounted};
ghost use Rattle.yf_block.specs.Machine.{IsReaderReady, MayBoundary, ProgressAt, StoppedAt, StepReady, StopAt, OutcomeAt};
ghost use Rattle.yf_block.specs.NodeGiven.{Indentation, OutcomeTied, PrefixGiven};
ghost use Rattle.yf_block.specs.RootTied.{AtBegin, AtRoot};
ghost use Rattle.yf_block.specs.RunTied.{HaltAt, ReadRoot, RunTied, StopCounted, StopTied, StopsAs, is_too_deep};
ghost use Rattle.yf_block.specs.StepAnswers.{StepPromises};

use crate::frame::{AwaitedNode, BlockContext, BlockCursor, BlockReader, Step};
use crate::halt::Counts;
use smallvec::SmallVec;
use std::alloc::{AllocError, Global};
use std::mem;
use yf_chars::context::Ctx;
use yf_events::part::Part;
use yf_flow::nodes::new_part;
use yf_lines::basic::is_line_start;

/// A block node in a text.
#[derive(Clone, Copy)]
pub struct FoundBlock {
    /// The byte offset after it.
    pub end: usize,
    /// The furthest byte offset at which the reading went wrong, or `end` if it did not.
    pub reached: usize,
    /// The byte offset after the last block scalar in the node, with its kept tail, or 0 if there is none. Lines
    /// before it are not blank lines.
    pub floor: usize,
    /// Whether nothing went wrong: the reading came to the node's end, and read no more of the text.
    pub whole: bool,
    /// Whether it went wrong because the collection that begins at `reached` would exceed the limit.
    pub too_deep: bool,
}

/// The outcome of a reader of block nodes.
#[derive(Clone, Copy)]
pub enum BlockOutcome {
    Found(FoundBlock),
    /// No block node; the reading went wrong at the byte offset.
    Nothing { reached: usize },
    /// No node within the limit of open collections; the collection at the byte offset would exceed it.
    TooDeep(usize),
}

// The reason why the reader stopped.
#[derive(Clone, Copy)]
enum Stop {
    // The outermost node has been read; it ends at the offset.
    Done(usize),
    // The text goes wrong at the offset.
    Failed(usize),
    TooDeep(usize),
}

// The node to be read.
#[derive(Clone, Copy)]
struct Root {
    // The offset at which reading starts.
    at: usize,
    // The least number of spaces of its indentation, n + 1.
    least: usize,
    // Whether its context is block-out.
    out: bool,
}

// The state of a reader that has stopped.
#[derive(Clone, Copy)]
struct Stopped {
    stop: Stop,
    // The last byte offset at which all open nodes might end.
    halt: Option<usize>,
    // The byte offset after the last block scalar, or 0 if there is none.
    floor: usize,
}

/// Reads the longest block node (s-l+block-node(n,c), production 196) at a byte offset that opens no more collections
/// at once than the limit.
///
/// `n` is the indentation of the collection around it, from -1 to 2^30. Adds its events, comments and escapes to the
/// part. If there is no node, cuts the part back to its old contents. Contexts other than block-out and block-in have
/// no block nodes.
///
/// # Errors
///
/// Fails with `AllocError` if the allocator refuses memory; the part may then have lost its old contents.
pub fn block_node_in<'a>(
    alloc: Global,
    text: &'a str,
    at: usize,
    n: i32,
    ctx: Ctx,
    limit: usize,
    part: &mut Part<'a>,
) -> Result<BlockOutcome, AllocError>
    requires boundary { IsCharBoundary text.now at }
    requires escapes { All (IsCharBoundary text.now) part.old.escapes }
    ensures tied { is_block ctx ≡ true → Indentation n → length text.now ≤ 2 ^ 30
        → IfOk result (λ o. OutcomeTied text.now limit n ctx at part.old o part.new) }
    ensures other { is_block ctx ≡ false → result ≡ Ok (BlockOutcome.Nothing at) }
    ensures place { IfOk result (λ o. OutcomeAt text.now at o) }
    ensures escapes { IfOk result (λ _. All (IsCharBoundary text.now) part.new.escapes) }
{
    match block_out(ctx) {
        None => Ok(BlockOutcome::Nothing { reached: at }),
        Some(out) => {
            let before = Counts::of(part);
            let scope = BlockContext { alloc, text, limit };
            let root = Root {
                at,
                least: least_of(n),
                out,
            };
            let stopped = run_from(scope, root, part)?;
            conclude(scope, root, stopped, before, part)
        }
    }
}

// Returns whether the context is block-out, or `None` if it is not a context of block nodes.
fn block_out(ctx: Ctx) -> Option<bool>
    ensures { MatchOption result (is_block ctx ≡ false) (λ out. (is_block ctx ≡ true) × (out ≡ is_out ctx)) }
{
    match ctx {
        Ctx::BlockOut => Some(true),
        Ctx::BlockIn => Some(false),
        Ctx::FlowOut | Ctx::FlowIn | Ctx::BlockKey | Ctx::FlowKey => None,
    }
}

// Returns n + 1, the least number of spaces of the indentation.
fn least_of(n: i32) -> usize
    ensures { (least : ℕ) → pos least ≡ n +ℤ pos 1 → result ≡ least }
{
    if n < 0 { 0 } else { n as usize + 1 }
}

// Returns the cursor before anything is read.
fn no_progress<'a>(_text: &str, at: usize, least: usize, out: bool) -> BlockCursor<'a>
    ensures progress { ProgressAt _text.now result }
    ensures root { (n : ℤ) → (c : Ctx) → TextTied _text.now → pos least ≡ n +ℤ pos 1 → least ≤ 2 ^ 30 + 1 → out ≡ is_out c
        → AtRoot _text.now n c at result }
{
    BlockCursor {
        last: at,
        floor: 0,
        colons: 0,
        wanted: AwaitedNode {
            least,
            out,
            compact: false,
            entry: None,
            outer: None,
        },
        from: 0,
        first: false,
        halt: None,
    }
}

// Reads a node from its first line on, and adds it to the part.
fn run_from<'a>(
    scope: BlockContext<'a>,
    root: Root,
    part: &mut Part<'a>,
) -> Result<Stopped, AllocError>
    requires boundary { IsCharBoundary scope.text.now root.at }
    requires escapes { All (IsCharBoundary scope.text.now) part.old.escapes }
    ensures tied { (n : ℤ) → (c : Ctx) → scope.entry.limit < 2 ^ 64 → ReadRoot scope.entry.text.now root n c
        → IfOk result (λ r. RunTied scope.entry.text.now scope.entry.limit (Awaited false n c Nothing root.at) part.old r part.new) }
    ensures stopped { IfOk result (λ r. StoppedAt scope.entry.text.now r) }
    ensures escapes { IfOk result (λ _. All (IsCharBoundary scope.entry.text.now) part.new.escapes) }
    ensures counted { IsUtf8 scope.entry.text.now
        → IfOk result (λ r. StopCounted scope.entry.limit (openers_from scope.entry.text.now root.at) r.stop) }
{
    let mut reader = BlockReader {
        progress: no_progress(scope.text, root.at, root.least, root.out),
        frames: SmallVec::new(scope.alloc),
        part: new_part(scope.alloc),
    };
    reader.fill(scope, root.at, part)
}

impl<'a> BlockReader<'a> {
    // Reads the awaited node at an offset, and adds it to the part. The part is swapped into the reader meanwhile.
    fn fill(
        &mut self,
        scope: BlockContext<'a>,
        at: usize,
        part: &mut Part<'a>,
    ) -> Result<Stopped, AllocError>
        requires boundary { IsCharBoundary scope.text.now at }
        requires progress { ProgressAt scope.text.now self.old.progress }
        requires escapes { All (IsCharBoundary scope.text.now) part.old.escapes }
        ensures tied { (d : ℕ) → (root : BlockTask) → d < 2 ^ 64 → d ≡ scope.entry.limit
            → AtBegin scope.entry.text.now d root part.old (reverse self.old.frames.items) at self.old.progress part.old
            → IfOk result (λ r. RunTied scope.entry.text.now d root part.old r part.new) }
        ensures stopped { IfOk result (λ r. StoppedAt scope.entry.text.now r) }
        ensures escapes { IfOk result (λ _. All (IsCharBoundary scope.entry.text.now) part.new.escapes) }
        ensures counted { IsUtf8 scope.entry.text.now → (total : ℕ)
            → CountedAt scope.entry.text.now total (length self.old.frames.items) at
            → IfOk result (λ r. StopCounted scope.entry.limit total r.stop) }
    {
        mem::swap(&mut self.part, part);
        let step = self.begin(scope, at)?;
        let stop = self.run(scope, step)?;
        mem::swap(&mut self.part, part);
        Ok(Stopped {
            stop,
            halt: self.progress.halt,
            floor: self.progress.floor,
        })
    }

    // Takes the first step: at the start of a line, or within one.
    fn begin(&mut self, scope: BlockContext<'a>, at: usize) -> Result<Step, AllocError>
        requires { IsReaderReady scope.text.now at self.old }
        ensures { StepPromises AtBegin CountedAt scope.entry at 3 self.old self.new result }
    {
        if is_line_start(scope.text, at) {
            return self.end_line(scope, at);
        }
        Ok(Step::Node(at))
    }

    // Reads until the outermost node ends or the text goes wrong.
    fn run(&mut self, scope: BlockContext<'a>, first: Step) -> Result<Stop, AllocError>
        requires ready { StepReady scope.text.now 0 first }
        requires progress { ProgressAt scope.text.now self.old.progress }
        requires escapes { All (IsCharBoundary scope.text.now) self.old.part.escapes }
        ensures tied { (d : ℕ) → (root : BlockTask) → (before : Part) → d < 2 ^ 64 → d ≡ scope.entry.limit
            → BlockTied scope.entry.text.now d root before (reverse self.old.frames.items) first self.old.progress self.old.part
            → IfOk result (λ s. StopTied scope.entry.text.now d root before s self.new.progress self.new.part) }
        ensures progress { IfOk result (λ _. ProgressAt scope.entry.text.now self.new.progress) }
        ensures stop { IfOk result (λ s. StopAt scope.entry.text.now s) }
        ensures escapes { IfOk result (λ _. All (IsCharBoundary scope.entry.text.now) self.new.part.escapes) }
        ensures counted { IsUtf8 scope.entry.text.now → (total : ℕ)
            → StepCounted scope.entry.text.now scope.entry.limit total (length self.old.frames.items) first
            → IfOk result (λ s. StopCounted scope.entry.limit total s) }
    {
        let mut step = first;
        'steps: loop {
            step = match step {
                Step::Node(at) => self.take_node(scope, at)?,
                Step::Line(at) => self.take_line(scope, at)?,
                Step::Resume(at) => self.resume(scope, at)?,
                Step::Done(place) => return Ok(Stop::Done(place)),
                Step::Failed(place) => return Ok(Stop::Failed(place)),
                Step::TooDeep(place) => return Ok(Stop::TooDeep(place)),
            };
        }
    }
}

// Returns the outcome after the reader stopped. `before` has the counts of the part before it began.
fn conclude<'a>(
    scope: BlockContext<'a>,
    root: Root,
    stopped: Stopped,
    before: Counts,
    part: &mut Part<'a>,
) -> Result<BlockOutcome, AllocError>
    requires boundary { IsCharBoundary scope.text.now root.at }
    requires stopped { StoppedAt scope.text.now stopped }
    requires escapes { All (IsCharBoundary scope.text.now) part.old.escapes }
    ensures tied { (n : ℤ) → (c : Ctx) → (start : Part) → scope.entry.limit < 2 ^ 64 → ReadRoot scope.entry.text.now root n c
        → RunTied scope.entry.text.now scope.entry.limit (Awaited false n c Nothing root.at) start stopped part.old
        → StopCounted scope.entry.limit (openers_from scope.entry.text.now root.at) stopped.stop → CountsOf start before
        → IfOk result (λ o. OutcomeTied scope.entry.text.now scope.entry.limit n c root.at start o part.new) }
    ensures place { IfOk result (λ o. OutcomeAt scope.entry.text.now root.at o) }
    ensures escapes { IfOk result (λ _. All (IsCharBoundary scope.entry.text.now) part.new.escapes) }
{
    let reached = match stopped.stop {
        Stop::Done(place) | Stop::Failed(place) | Stop::TooDeep(place) => place,
    };
    match last_end(root.at, stopped.halt) {
        Some(end) => {
            if ends_whole(stopped.stop, end) {
                let floor = stopped.floor;
                return Ok(BlockOutcome::Found(FoundBlock {
                    end,
                    reached,
                    floor,
                    whole: true,
                    too_deep: false,
                }));
            }
            before.cut(part);
            match read_prefix(scope, root, end, part)? {
                Some(floor) => Ok(BlockOutcome::Found(FoundBlock {
                    end,
                    reached,
                    floor,
                    whole: false,
                    too_deep: passes_limit(stopped.stop),
                })),
                None => Ok(BlockOutcome::Nothing { reached }),
            }
        }
        None => {
            before.cut(part);
            Ok(none_from(stopped.stop))
        }
    }
}

// Returns the outcome if no node ends: the text goes wrong, or opens more collections than the limit.
fn none_from(stop: Stop) -> BlockOutcome
    ensures { StopsAs stop result }
{
    match stop {
        Stop::Done(reached) => BlockOutcome::Nothing { reached },
        Stop::Failed(reached) => BlockOutcome::Nothing { reached },
        Stop::TooDeep(place) => BlockOutcome::TooDeep(place),
    }
}

// Returns whether the text opens more collections than the limit.
fn passes_limit(stop: Stop) -> bool
    ensures { result ≡ is_too_deep stop }
{
    match stop {
        Stop::Done(_) | Stop::Failed(_) => false,
        Stop::TooDeep(_) => true,
    }
}

// Returns the last offset at which all open nodes may end, if a node that ends there has a character. No block node
// is empty.
fn last_end(at: usize, halt: Option<usize>) -> Option<usize>
    ensures { MatchOption result ((end : ℕ) → halt ≡ Some end → end ≤ at) (λ end. (halt ≡ Some end) × (at < end)) }
{
    match halt {
        None => None,
        Some(end) => {
            if at < end {
                return Some(end);
            }
            None
        }
    }
}

// Returns whether the outermost node was read whole and ends at the offset.
fn ends_whole(stop: Stop, end: usize) -> bool
    ensures { MatchBool result (stop ≡ Stop.Done end) (stop ≡ Stop.Done end → ⊥) }
{
    match stop {
        Stop::Done(place) => place == end,
        Stop::Failed(_) | Stop::TooDeep(_) => false,
    }
}

// Reads the node once more, in the text up to `end`, the last offset at which all open nodes may end, and adds it to
// the part. Returns the offset after its last block scalar, or 0; `None` if the node did not end there.
fn read_prefix<'a>(
    scope: BlockContext<'a>,
    root: Root,
    end: usize,
    part: &mut Part<'a>,
) -> Result<Option<usize>, AllocError>
    requires boundary { IsCharBoundary scope.text.now root.at }
    requires end { IsCharBoundary scope.text.now end }
    requires order { root.at ≤ end }
    requires escapes { All (IsCharBoundary scope.text.now) part.old.escapes }
    ensures tied { (n : ℤ) → (c : Ctx) → scope.entry.limit < 2 ^ 64 → ReadRoot scope.entry.text.now root n c
        → HaltAt scope.entry.text.now scope.entry.limit (Awaited false n c Nothing root.at) end
        → IfOk result (λ o. PrefixGiven scope.entry.text.now scope.entry.limit n c root.at end part.old o part.new) }
    ensures floor { IfOk result (λ o. MayBoundary scope.entry.text.now o) }
    ensures escapes { IfOk result (λ _. All (IsCharBoundary scope.entry.text.now) part.new.escapes) }
{
    let prefix = BlockContext {
        text: &scope.text[..end],
        ..scope
    };
    let mut read = new_part(scope.alloc);
    let stopped = run_from(prefix, root, &mut read)?;
    if !ends_whole(stopped.stop, end) {
        return Ok(None);
    }
    let Part {
        events,
        comments,
        escapes,
    } = read;
    part.events.append(events)?;
    part.comments.append(comments)?;
    part.escapes.append(escapes)?;
    Ok(Some(stopped.floor))
}
