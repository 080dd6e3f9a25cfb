//! The readers of flow nodes and of implicit keys.
ghost use Rattle.std.specs.Prelude.{◌≡◌, ◌+◌, [], false, true, IfOk, IfSome, MatchResult, Ok, None};
ghost use Rattle.std.specs.List.{All};
ghost use Rattle.std.specs.Str.{IsCharBoundary};
ghost use Rattle.yf_chars.specs.Boundary.{BoundaryFrom};
ghost use Rattle.yf_lines.specs.Basic.{is_block};
ghost use Rattle.yf_lines.specs.FaultPlaces.{IsFirstPlace};
ghost use Rattle.yf_flow.specs.Machine.{IsReadFault, IsScanFault};
ghost use Rattle.yf_flow.specs.NodeReaders.{ReadsFlowNode, ReadsKey, ScansFlowNode, ScansKey};

use crate::frame::FlowContext;
use crate::nodes::{FlowOutcome, new_part, read_node};
use std::alloc::{AllocError, Global};
use std::mem::drop;
use yf_chars::context::Ctx;
use yf_events::part::Part;
use yf_events::reading::DEPTH;
use yf_lines::contexts::is_block;
use yf_lines::fault::Fault;
use yf_lines::place::Position as SourcePlace;
use yf_lines::source_text::Src;
use yf_lines::text::ReadResult;

/// A node and the byte offset after it.
#[derive(Drop)]
pub struct NodePart<'a> {
    pub part: Part<'a>,
    pub end: usize,
}

/// A node with the place of the first escape that is not a character. The text has U+FFFD for such an escape.
#[derive(Drop)]
pub struct ScannedPart<'a> {
    pub part: Part<'a>,
    pub escape: Option<SourcePlace>,
    pub end: usize,
}

/// The result of the readers of nodes that go on past escapes.
pub type ScanResult<'a> = ReadResult<ScannedPart<'a>>;

/// Reads the longest flow node (ns-flow-node(n,c), production 161) that begins at a byte offset.
///
/// Returns its events and comments, each with its offsets, and the offset after it. `n` is the indentation, from -1.
/// The node has at most `DEPTH` collections open at once (a single pair counts as one), and covers no document
/// marker. Returns `None` if no such node is derived there in that context, and always in the two block contexts,
/// which have no flow nodes.
///
/// # Errors
///
/// Fails with `Fault::TooDeep` if no such node is derived there and more than `DEPTH` openers of collections come
/// after the offset, with `Fault::EscapeValue` at the first escape in the node that is not a character, and with
/// `Fault::Memory`.
pub fn read_flow_node<'a>(
    alloc: Global,
    src: &Src<'a>,
    at: usize,
    n: i32,
    ctx: Ctx,
) -> ReadResult<NodePart<'a>>
    requires { IsCharBoundary src.now.text at }
    ensures place { MatchResult result (λ o. IfSome o (λ p. BoundaryFrom src.now.text (at + 1) p.end)) (IsReadFault src.now.text) }
    ensures escapes { IfOk result (λ o. IfSome o (λ p. p.part.escapes ≡ [])) }
    ensures reads { ReadsFlowNode src.now.text n ctx at result }
    ensures block { is_block ctx ≡ true → result ≡ Ok None }
{
    match scan_flow_node(alloc, src, at, n, ctx) {
        Ok(None) => Ok(None),
        Ok(Some(ScannedPart { part, escape, end })) => match escape {
            None => Ok(Some(NodePart { part, end })),
            Some(place) => {
                drop(part);
                Err(Fault::EscapeValue { place })
            }
        },
        Err(fault) => Err(fault),
    }
}

/// Reads a flow node as `read_flow_node` does, but goes on past an escape that is not a character.
///
/// # Errors
///
/// Fails with `Fault::TooDeep` and `Fault::Memory`, as `read_flow_node` does.
pub fn scan_flow_node<'a>(
    alloc: Global,
    src: &Src<'a>,
    at: usize,
    n: i32,
    ctx: Ctx,
) -> ScanResult<'a>
    requires { IsCharBoundary src.now.text at }
    ensures place { MatchResult result (λ o. IfSome o (λ p. BoundaryFrom src.now.text (at + 1) p.end)) (IsScanFault src.now.text) }
    ensures escapes { IfOk result (λ o. IfSome o (λ p. IsFirstPlace src.now.text p.part.escapes p.escape)) }
    ensures reads { ScansFlowNode src.now.text n ctx at result }
    ensures block { is_block ctx ≡ true → result ≡ Ok None }
{
    if is_block(ctx) {
        return Ok(None);
    }
    let scene = FlowContext {
        text: src.text(),
        indentation: n,
        context: ctx,
        limit: DEPTH,
    };
    let mut part = new_part(alloc);
    match read_node(alloc, scene, at, &mut part) {
        Ok(FlowOutcome::Found(end)) => {
            let escape = first_escape(src, &part);
            Ok(Some(ScannedPart { part, escape, end }))
        }
        Ok(FlowOutcome::Nothing) => {
            drop(part);
            Ok(None)
        }
        Ok(FlowOutcome::TooDeep(offset)) => {
            drop(part);
            let place = src.place(offset);
            Err(Fault::TooDeep { place })
        }
        Err(AllocError) => {
            drop(part);
            Err(Fault::Memory)
        }
    }
}

/// Returns the place of the first escape in the part that is not a character.
pub fn first_escape(src: &Src, part: &Part) -> Option<SourcePlace>
    requires { All (IsCharBoundary src.now.text) part.now.escapes }
    ensures { IsFirstPlace src.now.text part.now.escapes result }
{
    match part.escapes.as_slice() {
        [] => None,
        [first, ..] => Some(src.place(*first)),
    }
}

/// Reads the longest node of an implicit key (ns-s-implicit-yaml-key(c), production 154; c-s-implicit-json-key(c),
/// production 155) that begins at a byte offset, without the white space after it.
///
/// In a key context it is on one line. The caller counts its characters. Returns `None` if no such node is derived
/// there, and always in the two block contexts.
///
/// # Errors
///
/// Fails as `read_flow_node` does.
pub fn read_implicit_key<'a>(
    alloc: Global,
    src: &Src<'a>,
    at: usize,
    ctx: Ctx,
) -> ReadResult<NodePart<'a>>
    requires { IsCharBoundary src.now.text at }
    ensures place { MatchResult result (λ o. IfSome o (λ p. BoundaryFrom src.now.text (at + 1) p.end)) (IsReadFault src.now.text) }
    ensures escapes { IfOk result (λ o. IfSome o (λ p. p.part.escapes ≡ [])) }
    ensures reads { ReadsKey src.now.text ctx at result }
    ensures block { is_block ctx ≡ true → result ≡ Ok None }
{
    read_flow_node(alloc, src, at, 0, ctx)
}

/// Reads the node of an implicit key as `read_implicit_key` does, but goes on past an escape that is not a character.
///
/// # Errors
///
/// Fails with `Fault::TooDeep` and `Fault::Memory`, as `read_flow_node` does.
pub fn scan_implicit_key<'a>(alloc: Global, src: &Src<'a>, at: usize, ctx: Ctx) -> ScanResult<'a>
    requires { IsCharBoundary src.now.text at }
    ensures place { MatchResult result (λ o. IfSome o (λ p. BoundaryFrom src.now.text (at + 1) p.end)) (IsScanFault src.now.text) }
    ensures escapes { IfOk result (λ o. IfSome o (λ p. IsFirstPlace src.now.text p.part.escapes p.escape)) }
    ensures reads { ScansKey src.now.text ctx at result }
    ensures block { is_block ctx ≡ true → result ≡ Ok None }
{
    scan_flow_node(alloc, src, at, 0, ctx)
}
