//! The readers of block nodes over a text with its lines.
ghost use Rattle.std.specs.Prelude.{◌≡◌, ◌+◌, [], IfOk, IfSome, MatchResult, true, false, ◌^◌, ◌≤◌, length, Ok, None};
ghost use Rattle.std.specs.Str.{IsCharBoundary};
ghost use Rattle.yf_chars.specs.Boundary.{BoundaryFrom};
ghost use Rattle.yf_lines.specs.Basic.{is_block};
ghost use Rattle.yf_lines.specs.FaultPlaces.{IsFirstPlace};
ghost use Rattle.yf_flow.specs.Machine.{IsReadFault, IsScanFault};
ghost use Rattle.yf_block.specs.NodeGiven.{Indentation};
ghost use Rattle.yf_block.specs.NodeReaders.{ReadsBlockNode, ScansBlockNode};

use crate::nodes::{BlockOutcome, FoundBlock, block_node_in};
use std::alloc::{AllocError, Global};
use yf_chars::context::Ctx;
use yf_events::reading::DEPTH;
use yf_flow::flow::{NodePart, ScanResult, ScannedPart, first_escape};
use yf_flow::nodes::new_part;
use yf_lines::fault::Fault;
use yf_lines::source_text::Src;
use yf_lines::text::ReadResult;

/// Reads a block node (s-l+block-node(n,c), production 196) that begins at a byte offset.
///
/// Returns its events and comments, each with its offsets, and the offset after it. `n` is the indentation of the
/// collection around it, from -1 to 2^30. The node is the longest one: if the text goes wrong later, the node ends at
/// the last offset at which all open nodes may end. Returns `None` if no block node begins there in that context, and
/// in all contexts but block-out and block-in. A text has at most 1 GiB, and its columns are below 2^30.
///
/// # Errors
///
/// Fails with `Fault::TooDeep` if it finds nothing and the nodes open more than `DEPTH` collections at once (a single
/// pair counts as one), with `Fault::EscapeValue` at the first escape in the node that is not a character, and with
/// `Fault::Memory`.
pub fn read_block_node<'a>(
    alloc: Global,
    src: &Src<'a>,
    at: usize,
    n: i32,
    ctx: Ctx,
) -> ReadResult<NodePart<'a>>
    requires { IsCharBoundary src.now.text at }
    ensures place { MatchResult result (λ o. IfSome o (λ p. BoundaryFrom src.now.text (at + 1) p.end)) (IsReadFault src.now.text) }
    ensures escapes { IfOk result (λ o. IfSome o (λ p. p.part.escapes ≡ [])) }
    ensures reads { Indentation n → length src.now.text ≤ 2 ^ 30 → ReadsBlockNode src.now.text n ctx at result }
    ensures other { is_block ctx ≡ false → result ≡ Ok None }
{
    match scan_block_node(alloc, src, at, n, ctx) {
        Ok(None) => Ok(None),
        Ok(Some(ScannedPart { part, escape, end })) => match escape {
            None => Ok(Some(NodePart { part, end })),
            Some(place) => Err(Fault::EscapeValue { place }),
        },
        Err(fault) => Err(fault),
    }
}

/// Reads a block node as `read_block_node` does, but goes on past an escape that is not a character.
///
/// # Errors
///
/// Fails with `Fault::TooDeep` and `Fault::Memory`, as `read_block_node` does.
pub fn scan_block_node<'a>(
    alloc: Global,
    src: &Src<'a>,
    at: usize,
    n: i32,
    ctx: Ctx,
) -> ScanResult<'a>
    requires { IsCharBoundary src.now.text at }
    ensures place { MatchResult result (λ o. IfSome o (λ p. BoundaryFrom src.now.text (at + 1) p.end)) (IsScanFault src.now.text) }
    ensures escapes { IfOk result (λ o. IfSome o (λ p. IsFirstPlace src.now.text p.part.escapes p.escape)) }
    ensures reads { Indentation n → length src.now.text ≤ 2 ^ 30 → ScansBlockNode src.now.text n ctx at result }
    ensures other { is_block ctx ≡ false → result ≡ Ok None }
{
    let mut part = new_part(alloc);
    match block_node_in(alloc, src.text(), at, n, ctx, DEPTH, &mut part) {
        Ok(
            BlockOutcome::Found(
                FoundBlock {
                    end,
                    reached: _,
                    floor: _,
                    whole: _,
                    too_deep: _,
                },
            ),
        ) => {
            let escape = first_escape(src, &part);
            Ok(Some(ScannedPart { part, escape, end }))
        }
        Ok(BlockOutcome::Nothing { reached: _ }) => Ok(None),
        Ok(BlockOutcome::TooDeep(offset)) => Err(Fault::TooDeep {
            place: src.place(offset),
        }),
        Err(AllocError) => Err(Fault::Memory),
    }
}
