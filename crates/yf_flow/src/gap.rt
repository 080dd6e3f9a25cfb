//! Separation within flow nodes, and its comments.
ghost use Rattle.std.specs.Prelude.{IfOk};
ghost use Rattle.std.specs.Str.{IsCharBoundary};
ghost use Rattle.yf_chars.specs.Boundary.{BoundaryFrom};
ghost use Rattle.yf_flow.specs.Leaves.{GapRead};

use crate::frame::FlowContext;
use std::alloc::{AllocError, Global};
use yf_comments::separation::separate;
use yf_events::comments::Comments;

/// The gap between two parts of a flow collection: separation up to an offset, or nothing.
#[derive(Clone, Copy)]
pub(crate) struct FlowGap {
    pub(crate) end: usize,
    pub(crate) is_separation: bool,
}

/// Reads the separation at an offset, if there is one (s-separate(n,c), production 80), and keeps its comments.
#[inline(always)]
pub(crate) fn read_gap<'a>(
    alloc: Global,
    scene: FlowContext<'a>,
    at: usize,
    comments: &mut Comments<'a>,
) -> Result<FlowGap, AllocError>
    requires { IsCharBoundary scene.text.now at }
    ensures place { IfOk result (λ gap. BoundaryFrom scene.entry.text.now at gap.end) }
    ensures reads { IfOk result (λ gap. GapRead scene.entry.text.now scene.entry.indentation scene.entry.context at comments.old comments.new gap) }
{
    match separate(alloc, scene.text, at, scene.indentation, scene.context)? {
        Some(separation) => {
            comments.append(separation.comments)?;
            Ok(FlowGap {
                end: separation.end,
                is_separation: true,
            })
        }
        None => Ok(FlowGap {
            end: at,
            is_separation: false,
        }),
    }
}
