//! The detail of a node's part of the text.
ghost use Rattle.std.specs.Prelude.{MatchOption};
ghost use Rattle.std.specs.Str.{IsCharBoundary};
ghost use Rattle.yf_ranges.specs.NodeDetails.{NodeDetail};

use crate::detail::{Detail, Message, Span};

/// Returns the detail of the part of a text from one offset to another, if a character begins at the first offset or
/// the text ends there.
pub(crate) fn node_detail(text: &str, start: usize, end: usize, message: Message) -> Option<Detail>
    ensures { MatchOption result (IsCharBoundary text.now start → ⊥) (λ d. NodeDetail text.now start end message d) }
{
    if !text.is_char_boundary(start) {
        return None;
    }
    if start < end {
        if end <= text.len() {
            return Some(Detail {
                span: Span { start, end },
                message,
            });
        }
    }
    Some(Detail {
        span: Span {
            start,
            end: text.len(),
        },
        message,
    })
}
