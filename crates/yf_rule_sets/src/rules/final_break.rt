//! Rule 5, final-break.
ghost use Rattle.std.specs.Option.{option_to_list};
ghost use Rattle.std.specs.Prelude.{IfOk};
ghost use Rattle.yf_rule_sets.specs.Sets.{WithoutFinalBreak};

use crate::facts::found::{FoundOffsets, Global, Src, listed};
pub use crate::rules::StyleRule::FinalBreak;
use yf_lines::basic::break_ends;

/// Returns the end of a text that is not empty and does not end with a line break.
pub fn offsets(alloc: Global, src: &Src) -> FoundOffsets
    ensures { IfOk result (λ offsets. WithoutFinalBreak src.now.text offsets.items) }
{
    listed(alloc, open_end(src.text()))
}

/// Returns the end of the text, if the text is not empty and does not end with a break.
fn open_end(text: &str) -> Option<usize>
    ensures { WithoutFinalBreak text.now (option_to_list result) }
{
    let len = text.len();
    if len == 0 {
        return None;
    }
    if break_ends(text, len) {
        return None;
    }
    Some(len)
}
