//! Rule 6, line-breaks.
ghost use Rattle.std.specs.Option.{option_to_list};
ghost use Rattle.std.specs.Prelude.{◌≡◌, IfOk};
ghost use Rattle.yf_rule_sets.specs.Sets as Sets;

use crate::facts::found::{FoundOffsets, Global, Src, listed};
pub use crate::rules::StyleRule::LineBreaks;
use yf_chars::text::is_char_at;

/// Returns the first break that is not a line feed.
pub fn offsets(alloc: Global, src: &Src) -> FoundOffsets
    ensures { IfOk result (λ offsets. offsets.items ≡ Sets.first_return src.now.text src.now.lines) }
{
    listed(alloc, first_return(src))
}

/// Returns the first offset at which a line ends with a break that begins with a carriage return.
fn first_return(src: &Src) -> Option<usize>
    ensures { Sets.first_return src.now.text src.now.lines ≡ option_to_list result }
{
    let text = src.text();
    let lines = src.lines();
    for i in 0..lines.len() {
        let line = lines.line(i);
        if is_char_at(text, line.end, b'\r') {
            return Some(line.end);
        }
    }
    None
}
