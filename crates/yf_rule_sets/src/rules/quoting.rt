//! Rule 3, quoting.
ghost use Rattle.std.specs.Prelude.{◌<◌, length, IfOk};
ghost use Rattle.yf_rule_sets.specs.RuleSets.Exact.{IsTheOne, Exactly};
ghost use Rattle.yf_rule_sets.specs.Passes.ScalarStarts.{StartOf};
ghost use Rattle.yf_rule_sets.specs.RuleSets.Styles.{QuotingFault};

use crate::facts::found::{FoundOffsets, Global, Reading, Src, Style, push_found};
pub use crate::rules::StyleRule::Quoting;
use yf_events::event::Event;
use yf_forms::text::content_start::content_start;
use yf_forms::text::wanted::wanted_of;

/// Returns the first character of the content of each scalar that is not in the style that the house style gives it.
pub fn offsets(alloc: Global, src: &Src, reading: &Reading, style: &Style) -> FoundOffsets
    ensures { IfOk result (λ offsets. Exactly (QuotingFault src.now.text reading.now style.now) offsets.items) }
{
    let mut offsets = Vec::new(alloc);
    for i in 0..reading.len() {
        push_found(&mut offsets, misquoted(src, reading, i, style))?;
    }
    Ok(offsets)
}

/// Returns the offset of the content of the scalar at the event, if it has characters. Few scalars need this.
#[inline(never)]
fn start_of(src: &Src, reading: &Reading, i: usize) -> Option<usize>
    requires { i < length reading.now.events }
    ensures { StartOf src.now.text reading.now i result }
{
    match reading.event(i) {
        Event::Scalar { props, .. } => match reading.span(i) {
            Some(span) => Some(content_start(src.text(), span, &props)),
            None => None,
        },
        _ => None,
    }
}

/// Returns the first character of the scalar, if it is not in the wanted style.
#[inline(always)]
fn misquoted(src: &Src, reading: &Reading, i: usize, style: &Style) -> Option<usize>
    requires { i < length reading.now.events }
    ensures { IsTheOne (QuotingFault src.now.text reading.now style.now i) result }
{
    match reading.event(i) {
        Event::Scalar {
            style: written,
            text,
            ..
        } => {
            if wanted_of(written, text, style) == written {
                return None;
            }
            start_of(src, reading, i)
        }
        _ => None,
    }
}
