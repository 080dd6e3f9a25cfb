//! The details of the findings of the rule quoting: the scalar from its first character of content to its end, its
//! style, and the style that the house style gives it.
ghost use Rattle.std.specs.Prelude.{◌<◌, length, IfOk};
ghost use Rattle.yf_ranges.specs.NodeDetails.{IsDetailAt, NodeDetails, QuotingDetail};
ghost use Rattle.yf_rule_sets.specs.RuleSets.Styles.{QuotingFault};

use crate::detail::{Detail, Message};
use crate::node::node_detail;
use std::alloc::{AllocError, Global};
use yf_events::event::Event;
use yf_forms::text::content_start::content_start;
use yf_forms::text::wanted::wanted_of;
use yf_rule_sets::facts::found::{Reading, Src, Style, push_found};

/// Returns the details of the findings of the rule quoting, in the order of the scalars.
///
/// # Errors
///
/// `AllocError` if memory is refused.
pub fn details(
    alloc: Global,
    src: &Src,
    reading: &Reading,
    style: &Style,
) -> Result<Vec<Detail>, AllocError>
    ensures { IfOk result (λ details. NodeDetails (QuotingFault src.now.text reading.now style.now)
        (QuotingDetail src.now.text reading.now style.now) src.now.text details.items) }
{
    let mut details = Vec::new(alloc);
    for i in 0..reading.len() {
        push_found(&mut details, misquoted(src, reading, i, style))?;
    }
    Ok(details)
}

// Returns the detail of the event's scalar, if its style differs from that of the house style.
fn misquoted(src: &Src, reading: &Reading, i: usize, style: &Style) -> Option<Detail>
    requires { i < length reading.now.events }
    ensures { IsDetailAt (QuotingFault src.now.text reading.now style.now i)
        (QuotingDetail src.now.text reading.now style.now i) src.now.text result }
{
    match reading.event(i) {
        Event::Scalar {
            props,
            style: written,
            text,
        } => {
            let wanted = wanted_of(written, text, style);
            if wanted == written {
                return None;
            }
            match reading.span(i) {
                Some(span) => {
                    let start = content_start(src.text(), span, &props);
                    let message = Message::Quotes {
                        found: written,
                        expected: wanted,
                    };
                    node_detail(src.text(), start, span.end, message)
                }
                None => None,
            }
        }
        _ => None,
    }
}
