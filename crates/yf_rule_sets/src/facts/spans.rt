//! The spans of scalars, and the farthest end of those that begin up to an offset.
ghost use Rattle.std.specs.Prelude.{◌<◌, length};
ghost use Rattle.std.specs.List.Sorted.{IsNonDecreasingBy};
ghost use Rattle.yf_rule_sets.specs.Passes.FarthestEnds.{AllBegin, Covers, NoneBegins};
ghost use Rattle.yf_rule_sets.specs.RuleSets.Exact.{IsTheOne};
ghost use Rattle.yf_rule_sets.specs.RuleSets.Scalars.{ScalarSpan};

use yf_events::event::{Event, Span};
use yf_events::reading::Reading;

/// Returns the span of the scalar at the event, if the event is a scalar with characters.
#[inline(always)]
pub fn scalar_span(reading: &Reading, i: usize) -> Option<Span>
    requires { i < length reading.now.events }
    ensures { IsTheOne (ScalarSpan reading.now i) result }
{
    match reading.event(i) {
        Event::Scalar { .. } => reading.span(i),
        _ => None,
    }
}

/// How many spans begin at an offset or before it, and the farthest end of these, or 0.
#[derive(Clone, Copy)]
pub struct Cover {
    pub count: usize,
    pub reach: usize,
}

/// Returns the cover up to the byte offset, from the cover up to an earlier one.
pub fn cover_to(spans: &[Span], from: Cover, offset: usize) -> Cover
    requires sorted { IsNonDecreasingBy (λ s. s.start) spans.now }
    requires cover { Covers spans.now from.count from.reach }
    requires begun { AllBegin spans.now from.count offset }
    ensures cover { Covers spans.now result.count result.reach }
    ensures begun { AllBegin spans.now result.count offset }
    ensures others { NoneBegins spans.now result.count offset }
{
    let mut count = from.count;
    let mut reach = from.reach;
    while count < spans.len() {
        let span = spans[count];
        if span.start > offset {
            return Cover { count, reach };
        }
        reach = reach.max(span.end);
        count += 1;
    }
    Cover { count, reach }
}
