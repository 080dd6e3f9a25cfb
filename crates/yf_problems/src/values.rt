//! The details of findings that have values from the reading.
ghost use Rattle.std.specs.Prelude.{IfOk};
ghost use Rattle.yf_events.specs.declared.lists.Lists.{Lists};
ghost use Rattle.yf_forms.specs.declared.style.Style.{Style};
ghost use Rattle.yf_problems.specs.Problems.{AreShown, ShownFor};
ghost use Rattle.yf_ranges.specs.Known.{AreKnown};

use std::alloc::{AllocError, Global};
use yf_lines::source_text::Src;
use yf_ranges::detail::Detail;
use yf_ranges::known::KnownDetails;
use yf_rule_sets::rules::StyleRule;

// Returns the detail of a rule with values at the offset of a detail, if there is one, and otherwise the detail.
fn with_value(rule: StyleRule, src: &Src, known: &KnownDetails, detail: &Detail) -> Detail
    ensures { (reading : Lists) (style : Style) → AreKnown src.now reading style known.now
        → ShownFor rule src.now reading style detail.now result }
{
    if !src.text().is_char_boundary(detail.span.start) {
        return *detail;
    }
    match known.at(rule, detail.span.start) {
        Some(shown) => shown,
        None => *detail,
    }
}

/// Returns the details of a rule with their values.
///
/// # Errors
///
/// `AllocError` if memory is refused.
pub(crate) fn with_values(
    alloc: Global,
    rule: StyleRule,
    src: &Src,
    known: &KnownDetails,
    details: &[Detail],
) -> Result<Vec<Detail>, AllocError>
    ensures { IfOk result (λ shown. (reading : Lists) (style : Style) → AreKnown src.now reading style known.now
        → AreShown rule src.now reading style details.now shown.items) }
{
    let mut shown = Vec::new(alloc);
    for detail in details {
        shown.push(with_value(rule, src, known, detail))?;
    }
    Ok(shown)
}
