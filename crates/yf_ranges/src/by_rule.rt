//! The details of all findings of a rule.
ghost use Rattle.std.specs.Prelude.{IfOk};
ghost use Rattle.yf_ranges.specs.Details.{IsDetailOf, RuleDetails};

use crate::detail::Detail;
use crate::details::detail_at;
use std::alloc::{AllocError, Global};
use yf_rule_sets::facts::found::{Reading, Src, Style, push_found};
use yf_rule_sets::rules::{StyleRule, offsets_by};

/// Returns the details of the findings of a rule, one for each offset that the rule finds, in the rule's order.
///
/// # Errors
///
/// `AllocError` if memory is refused.
pub fn details_by(
    rule: StyleRule,
    alloc: Global,
    src: &Src,
    reading: &Reading,
    style: &Style,
) -> Result<Vec<Detail>, AllocError>
    ensures { IfOk result (λ details. RuleDetails rule src.now reading.now style.now details.items) }
{
    let text = src.text();
    let _count = src.lines().len();
    let offsets = offsets_by(rule, alloc, src, reading, style)?;
    let mut details = Vec::new(alloc);
    for k in 0..offsets.len() {
        push_found(&mut details, known_detail(rule, text, style, offsets[k]))?;
    }
    Ok(details)
}

// Returns the detail at an offset at which a character begins or the text ends.
fn known_detail(rule: StyleRule, text: &str, style: &Style, offset: usize) -> Option<Detail>
    ensures { IsDetailOf rule text.now style.now offset result }
{
    if text.is_char_boundary(offset) {
        return Some(detail_at(rule, text, style, offset));
    }
    None
}
