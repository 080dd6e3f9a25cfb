//! The details of findings that have values from the reading: those of the rules indentation, quoting and
//! flow-layout.
ghost use Rattle.std.specs.List.Sorted.{IsPermutation, IsSearchInRange};
ghost use Rattle.std.specs.Prelude.{IfOk, length};
ghost use Rattle.std.specs.Str.{IsCharBoundary};
ghost use Rattle.yf_events.specs.declared.lists.Lists.{Lists as TheLists};
ghost use Rattle.yf_forms.specs.declared.style.Style.{Style as AStyle};
ghost use Rattle.yf_lines.specs.Lines.{Table};
ghost use Rattle.yf_ranges.specs.Known.{AreKept, AreKnown, AreSorted, IsAmong, IsRuleDetail, IsSearched};
ghost use Rattle.yf_rule_sets.specs.declared.rules.StyleRule.TheVariants.{FlowLayout, Indentation, Quoting};

use crate::detail::Detail;
use crate::{flow_layout, indentation, quoting};
use std::alloc::{AllocError, Global};
use yf_rule_sets::facts::found::{Reading, Src, Style};
use yf_rule_sets::rules::StyleRule;

/// The details of all findings that have values from the reading, for each rule sorted by their offsets.
#[derive(Drop)]
pub struct KnownDetails {
    pub indentation: Vec<Detail>,
    pub quoting: Vec<Detail>,
    pub flow_layout: Vec<Detail>,
}

impl KnownDetails {
    /// Returns the details of the findings in a reading.
    ///
    /// # Errors
    ///
    /// `AllocError` if memory is refused.
    pub fn new(
        alloc: Global,
        src: &Src,
        reading: &Reading,
        style: &Style,
    ) -> Result<KnownDetails, AllocError>
        ensures { IfOk result (λ known. AreKnown src.now reading.now style.now known) }
    {
        let indentation = indentations(alloc, src, reading, style)?;
        let quoting = quotings(alloc, src, reading, style)?;
        let flow_layout = flow_layouts(alloc, src, reading, style)?;
        Ok(KnownDetails {
            indentation,
            quoting,
            flow_layout,
        })
    }

    /// Returns the detail of the finding of a rule at an offset, if a node is at fault there.
    pub fn at(&self, rule: StyleRule, offset: usize) -> Option<Detail>
        ensures { (src : Table) (r : TheLists) (house : AStyle) → AreKnown src r house self.now
            → IsCharBoundary src.text offset → IsRuleDetail rule src r house offset result }
    {
        match rule {
            StyleRule::Indentation => detail_at(self.indentation.as_slice(), offset),
            StyleRule::Quoting => detail_at(self.quoting.as_slice(), offset),
            StyleRule::FlowLayout => detail_at(self.flow_layout.as_slice(), offset),
            _ => None,
        }
    }
}

// Returns the details of the rule indentation.
fn indentations(
    alloc: Global,
    src: &Src,
    reading: &Reading,
    style: &Style,
) -> Result<Vec<Detail>, AllocError>
    ensures { IfOk result (λ details. AreKept Indentation src.now reading.now style.now details.items) }
{
    let mut details = indentation::details(alloc, src, reading, style)?;
    sort(&mut details)?;
    Ok(details)
}

// Returns the details of the rule quoting.
fn quotings(
    alloc: Global,
    src: &Src,
    reading: &Reading,
    style: &Style,
) -> Result<Vec<Detail>, AllocError>
    ensures { IfOk result (λ details. AreKept Quoting src.now reading.now style.now details.items) }
{
    let mut details = quoting::details(alloc, src, reading, style)?;
    sort(&mut details)?;
    Ok(details)
}

// Returns the details of the rule flow-layout.
fn flow_layouts(
    alloc: Global,
    src: &Src,
    reading: &Reading,
    style: &Style,
) -> Result<Vec<Detail>, AllocError>
    ensures { IfOk result (λ details. AreKept FlowLayout src.now reading.now style.now details.items) }
{
    let mut details = flow_layout::details(alloc, src, reading, style)?;
    sort(&mut details)?;
    Ok(details)
}

// Sorts details by their offsets.
fn sort(details: &mut Vec<Detail>) -> Result<(), AllocError>
    ensures same { IfOk result (λ _. IsPermutation details.old.items details.new.items) }
    ensures sorted { IfOk result (λ _. AreSorted details.new.items) }
{
    match details.sort_by_key(|d| d.span.start) {
        Ok(()) => Ok(()),
        Err(AllocError) => Err(AllocError),
    }
}

// Returns a detail at an offset, if the list has one there.
fn detail_at(details: &[Detail], offset: usize) -> Option<Detail>
    ensures { AreSorted details.now → IsAmong details.now offset result }
{
    match index_of(details, offset) {
        Ok(index) => Some(details[index]),
        Err(_) => None,
    }
}

// Returns the index of a detail at an offset, by halving.
fn index_of(details: &[Detail], offset: usize) -> Result<usize, usize>
    ensures bound { IsSearchInRange result (length details.now) }
    ensures searched { AreSorted details.now → IsSearched details.now offset result }
{
    details.binary_search_by_key(&offset, |d| d.span.start)
}
