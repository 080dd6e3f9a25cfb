//! All findings of several rules.
ghost use Rattle.std.specs.Prelude.{◌≡◌, [], ◌++◌, true, map, IfErr, IfOk};
ghost use Rattle.std.specs.List.Sorted.{IsSortedByKey};
ghost use Rattle.std.specs.Ordering.{is_lt};
ghost use Rattle.yf_rules.specs.Asked.{asked};
ghost use Rattle.yf_rules.specs.Check.{CheckAnswer, RuleFindings, SortedFrom, finding_at, key_cmp, sort_key};
ghost use Rattle.yf_laws.specs.Mended.{IsFormatted};
ghost use Rattle.yf_rules.specs.NothingToFix.{NoneFixable};
ghost use Rattle.yf_rule_sets.specs.RuleSets.Places.{Ascending, FoundAt};

use crate::asked::is_among;
use crate::finding::Finding;
use crate::rule::{About, AllocError, Global, Reading, Rule, Src, Style};
use yf_lines::fault::Fault;
use yf_lines::place::Position;
use yf_lines::text::OwnedText;

/// Returns the number and the name of a rule, and whether the house style fixes its findings.
fn about_of(rule: &Box<dyn Rule>) -> About
    ensures number { result.number ≡ (definition rule.now).number }
    ensures id { result.id.now ≡ (definition rule.now).id }
    ensures fixable { result.fixable ≡ (definition rule.now).fixable }
{
    rule.about()
}

/// Returns the positions that a rule finds, in the order of the text, each once.
fn positions_by(
    alloc: Global,
    rule: &Box<dyn Rule>,
    src: &Src,
    reading: &Reading,
    style: &Style,
) -> Result<Vec<Position>, Fault>
    ensures refused { IfErr result (λ fault. fault ≡ Fault.Memory) }
    ensures ascending { IfOk result (λ places. Ascending places.items) }
    ensures found { IfOk result (λ places. FoundAt src.now.text
        ((definition rule.now).faults src.now reading.now style.now) places.items) }
    ensures mends { IfOk result (λ places. (definition rule.now).fixable ≡ true
        → IsFormatted src.now reading.now style.now → places.items ≡ []) }
{
    rule.find(alloc, src, reading, style)
}

/// Returns the findings of a rule at these positions.
fn findings_at(alloc: Global, about: About, places: &[Position]) -> Result<Vec<Finding>, AllocError>
    ensures { IfOk result (λ findings. findings.items ≡ map (finding_at about.number about.id about.fixable) places.now) }
{
    places
        .iter()
        .map(|place| Finding {
            place: *place,
            number: about.number,
            id: about.id,
            fixable: about.fixable,
        })
        .collect(alloc)
}

/// Returns the findings of one rule: one at each position that it finds, in the order of the text.
fn findings_of(
    alloc: Global,
    rule: &Box<dyn Rule>,
    src: &Src,
    reading: &Reading,
    style: &Style,
) -> Result<Vec<Finding>, Fault>
    ensures refused { IfErr result (λ fault. fault ≡ Fault.Memory) }
    ensures findings { IfOk result (λ findings. RuleFindings (definition rule.now) src.now reading.now style.now findings.items) }
    ensures mends { IfOk result (λ findings. IsFormatted src.now reading.now style.now → NoneFixable findings.items) }
{
    let about = about_of(rule);
    let places = positions_by(alloc, rule, src, reading, style)?;
    match findings_at(alloc, about, places.as_slice()) {
        Ok(findings) => Ok(findings),
        Err(AllocError) => Err(Fault::Memory),
    }
}

/// Returns whether a finding is before another one by line, column and number.
fn comes_before(a: &Finding, b: &Finding) -> bool
    ensures { result ≡ is_lt (key_cmp (sort_key a.now) (sort_key b.now)) }
{
    (a.place.line, a.place.column, a.number) < (b.place.line, b.place.column, b.number)
}

/// Returns true only if findings are sorted by line, column and number.
fn are_sorted(findings: &[Finding]) -> bool
    ensures { result ≡ true → IsSortedByKey sort_key key_cmp findings.now }
{
    for k in 1..findings.len() {
        if comes_before(&findings[k], &findings[k - 1]) {
            return false;
        }
    }
    true
}

/// Sorts findings by line, column and number. Findings that are equal in all three keep their order. It takes memory
/// only if the findings aren't sorted yet.
fn sort_findings(findings: &mut Vec<Finding>) -> Result<(), AllocError>
    ensures { IfOk result (λ _. SortedFrom findings.old.items findings.new.items) }
{
    if are_sorted(findings.as_slice()) {
        return Ok(());
    }
    match findings.sort_by_key(|f| (f.place.line, f.place.column, f.number)) {
        Ok(()) => Ok(()),
        Err(AllocError) => Err(AllocError),
    }
}

/// Adds the findings of one more rule after the others. If there are no others, it copies nothing.
fn add(all: &mut Vec<Finding>, mut findings: Vec<Finding>) -> Result<(), Fault>
    ensures refused { IfErr result (λ fault. fault ≡ Fault.Memory) }
    ensures added { IfOk result (λ _. all.new.items ≡ all.old.items ++ findings.items) }
{
    if all.is_empty() {
        *all = findings;
        return Ok(());
    }
    match all.append(&mut findings) {
        Ok(()) => Ok(()),
        Err(_) => Err(Fault::Memory),
    }
}

/// Returns the findings of the rules in a text with this reading, without those of the rules whose names are in
/// `without`. Each box reports a position once. The findings are sorted by line, column and number. Findings that are
/// equal in all three keep the order of the boxes. A name that no rule has is ignored.
///
/// # Errors
///
/// `Fault::Memory` if memory is refused.
pub fn check(
    alloc: Global,
    rules: &[Box<dyn Rule>],
    without: &[OwnedText],
    src: &Src,
    reading: &Reading,
    style: &Style,
) -> Result<Vec<Finding>, Fault>
    ensures refused { IfErr result (λ fault. fault ≡ Fault.Memory) }
    ensures findings { IfOk result (λ findings. CheckAnswer
        (λ rule found. RuleFindings (definition rule) src.now reading.now style.now found)
        (asked (λ rule. definition rule) without.now rules.now) findings.items) }
    ensures mends { IfOk result (λ findings. IsFormatted src.now reading.now style.now → NoneFixable findings.items) }
{
    let mut all = Vec::new(alloc);
    for rule in rules {
        if is_among(without, about_of(rule).id) {
            continue;
        }
        let findings = findings_of(alloc, rule, src, reading, style)?;
        add(&mut all, findings)?;
    }
    match sort_findings(&mut all) {
        Ok(()) => Ok(all),
        Err(_) => Err(Fault::Memory),
    }
}
