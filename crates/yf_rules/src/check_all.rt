//! All findings of all rules of style.
ghost use Rattle.std.specs.Prelude.{◌≡◌, IfErr, IfOk};
ghost use Rattle.yf_laws.specs.Mended.{IsFormatted};
ghost use Rattle.yf_lines.specs.declared.fault.Fault.TheVariants.{Memory};
ghost use Rattle.yf_rules.specs.AllRules.{FoundWithout};
ghost use Rattle.yf_rules.specs.NothingToFix.{NoneFixable};

use crate::check::check;
use crate::finding::Finding;
use crate::rule::{AllocError, Global, Reading, Rule, Src, Style};
use crate::with_rules::{WithRules, with_all_rules};
use yf_lines::fault::Fault;
use yf_lines::text::OwnedText;

// The input of a check.
#[derive(Clone, Copy)]
struct Checking<'a, 't> {
    alloc: Global,
    without: &'a [OwnedText],
    src: &'a Src<'t>,
    reading: &'a Reading<'t>,
    style: &'a Style,
}

impl WithRules for Checking<'_, '_> {
    type Value = Result<Vec<Finding>, Fault>;

    ghost Gives = { λ it _ found. IfErr found (λ fault. fault ≡ Memory)
        × IfOk found (λ findings. FoundWithout it.without.now it.style.now it.src.now it.reading.now findings.items)
        × IfOk found (λ findings. IsFormatted it.src.now it.reading.now it.style.now → NoneFixable findings.items) };

    fn with_rules(&mut self, rules: &[Box<dyn Rule>]) -> Result<Vec<Finding>, Fault> {
        check(
            self.alloc,
            rules,
            self.without,
            self.src,
            self.reading,
            self.style,
        )
    }
}

/// Returns the findings of all rules of style in a text with this reading, without those of the rules whose names are
/// in `without`, sorted by line, column and number. A name that no rule has is ignored. In a formatted text no finding
/// is fixable.
///
/// # Errors
///
/// `Fault::Memory` if memory is refused.
pub fn check_all(
    alloc: Global,
    without: &[OwnedText],
    src: &Src,
    reading: &Reading,
    style: &Style,
) -> Result<Vec<Finding>, Fault>
    ensures refused { IfErr result (λ fault. fault ≡ Fault.Memory) }
    ensures findings { IfOk result (λ findings. FoundWithout without.now style.now src.now reading.now findings.items) }
    ensures mends { IfOk result (λ findings. IsFormatted src.now reading.now style.now → NoneFixable findings.items) }
{
    let mut checking = Checking {
        alloc,
        without,
        src,
        reading,
        style,
    };
    match with_all_rules(alloc, &mut checking) {
        Ok(found) => found,
        Err(AllocError) => Err(Fault::Memory),
    }
}
