//! Rules of style.
ghost use Rattle.std.specs.Prelude.{◌≡◌, ℕ, List, true, false, IfErr, IfOk};
ghost use Rattle.yf_rule_sets.specs.RuleSets.Places.{Ascending, PlacesOf};

use yf_lines::fault::Fault;
use yf_lines::place::Position;
pub use yf_rule_sets::facts::found::{AllocError, FoundOffsets, Global, Reading, Src, Style};
use yf_rule_sets::facts::places::known_positions;

/// The number and the name of a rule, and whether the house style fixes its findings.
#[derive(Clone, Copy)]
pub struct About {
    /// The rule's number, which orders findings at one position.
    pub number: usize,
    /// The rule's name, as it is printed.
    pub id: &'static str,
    /// Whether the house style fixes the rule's findings.
    pub fixable: bool,
}

impl About {
    /// Describes a rule with findings that the house style fixes.
    pub fn fixable(number: usize, id: &'static str) -> About
        ensures number { result.number ≡ number }
        ensures id { result.id.now ≡ id.now }
        ensures fixable { result.fixable ≡ true }
    {
        About {
            number,
            id,
            fixable: true,
        }
    }

    /// Describes a rule with findings that the house style doesn't fix.
    pub fn unfixable(number: usize, id: &'static str) -> About
        ensures number { result.number ≡ number }
        ensures id { result.id.now ≡ id.now }
        ensures fixable { result.fixable ≡ false }
    {
        let mut about = About::fixable(number, id);
        about.fixable = false;
        about
    }
}

/// A rule of style. Its definition states what it finds; the definitions of the house style's rules are in
/// `specs/Rules.antt` of yf_rule_sets.
pub trait Rule: Drop {
    ghost use Rattle.std.specs.Prelude.{[]};
    ghost use Rattle.yf_rule_sets.specs.Definition.{RuleDefinition};
    ghost use Rattle.yf_rule_sets.specs.RuleSets.Places.{Ascending, FoundAt};
    ghost use Rattle.yf_laws.specs.Mended.{IsFormatted};

    ghost definition: { Self → RuleDefinition };

    /// Returns the number and the name of the rule, and whether the house style fixes its findings.
    fn about(&self) -> About
        ensures number { result.number ≡ (definition self.now).number }
        ensures id { result.id.now ≡ (definition self.now).id }
        ensures fixable { result.fixable ≡ (definition self.now).fixable };

    /// Returns the rule's number, which orders findings at one position.
    fn number(&self) -> usize
        ensures { result ≡ (definition self.now).number }
    {
        self.about().number
    }

    /// Returns the rule's name, as it is printed.
    fn id(&self) -> &'static str
        ensures { result.now ≡ (definition self.now).id }
    {
        self.about().id
    }

    /// Returns whether the house style fixes the rule's findings.
    fn fixable(&self) -> bool
        ensures { result ≡ (definition self.now).fixable }
    {
        self.about().fixable
    }

    /// Returns the byte offsets at which the rule is broken in a text with this reading. A formatted text has
    /// none if the house style fixes the rule's findings.
    fn offsets(&self, alloc: Global, src: &Src, reading: &Reading, style: &Style) -> FoundOffsets
        ensures faults { IfOk result (λ offsets. (definition self.now).faults src.now reading.now style.now offsets.items) }
        ensures mends { IfOk result (λ offsets. (definition self.now).fixable ≡ true
            → IsFormatted src.now reading.now style.now → offsets.items ≡ []) };

    /// Returns the positions at which the rule is broken in a text with this reading, sorted by line and column, each
    /// once.
    ///
    /// # Errors
    ///
    /// `Fault::Memory` if memory is refused.
    fn find(
        &self,
        alloc: Global,
        src: &Src,
        reading: &Reading,
        style: &Style,
    ) -> Result<Vec<Position>, Fault>
        ensures refused { IfErr result (λ fault. fault ≡ Fault.Memory) }
        ensures ascending { IfOk result (λ places. Ascending places.items) }
        ensures found { IfOk result (λ places. FoundAt src.now.text
            ((definition self.now).faults src.now reading.now style.now) places.items) }
        ensures mends { IfOk result (λ places. (definition self.now).fixable ≡ true
            → IsFormatted src.now reading.now style.now → places.items ≡ []) }
    {
        match self.offsets(alloc, src, reading, style) {
            Ok(offsets) => positions_of(alloc, src, offsets.as_slice()),
            Err(AllocError) => Err(Fault::Memory),
        }
    }
}

/// Sorts positions by line and column, and removes duplicates.
fn ascend(places: &mut Vec<Position>)
    ensures ascending { Ascending places.new.items }
    ensures places { (t os : List ℕ) → PlacesOf t os places.old.items → PlacesOf t os places.new.items }
{
    places.sort_unstable_by_key(|place| (place.line, place.column));
    places.dedup();
}

/// Returns the positions of the byte offsets that a rule found, sorted by line and column, each once. Fails with
/// `Fault::Memory` if memory is refused.
fn positions_of(alloc: Global, src: &Src, offsets: &[usize]) -> Result<Vec<Position>, Fault>
    ensures refused { IfErr result (λ fault. fault ≡ Fault.Memory) }
    ensures ascending { IfOk result (λ places. Ascending places.items) }
    ensures places { IfOk result (λ places. PlacesOf src.now.text offsets.now places.items) }
{
    match known_positions(alloc, src, offsets) {
        Ok(mut places) => {
            ascend(&mut places);
            Ok(places)
        }
        Err(AllocError) => Err(Fault::Memory),
    }
}
