//! The findings of rules.

use yf_lines::place::Position;

/// A position at which a rule is broken, with that rule.
#[derive(Clone, Copy)]
pub struct Finding {
    pub place: Position,
    /// The rule's number.
    pub number: usize,
    /// The rule's name.
    pub id: &'static str,
    /// Whether the house style fixes the finding.
    pub fixable: bool,
}
