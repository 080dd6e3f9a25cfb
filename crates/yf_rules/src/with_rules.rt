//! Work with all rules of style, which are boxed for it.
ghost use Rattle.std.specs.Prelude.{◌≡◌, IfOk, OnErr};
ghost use Rattle.yf_rules.specs.AllRules.{Are, all_rules};

use crate::rule::Rule;
use crate::rules::StyleRule;
use std::alloc::{AllocError, Global};

/// Work that needs all rules of style.
pub trait WithRules {
    /// The result of the work.
    type Value: Drop;

    /// The relation of the work before, the work after, and the returned value.
    ghost Gives: { Self → Self → Self.Value → Type 0 } = { λ _ _ _. Unit {0} };

    /// Does the work with all rules, in the order of their numbers.
    fn with_rules(&mut self, rules: &[Box<dyn Rule>]) -> Self::Value
        requires { Are (λ rule. definition rule) rules.now all_rules }
        ensures { Gives self.old self.new result };
}

/// Boxes all rules of style, and does the work with them. For a new rule, add a line to this list and to `all_rules` in
/// the specs.
///
/// # Errors
///
/// `AllocError` if memory for the rules is refused. None of the work is then done.
pub fn with_all_rules<W: WithRules>(alloc: Global, work: &mut W) -> Result<W::Value, AllocError>
    ensures given { IfOk result (λ answer. W.Gives work.old work.new answer) }
    ensures kept { OnErr result (work.new ≡ work.old) }
{
    let rules: [Box<dyn Rule>; 14] = [
        Box::new(alloc, StyleRule::TrailingBlanks)?,
        Box::new(alloc, StyleRule::Indentation)?,
        Box::new(alloc, StyleRule::Quoting)?,
        Box::new(alloc, StyleRule::DocumentStart)?,
        Box::new(alloc, StyleRule::FinalBreak)?,
        Box::new(alloc, StyleRule::LineBreaks)?,
        Box::new(alloc, StyleRule::ByteOrderMark)?,
        Box::new(alloc, StyleRule::BlankLines)?,
        Box::new(alloc, StyleRule::FlowLayout)?,
        Box::new(alloc, StyleRule::CommentSpace)?,
        Box::new(alloc, StyleRule::LineLength)?,
        Box::new(alloc, StyleRule::RepeatedKeys)?,
        Box::new(alloc, StyleRule::KeyMark)?,
        Box::new(alloc, StyleRule::HiddenCharacter)?,
    ];
    Ok(work.with_rules(&rules))
}
