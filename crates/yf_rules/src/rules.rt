//! The rules of the house style as values of `Rule`.
ghost use Rattle.yf_rule_sets.specs.RuleOf.{definition_of};

use crate::rule::{About, FoundOffsets, Global, Reading, Rule, Src, Style};
use yf_laws::every_text::rules_are_mended;
pub use yf_rule_sets::rules::StyleRule;
use yf_rule_sets::rules::offsets_by;

impl Rule for StyleRule {
    ghost definition = { λ rule. definition_of rule };

    fn about(&self) -> About {
        match *self {
            StyleRule::TrailingBlanks => About::fixable(1, "trailing-blanks"),
            StyleRule::Indentation => About::fixable(2, "indentation"),
            StyleRule::Quoting => About::fixable(3, "quoting"),
            StyleRule::DocumentStart => About::fixable(4, "document-start"),
            StyleRule::FinalBreak => About::fixable(5, "final-break"),
            StyleRule::LineBreaks => About::fixable(6, "line-breaks"),
            StyleRule::ByteOrderMark => About::fixable(7, "byte-order-mark"),
            StyleRule::BlankLines => About::fixable(8, "blank-lines"),
            StyleRule::FlowLayout => About::fixable(9, "flow-layout"),
            StyleRule::CommentSpace => About::fixable(10, "comment-space"),
            StyleRule::LineLength => About::unfixable(11, "line-length"),
            StyleRule::RepeatedKeys => About::unfixable(12, "repeated-keys"),
            StyleRule::KeyMark => About::fixable(13, "key-mark"),
            StyleRule::HiddenCharacter => About::unfixable(14, "hidden-character"),
        }
    }

    fn offsets(&self, alloc: Global, src: &Src, reading: &Reading, style: &Style) -> FoundOffsets {
        rules_are_mended();
        offsets_by(*self, alloc, src, reading, style)
    }
}
