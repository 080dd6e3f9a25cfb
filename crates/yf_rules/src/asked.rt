//! The names of the rules that a check can leave out.
ghost use Rattle.std.specs.Prelude.{◌≡◌};
ghost use Rattle.yf_rules.specs.AllRules.{rule_names};
ghost use Rattle.yf_rules.specs.Asked.{is_among};

use yf_lines::text::OwnedText;

/// The names of all rules, in the order of their numbers. For a new rule, add a line.
pub const RULE_NAMES: [&str; 14] = [
    "trailing-blanks",
    "indentation",
    "quoting",
    "document-start",
    "final-break",
    "line-breaks",
    "byte-order-mark",
    "blank-lines",
    "flow-layout",
    "comment-space",
    "line-length",
    "repeated-keys",
    "key-mark",
    "hidden-character",
];

/// Returns whether a rule has this name.
pub fn is_rule(name: &str) -> bool
    ensures { result ≡ is_among rule_names name.now }
{
    RULE_NAMES.contains(&name)
}

/// Returns whether a name is one of these.
pub fn is_among(names: &[OwnedText], id: &str) -> bool
    ensures { result ≡ is_among names.now id.now }
{
    names.iter().any(|name| name.as_str() == id)
}
