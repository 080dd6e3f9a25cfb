//! The rules to leave out of a check: the names that the words of a command line give, separated by commas.
ghost use Rattle.std.specs.Prelude.{◌≡◌, ◌++◌, ⊤, true, false, map, IfOk, MatchOption};
ghost use Rattle.yf_command_line.specs.Requests.{RefusedBy};
ghost use Rattle.yf_command_line.specs.Without.{are_rules, between_commas, is_rule, names_in};

use crate::usage::Usage;
use std::alloc::{AllocError, Global};
use yf_lines::shown::shown_text;
use yf_lines::text::OwnedText;

// Returns the names in some words, word by word.
pub(crate) fn names_in(alloc: Global, words: &[&str]) -> Result<Vec<OwnedText>, AllocError>
    ensures { IfOk result (λ names. names.items ≡ names_in (map (λ w. w.now) words.now)) }
{
    let mut names = Vec::new(alloc);
    for word in words {
        add_names(alloc, &mut names, word)?;
    }
    Ok(names)
}

// Adds the names in a word.
fn add_names(alloc: Global, names: &mut Vec<OwnedText>, word: &str) -> Result<(), AllocError>
    ensures { IfOk result (λ _. names.new.items ≡ names.old.items ++ between_commas word.now) }
{
    let parts = between_commas(alloc, word)?;
    for part in parts.as_slice() {
        names.push(OwnedText::new(String::from_str(alloc, part)?))?;
    }
    Ok(())
}

// Returns the texts between the commas of a word.
fn between_commas<'a>(alloc: Global, word: &'a str) -> Result<Vec<&'a str>, AllocError>
    ensures { IfOk result (λ parts. map (λ part. part.now) parts.items ≡ between_commas word.now) }
{
    word.split(',').collect(alloc)
}

// Returns the first of the names that no rule has.
pub(crate) fn unknown_name<'n>(names: &'n [OwnedText], rules: &[&str]) -> Option<&'n str>
    ensures { MatchOption result (are_rules (map (λ r. r.now) rules.now) names.now ≡ true)
        (λ _. are_rules (map (λ r. r.now) rules.now) names.now ≡ false) }
{
    for name in names {
        if !is_rule(rules, name.as_str()) {
            return Some(name.as_str());
        }
    }
    None
}

// Returns whether a rule has this name.
fn is_rule(rules: &[&str], name: &str) -> bool
    ensures { result ≡ is_rule (map (λ r. r.now) rules.now) name.now }
{
    for rule in rules {
        if *rule == name {
            return true;
        }
    }
    false
}

// Returns the refusal of a name that no rule has.
pub(crate) fn refusal_of_name(alloc: Global, name: &str, rules: &[&str]) -> Usage
    ensures { RefusedBy ⊤ result }
{
    match unknown_text(alloc, name, rules) {
        Ok(text) => Usage::Wrong(text),
        Err(_) => Usage::Memory,
    }
}

// Returns the message about a name that no rule has. It lists the names of all rules.
fn unknown_text(alloc: Global, name: &str, rules: &[&str]) -> Result<OwnedText, AllocError> {
    let name = shown_text(alloc, name)?;
    let rules = rules.join(alloc, ", ")?;
    Ok(OwnedText::new(format!(in alloc;
        "error: invalid value '{name}' for '--without <RULES>'
  [possible values: {rules}]

For more information, try '--help'.
"
    )?))
}
