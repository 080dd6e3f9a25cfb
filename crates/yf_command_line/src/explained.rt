//! What `explain` prints.
ghost use Rattle.std.specs.Prelude.{⊤};
ghost use Rattle.clap.specs.Words.{found_of, rows_of};
ghost use Rattle.yf_command_line.specs.Requests.{ExplainedBy, RefusedBy};

use crate::options::NAME;
use crate::usage::Usage;
use crate::words::value_given;
use clap::ArgMatches;
use std::alloc::{AllocError, Global};
use yf_lines::shown::shown_text;
use yf_lines::text::OwnedText;
use yf_rule_pages::explanation::explanation;
use yf_rule_pages::page::Page;

// Returns what `explain` prints with these matches, or the refusal of a NAME that no page has.
pub(crate) fn explained(alloc: Global, given: &ArgMatches<'_>, pages: &[Page]) -> Usage
    ensures { ExplainedBy pages.now (rows_of (found_of given.now)) result }
{
    let name = value_given(given, NAME);
    match explanation(alloc, pages, name) {
        Ok(Some(text)) => Usage::Help(OwnedText::new(text)),
        Ok(None) => refusal_of_page(alloc, name.unwrap_or_default(), pages),
        Err(_) => Usage::Memory,
    }
}

// Returns the refusal of a name that no page has.
fn refusal_of_page(alloc: Global, name: &str, pages: &[Page]) -> Usage
    ensures { RefusedBy ⊤ result }
{
    match unknown_text(alloc, name, pages) {
        Ok(text) => Usage::Wrong(text),
        Err(_) => Usage::Memory,
    }
}

// Returns the message about a name that no page has. It lists the names of all pages.
fn unknown_text(alloc: Global, name: &str, pages: &[Page]) -> Result<OwnedText, AllocError> {
    let name = shown_text(alloc, name)?;
    let names = names_of(alloc, pages)?;
    let names = names.as_slice().join(alloc, ", ")?;
    Ok(OwnedText::new(format!(in alloc;
        "error: invalid value '{name}' for '[NAME]'
  [possible values: {names}]

For more information, try '--help'.
"
    )?))
}

// Returns the names of pages, in order.
fn names_of(alloc: Global, pages: &[Page]) -> Result<Vec<&'static str>, AllocError> {
    let mut names = Vec::new(alloc);
    for page in pages {
        names.push(page.name)?;
    }
    Ok(names)
}
