//! The values that the library for command lines found for an option or a FILE.
ghost use Rattle.std.specs.Prelude.{◌≡◌, map, IfOk, option_map};
ghost use Rattle.clap.specs.Words.{first_of, found_of, rows_of};
ghost use Rattle.yf_command_line.specs.Requests.{all_given, is_flag};

use clap::ArgMatches;
use std::alloc::{AllocError, Global};
use yf_lines::text::OwnedText;

// Returns whether a flag is given.
pub(crate) fn is_given(given: &ArgMatches<'_>, id: &str) -> bool
    ensures { result ≡ is_flag id.now (rows_of (found_of given.now)) }
{
    match given.get_str(id) {
        Some(value) => value == "true",
        None => false,
    }
}

// Returns the value of an option as an owned text.
pub(crate) fn text_given(
    alloc: Global,
    given: &ArgMatches<'_>,
    id: &str,
) -> Result<Option<OwnedText>, AllocError>
    ensures { IfOk result (λ text. text ≡ first_of id.now (rows_of (found_of given.now))) }
{
    match given.get_str(id) {
        Some(text) => Ok(Some(OwnedText::new(String::from_str(alloc, text)?))),
        None => Ok(None),
    }
}

// Returns the value of an option.
pub(crate) fn value_given<'a>(given: &ArgMatches<'a>, id: &str) -> Option<&'a str>
    ensures { option_map (λ v. v.now) result ≡ first_of id.now (rows_of (found_of given.now)) }
{
    given.get_str(id)
}

// Returns all values of an option or of FILE, in order.
pub(crate) fn words_given<'m, 'a>(given: &'m ArgMatches<'a>, id: &str) -> &'m [&'a str]
    ensures { map (λ w. w.now) result.now ≡ all_given id.now (rows_of (found_of given.now)) }
{
    given.get_strs(id).unwrap_or_default()
}
