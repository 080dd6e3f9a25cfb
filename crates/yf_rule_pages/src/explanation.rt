//! The text of a page, and the list of all pages.
ghost use Rattle.std.specs.Prelude.{◌≡◌, ◌++◌, IfOk, option_map, string_bytes};
ghost use Rattle.yf_rule_pages.specs.Pages.{explanation, list_line, list_text, page_text};

use crate::page::{Page, find_page};
use std::alloc::{AllocError, Global};

/// Returns the page with a name, or without a name the list of all pages. Returns `None` if no page has the name.
///
/// # Errors
///
/// `AllocError` if memory is refused.
pub fn explanation(
    alloc: Global,
    pages: &[Page],
    name: Option<&str>,
) -> Result<Option<String>, AllocError>
    ensures { IfOk result (λ text. option_map string_bytes text
        ≡ explanation pages.now (option_map (λ n. n.now) name.entry)) }
{
    match name {
        Some(name) => match find_page(pages, name) {
            Some(page) => Ok(Some(page_text(alloc, page)?)),
            None => Ok(None),
        },
        None => Ok(Some(list_text(alloc, pages)?)),
    }
}

// Returns the text of a page: its name, what is at fault, and the rest.
fn page_text(alloc: Global, page: &Page) -> Result<String, AllocError>
    ensures { IfOk result (λ text. string_bytes text ≡ page_text page.now) }
{
    let mut text = String::from_str(alloc, "# ")?;
    text.push_str(page.name)?;
    text.push_str("\n\n")?;
    text.push_str(page.summary)?;
    text.push_str("\n\n")?;
    text.push_str(page.text)?;
    Ok(text)
}

// Returns the list of pages, with a line for each.
fn list_text(alloc: Global, pages: &[Page]) -> Result<String, AllocError>
    ensures { IfOk result (λ text. string_bytes text ≡ list_text pages.now) }
{
    let mut text = String::new(alloc);
    for page in pages {
        add_line(&mut text, page)?;
    }
    Ok(text)
}

// Adds the line of a page in the list: its name, and what is at fault.
fn add_line(text: &mut String, page: &Page) -> Result<(), AllocError>
    ensures { IfOk result (λ _. string_bytes text.new ≡ string_bytes text.old ++ list_line page.now) }
{
    text.push_str(page.name)?;
    text.push_str(": ")?;
    text.push_str(page.summary)?;
    text.push_str("\n")
}
