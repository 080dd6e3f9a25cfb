//! A page, and the search for one.
ghost use Rattle.std.specs.Prelude.{◌≡◌, option_map};
ghost use Rattle.yf_rule_pages.specs.Pages.{named, page_at};

/// A page on a rule, on a refusal, or on a text that is not formatted or that the program skips.
#[derive(Clone, Copy, Drop)]
pub struct Page {
    /// The name of the rule or of the kind of refusal.
    pub name: &'static str,
    /// What is at fault: a sentence without a line break.
    pub summary: &'static str,
    /// The rest of the page: whole lines of Markdown.
    pub text: &'static str,
}

/// Returns the first page with a name, or `None` if no page has it.
pub fn find_page<'p>(pages: &'p [Page], name: &str) -> Option<&'p Page>
    ensures { option_map page_at result ≡ named name.now pages.now }
{
    for page in pages {
        if page.name == name {
            return Some(page);
        }
    }
    None
}
