//! Resolved tags (YAML 1.2.2, section 6.9.1).
ghost use Rattle.std.specs.Prelude.{◌≡◌, ◌≤◌, ◌++◌, Some, bytes_eq, length, refl};
ghost use Rattle.std.specs.Cmp.{partial_equiv_from_equiv};
ghost use Rattle.std.specs.Cmp.Lexicographic.{nat_list_cmp_total, nat_list_eq_equiv, slice_cmp, texts_po, texts_ties};
ghost use Rattle.std.specs.Ordering.{nat_cmp};
ghost use Rattle.yf_lines.specs.Text.{text_bytes};

use std::cmp::Ordering;
use std::marker::Model;
use yf_lines::text::Text;

/// The meaning of a tag: a prefix, which is a slice of the source or a default prefix, and a suffix. Tags with one
/// prefix share it in memory. A contract sees the text that both make, and comparisons compare that text.
#[derive(Drop)]
pub struct ResolvedTag<'a> {
    prefix: &'a str,
    suffix: Text<'a>,
}

impl<'a> Model for ResolvedTag<'a> {
    ghost use Rattle.std.specs.Prelude.{◌++◌, List, ℕ};
    ghost use Rattle.yf_lines.specs.Text.{text_bytes};

    ghost Value = { List ℕ };

    ghost view = { λ t. t.prefix.now ++ text_bytes t.suffix };
}

impl<'a> ResolvedTag<'a> {
    pub fn new(prefix: &'a str, suffix: Text<'a>) -> ResolvedTag<'a>
        ensures { result ≡ prefix.now ++ text_bytes suffix.entry }
    {
        ResolvedTag { prefix, suffix }
    }

    /// Returns the prefix and the suffix.
    pub fn parts(&self) -> (&str, &str)
        ensures { self.now ≡ result.0.now ++ result.1.now }
    {
        (self.prefix, self.suffix.as_str())
    }

    /// Returns a copy that shares the texts of this tag.
    pub fn lent(&self) -> ResolvedTag<'_>
        ensures { result ≡ self.now }
    {
        ResolvedTag {
            prefix: self.prefix,
            suffix: Text::Part(self.suffix.as_str()),
        }
    }
}

impl<'a> PartialEq for ResolvedTag<'a> {
    ghost eq = { λ a b. bytes_eq a b };

    ghost laws = { partial_equiv_from_equiv nat_list_eq_equiv };

    fn eq(&self, other: &ResolvedTag<'a>) -> bool {
        self.cmp(other).is_eq()
    }
}

impl<'a> Eq for ResolvedTag<'a> {
    ghost laws = { nat_list_eq_equiv };
}

impl<'a> PartialOrd for ResolvedTag<'a> {
    ghost partial_cmp = { λ a b. Some (slice_cmp nat_cmp a b) };

    ghost laws = { texts_po };

    fn partial_cmp(&self, other: &ResolvedTag<'a>) -> Option<Ordering> {
        Some(self.cmp(other))
    }
}

impl<'a> Ord for ResolvedTag<'a> {
    ghost cmp = { λ a b. slice_cmp nat_cmp a b };

    ghost total = { nat_list_cmp_total };

    ghost matches_partial_cmp = { λ a b. refl };

    ghost matches_eq = { λ a b. texts_ties a b };

    fn cmp(&self, other: &ResolvedTag<'a>) -> Ordering {
        let (prefix, suffix) = self.parts();
        let (other_prefix, other_suffix) = other.parts();
        let (prefix, suffix) = (prefix.as_bytes(), suffix.as_bytes());
        let (other_prefix, other_suffix) = (other_prefix.as_bytes(), other_suffix.as_bytes());
        if prefix.len() <= other_prefix.len() {
            return order_of_pairs(prefix, suffix, other_prefix, other_suffix);
        }
        order_of_pairs(other_prefix, other_suffix, prefix, suffix).reverse()
    }
}

// Compares two texts that are in two parts each. The front of the first is no longer than that of the second.
fn order_of_pairs(front: &[u8], back: &[u8], other_front: &[u8], other_back: &[u8]) -> Ordering
    requires { length front.now ≤ length other_front.now }
    ensures { result ≡ slice_cmp nat_cmp (front.now ++ back.now) (other_front.now ++ other_back.now) }
{
    let (start, rest) = other_front.split_at(front.len());
    let found = Ord::cmp(&front, &start);
    if found.is_ne() {
        return found;
    }
    order_of_one(back, rest, other_back)
}

// Compares a text with a text in two parts.
fn order_of_one(text: &[u8], front: &[u8], back: &[u8]) -> Ordering
    ensures { result ≡ slice_cmp nat_cmp text.now (front.now ++ back.now) }
{
    if text.len() < front.len() {
        return Ord::cmp(&text, &front);
    }
    let (start, rest) = text.split_at(front.len());
    let found = Ord::cmp(&start, &front);
    if found.is_ne() {
        return found;
    }
    Ord::cmp(&rest, &back)
}
