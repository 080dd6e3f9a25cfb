//! The parts of a finding that a baseline keeps.

use yf_lines::text::OwnedText;

/// The parts of a finding that a baseline keeps.
#[derive(Drop)]
pub struct Entry {
    /// The file's name as the user wrote it.
    pub file: OwnedText,
    /// The rule's id.
    pub rule: OwnedText,
    /// The SHA-256 hash of the text of the line, in hexadecimal digits.
    pub hash: OwnedText,
    /// The number of earlier findings of the file with this rule and this hash.
    pub ordinal: u64,
}

/// A finding, as far as an entry depends on it.
#[derive(Clone, Copy)]
pub struct Found<'a> {
    /// The rule's id.
    pub rule: &'a str,
    /// The text of the line on which the finding begins, without its break.
    pub text: &'a str,
}
