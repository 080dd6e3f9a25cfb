//! The length of keys, and the number of open collections.

use crate::tests::answers::{Asked, Repeated, answer_to, is_run, repeated};
use std::alloc::{AllocError, Global};
use yf_forms::style::Style;

/// Streams with a long key or many open collections, and the line of the fault, or an empty line. Reading ends at the
/// start of the first collection that is too many. A mistake before it is reported instead.
static LIMITS: [(Repeated, &str); 38] = [
    (("", "k", 1024, ": v", 1), ""),
    (("", "k", 1025, ": v", 1), "1:1026 refused: syntax\n"),
    (("[", "k", 1025, ": v]", 1), "1:1027 refused: syntax\n"),
    (("{", "k", 1025, ": v}", 1), ""),
    (("", "- ", 1024, "a", 1), ""),
    (("", "[", 1024, "]", 1024), ""),
    (("", "- ", 1025, "a", 1), "1:2049 refused: too-deep\n"),
    (("", "- ", 1025, "\"", 1), "1:2049 refused: too-deep\n"),
    (("", "[", 1025, "]", 1025), "1:1025 refused: too-deep\n"),
    (("", "[", 1025, "}", 1), "1:1025 refused: too-deep\n"),
    (("", "[", 1000000, "", 0), "1:1025 refused: too-deep\n"),
    // the other openers
    (("", "{? ", 1025, "", 0), "1:3073 refused: too-deep\n"),
    (("[", "[a: ", 512, "", 0), "1:2047 refused: too-deep\n"),
    (("[", "[? ", 512, "", 0), "1:1536 refused: too-deep\n"),
    (("[", "[: ", 512, "", 0), "1:1536 refused: too-deep\n"),
    (("", "? ", 1024, "a", 1), ""),
    (("", "? ", 1025, "a", 1), "1:2049 refused: too-deep\n"),
    (("", "- ", 1023, ": a", 1), ""),
    (("", "- ", 1024, ": a", 1), "1:2049 refused: too-deep\n"),
    (("", "- ", 1023, "a: b", 1), ""),
    (("", "- ", 1024, "a: b", 1), "1:2049 refused: too-deep\n"),
    (("", "- ", 1024, "&a b: c", 1), "1:2049 refused: too-deep\n"),
    // after another entry, and after properties
    (("a: 1\nb: ", "[", 1023, "]", 1023), ""),
    (
        ("a: 1\nb: ", "[", 1024, "", 0),
        "2:1027 refused: too-deep\n",
    ),
    (("- a\n- ", "- ", 1023, "b", 1), ""),
    (
        ("- a\n- ", "- ", 1024, "b", 1),
        "2:2049 refused: too-deep\n",
    ),
    (("&a !b ", "[", 1025, "", 0), "1:1031 refused: too-deep\n"),
    (("&a\n", "- ", 1025, "b", 1), "2:2049 refused: too-deep\n"),
    // in a later document
    (("- a\n---\n", "[", 1024, "]", 1024), ""),
    (
        ("- a\n---\n", "[", 1025, "", 0),
        "3:1025 refused: too-deep\n",
    ),
    (
        ("a\n...\nb:\n", "- ", 1024, "c", 1),
        "4:2047 refused: too-deep\n",
    ),
    // a mistake before
    (("a: b: ", "[", 1025, "", 0), "1:5 refused: syntax\n"),
    (("- a\nb: ", "[", 1025, "", 0), "2:1 refused: syntax\n"),
    (("&a &b ", "[", 1025, "", 0), "1:4 refused: syntax\n"),
    (("[}", "[", 1025, "", 0), "1:2 refused: syntax\n"),
    (
        ("a\nb: c\n---\n", "- ", 1025, "d", 1),
        "2:2 refused: syntax\n",
    ),
    (("- a\n\t", "- ", 1025, "b", 1), "2:1 refused: syntax\n"),
    // words of a scalar
    (("- a\n   ", "? ", 1025, "b", 1), ""),
];

/// Lines that each open a collection in the collection of the line before, the number of these lines, and the line of
/// the fault, or an empty line.
static NESTED_LINES: [(&str, usize, &str); 8] = [
    ("k:", 1024, ""),
    ("k:", 1025, "1025:1025 refused: too-deep\n"),
    ("-", 1024, ""),
    ("-", 1030, "1025:1025 refused: too-deep\n"),
    ("?", 1030, "1025:1025 refused: too-deep\n"),
    ("k: &a", 1030, "1025:1025 refused: too-deep\n"),
    ("k: # c", 1030, "1025:1025 refused: too-deep\n"),
    ("k: v", 1030, "2:3 refused: syntax\n"),
];

/// Settings, streams with long keys and deep sequences, and their formattings.
static LONG: [(&str, Repeated, Repeated); 8] = [
    (
        "",
        ("", "k", 1023, ": v\n", 1),
        ("---\n", "k", 1023, ": v\n", 1),
    ),
    (
        "",
        ("", "k", 1024, ": v\n", 1),
        ("---\n? ", "k", 1024, "\n: v\n", 1),
    ),
    (
        "",
        ("{", "k", 1025, ": v}\n", 1),
        ("---\n? ", "k", 1025, "\n: v\n", 1),
    ),
    (
        "",
        ("", "- ", 1024, "a\n", 1),
        ("---\n", "- ", 1024, "a\n", 1),
    ),
    (
        "",
        ("", "[", 1024, "]", 1024),
        ("---\n", "- ", 1023, "[]\n", 1),
    ),
    // a key that is too long because of its escapes, which are six characters each
    (
        "invisible = \"escaped\"",
        ("\"", "\u{200B}", 170, "\": v\n", 1),
        ("---\n\"", "\\u200B", 170, "\": v\n", 1),
    ),
    (
        "invisible = \"escaped\"",
        ("\"", "\u{200B}", 171, "\": v\n", 1),
        ("---\n? \"", "\\u200B", 171, "\"\n: v\n", 1),
    ),
    // comments after 1,024 sequences on one line
    (
        "comments = \"block\"",
        ("", "- ", 1024, "a\n# b\n", 1),
        ("---\n", "- ", 1024, "a\n# b\n", 1),
    ),
];

/// Returns whether a text is refused with this line, or accepted if the line is empty.
fn is_answered(alloc: Global, text: &Result<String, AllocError>, line: &str) -> bool {
    match text {
        Ok(text) if line.is_empty() => {
            let input = text.as_str().as_bytes();
            answer_to(alloc, Asked::Events, &Style::house(), input).status == 0
        }
        Ok(text) => is_run(alloc, &(Asked::Events, "", text.as_str(), 2, line)),
        Err(AllocError) => false,
    }
}

/// Returns a text of `count` lines. Each is indented by one space more than the line before.
fn nested_lines(alloc: Global, line: &str, count: usize) -> Result<String, AllocError> {
    let mut text = String::new(alloc);
    for indent in 0..count {
        for _ in 0..indent {
            text.push_str(" ")?;
        }
        text.push_str(line)?;
        text.push_str("\n")?;
    }
    Ok(text)
}

/// Returns a text of `count` keys on lines of their own, and a comment in the block of each key and in the last key's
/// value. Each key is indented by two spaces more than the key before. The innermost comment comes first.
fn nested_comments(alloc: Global, count: usize) -> Result<String, AllocError> {
    let mut text = String::new(alloc);
    for level in 0..count {
        for _ in 0..level {
            text.push_str("  ")?;
        }
        text.push_str("k:\n")?;
    }
    for level in 0..count {
        for _ in level..count {
            text.push_str("  ")?;
        }
        text.push_str("# c\n")?;
    }
    Ok(text)
}

/// Returns whether comments in `count` blocks stay at their columns.
fn keeps_blocks(alloc: Global, count: usize) -> bool {
    match &nested_comments(alloc, count) {
        Ok(text) => is_run(
            alloc,
            &(
                Asked::Fmt,
                "comments = \"block\"\ndocument_start = \"keep\"",
                text.as_str(),
                0,
                text.as_str(),
            ),
        ),
        Err(AllocError) => false,
    }
}

/// Returns whether the second text is the formatting of the first one, and of itself.
fn formats(alloc: Global, settings: &str, input: &Repeated, text: &Repeated) -> bool {
    match (&repeated(alloc, input), &repeated(alloc, text)) {
        (Ok(input), Ok(text)) => {
            is_run(
                alloc,
                &(Asked::Fmt, settings, input.as_str(), 0, text.as_str()),
            ) && is_run(
                alloc,
                &(Asked::Fmt, settings, text.as_str(), 0, text.as_str()),
            )
        }
        _ => false,
    }
}

#[test]
fn counts_characters_of_keys_and_open_collections(rt: HostRuntime) {
    for (parts, line) in &LIMITS {
        assert!(rt;
            is_answered(rt.alloc(), &repeated(rt.alloc(), parts), line),
            "{}{} {}",
            parts.0,
            parts.1,
            parts.2
        );
    }
    for (part, count, line) in &NESTED_LINES {
        assert!(rt;
            is_answered(rt.alloc(), &nested_lines(rt.alloc(), part, *count), line),
            "{part} {count}"
        );
    }
    for (settings, input, text) in &LONG {
        assert!(rt; formats(rt.alloc(), settings, input, text), "{}", text.0);
    }
    assert!(rt; keeps_blocks(rt.alloc(), 1024));
}
