//! Settings files, by their texts, and the lines that are printed for those that are refused.

use crate::tests::answers::{Asked, is_run};
use std::alloc::Global;
use yf_forms::style::{CommentColumns, DocumentStart};
use yf_lines::fault::Fault;
use yf_lines::invisible::Invisible;
use yf_lines::quotes::Quotes;
use yf_settings::file_settings::settings_from_toml;
use yf_settings::settings::style_from_toml;
use yf_settings::texts::allows;

/// A settings file and its settings: `indent`, `max_line`, `quotes`, `seq_indent`, whether a first document without a
/// `---` stays as it is, whether comments keep their blocks, and whether hidden characters are escaped.
type Row = (&'static str, usize, usize, Quotes, bool, bool, bool, bool);

static SET: [Row; 10] = [
    ("", 2, 100, Quotes::Double, true, false, false, false),
    (
        "indent = 4",
        4,
        100,
        Quotes::Double,
        true,
        false,
        false,
        false,
    ),
    (
        "# none\n",
        2,
        100,
        Quotes::Double,
        true,
        false,
        false,
        false,
    ),
    (
        "document_start = \"always\"",
        2,
        100,
        Quotes::Double,
        true,
        false,
        false,
        false,
    ),
    (
        "invisible = \"plain\"",
        2,
        100,
        Quotes::Double,
        true,
        false,
        false,
        false,
    ),
    (
        "invisible = 'escaped'",
        2,
        100,
        Quotes::Double,
        true,
        false,
        false,
        true,
    ),
    (
        "comments = \"next\"",
        2,
        100,
        Quotes::Double,
        true,
        false,
        false,
        false,
    ),
    (
        "comments = 'block'",
        2,
        100,
        Quotes::Double,
        true,
        false,
        true,
        false,
    ),
    (
        "seq_indent = false\ninvisible = \"escaped\"\nquotes = \"single\"\ndocument_start = 'keep'\nmax_line = 40\ncomments = \"block\"\nindent = 8\n",
        8,
        40,
        Quotes::Single,
        false,
        true,
        true,
        true,
    ),
    (
        "max_line = 1_000\nquotes = 'double'",
        2,
        1000,
        Quotes::Double,
        true,
        false,
        false,
        false,
    ),
];

/// Returns whether a settings file has these settings.
fn sets(alloc: Global, row: &Row) -> bool {
    match &style_from_toml(alloc, row.0) {
        Ok(style) => {
            (row.1, row.2, row.4) == (style.indent, style.max_line, style.seq_indent)
                && matches!(
                    (row.3, style.quotes),
                    (Quotes::Single, Quotes::Single) | (Quotes::Double, Quotes::Double)
                )
                && row.5 == matches!(style.document_start, DocumentStart::Keep)
                && row.6 == matches!(style.comments, CommentColumns::Block)
                && row.7 == matches!(style.invisible, Invisible::Escaped)
        }
        Err(_) => false,
    }
}

/// Settings files that are refused, and the line that is printed, with the least wrong key.
static REFUSED: [(&str, &str); 29] = [
    ("comments = \"Block\"", "config: comments\n"),
    ("comments = true\nindent = 9", "config: comments\n"),
    ("indent = 9", "config: indent\n"),
    ("tabs = 1", "config: tabs\n"),
    ("indent =", "config: \n"),
    ("indent = 9\na = 1", "config: a\n"),
    ("seq_indent = 1", "config: seq_indent\n"),
    ("document_start = \"Keep\"", "config: document_start\n"),
    ("document_start = true", "config: document_start\n"),
    (
        "seq_indent = 3\ndocument_start = 2\n",
        "config: document_start\n",
    ),
    ("invisible = \"Escaped\"", "config: invisible\n"),
    ("invisible = true", "config: invisible\n"),
    ("max_line = 3\ninvisible = 2\n", "config: invisible\n"),
    ("indent = 1", "config: indent\n"),
    ("indent = -4", "config: indent\n"),
    ("indent = 2.0", "config: indent\n"),
    ("indent = true", "config: indent\n"),
    ("max_line = 39", "config: max_line\n"),
    ("max_line = 1001", "config: max_line\n"),
    ("quotes = \"Double\"", "config: quotes\n"),
    ("quotes = 2", "config: quotes\n"),
    ("seq_indent = 3\nquotes = 2\n", "config: quotes\n"),
    ("indent = 4\nindent = 4", "config: \n"),
    ("[style]\nindent = 4", "config: style\n"),
    ("\"\" = 1", "config: \n"),
    // control characters are shown
    ("\"a\\u001b[2J\\n\" = 1", "config: a\\x1B[2J\\x0A\n"),
    ("\"\\u0000\\t\\u007F\" = 1", "config: \\x00\\x09\\x7F\n"),
    (
        "\"\\u0080\\u009Bx\\u009F\" = 1",
        "config: \\x80\\x9Bx\\x9F\n",
    ),
    (
        "\"\u{A0}\u{E9}\\\\\\\"\u{2028}\u{1F600}\" = 1",
        "config: \u{A0}\u{E9}\\\"\u{2028}\u{1F600}\n",
    ),
];

/// Settings files, a version, whether the file allows that version, and the number of its patterns.
static FURTHER: [(&str, &str, bool, usize); 8] = [
    ("", "0.2.0", true, 0),
    ("exclude = []", "0.2.0", true, 0),
    ("exclude = [\"a\", \"!b/\"]", "0.2.0", true, 2),
    ("required_version = \">=0.3, <0.4\"", "0.2.0", false, 0),
    ("required_version = \">=0.3, <0.4\"", "0.3.7", true, 0),
    ("required_version = \">=0.3, <0.4\"", "0.4.0", false, 0),
    ("required_version = \"*\"", "0.2.0", true, 0),
    ("required_version = \"=0.2.0\"", "0.2.0", true, 0),
];

/// Returns whether a settings file allows a version as expected, and has this number of patterns.
fn is_for(alloc: Global, row: &(&str, &str, bool, usize)) -> bool {
    match settings_from_toml(alloc, row.0) {
        Ok(settings) => {
            allows(alloc, &settings.required, row.1) == Ok(row.2) && settings.exclude.len() == row.3
        }
        Err(_) => false,
    }
}

/// Settings files with a wrong `exclude` or `required_version`, and the least wrong key.
static WRONG: [(&str, &str); 11] = [
    ("exclude = \"a\"", "exclude"),
    ("exclude = [\"a\", 1]", "exclude"),
    ("exclude = [\"a\", \"b[\"]", "exclude"),
    ("exclude = [\"a\\\\\"]", "exclude"),
    ("indent = 9\nexclude = [1]", "exclude"),
    ("required_version = 1", "required_version"),
    ("required_version = \"\"", "required_version"),
    ("required_version = \"new\"", "required_version"),
    ("required_version = \">=0.2,\"", "required_version"),
    ("required_version = \"1\"\nexclude = [[]]", "exclude"),
    ("a = 1\nexclude = 1", "a"),
];

/// Returns whether the fault names this key.
fn is_wrong(alloc: Global, text: &str, key: &str) -> bool {
    match settings_from_toml(alloc, text) {
        Err(Fault::Config { key: found }) => found.as_str() == key,
        _ => false,
    }
}

#[test]
fn requires_versions_and_excludes(rt: HostRuntime) {
    for (text, key) in &WRONG {
        assert!(rt; is_wrong(rt.alloc(), text, key), "{text}");
    }
    for row in &FURTHER {
        assert!(rt; is_for(rt.alloc(), row), "{} {}", row.0, row.1);
    }
}

#[test]
fn sets_what_is_named_or_names_the_least_wrong_key(rt: HostRuntime) {
    for row in &SET {
        assert!(rt; sets(rt.alloc(), row), "{}", row.0);
    }
    for (settings, line) in &REFUSED {
        assert!(rt;
            is_run(rt.alloc(), &(Asked::Events, settings, "", 3, line)),
            "{settings}"
        );
    }
}
