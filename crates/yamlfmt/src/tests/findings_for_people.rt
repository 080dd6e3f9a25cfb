//! Command lines of `check` with `--lines`, `--max-findings`, `--statistics` and `--format full`, and on a terminal.

use crate::tests::answer::{answers_line, answers_on};
use crate::tests::answer_rows::{BEFORE, Row};
use yf_host::memory_inputs::Stored;
use yf_program::terminal::Terminal;

/// A text with a long line.
pub const LONG: Stored = Stored {
    name: "long.yaml",
    bytes: b"---\na: xxxxxxxxxxxxxxxxxxxxxxxxxxxxxxxxxxxxxxxxxxxxxxxxxxxxxxxxxxxxxxxxxxxxxxxxxxxxxxxxxxxxxxxxxxxxxxxxxx # c\n",
};

/// A text with twelve findings on the lines 2 to 13.
pub const MANY: Stored = Stored {
    name: "many.yaml",
    bytes: b"---\n- 'x'\n- 'x'\n- 'x'\n- 'x'\n- 'x'\n- 'x'\n- 'x'\n- 'x'\n- 'x'\n- 'x'\n- 'x'\n- 'x'\n",
};

/// A text with blank lines that `fmt` removes.
pub const BLANK: Stored = Stored {
    name: "blank.yaml",
    bytes: b"---\na\n\n\n---\nb\n",
};

/// A text to which `fmt` only adds a line.
pub const BARE: Stored = Stored {
    name: "bare.yaml",
    bytes: b"a: b\nc: d\n",
};

static ROWS: [Row; 20] = [
    // the status counts only findings on the lines that are asked for
    (
        "check --lines 2 a.yaml",
        1,
        "2:8 comment-space (fixable)\n",
        "",
        "a.yaml ",
        BEFORE,
    ),
    ("check --lines 1,3-9 a.yaml", 0, "", "", "a.yaml ", BEFORE),
    (
        "check --lines 1 --format json a.yaml",
        0,
        "[]",
        "",
        "a.yaml ",
        BEFORE,
    ),
    // a refusal is kept whatever its line
    (
        "check --lines 1 refused.yaml",
        2,
        "",
        "2:6 refused: unknown-alias\n",
        "refused.yaml ",
        BEFORE,
    ),
    // the status counts the findings that the limit leaves out
    (
        "check --max-findings 1 a.yaml",
        1,
        "2:8 comment-space (fixable)\n",
        "",
        "a.yaml ",
        BEFORE,
    ),
    (
        "check --max-findings 0 a.yaml",
        1,
        "",
        "1 more finding is not printed\n",
        "a.yaml ",
        BEFORE,
    ),
    (
        "check --max-findings 1 a.yaml a.yaml a.yaml",
        1,
        "a.yaml:2:8 comment-space (fixable)\n",
        "2 more findings are not printed\n",
        "a.yaml a.yaml a.yaml ",
        BEFORE,
    ),
    // a refusal is no finding
    (
        "check --max-findings 1 refused.yaml a.yaml a.yaml",
        2,
        "a.yaml:2:8 comment-space (fixable)\n",
        "refused.yaml:2:6 refused: unknown-alias\n1 more finding is not printed\n",
        "refused.yaml a.yaml a.yaml ",
        BEFORE,
    ),
    (
        "check --max-findings 0 --format github a.yaml refused.yaml",
        2,
        "::error title=unknown-alias,file=refused.yaml,line=2,endLine=2,col=6,endColumn=6::no anchor with this name comes before it in this document\n",
        "refused.yaml:2:6 refused: unknown-alias\n1 more finding is not printed\n",
        "a.yaml refused.yaml ",
        BEFORE,
    ),
    (
        "check --statistics a.yaml a.yaml",
        1,
        "2  comment-space (fixable)\n",
        "",
        "a.yaml a.yaml ",
        BEFORE,
    ),
    (
        "check --statistics --without comment-space a.yaml",
        0,
        "",
        "",
        "a.yaml ",
        BEFORE,
    ),
    (
        "check --format full a.yaml",
        1,
        "a.yaml:2:8 comment-space: one space before the comment, expected 2 (fixable)\n  | a: \"x\" # c\n  |        ^\n  = fmt rewrites line 2:\n  + a: \"x\"  # c\n1 finding, 1 fixable by yamlfmt fmt\n",
        "",
        "a.yaml ",
        BEFORE,
    ),
    (
        "check --format full --without comment-space a.yaml",
        0,
        "",
        "",
        "a.yaml ",
        BEFORE,
    ),
    // the changes that fix findings: a line, lines that are cut or left out, lines that are added or removed
    (
        "check --format full",
        1,
        "-:1:1 document-start: no `---` before the document (fixable)\n  | - 'a'\n  | ^\n-:1:3 quoting: single quotes, expected double quotes (fixable)\n  | - 'a'\n  |   ^^^\n  = fmt rewrites line 1:\n  + ---\n  + - \"a\"\n2 findings, 2 fixable by yamlfmt fmt\n",
        "",
        "- ",
        BEFORE,
    ),
    (
        "check --format full --without line-length long.yaml",
        1,
        "long.yaml:2:103 comment-space: one space before the comment, expected 2 (fixable)\n  | ...xxxxxxxxxxxxxxxxxxxxxxxxxxxxxxxxx # c\n  |                                      ^\n  = fmt rewrites line 2:\n  + a: xxxxxxxxxxxxxxxxxxxxxxxxxxxxxxxxxxxxxxxxxxxxxxxxxxxxxxxxxxxxxxxxxxxxxxxxxxxxxxxxxxxxxxxxxxxxxxxxx...\n1 finding, 1 fixable by yamlfmt fmt\n",
        "",
        "long.yaml ",
        BEFORE,
    ),
    (
        "check --format full --max-findings 1 many.yaml",
        1,
        "many.yaml:2:3 quoting: single quotes, expected double quotes (fixable)\n  | - 'x'\n  |   ^^^\n  = fmt rewrites lines 2 to 13:\n  + - \"x\"\n  + - \"x\"\n  + - \"x\"\n  + - \"x\"\n  + - \"x\"\n  + - \"x\"\n  + - \"x\"\n  + - \"x\"\n  + - \"x\"\n  + - \"x\"\n  + ...\n1 finding, 1 fixable by yamlfmt fmt\n",
        "11 more findings are not printed\n",
        "many.yaml ",
        BEFORE,
    ),
    (
        "check --format full blank.yaml",
        1,
        "blank.yaml:4:1 blank-lines: needless blank line (fixable)\n  | \n  | ^\n  = fmt removes lines 3 to 4\n1 finding, 1 fixable by yamlfmt fmt\n",
        "",
        "blank.yaml ",
        BEFORE,
    ),
    (
        "check --format full bare.yaml",
        1,
        "bare.yaml:1:1 document-start: no `---` before the document (fixable)\n  | a: b\n  | ^\n  = fmt adds before line 1:\n  + ---\n1 finding, 1 fixable by yamlfmt fmt\n",
        "",
        "bare.yaml ",
        BEFORE,
    ),
    (
        "check --format full --color always a.yaml",
        1,
        COLORED,
        "",
        "a.yaml ",
        BEFORE,
    ),
    // the refusals are explained
    (
        "check --format full refused.yaml",
        2,
        "",
        "2:6 refused: unknown-alias\n  no anchor with this name comes before it in this document\n  | - b: *x\n  |      ^\n",
        "refused.yaml ",
        BEFORE,
    ),
];

/// A finding in colors.
const COLORED: &str =
    "a.yaml:\u{1B}[1m2:8\u{1B}[0m \u{1B}[33mcomment-space\u{1B}[0m: one space before the comment, expected 2 (fixable)\n  | a: \"x\" # c\n  |        \u{1B}[33m^\u{1B}[0m\n  = fmt rewrites line 2:\n\u{1B}[32m  + a: \"x\"  # c\u{1B}[0m\n1 finding, 1 fixable by yamlfmt fmt\n";

/// Results on a terminal with colors.
static COLOR_ROWS: [Row; 2] = [
    ("check a.yaml", 1, COLORED, "", "a.yaml ", BEFORE),
    (
        "check --color never --without comment-space a.yaml",
        0,
        "",
        "",
        "a.yaml ",
        BEFORE,
    ),
];

/// Results on a terminal without colors.
static TERMINAL_ROWS: [Row; 7] = [
    // an option overrides the environment
    (
        "check --color always a.yaml",
        1,
        COLORED,
        "",
        "a.yaml ",
        BEFORE,
    ),
    (
        "check a.yaml",
        1,
        "a.yaml:2:8 comment-space: one space before the comment, expected 2 (fixable)\n  | a: \"x\" # c\n  |        ^\n  = fmt rewrites line 2:\n  + a: \"x\"  # c\n1 finding, 1 fixable by yamlfmt fmt\n",
        "",
        "a.yaml ",
        BEFORE,
    ),
    (
        "check --color never a.yaml",
        1,
        "a.yaml:2:8 comment-space: one space before the comment, expected 2 (fixable)\n  | a: \"x\" # c\n  |        ^\n  = fmt rewrites line 2:\n  + a: \"x\"  # c\n1 finding, 1 fixable by yamlfmt fmt\n",
        "",
        "a.yaml ",
        BEFORE,
    ),
    (
        "check --format line a.yaml",
        1,
        "2:8 comment-space (fixable)\n",
        "",
        "a.yaml ",
        BEFORE,
    ),
    (
        "check --format json --without comment-space a.yaml",
        0,
        "[]",
        "",
        "a.yaml ",
        BEFORE,
    ),
    // each line is explained
    (
        "check --explain deep.yaml",
        1,
        "3:5 indentation (fixable)\n4:8 indentation (fixable)\n",
        "  3:5 indentation: expected at column 3; fmt indents it as the settings `indent` and `seq_indent` say\n  4:8 indentation: expected its lines at column 7; fmt indents it as the settings `indent` and `seq_indent` say\n",
        "deep.yaml ",
        BEFORE,
    ),
    (
        "check refused.yaml",
        2,
        "",
        "2:6 refused: unknown-alias\n  no anchor with this name comes before it in this document\n  | - b: *x\n  |      ^\n",
        "refused.yaml ",
        BEFORE,
    ),
];

#[test]
fn findings_are_printed_for_people(rt: HostRuntime) {
    for row in &ROWS {
        assert!(rt; answers_line(rt.alloc(), row), "{}", row.0);
    }
    let terminal = Terminal {
        output: true,
        no_color: true,
    };
    for row in &TERMINAL_ROWS {
        assert!(rt; answers_on(rt.alloc(), row, terminal), "{}", row.0);
    }
    let colors = Terminal {
        output: true,
        no_color: false,
    };
    for row in &COLOR_ROWS {
        assert!(rt; answers_on(rt.alloc(), row, colors), "{}", row.0);
    }
}
