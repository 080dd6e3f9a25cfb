//! Command lines of `check` with `--format baseline` and `--baseline`. The hashes are those of coreutils' `sha256sum`.

use crate::tests::answer::answers_line;
use crate::tests::answer_rows::{BEFORE, Row};
use yf_host::memory_inputs::Stored;

/// A baseline of the finding in `a.yaml`, of the first of two equal findings in `two.yaml`, of one in standard input, and
/// with an entry like that of a refusal.
pub const LISTED: Stored = Stored {
    name: "listed.json",
    bytes: b"{\"findings\":[\n{\"file\":\"a.yaml\",\"hash\":\"4e4e230f7536e8dd8aa2fc6e71d53399fdaf5985ff44a7bee7ebe3525ad8cdb3\",\"ordinal\":0,\"rule\":\"comment-space\"},\n{\"file\":\"two.yaml\",\"hash\":\"f4586378a53b723571421f5b21500477877fb4980cd147826c3ba7334ed635c7\",\"ordinal\":0,\"rule\":\"quoting\"},\n{\"file\":\"stdin\",\"hash\":\"e3beee8d8016e797c4aa0298ede06563fbc4c3aba5961f109f67b442a78e3dd2\",\"ordinal\":0,\"rule\":\"quoting\"},\n{\"file\":\"refused.yaml\",\"hash\":\"97d69ea21ca09733d9c91b49902eea4fd82af5e85cff7fbc0cb85d10272f6e35\",\"ordinal\":0,\"rule\":\"unknown-alias\"}\n],\"version\":1}\n",
};

/// A baseline of another version.
pub const OTHER_VERSION: Stored = Stored {
    name: "two.json",
    bytes: b"{\"findings\":[],\"version\":2}\n",
};

/// A baseline without a list.
pub const NO_LIST: Stored = Stored {
    name: "list.json",
    bytes: b"{\"findings\":{},\"version\":1}\n",
};

static ROWS: [Row; 21] = [
    // a baseline of all findings, without refusals
    (
        "check --format baseline a.yaml two.yaml",
        1,
        "{\"findings\":[\n{\"file\":\"a.yaml\",\"hash\":\"4e4e230f7536e8dd8aa2fc6e71d53399fdaf5985ff44a7bee7ebe3525ad8cdb3\",\"ordinal\":0,\"rule\":\"comment-space\"},\n{\"file\":\"two.yaml\",\"hash\":\"f4586378a53b723571421f5b21500477877fb4980cd147826c3ba7334ed635c7\",\"ordinal\":0,\"rule\":\"quoting\"},\n{\"file\":\"two.yaml\",\"hash\":\"f4586378a53b723571421f5b21500477877fb4980cd147826c3ba7334ed635c7\",\"ordinal\":1,\"rule\":\"quoting\"}\n],\"version\":1}\n",
        "",
        "a.yaml two.yaml ",
        BEFORE,
    ),
    (
        "check --format baseline --without document-start",
        1,
        "{\"findings\":[\n{\"file\":\"stdin\",\"hash\":\"e3beee8d8016e797c4aa0298ede06563fbc4c3aba5961f109f67b442a78e3dd2\",\"ordinal\":0,\"rule\":\"quoting\"}\n],\"version\":1}\n",
        "",
        "- ",
        BEFORE,
    ),
    (
        "check --format baseline refused.yaml",
        2,
        "{\"findings\":[\n],\"version\":1}\n",
        "2:6 refused: unknown-alias\n",
        "refused.yaml ",
        BEFORE,
    ),
    (
        "check --format baseline --max-findings 0 a.yaml",
        1,
        "{\"findings\":[\n{\"file\":\"a.yaml\",\"hash\":\"4e4e230f7536e8dd8aa2fc6e71d53399fdaf5985ff44a7bee7ebe3525ad8cdb3\",\"ordinal\":0,\"rule\":\"comment-space\"}\n],\"version\":1}\n",
        "",
        "a.yaml ",
        BEFORE,
    ),
    // the findings of a baseline are left out, and the status counts the others
    (
        "check --baseline listed.json a.yaml",
        0,
        "",
        "",
        "listed.json a.yaml ",
        BEFORE,
    ),
    (
        "check --baseline listed.json --format json a.yaml",
        0,
        "[]",
        "",
        "listed.json a.yaml ",
        BEFORE,
    ),
    (
        "check --baseline listed.json --statistics a.yaml two.yaml",
        1,
        "1  quoting (fixable)\n",
        "",
        "listed.json a.yaml two.yaml ",
        BEFORE,
    ),
    (
        "check --baseline listed.json a.yaml two.yaml",
        1,
        "two.yaml:3:3 quoting (fixable)\n",
        "",
        "listed.json a.yaml two.yaml ",
        BEFORE,
    ),
    (
        "check --baseline listed.json --lines 2 two.yaml",
        0,
        "",
        "",
        "listed.json two.yaml ",
        BEFORE,
    ),
    (
        "check --baseline listed.json --lines 3 two.yaml",
        1,
        "3:3 quoting (fixable)\n",
        "",
        "listed.json two.yaml ",
        BEFORE,
    ),
    (
        "check --baseline listed.json --max-findings 0 a.yaml two.yaml",
        1,
        "",
        "1 more finding is not printed\n",
        "listed.json a.yaml two.yaml ",
        BEFORE,
    ),
    (
        "check --baseline listed.json",
        1,
        "1:1 document-start (fixable)\n",
        "",
        "listed.json - ",
        BEFORE,
    ),
    (
        "check --baseline listed.json --stdin-name s.yaml --without document-start",
        1,
        "1:3 quoting (fixable)\n",
        "",
        "listed.json - ",
        BEFORE,
    ),
    (
        "check --config good.toml --baseline listed.json a.yaml",
        1,
        "2:4 quoting (fixable)\n",
        "",
        "good.toml listed.json a.yaml ",
        BEFORE,
    ),
    // a refusal is kept
    (
        "check --baseline listed.json refused.yaml",
        2,
        "",
        "2:6 refused: unknown-alias\n",
        "listed.json refused.yaml ",
        BEFORE,
    ),
    // a baseline that is not taken
    (
        "check --baseline none.json a.yaml",
        3,
        "",
        "none.json: read failed\n",
        "none.json ",
        BEFORE,
    ),
    (
        "check --baseline a.yaml none.yaml",
        3,
        "",
        "a.yaml: not a baseline: not JSON\n",
        "a.yaml ",
        BEFORE,
    ),
    (
        "check --baseline no.toml a.yaml",
        3,
        "",
        "no.toml: not a baseline: not JSON\n",
        "no.toml ",
        BEFORE,
    ),
    (
        "check --baseline two.json --explain a.yaml",
        3,
        "",
        "two.json: not a baseline: the version is not 1\n",
        "two.json ",
        BEFORE,
    ),
    (
        "check --baseline list.json --format json a.yaml",
        3,
        "",
        "list.json: not a baseline: findings is not a list of entries\n",
        "list.json ",
        BEFORE,
    ),
    (
        "check --config bad.toml --baseline none.json a.yaml",
        3,
        "",
        "config: a\n",
        "bad.toml ",
        BEFORE,
    ),
];

#[test]
fn findings_of_a_baseline_are_left_out(rt: HostRuntime) {
    for row in &ROWS {
        assert!(rt; answers_line(rt.alloc(), row), "{}", row.0);
    }
}
