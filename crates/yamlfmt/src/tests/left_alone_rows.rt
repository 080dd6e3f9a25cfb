//! Files in memory with texts that are no data, and the results of runs with them.

use yf_host::memory_inputs::Stored;

/// An encrypted file.
pub const VAULT: Stored = Stored {
    name: "vault.yaml",
    bytes: b"$ANSIBLE_VAULT;1.1;AES256\n6638\n",
};

/// A document that is plain text over several lines.
pub const PLAIN: Stored = Stored {
    name: "plain.yaml",
    bytes: b"host1 a=1\nhost2 b=2\n",
};

/// A template in flow style, and one in block style.
pub const TEMPLATE: Stored = Stored {
    name: "template.yaml",
    bytes: b"a: {{ x }}\n",
};

pub const BLOCK: Stored = Stored {
    name: "block.yaml",
    bytes: b"---\n? a:\n:\n",
};

/// A mapping with a value in its key, which is data.
const DATA: Stored = Stored {
    name: "data.yaml",
    bytes: b"---\n? a: b\n:\n",
};

/// A mapping and a block scalar that are indented too far.
pub const DEEP: Stored = Stored {
    name: "deep.yaml",
    bytes: b"a:\n    b: |\n         x\n",
};

/// Collections in brackets that the house style writes otherwise.
pub const FLOWS: Stored = Stored {
    name: "flows.yaml",
    bytes: b"a: [80,443]\nb: [ 1 ]\nc: {x : 1}\nd: [1,\n  2]\ne: ['x']\nf: [a: b]\ng: {x}\nh: [ ]\ni: [1,\t2]\nj: [aaaaaaaaaa, aaaaaaaaaa, aaaaaaaaaa, aaaaaaaaaa, aaaaaaaaaa, aaaaaaaaaa, aaaaaaaaaa, aaaaaaaaaa, aaaaaaaaaa]\n",
};

/// Two documents. The second one is no data.
pub const TWO: Stored = Stored {
    name: "two.yaml",
    bytes: b"---\na: 1\n---\nb\nc\n",
};

/// Settings that take any text, and settings with a wrong value.
pub const ANY: Stored = Stored {
    name: ".yamlfmt.toml",
    bytes: b"any_text = true\n",
};

const NOT_ANY: Stored = Stored {
    name: ".yamlfmt.toml",
    bytes: b"any_text = 1\n",
};

/// The files, a command line, the exit status, the texts of the two streams, and the text of the first file at the end.
pub type Row = (
    &'static [Stored],
    &'static str,
    u8,
    &'static str,
    &'static str,
    &'static str,
);

pub static ROWS: [Row; 41] = [
    (
        &[VAULT],
        "events vault.yaml",
        0,
        "",
        "left alone: encrypted\n",
        "$ANSIBLE_VAULT;1.1;AES256\n6638\n",
    ),
    (
        &[VAULT],
        "check vault.yaml",
        0,
        "",
        "left alone: encrypted\n",
        "$ANSIBLE_VAULT;1.1;AES256\n6638\n",
    ),
    (
        &[VAULT],
        "fmt vault.yaml",
        0,
        "$ANSIBLE_VAULT;1.1;AES256\n6638\n",
        "left alone: encrypted\n",
        "$ANSIBLE_VAULT;1.1;AES256\n6638\n",
    ),
    (
        &[VAULT],
        "fmt --check vault.yaml",
        0,
        "",
        "left alone: encrypted\n",
        "$ANSIBLE_VAULT;1.1;AES256\n6638\n",
    ),
    (
        &[VAULT],
        "fmt --diff vault.yaml",
        0,
        "",
        "left alone: encrypted\n",
        "$ANSIBLE_VAULT;1.1;AES256\n6638\n",
    ),
    (
        &[VAULT],
        "fmt --write vault.yaml",
        0,
        "",
        "left alone: encrypted\n",
        "$ANSIBLE_VAULT;1.1;AES256\n6638\n",
    ),
    (
        &[VAULT],
        "fmt --lines 1 vault.yaml",
        0,
        "$ANSIBLE_VAULT;1.1;AES256\n6638\n",
        "left alone: encrypted\n",
        "$ANSIBLE_VAULT;1.1;AES256\n6638\n",
    ),
    (
        &[VAULT],
        "fmt --lines 1 --write vault.yaml",
        0,
        "",
        "left alone: encrypted\n",
        "$ANSIBLE_VAULT;1.1;AES256\n6638\n",
    ),
    (
        &[VAULT],
        "check --explain vault.yaml",
        0,
        "",
        "left alone: encrypted\n",
        "$ANSIBLE_VAULT;1.1;AES256\n6638\n",
    ),
    (
        &[VAULT],
        "check - vault.yaml",
        1,
        "-:1:1 document-start (fixable)\n",
        "vault.yaml: left alone: encrypted\n",
        "$ANSIBLE_VAULT;1.1;AES256\n6638\n",
    ),
    (
        &[VAULT],
        "fmt --any-text --write vault.yaml",
        0,
        "",
        "",
        "---\n$ANSIBLE_VAULT;1.1;AES256 6638\n",
    ),
    (
        &[PLAIN],
        "events plain.yaml",
        0,
        "+STR\n+DOC\n=VAL :host1 a=1 host2 b=2\n-DOC\n-STR\n",
        "",
        "host1 a=1\nhost2 b=2\n",
    ),
    (
        &[PLAIN],
        "fmt plain.yaml",
        0,
        "---\nhost1 a=1 host2 b=2\n",
        "",
        "host1 a=1\nhost2 b=2\n",
    ),
    (
        &[PLAIN],
        "check plain.yaml",
        1,
        "1:1 no-data\n1:1 document-start (fixable)\n",
        "",
        "host1 a=1\nhost2 b=2\n",
    ),
    (
        &[PLAIN],
        "check --explain plain.yaml",
        1,
        "1:1 no-data\n1:1 document-start (fixable)\n",
        "  1:1 no-data: fmt --write skips this file: a document is plain text over several lines, which fmt would join\n  1:1 document-start: fmt writes `---` on a line of its own before it\n",
        "host1 a=1\nhost2 b=2\n",
    ),
    (
        &[PLAIN],
        "check - plain.yaml",
        1,
        "-:1:1 document-start (fixable)\nplain.yaml:1:1 no-data\nplain.yaml:1:1 document-start (fixable)\n",
        "",
        "host1 a=1\nhost2 b=2\n",
    ),
    (
        &[PLAIN],
        "fmt --check plain.yaml",
        1,
        "1:1 no-data\n",
        "",
        "host1 a=1\nhost2 b=2\n",
    ),
    (
        &[PLAIN],
        "fmt --diff plain.yaml",
        1,
        "1:1 no-data\n",
        "",
        "host1 a=1\nhost2 b=2\n",
    ),
    (
        &[PLAIN],
        "fmt --lines 1 --check plain.yaml",
        1,
        "1:1 no-data\n",
        "",
        "host1 a=1\nhost2 b=2\n",
    ),
    (
        &[PLAIN],
        "fmt --lines 1 --diff plain.yaml",
        1,
        "1:1 no-data\n",
        "",
        "host1 a=1\nhost2 b=2\n",
    ),
    (
        &[PLAIN],
        "fmt --lines 1 plain.yaml",
        0,
        "---\nhost1 a=1 host2 b=2\n",
        "",
        "host1 a=1\nhost2 b=2\n",
    ),
    (
        &[PLAIN],
        "fmt --write plain.yaml",
        1,
        "",
        "left alone: no data\n",
        "host1 a=1\nhost2 b=2\n",
    ),
    (
        &[PLAIN],
        "fmt --lines 1 --write plain.yaml",
        1,
        "",
        "left alone: no data\n",
        "host1 a=1\nhost2 b=2\n",
    ),
    (
        &[PLAIN],
        "fmt --any-text --write plain.yaml",
        0,
        "",
        "",
        "---\nhost1 a=1 host2 b=2\n",
    ),
    (
        &[PLAIN],
        "check --any-text plain.yaml",
        1,
        "1:1 document-start (fixable)\n",
        "",
        "host1 a=1\nhost2 b=2\n",
    ),
    (
        &[TEMPLATE],
        "check template.yaml",
        1,
        "1:1 document-start (fixable)\n1:4 template\n1:4 flow-layout (fixable)\n",
        "",
        "a: {{ x }}\n",
    ),
    (
        &[TEMPLATE],
        "check --without document-start template.yaml",
        1,
        "1:4 template\n1:4 flow-layout (fixable)\n",
        "",
        "a: {{ x }}\n",
    ),
    (
        &[TEMPLATE],
        "fmt --check template.yaml",
        1,
        "1:4 template\n",
        "",
        "a: {{ x }}\n",
    ),
    (
        &[TEMPLATE],
        "fmt template.yaml",
        0,
        "---\na:\n  ? x:\n  :\n",
        "",
        "a: {{ x }}\n",
    ),
    (
        &[TEMPLATE],
        "fmt --write template.yaml none.yaml",
        3,
        "",
        "template.yaml: left alone: template\nnone.yaml: read failed\n",
        "a: {{ x }}\n",
    ),
    (
        &[TEMPLATE],
        "fmt --check",
        1,
        "1:1 not formatted\n",
        "",
        "a: {{ x }}\n",
    ),
    (
        &[TEMPLATE, ANY],
        "check template.yaml",
        1,
        "1:1 document-start (fixable)\n1:4 flow-layout (fixable)\n",
        "",
        "a: {{ x }}\n",
    ),
    (
        &[TEMPLATE, ANY],
        "fmt --write template.yaml",
        0,
        "",
        "",
        "---\na:\n  ? x:\n  :\n",
    ),
    (
        &[TEMPLATE, ANY],
        "fmt --write --no-config template.yaml",
        1,
        "",
        "left alone: template\n",
        "a: {{ x }}\n",
    ),
    (
        &[TEMPLATE, NOT_ANY],
        "check --explain template.yaml",
        3,
        "",
        ".yamlfmt.toml: config: any_text\n  1:1: `any_text` is true or false\n  | any_text = 1\n  | ^\n",
        "a: {{ x }}\n",
    ),
    (
        &[BLOCK],
        "check block.yaml",
        1,
        "2:1 template\n",
        "",
        "---\n? a:\n:\n",
    ),
    (
        &[BLOCK],
        "fmt --write block.yaml",
        1,
        "",
        "left alone: template\n",
        "---\n? a:\n:\n",
    ),
    (&[DATA], "check data.yaml", 0, "", "", "---\n? a: b\n:\n"),
    (
        &[DATA],
        "fmt --write data.yaml",
        0,
        "",
        "",
        "---\n? a: b\n:\n",
    ),
    (
        &[TWO],
        "check two.yaml",
        1,
        "4:1 no-data\n",
        "",
        "---\na: 1\n---\nb\nc\n",
    ),
    (
        &[TWO],
        "fmt --diff two.yaml",
        1,
        "4:1 no-data\n",
        "",
        "---\na: 1\n---\nb\nc\n",
    ),
];
