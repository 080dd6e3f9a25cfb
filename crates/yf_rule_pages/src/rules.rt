//! The pages on the rules of style.

use crate::page::Page;

pub(crate) const TRAILING_BLANKS: Page = Page {
    name: "trailing-blanks",
    summary: "White space at the end of a line.",
    text: concat!(
        "It is invisible. Some editors remove it and others don't, so it makes changes that nobody meant. In the\n",
        "content of a block scalar, white space at the end of a line is data and no fault.\n\n",
        "Wrong:\n\n",
        "    ---\n",
        "    name: web<space>\n",
        "    port: 80\n\n",
        "Right:\n\n",
        "    ---\n",
        "    name: web\n",
        "    port: 80\n\n",
        "`yamlfmt fmt` fixes it.\n",
    ),
};

pub(crate) const INDENTATION: Page = Page {
    name: "indentation",
    summary: "A block collection, or the content of a block scalar, that is not at its column.",
    text: concat!(
        "The entries of a collection are `indent` columns to the right of the entries around it. With\n",
        "`seq_indent = false`, a sequence in a mapping begins at the column of its key. `--explain` prints\n",
        "the expected column.\n\n",
        "Wrong:\n\n",
        "    ---\n",
        "    server:\n",
        "        port: 80\n\n",
        "Right:\n\n",
        "    ---\n",
        "    server:\n",
        "      port: 80\n\n",
        "`yamlfmt fmt` fixes it.\n",
        "Settings: `indent`, `seq_indent`.\n",
    ),
};

pub(crate) const QUOTING: Page = Page {
    name: "quoting",
    summary: "A scalar in another style than the house style's.",
    text: concat!(
        "A quoted scalar has double quotes, or the quotes of the setting. A plain scalar stays plain if its\n",
        "text can.\n\n",
        "Wrong:\n\n",
        "    ---\n",
        "    name: 'web'\n",
        "    port: '80'\n\n",
        "Right:\n\n",
        "    ---\n",
        "    name: \"web\"\n",
        "    port: \"80\"\n\n",
        "`yamlfmt fmt` fixes it.\n",
        "Settings: `quotes`, `invisible`.\n",
    ),
};

pub(crate) const DOCUMENT_START: Page = Page {
    name: "document-start",
    summary: "A document without `---` on a line of its own.",
    text: concat!(
        "The line shows that a file is YAML and separates documents.\n\n",
        "Wrong:\n\n",
        "    name: web\n\n",
        "Right:\n\n",
        "    ---\n",
        "    name: web\n\n",
        "`yamlfmt fmt` fixes it.\n",
        "Settings: `document_start`.\n",
    ),
};

pub(crate) const FINAL_BREAK: Page = Page {
    name: "final-break",
    summary: "A text without a line break at its end.",
    text: concat!(
        "Tools that join or read files by lines expect one.\n\n",
        "Wrong:\n\n",
        "    ---\n",
        "    name: web<end of the file>\n\n",
        "Right:\n\n",
        "    ---\n",
        "    name: web\n\n",
        "`yamlfmt fmt` fixes it.\n",
    ),
};

pub(crate) const LINE_BREAKS: Page = Page {
    name: "line-breaks",
    summary: "The first line break that is not a line feed.",
    text: concat!(
        "Mixed line breaks make whole files differ. `fmt` writes line feeds.\n\n",
        "Wrong:\n\n",
        "    ---<CR LF>\n",
        "    name: web<CR LF>\n\n",
        "Right:\n\n",
        "    ---\n",
        "    name: web\n\n",
        "`yamlfmt fmt` fixes it.\n",
    ),
};

pub(crate) const BYTE_ORDER_MARK: Page = Page {
    name: "byte-order-mark",
    summary: "A byte order mark (U+FEFF) outside scalars.",
    text: concat!(
        "UTF-8 needs none, and some tools take it for a part of the first key.\n\n",
        "Wrong:\n\n",
        "    <U+FEFF>---\n",
        "    name: web\n\n",
        "Right:\n\n",
        "    ---\n",
        "    name: web\n\n",
        "`yamlfmt fmt` fixes it.\n",
    ),
};

pub(crate) const BLANK_LINES: Page = Page {
    name: "blank-lines",
    summary: "A blank line too many.",
    text: concat!(
        "At most one blank line separates entries. A text has none at its start or end, after a `---`, or\n",
        "before a `---`, a `...` or a directive.\n\n",
        "Wrong:\n\n",
        "    ---\n",
        "    name: web\n\n\n",
        "    port: 80\n\n",
        "Right:\n\n",
        "    ---\n",
        "    name: web\n\n",
        "    port: 80\n\n",
        "`yamlfmt fmt` fixes it.\n",
    ),
};

pub(crate) const FLOW_LAYOUT: Page = Page {
    name: "flow-layout",
    summary: "A collection in brackets that is not written as the house style writes it.",
    text: concat!(
        "A short collection of simple values stays on one line. Any other collection gets a line for each\n",
        "entry.\n\n",
        "Wrong:\n\n",
        "    ---\n",
        "    ports: [80,443]\n\n",
        "Right:\n\n",
        "    ---\n",
        "    ports: [80, 443]\n\n",
        "`yamlfmt fmt` fixes it.\n",
        "Settings: `max_line`.\n",
    ),
};

pub(crate) const COMMENT_SPACE: Page = Page {
    name: "comment-space",
    summary: "A comment after other text without exactly two spaces before it.",
    text: concat!(
        "Comments in one file then look alike.\n\n",
        "Wrong:\n\n",
        "    ---\n",
        "    port: 80 # HTTP\n\n",
        "Right:\n\n",
        "    ---\n",
        "    port: 80  # HTTP\n\n",
        "`yamlfmt fmt` fixes it.\n",
    ),
};

pub(crate) const LINE_LENGTH: Page = Page {
    name: "line-length",
    summary: "A line with more columns than `max_line`.",
    text: concat!(
        "`fmt` breaks no scalar, and joins the lines of a plain or quoted one. Use a block scalar, or raise\n",
        "the limit.\n\n",
        "Wrong:\n\n",
        "    ---\n",
        "    text: xxxxxxxxxxxxxxxxxxxxxxxxxxxxxxxxxxxxxxxxxxxxxxxxxxxxxxxxxxxx",
        "xxxxxxxxxxxxxxxxxxxxxxxxxxxxxxxxxxx\n\n",
        "Right:\n\n",
        "    ---\n",
        "    text: x\n\n",
        "`yamlfmt fmt` does not fix it.\n",
        "Settings: `max_line`.\n",
    ),
};

pub(crate) const REPEATED_KEYS: Page = Page {
    name: "repeated-keys",
    summary: "A key that its mapping already has.",
    text: concat!(
        "YAML forbids it: some readers take the first value, some the last one, and others fail. Remove one of\n",
        "the two entries.\n\n",
        "Wrong:\n\n",
        "    ---\n",
        "    port: 80\n",
        "    port: 443\n\n",
        "Right:\n\n",
        "    ---\n",
        "    port: 443\n\n",
        "`yamlfmt fmt` does not fix it.\n",
    ),
};

pub(crate) const KEY_MARK: Page = Page {
    name: "key-mark",
    summary: "A `?` before a key that doesn't need one.",
    text: concat!(
        "A short key needs only its `:`.\n\n",
        "Wrong:\n\n",
        "    ---\n",
        "    ? name\n",
        "    : web\n\n",
        "Right:\n\n",
        "    ---\n",
        "    name: web\n\n",
        "`yamlfmt fmt` fixes it.\n",
    ),
};

pub(crate) const HIDDEN_CHARACTER: Page = Page {
    name: "hidden-character",
    summary: "A character that people don't see, or take for another one.",
    text: concat!(
        "The rule works only under `invisible = \"escaped\"`. Use it for files from strangers: a hidden\n",
        "character can make a text look like another one. Remove the character, or write the scalar in\n",
        "double quotes, so that `fmt` escapes it.\n\n",
        "Wrong:\n\n",
        "    ---\n",
        "    name: we<U+200B>b\n\n",
        "Right:\n\n",
        "    ---\n",
        "    name: \"we\\u200Bb\"\n\n",
        "`yamlfmt fmt` does not fix it.\n",
        "Settings: `invisible`.\n",
    ),
};
