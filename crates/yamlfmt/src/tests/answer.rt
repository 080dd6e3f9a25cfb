//! The whole program over inputs in memory: its exit status, what it writes, and the inputs that it opens, in order.

use crate::tests::answer_rows::{BEFORE, ROWS, Row};
use crate::tests::answers::{NO_TERMINAL, words_of};
use crate::tests::baselines::{LISTED, NO_LIST, OTHER_VERSION};
use crate::tests::findings_for_people::{BARE, BLANK, LONG, MANY};
use crate::tests::report_rows::REPORT_ROWS;
use std::alloc::{AllocError, Global};
use yf_files::{FileSystem, MemoryFiles};
use yf_host::memory_inputs::{MemoryInputs, Stored};
use yf_host::sources::Sources;
use yf_host::streams::in_memory;
use yf_program::answer::answer;
use yf_program::terminal::Terminal;
use yf_rule_pages::pages::PAGES;

/// The files and their contents.
static FILES: [Stored; 22] = [
    LONG,
    MANY,
    BLANK,
    BARE,
    LISTED,
    OTHER_VERSION,
    NO_LIST,
    Stored {
        name: "two.yaml",
        bytes: b"---\n- 'x'\n- 'x'\n",
    },
    Stored {
        name: "good.toml",
        bytes: b"quotes = \"single\"\n",
    },
    Stored {
        name: "bad.toml",
        bytes: b"indent = 9\na = 1\n",
    },
    Stored {
        name: "no.toml",
        bytes: b"\xFF",
    },
    Stored {
        name: "a.yaml",
        bytes: b"---\na: \"x\" # c\n",
    },
    Stored {
        name: "percent.yaml",
        bytes: b"---\n[a% , b]\n",
    },
    Stored {
        name: "refused.yaml",
        bytes: b"- a\n- b: *x\n",
    },
    Stored {
        name: "deep.yaml",
        bytes: b"---\na:\n    b: 1\n    c: |\n       x\n",
    },
    Stored {
        name: "é\t\"\u{9B}.yaml",
        bytes: b"a\n",
    },
    Stored {
        name: "e.yaml",
        bytes: b"a\xC3\xA9\n",
    },
    Stored {
        name: "at0",
        bytes: b"\xF0\x9F\x98",
    },
    Stored {
        name: "at1",
        bytes: b"a\xFF",
    },
    Stored {
        name: "at2",
        bytes: b"a\n\xFF",
    },
    Stored {
        name: "ab2",
        bytes: b"ab\xED\xA0\x80c",
    },
    Stored {
        name: "at4",
        bytes: b"- a\n\xFF",
    },
];

/// Standard input.
const STANDARD: &[u8] = b"- 'a'\n";

/// The file that the program may rewrite.
const FILE: &str = "b.yaml";

/// Returns a file system in memory with that file, or `None` if memory is refused.
fn one_file(alloc: Global) -> Option<MemoryFiles> {
    let mut files = MemoryFiles::new(alloc, usize::MAX);
    if files.make(FILE).is_ok() && files.write(BEFORE.as_bytes()).is_ok() {
        return Some(files);
    }
    None
}

/// Returns whether the file holds this text at the end.
fn ends_with(files: &MemoryFiles, text: &str) -> bool {
    let now = files.at_moment(files.moment());
    files.found(FILE, now.changes, now.contents) == Some(text.as_bytes())
}

/// Returns whether a run with these words, on this terminal, has the results of the row.
fn is_answered(alloc: Global, words: &[String], row: &Row, terminal: Terminal) -> bool {
    let inputs = MemoryInputs {
        files: &FILES,
        standard: STANDARD,
        current: b"/",
        opened: Vec::new(alloc),
    };
    let Some(files) = one_file(alloc) else {
        return false;
    };
    let mut sources = Sources { inputs, files };
    let mut streams = in_memory(alloc);
    let status = answer(alloc, words, &PAGES, terminal, &mut sources, &mut streams);
    status == row.1
        && streams.output.get_ref().as_slice() == row.2.as_bytes()
        && streams.errors.get_ref().as_slice() == row.3.as_bytes()
        && sources.inputs.opened.as_slice() == row.4.as_bytes()
        && ends_with(&sources.files, row.5)
}

/// Returns whether the command line of a row has the results of the row if standard output is no terminal.
pub fn answers_line(alloc: Global, row: &Row) -> bool {
    answers_on(alloc, row, NO_TERMINAL)
}

/// Returns whether the command line of a row has the results of the row on this terminal.
pub fn answers_on(alloc: Global, row: &Row, terminal: Terminal) -> bool {
    match &words_of(alloc, row.0) {
        Ok(words) => is_answered(alloc, words.as_slice(), row, terminal),
        Err(AllocError) => false,
    }
}

#[test]
fn answers_command_lines(rt: HostRuntime) {
    for row in &ROWS {
        assert!(rt; answers_line(rt.alloc(), row), "{}", row.0);
    }
    for row in &REPORT_ROWS {
        assert!(rt; answers_line(rt.alloc(), row), "{}", row.0);
    }
}
