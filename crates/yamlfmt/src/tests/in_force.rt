//! The whole program with settings files in memory: which one is in force, and which files it leaves out.

use crate::tests::answer_rows::BEFORE;
use crate::tests::answers::{NO_TERMINAL, words_of};
use crate::tests::excluded_rows;
use crate::tests::in_force_rows::{ROWS, Row};
use std::alloc::{AllocError, Global};
use yf_files::{FileSystem, MemoryFiles};
use yf_host::memory_inputs::MemoryInputs;
use yf_host::sources::Sources;
use yf_host::streams::in_memory;
use yf_program::answer::answer;
use yf_rule_pages::pages::PAGES;

/// The name of the file that the program may rewrite. Its contents are `BEFORE`.
const FILE: &str = "b.yaml";

/// Returns whether the file has its contents at the end.
fn is_kept(files: &MemoryFiles) -> bool {
    let now = files.at_moment(files.moment());
    files.found(FILE, now.changes, now.contents) == Some(BEFORE.as_bytes())
}

/// Returns whether a run with these words has the results of the row.
fn is_answered(alloc: Global, words: &[String], row: &Row) -> bool {
    let inputs = MemoryInputs {
        files: row.0,
        standard: BEFORE.as_bytes(),
        current: row.1.as_bytes(),
        opened: Vec::new(alloc),
    };
    let mut files = MemoryFiles::new(alloc, usize::MAX);
    if files.make(FILE).is_err() || files.write(BEFORE.as_bytes()).is_err() {
        return false;
    }
    let mut sources = Sources { inputs, files };
    let mut streams = in_memory(alloc);
    let status = answer(
        alloc,
        words,
        &PAGES,
        NO_TERMINAL,
        &mut sources,
        &mut streams,
    );
    status == row.3
        && streams.output.get_ref().as_slice() == row.4.as_bytes()
        && streams.errors.get_ref().as_slice() == row.5.as_bytes()
        && sources.inputs.opened.as_slice() == row.6.as_bytes()
        && is_kept(&sources.files)
}

/// Returns whether the command line of a row has the results of the row.
fn answers_line(alloc: Global, row: &Row) -> bool {
    match &words_of(alloc, row.2) {
        Ok(words) => is_answered(alloc, words.as_slice(), row),
        Err(AllocError) => false,
    }
}

#[test]
fn one_settings_file_is_in_force(rt: HostRuntime) {
    for row in &ROWS {
        assert!(rt; answers_line(rt.alloc(), row), "{}: {}", row.1, row.2);
    }
}

#[test]
fn excluded_inputs_are_left_out(rt: HostRuntime) {
    for row in &excluded_rows::ROWS {
        assert!(rt; answers_line(rt.alloc(), row), "{}: {}", row.1, row.2);
    }
}
