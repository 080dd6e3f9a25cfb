//! The whole program over files in memory: texts that are no data, texts that are, and inputs with names.

use crate::tests::answers::{NO_TERMINAL, words_of};
use crate::tests::left_alone_reports::REPORT_ROWS;
use crate::tests::left_alone_rows::{ROWS, Row};
use crate::tests::{formatted_rows, named_rows};
use std::alloc::{AllocError, Global};
use yf_files::{FileSystem, MemoryFiles};
use yf_host::memory_inputs::{MemoryInputs, Stored};
use yf_host::sources::Sources;
use yf_host::streams::in_memory;
use yf_program::answer::answer;
use yf_rule_pages::pages::PAGES;

/// Returns whether the file of this name has this text at the end.
fn ends_with(files: &MemoryFiles, name: &str, text: &str) -> bool {
    let now = files.at_moment(files.moment());
    files.found(name, now.changes, now.contents) == Some(text.as_bytes())
}

/// Returns whether a run with these words has the results of the row, which has this file first.
fn is_answered(alloc: Global, words: &[String], row: &Row, first: &Stored) -> bool {
    let inputs = MemoryInputs {
        files: row.0,
        standard: first.bytes,
        current: b"/",
        opened: Vec::new(alloc),
    };
    let mut files = MemoryFiles::new(alloc, usize::MAX);
    if files.make(first.name).is_err() || files.write(first.bytes).is_err() {
        return false;
    }
    let mut sources = Sources { inputs, files };
    let mut streams = in_memory(alloc);
    let status = answer(
        alloc,
        words,
        &PAGES,
        NO_TERMINAL,
        &mut sources,
        &mut streams,
    );
    status == row.2
        && streams.output.get_ref().as_slice() == row.3.as_bytes()
        && streams.errors.get_ref().as_slice() == row.4.as_bytes()
        && ends_with(&sources.files, first.name, row.5)
}

/// Returns whether the command line of a row has the results of the row.
fn answers_line(alloc: Global, row: &Row) -> bool {
    match &words_of(alloc, row.1) {
        Ok(words) => match row.0 {
            [first, ..] => is_answered(alloc, words.as_slice(), row, first),
            [] => false,
        },
        Err(AllocError) => false,
    }
}

#[test]
fn texts_that_are_no_data_are_left_alone(rt: HostRuntime) {
    for row in &ROWS {
        assert!(rt; answers_line(rt.alloc(), row), "{}", row.1);
    }
}

#[test]
fn inputs_have_names(rt: HostRuntime) {
    for row in &named_rows::ROWS {
        assert!(rt; answers_line(rt.alloc(), row), "{}", row.1);
    }
}

#[test]
fn texts_that_are_data_are_formatted(rt: HostRuntime) {
    for row in &formatted_rows::ROWS {
        assert!(rt; answers_line(rt.alloc(), row), "{}", row.1);
    }
}

#[test]
fn reports_say_why_a_text_is_no_data(rt: HostRuntime) {
    for row in &REPORT_ROWS {
        assert!(rt; answers_line(rt.alloc(), row), "{}", row.1);
    }
}
