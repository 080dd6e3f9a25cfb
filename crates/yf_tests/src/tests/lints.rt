//! Problems of data: unused and repeated anchors, keys and items without a value. The offsets were counted by hand,
//! except those of ambiguous plain scalars: PyYAML and the core schema's regular expressions gave these.

use crate::tests::reading_of;
use std::alloc::{AllocError, Global};
use yf_events::reading::Reading;
use yf_lint::ambiguous_plains::ambiguous_plains;
use yf_lint::anchors::{repeated_anchors, unused_anchors};
use yf_lint::empty_values::empty_values;

/// The kind of offsets, and the expected offsets.
#[derive(Clone, Copy)]
enum Asked {
    /// Anchors that no alias uses, the last one first.
    Unused(&'static [usize]),
    /// Anchors that are defined again.
    Repeated(&'static [usize]),
    /// Keys and items without a value.
    Empty(&'static [usize]),
    /// Ambiguous plain scalars: without keys, and with them.
    Ambiguous(&'static [usize], &'static [usize]),
}

static ROWS: [(&str, Asked); 38] = [
    ("a: &x 1\nb: *x\n", Asked::Unused(&[])),
    ("a: &x 1\nb: x\n", Asked::Unused(&[3])),
    ("a: &x 1\n---\nb: &x 2\nc: *x\n", Asked::Unused(&[3])),
    ("a: &x 1\nb: &x 2\nc: *x\n", Asked::Unused(&[3])),
    ("a: &x 1\nb: *x\nc: &x 2\n", Asked::Unused(&[17])),
    ("&a [&b x, &c {k: &d v}, *b]\n", Asked::Unused(&[17, 10, 0])),
    ("a: !t &x 1\n", Asked::Unused(&[3])),
    ("&k a: 1\n*k : 2\n", Asked::Unused(&[])),
    ("&a x: 1\n", Asked::Unused(&[0])),
    ("a: 1\n", Asked::Repeated(&[])),
    ("a: &x 1\nb: &x 2\n", Asked::Repeated(&[11])),
    (
        "a: &x 1\nb: &y 2\nc: &x 3\nd: &x 4\n",
        Asked::Repeated(&[19, 27]),
    ),
    ("a: &x 1\n---\nb: &x 2\n", Asked::Repeated(&[])),
    ("&x a: &x 1\n", Asked::Repeated(&[6])),
    ("&x\na: &x 1\n", Asked::Repeated(&[6])),
    ("a:\nb: 1\nc:\n", Asked::Empty(&[0, 8])),
    (
        "a: ~\nb: null\nc: \"\"\nd: !!null\ne: &x\n",
        Asked::Empty(&[]),
    ),
    ("- a\n-\n- - \n  - b\n", Asked::Empty(&[4, 8])),
    ("a:\n  b:\n    - c:\n", Asked::Empty(&[14])),
    ("? a\n? b\n: c\n", Asked::Empty(&[2])),
    ("? [a, b]\n:\n", Asked::Empty(&[2])),
    (": a\n", Asked::Empty(&[])),
    (":\n", Asked::Empty(&[0])),
    ("{a, b: , c: d}\n", Asked::Empty(&[1, 4])),
    ("[a: , b]\n", Asked::Empty(&[1])),
    ("[]\n", Asked::Empty(&[])),
    ("", Asked::Empty(&[])),
    ("---\n---\na:\n", Asked::Empty(&[8])),
    (
        "a: no\nb: yes\nc: 'no'\nd: !!str no\ne: true\nf: ! off\n",
        Asked::Ambiguous(&[3, 9], &[3, 9]),
    ),
    (
        "- 0644\n- 0o7\n- 22:22\n- 1_000\n- 1e3\n- 2001-12-14\n- 08\n- -.5\n- =\n",
        Asked::Ambiguous(
            &[2, 9, 15, 23, 31, 37, 50, 55, 61],
            &[2, 9, 15, 23, 31, 37, 50, 55, 61],
        ),
    ),
    (
        "- -0x1F\n- 0b1\n- 1:60\n- 1:59\n- 1:5.\n- 00\n- 010\n- +08\n- .5e3\n- 1.\n- 1._\n",
        Asked::Ambiguous(
            &[2, 10, 23, 30, 42, 48, 54, 66],
            &[2, 10, 23, 30, 42, 48, 54, 66],
        ),
    ),
    (
        "- 2001-1-1\n- 2001-1-1 1:00:00 -5\n- 1:2:3.\n",
        Asked::Ambiguous(&[13, 35], &[13, 35]),
    ),
    (
        "- 007\n- -10\n- 0x1F\n- .5\n- 1.5e+3\n- ~\n- -.inf\n- Null\n- text\n-\n- '0644'\n",
        Asked::Ambiguous(&[], &[]),
    ),
    (
        "on: 1\nno: [no, {yes: on}]\n",
        Asked::Ambiguous(&[11, 21], &[0, 6, 11, 16, 21]),
    ),
    (
        "? [no]\n: no\n? no\n",
        Asked::Ambiguous(&[3, 9], &[3, 9, 14]),
    ),
    ("no\n---\nNO\n", Asked::Ambiguous(&[0, 7], &[0, 7])),
    ("a: &x {b: 1}\nc:\n  <<: *x\n", Asked::Ambiguous(&[], &[18])),
    ("", Asked::Ambiguous(&[], &[])),
];

/// Returns whether these are the expected offsets.
fn are_as_wanted(found: &Result<Vec<usize>, AllocError>, wanted: &[usize]) -> bool {
    match found {
        Ok(offsets) => offsets.as_slice() == wanted,
        Err(AllocError) => false,
    }
}

fn is_told_of(alloc: Global, reading: &Reading, asked: Asked) -> bool {
    match asked {
        Asked::Unused(wanted) => are_as_wanted(&unused_anchors(alloc, reading), wanted),
        Asked::Repeated(wanted) => are_as_wanted(&repeated_anchors(alloc, reading), wanted),
        Asked::Empty(wanted) => are_as_wanted(&empty_values(alloc, reading), wanted),
        Asked::Ambiguous(wanted, with_keys) => {
            are_as_wanted(&ambiguous_plains(alloc, reading, false), wanted)
                && are_as_wanted(&ambiguous_plains(alloc, reading, true), with_keys)
        }
    }
}

/// Returns whether the text has a reading with the expected offsets.
fn is_told(alloc: Global, text: &str, asked: Asked) -> bool {
    match &reading_of(alloc, text) {
        Ok(reading) => is_told_of(alloc, reading, asked),
        Err(_) => false,
    }
}

#[test]
fn problems_of_data(rt: HostRuntime) {
    for (text, asked) in &ROWS {
        assert!(rt; is_told(rt.alloc(), text, *asked), "{text}");
    }
}
