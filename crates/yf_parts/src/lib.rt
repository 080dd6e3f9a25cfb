//! Formatting only some lines of a text.
//!
//! A text and its formatting differ in hunks: runs of whole lines that other lines replace. A part of the formatting is
//! the text with some hunks applied. Such a part can have other content, so `format_lines` returns one only if its
//! formatting is the formatting of the text. Then both have the same content and the same comments.
//!
//! # Which lines a hunk touches
//!
//! Lines end after a line feed, as in Git, and their numbers begin at 1. A hunk touches the lines of the text that it
//! replaces or removes. A hunk that only adds lines touches the line before it and the line after it. For example, the
//! hunk that adds `---` at the start of a text touches line 1. So if no hunk touches a line, the line is as in the
//! formatting, and no line is missing directly before or after it.
//!
//! - A range whose last line is less than its first one is empty. Lines after the end of the text have no effect,
//!   except that the first of them is the line after a hunk that adds lines at the end.
//! - A last line without a line feed differs from its formatting, so a hunk touches it.
//! - In a text whose lines end with CR LF each line differs from its formatting. So all its lines are one hunk.
//! - A line of a scalar is like any other line. If its hunk gives other content, hunks around it are applied too.
#![tactic(auto)]

pub mod asked;
pub mod candidates;
pub mod hunks;
pub mod part;
pub mod run;
pub mod search;
pub mod show;
pub mod splice;
pub mod touched;
