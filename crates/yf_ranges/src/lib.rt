//! The details of a finding: the span of the text at fault, and the message with its values.
//!
//! The span begins at the finding's position. Ten rules find their faults in the text, and `by_rule::details_by` gives
//! their spans: the white space (trailing-blanks), the marker (document-start), the break (line-breaks), the blank line
//! (blank-lines), the rest of the line (line-length), and the character (byte-order-mark, comment-space, key-mark,
//! hidden-character). The span of final-break is empty, and so is that of document-start if the marker is missing.
//! For repeated-keys, `details_by` gives the character at the finding's position, and no values.
//! `quoting::details` gives the scalar, and both styles. `indentation::details` gives the character, and both columns.
//! `flow_layout::details` gives the collection, and how the house style writes it. `known::KnownDetails` holds these
//! three lists, and finds the detail of a finding by its offset. `details_by` gives for these rules the character, and
//! no values.
#![tactic(auto)]

pub mod by_rule;
pub mod detail;
pub mod details;
pub mod ends;
pub mod flow_layout;
pub mod indentation;
pub mod known;
mod node;
pub mod quoting;
pub mod tabs;
pub mod words;
