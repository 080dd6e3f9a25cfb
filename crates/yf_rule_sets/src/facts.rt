//! Facts about a text and its reading that several rules use.

pub mod block_keys;
pub mod cursor;
pub mod flagged_lines;
pub mod found;
pub mod line_starts;
pub mod markers;
pub mod node_context;
pub mod notes;
pub mod outer_flow;
pub mod places;
pub mod scalars;
pub mod spans;
pub mod whites;
