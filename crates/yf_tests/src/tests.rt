//! Tests of libraries, one file for each crate.

mod baselines;
mod discovery;
mod excluded;
mod guards;
mod line_ranges;
mod lints;

use std::alloc::Global;
use yf_events::reading::Reading;
use yf_lines::fault::Fault;
use yf_stream::stream::read_stream;

/// The reading of a text, without what its contract says of it.
pub fn reading_of(alloc: Global, text: &str) -> Result<Reading<'_>, Fault> {
    read_stream(alloc, text)
}
