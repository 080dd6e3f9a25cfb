//! The outline of a text.
ghost use Rattle.std.specs.Prelude.{IfOk, option_map};
ghost use Rattle.yf_problems.specs.Outlines.{FindsOutline};
ghost use Rattle.yf_stream.specs.StreamReader.{TheReading};

use crate::folds::unless_memory;
use std::alloc::{AllocError, Global};
use yf_events::reading::Reading;
use yf_outline::outline::outline;
use yf_rules::run::INPUT_LIMIT;
use yf_server::analysis::Part;
use yf_stream::stream::read_stream;

// Returns the outline of a text with a reading.
fn outline_in(alloc: Global, text: &str, reading: &Reading) -> Result<Option<Vec<Part>>, AllocError>
    requires { TheReading text.now reading.now }
    ensures { IfOk result (λ parts. FindsOutline text.now (option_map (λ v. v.items) parts)) }
{
    let parts = outline(alloc, text, reading)?;
    Ok(Some(parts))
}

/// Returns the outline of a text, or `None` if the text is refused.
///
/// # Errors
///
/// `AllocError` if memory is refused.
pub fn outline_parts(alloc: Global, text: &str) -> Result<Option<Vec<Part>>, AllocError>
    ensures { IfOk result (λ parts. FindsOutline text.now (option_map (λ v. v.items) parts)) }
{
    if text.len() > INPUT_LIMIT {
        return Ok(None);
    }
    match read_stream(alloc, text) {
        Ok(reading) => outline_in(alloc, text, &reading),
        Err(fault) => {
            unless_memory(text, &fault)?;
            Ok(None)
        }
    }
}
