//! How often each of some texts came.
ghost use Rattle.std.specs.Prelude.{◌≡◌, ◌+◌, ◌^◌, ◌<◌, string_bytes, OnOk};
ghost use Rattle.yf_baseline.specs.SeenTexts.{CountsOneMore, count_of};

use std::alloc::AllocError;
use std::collections::BTreeMap;

/// How often each text came.
pub type Counts = BTreeMap<String, u64>;

/// Returns how often a text came.
pub fn count_of(counts: &Counts, text: &str) -> u64
    ensures { result ≡ count_of counts.now text.now }
{
    counts.get(text).copied().unwrap_or(0)
}

/// Counts a text once more. `next` is its new count.
///
/// # Errors
///
/// `AllocError` if memory runs out.
pub fn count_once_more(counts: &mut Counts, text: String, next: u64) -> Result<(), AllocError>
    requires { next ≡ count_of counts.old (string_bytes text) + 1 }
    ensures { OnOk result (CountsOneMore counts.old counts.new (string_bytes text)) }
{
    counts.insert(text, next)?;
    Ok(())
}
