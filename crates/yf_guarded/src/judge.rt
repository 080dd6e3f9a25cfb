//! The verdict on a text: whether it is data.
ghost use Rattle.std.specs.Prelude.{◌≡◌, true, IfErr, IfOk};
ghost use Rattle.yf_guard.specs.Guards.{IsVault};
ghost use Rattle.yf_guarded.specs.Judged.{Guards, ReadGuard};
ghost use Rattle.yf_stream.specs.StreamReader.{StreamFault, TheReading};

use std::alloc::{AllocError, Global};
use yf_events::reading::Reading;
use yf_guard::guarded::{Guarded, guard, is_vault};
use yf_laws::every_text::texts_are_read_and_formatted;
use yf_lines::fault::Fault;
use yf_stream::stream::read_stream;

/// Returns why a text is no data, or `None` if it is data. Without `reads` the function doesn't read the text. Then it
/// returns only that a text is encrypted.
///
/// # Errors
///
/// Fails like `read_stream`, and only with `reads`.
pub fn judge(alloc: Global, text: &str, reads: bool) -> Result<Option<Guarded>, Fault>
    ensures found { IfOk result (Guards reads text.now) }
    ensures refuses { IfErr result (StreamFault text.now) }
    ensures only { IfErr result (λ fault. reads ≡ true) }
{
    if is_vault(text) {
        return Ok(Some(Guarded::Vault));
    }
    if reads {
        return judge_read(alloc, text);
    }
    Ok(None)
}

// Reads a text, and returns why it is no data.
fn judge_read(alloc: Global, text: &str) -> Result<Option<Guarded>, Fault>
    requires { IsVault text.now → ⊥ }
    ensures found { IfOk result (ReadGuard text.now) }
    ensures refuses { IfErr result (StreamFault text.now) }
{
    match read_stream(alloc, text) {
        Ok(reading) => judge_reading(alloc, text, &reading),
        Err(fault) => Err(fault),
    }
}

/// Returns why a text with this reading is no data, or `None` if it is data.
///
/// # Errors
///
/// `Fault::Memory` if memory is refused.
pub fn judge_reading(alloc: Global, text: &str, reading: &Reading) -> Result<Option<Guarded>, Fault>
    requires not_vault { IsVault text.now → ⊥ }
    requires reads { TheReading text.now reading.now }
    ensures found { IfOk result (ReadGuard text.now) }
    ensures refused { IfErr result (λ fault. fault ≡ Fault.Memory) }
{
    texts_are_read_and_formatted();
    match guard(alloc, text, reading) {
        Ok(found) => Ok(found),
        Err(AllocError) => Err(Fault::Memory),
    }
}
