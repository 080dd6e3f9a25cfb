//! Texts that are appended, and often are empty.
ghost use Rattle.std.specs.Prelude.{◌≡◌, ◌++◌, OnErr, OnOk};
ghost use Rattle.std.specs.String.{string_bytes};

use std::alloc::AllocError;

/// Appends a text. If it is empty, as between two adjacent escapes, the string isn't touched.
///
/// # Errors
///
/// `AllocError` if memory is refused; the string is then unchanged.
#[inline(always)]
pub fn push_if_filled(out: &mut String, text: &str) -> Result<(), AllocError>
    ensures written { OnOk result (string_bytes out.new ≡ string_bytes out.old ++ text.now) }
    ensures unchanged { OnErr result (string_bytes out.new ≡ string_bytes out.old) }
{
    if text.is_empty() {
        return Ok(());
    }
    out.push_str(text)
}
