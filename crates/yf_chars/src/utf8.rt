//! Checks whether bytes are UTF-8.
ghost use Rattle.std.specs.Prelude.{◌≡◌, MatchResult};
ghost use Rattle.std.specs.Str.{IsUtf8, IsValidUpTo};

use bstr::ByteSlice;

/// Bytes that are not UTF-8.
#[derive(Clone, Copy)]
pub struct BadByte {
    /// The length of the longest front that is UTF-8, in bytes.
    pub offset: usize,
}

/// Returns the bytes as a text (YAML 1.2.2, section 5.2; only streams in UTF-8 are read).
///
/// # Errors
///
/// If the bytes are not UTF-8, `BadByte` with the end of their longest front that is.
pub fn check_utf8(bytes: &[u8]) -> Result<&str, BadByte>
    ensures { MatchResult result
        (λ text. IsUtf8 bytes.now × (text.now ≡ bytes.now))
        (λ bad. ¬ (IsUtf8 bytes.now) × IsValidUpTo bytes.now bad.offset) }
{
    match bytes.to_str() {
        Ok(text) => Ok(text),
        Err(error) => Err(BadByte {
            offset: error.valid_up_to(),
        }),
    }
}
