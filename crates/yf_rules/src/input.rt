//! Reads a whole input, and takes its bytes as a text.
ghost use Rattle.std.specs.Prelude.{◌≡◌, ◌≤◌, vec_len, IfSome, IfOk, IfErr, OnOk};
ghost use Rattle.std.specs.Io.KnownBytes.{IsAtEnd};
ghost use Rattle.std.specs.Str.{IsUtf8};
ghost use Rattle.yf_rules.specs.Runs.ByteStream.{stream_of};
ghost use Rattle.yf_rules.specs.Runs.Input.{IsNoText, ReadRefusal};

use std::alloc::Global;
use yf_chars::utf8::{BadByte, check_utf8};
use yf_lines::fault::Fault;
use yf_lines::watched::Source;

/// Returns all bytes of the reader. It stops after `limit` bytes of a reader that never ends.
///
/// # Errors
///
/// `Fault::ReadFailed` if a read fails, or if the reader has more than `limit` bytes. `Fault::Memory` if a growth of
/// memory is refused.
pub fn read_all<R: Source>(alloc: Global, reader: &mut R, limit: usize) -> Result<Vec<u8>, Fault>
    ensures whole { IfOk result (λ bytes. IfSome (R.remaining reader.old) (λ all. bytes.items ≡ all)) }
    ensures end { OnOk result (IsAtEnd (R.remaining reader.new)) }
    ensures within { IfOk result (λ bytes. vec_len bytes ≤ limit) }
    ensures works { OnOk result (R.has_failed reader.new ≡ R.has_failed reader.old) }
    ensures refused { IfErr result (λ fault. ReadRefusal limit
        (stream_of R.remaining R.has_failed reader.old) (stream_of R.remaining R.has_failed reader.new) fault) }
{
    let mut bytes = Vec::new(alloc);
    let mut buffer = [0u8; 8192];
    while bytes.len() <= limit {
        let count = match reader.read_watched(&mut buffer) {
            Ok(count) => count,
            Err(_) => return Err(Fault::ReadFailed),
        };
        if count == 0 {
            return Ok(bytes);
        }
        if bytes.extend_from_slice(&buffer[..count]).is_err() {
            return Err(Fault::Memory);
        }
    }
    Err(Fault::ReadFailed)
}

/// Returns the bytes as a text (YAML 1.2.2, section 5.2; only streams in UTF-8 are read).
///
/// # Errors
///
/// `Fault::NotUtf8` if the bytes are not UTF-8, with the offset of the end of their longest prefix that is.
pub fn text_of(bytes: &[u8]) -> Result<&str, Fault>
    ensures utf8 { OnOk result (IsUtf8 bytes.now) }
    ensures same { IfOk result (λ text. text.now ≡ bytes.now) }
    ensures refused { IfErr result (IsNoText bytes.now) }
{
    match check_utf8(bytes) {
        Ok(text) => Ok(text),
        Err(BadByte { offset }) => Err(Fault::NotUtf8 { offset }),
    }
}
