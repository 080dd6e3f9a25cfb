//! White space and line breaks before an offset.
ghost use Rattle.std.specs.Prelude.{◌≡◌, slice_index};
ghost use Rattle.yf_outline.specs.WhiteSpace as spec;

/// Returns the byte at an offset, and 0 after the end of the text.
pub fn byte_at(text: &str, offset: usize) -> u8
    ensures { result ≡ slice_index text.now offset }
{
    let bytes = text.as_bytes();
    if offset < bytes.len() {
        bytes[offset]
    } else {
        0
    }
}

fn is_white(byte: u8) -> bool
    ensures { result ≡ spec.is_white byte }
{
    byte == b' ' || byte == b'\t'
}

/// Returns whether a byte is a part of a line break.
pub fn is_break(byte: u8) -> bool
    ensures { result ≡ spec.is_break byte }
{
    byte == b'\n' || byte == b'\r'
}

/// Returns the offset of the last byte before an offset that is neither white space nor a part of a line break.
pub fn last_content(text: &str, end: usize) -> usize
    ensures { result ≡ spec.last_content text.now end }
{
    let mut at = end;
    while at > 0 {
        let byte = byte_at(text, at - 1);
        if !(is_white(byte) || is_break(byte)) {
            return at - 1;
        }
        at -= 1;
    }
    0
}

/// Returns the start of the white space before an offset.
pub fn white_start(text: &str, offset: usize) -> usize
    ensures { result ≡ spec.white_start text.now offset }
{
    let mut at = offset;
    while at > 0 {
        if !is_white(byte_at(text, at - 1)) {
            return at;
        }
        at -= 1;
    }
    0
}
