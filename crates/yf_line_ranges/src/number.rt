//! Reading a number from a text.
ghost use Rattle.std.specs.Prelude.{◌≡◌, MatchOption, false, true};
ghost use Rattle.std.specs.Char.{is_ascii_digit};
ghost use Rattle.std.specs.List.{list_all};
ghost use Rattle.yf_line_ranges.specs.Numbers.{is_number, number_of};

/// Returns the number that a text of one or more digits writes. Returns `None` for another text, for example one with a
/// sign, and for a number that is too large.
pub fn read_number(text: &str) -> Option<usize>
    ensures { MatchOption result (is_number text.now ≡ false)
        (λ number. (is_number text.now ≡ true) × (number ≡ number_of text.now)) }
{
    if are_digits(text) {
        match text.parse::<usize>() {
            Ok(number) => Some(number),
            Err(_) => None,
        }
    } else {
        None
    }
}

// Returns whether a text has only digits.
fn are_digits(text: &str) -> bool
    ensures { result ≡ list_all is_ascii_digit text.now }
{
    for byte in text.as_bytes() {
        if !byte.is_ascii_digit() {
            return false;
        }
    }
    true
}
