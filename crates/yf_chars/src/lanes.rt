//! Tests of 16 bytes at once.
ghost use Rattle.std.specs.Prelude.{◌≡◌};
ghost use Rattle.yf_chars.specs.Lanes.{lanes_before};

/// Returns the number of lanes before the first one with its bit set in the mask, or 16 if no bit is set.
#[inline(always)]
pub fn lanes_before(mask: u64) -> usize
    ensures { result ≡ lanes_before mask }
{
    if mask == 0 {
        return 16;
    }
    mask.trailing_zeros() as usize
}
