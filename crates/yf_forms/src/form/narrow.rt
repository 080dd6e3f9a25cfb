//! Numbers in 32 bits: indices of events and of comments, and columns.
ghost use Rattle.std.specs.Prelude.{◌≡◌, is_some, IfOk};
ghost use Rattle.yf_forms.specs.NormalForms.Packed as Packed;

use std::alloc::AllocError;
use yf_lines::packed_lines::narrow;

/// Returns the number, or 0 if there is none.
#[inline(always)]
pub(crate) fn narrow_if(number: Option<usize>) -> Result<u32, AllocError>
    ensures { IfOk result (λ n. Packed.some_if (is_some number) n ≡ number) }
{
    match number {
        Some(number) => narrow(number),
        None => Ok(0),
    }
}

/// Returns the number if it is present.
#[inline(always)]
pub(crate) fn some_if(is_there: bool, number: u32) -> Option<usize>
    ensures { result ≡ Packed.some_if is_there number }
{
    if is_there {
        return Some(number as usize);
    }
    None
}
