//! The most bytes of an output.
ghost use Rattle.std.specs.Prelude.{◌≤◌, OnOk};
ghost use Rattle.yf_events.specs.declared.reading.TheConstants.{LONGEST};

use std::alloc::AllocError;
use yf_events::reading::LONGEST;

/// Fails as if memory were refused if `bytes` is more than `LONGEST`.
#[inline(always)]
pub fn limited(bytes: usize) -> Result<(), AllocError>
    ensures { OnOk result (bytes ≤ LONGEST) }
{
    if bytes > LONGEST {
        return Err(AllocError);
    }
    Ok(())
}
