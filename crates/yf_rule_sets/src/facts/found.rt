//! Lists of offsets at fault, and the arguments of each rule.
ghost use Rattle.std.specs.Option.{option_to_list};
ghost use Rattle.std.specs.Prelude.{◌≡◌, ◌++◌, IfOk};

pub use std::alloc::{AllocError, Global};
pub use yf_events::reading::Reading;
pub use yf_forms::style::Style;
pub use yf_lines::source_text::Src;

/// The byte offsets at fault, in any order, or an error if memory is refused.
pub type FoundOffsets = Result<Vec<usize>, AllocError>;

/// Appends an offset, if there is one.
#[inline(always)]
pub fn push_found<T: Drop>(list: &mut Vec<T>, found: Option<T>) -> Result<(), AllocError>
    ensures { IfOk result (λ _. list.new.items ≡ list.old.items ++ option_to_list found) }
{
    if let Some(item) = found {
        list.push(item)?;
    }
    Ok(())
}

/// Returns a list of one offset, or an empty one.
pub fn listed(alloc: Global, found: Option<usize>) -> Result<Vec<usize>, AllocError>
    ensures { IfOk result (λ list. list.items ≡ option_to_list found) }
{
    let mut list = Vec::new(alloc);
    push_found(&mut list, found)?;
    Ok(list)
}
