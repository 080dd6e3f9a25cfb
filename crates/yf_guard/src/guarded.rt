//! Texts that are not data, and why.
ghost use Rattle.std.specs.Prelude.{◌≡◌, List, IfOk, MatchBool};
ghost use Rattle.yf_events.specs.Tree.{DocumentTree, TreesOf};
ghost use Rattle.yf_guard.specs.Guards.{IsVault, first_guarded};

use crate::pass::first_in;
use memchr::arch::all::is_prefix;
use std::alloc::{AllocError, Global};
use yf_events::reading::Reading;

/// Why a text is not data.
#[derive(Clone, Copy)]
pub enum Guarded {
    /// The text is an Ansible Vault file.
    Vault,
    /// A document is a plain scalar over several lines, which begins at this byte offset.
    NoData { offset: usize },
    /// The mapping that begins at this byte offset is a template such as `{{ x }}`.
    Template { offset: usize },
}

/// Returns whether the text is an Ansible Vault file, that is, whether it begins with the bytes `$ANSIBLE_VAULT;`. Like
/// Ansible, it refuses a byte order mark before them.
pub fn is_vault(text: &str) -> bool
    ensures { MatchBool result (IsVault text.now) (IsVault text.now → ⊥) }
{
    is_prefix(text.as_bytes(), b"$ANSIBLE_VAULT;")
}

/// Returns why the text is not data, or `None` if it is data. `reading` is the reading of the text. If several
/// documents or mappings are at fault, the result is the one with the least offset.
///
/// The time is linear in the number of events and the length of the text.
pub fn guard(alloc: Global, text: &str, reading: &Reading) -> Result<Option<Guarded>, AllocError>
    ensures vault { IfOk result (λ found. IsVault text.now → found ≡ Some Guarded.Vault) }
    ensures first { IfOk result (λ found. (IsVault text.now → ⊥) → (trees : List DocumentTree) → TreesOf reading.now trees
        → found ≡ first_guarded text.now trees) }
{
    if is_vault(text) {
        return Ok(Some(Guarded::Vault));
    }
    first_in(alloc, text, reading)
}
