//! Readers of properties and aliases in a text with its lines.
ghost use Rattle.std.specs.Prelude.{◌≡◌, IfSome, MatchOption, MatchResult};
ghost use Rattle.std.specs.Str.{IsCharBoundary};
ghost use Rattle.yf_chars.specs.Chain.{Chosen, Stuck};
ghost use Rattle.yf_props.specs.Names.{Alias, Properties as PropertiesOf};
ghost use Rattle.yf_props.specs.Properties.{properties_value};

use crate::alias::alias_node;
use crate::properties::{Properties, node_properties};
use std::alloc::{AllocError, Global};
use yf_chars::context::Ctx;
use yf_lines::fault::Fault;
use yf_lines::source_text::Src;

/// Reads an alias (c-ns-alias-node, production 104) that begins at a byte offset. Returns its name, without the `*`,
/// and the byte offset after it, or `None` if no alias begins there.
///
/// The name includes all characters that may be in it.
pub fn read_alias<'a>(src: &Src<'a>, at: usize) -> Option<(&'a str, usize)>
    ensures reads { MatchOption result (Stuck (Alias src.now.text at)) (λ p. Chosen (Alias src.now.text at) p.1 p.0.now) }
    ensures boundary { IfSome result (λ p. IsCharBoundary src.now.text p.1) }
{
    match alias_node(src.text(), at) {
        Some((name, end)) => Some((name, end)),
        None => None,
    }
}

/// Reads properties (c-ns-properties(n,c), production 96) that begin at a byte offset: a tag, an anchor, or both in
/// either order with separation between them, and the comments of the separation. `n` is an indentation, from -1.
///
/// Names include all characters that may be in them. Returns `None` if no properties begin there.
///
/// # Errors
///
/// `Fault::Memory` if memory is refused.
pub fn read_props<'a>(
    alloc: Global,
    src: &Src<'a>,
    at: usize,
    n: i32,
    ctx: Ctx,
) -> Result<Option<Properties<'a>>, Fault>
    ensures { MatchResult result (λ o. MatchOption o (Stuck (PropertiesOf src.now.text n ctx at))
        (λ p. Chosen (PropertiesOf src.now.text n ctx at) p.end (properties_value p) × IsCharBoundary src.now.text p.end))
        (λ fault. fault ≡ Fault.Memory) }
{
    match node_properties(alloc, src.text(), at, n, ctx) {
        Ok(found) => Ok(found),
        Err(AllocError) => Err(Fault::Memory),
    }
}
