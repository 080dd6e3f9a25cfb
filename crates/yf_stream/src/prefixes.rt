//! The tag handles that are declared in a document.
ghost use Rattle.std.specs.Prelude.{◌≡◌, ◌⊎◌, [], ◌∷◌, not, Some, IfOk, IfErr};
ghost use Rattle.yf_props.specs.Handles.{TagText, UnknownHandleOf, is_declared};
ghost use Rattle.yf_props.specs.Props.{tag_value};
ghost use Rattle.yf_stream.specs.TagPass.{SameDeclarations};
ghost use Rattle.yf_stream.specs.WellFormed.{with_declaration};

use std::alloc::{AllocError, Global};
use std::collections::BTreeMap;
use std::marker::Model;
use yf_lines::fault::Fault;
use yf_lines::place::Position;
use yf_props::handles::Handles;
use yf_props::props::Tag;
use yf_props::resolved::ResolvedTag;

/// The maximum number of handles that are looked up by their hashes.
const FEW: usize = 64;

/// The tag handles that are declared in a document. Up to `FEW` handles are looked up by their hashes, as most
/// documents have few. If there are more, all are looked up in a tree, since names can be chosen to have equal hashes.
/// In a contract, they are a list of declarations, each a handle and its prefix.
#[derive(Drop)]
pub(crate) struct Prefixes<'a> {
    few: Handles<'a>,
    all: BTreeMap<&'a str, &'a str>,
}

impl<'a> Model for Prefixes<'a> {
    ghost use Rattle.std.specs.Prelude.{List, map};
    ghost use Rattle.yf_props.specs.Handles.{Declaration, declaration};
    ghost use Rattle.yf_stream.specs.FewHandles.{FewOf};

    ghost Value = { List Declaration };

    ghost view = { λ p. map declaration p.all.entries };

    ghost invariant = { λ p. FewOf p.few (map declaration p.all.entries) };
}

impl<'a> Prefixes<'a> {
    pub(crate) fn new(alloc: Global) -> Prefixes<'a>
        ensures { result ≡ [] }
    {
        Prefixes {
            few: Handles::new(alloc),
            all: BTreeMap::new(alloc),
        }
    }

    /// Declares a handle's prefix, and returns true if the handle was not declared before. Otherwise its prefix stays.
    pub(crate) fn declare(&mut self, handle: &'a str, prefix: &'a str) -> Result<bool, AllocError>
        ensures fresh { IfOk result (λ fresh. fresh ≡ not (is_declared self.old handle.entry.now)) }
        ensures declared { IfOk result (λ _. SameDeclarations self.new
            (with_declaration self.old (Some (handle.entry.now, prefix.entry.now)))) }
    {
        if self.all.contains_key(&handle) {
            return Ok(false);
        }
        match self.all.insert(handle, prefix) {
            Ok(_) => {}
            Err(_) => return Err(AllocError),
        }
        if self.all.len() > FEW {
            return Ok(true);
        }
        match self.few.declare(handle, prefix) {
            Ok(_) => return Ok(true),
            Err(_) => {}
        }
        let _ = self.all.remove(&handle);
        Err(AllocError)
    }

    /// Returns the resolved tag, or the fault of `Handles::resolve`. An `UnknownHandle` has line 1 and column 1: the
    /// position is computed later, for the first breach only.
    pub(crate) fn resolve(&self, alloc: Global, tag: &Tag<'a>) -> Result<ResolvedTag<'a>, Fault>
        ensures text { IfOk result (λ text. TagText self.now (tag_value tag.now) text) }
        ensures refused { IfErr result (λ fault. (fault ≡ Fault.Memory)
            ⊎ ((fault ≡ Fault.UnknownHandle (record { line = 1; column = 1 })) × UnknownHandleOf self.now (tag_value tag.now))) }
    {
        let place = Position { line: 1, column: 1 };
        if let Tag::Short { handle, .. } = *tag {
            if self.all.len() > FEW {
                if let Some(prefix) = self.all.get(&handle) {
                    return resolve_alone(alloc, handle, *prefix, tag, place);
                }
                return self.few.resolve(alloc, tag, place);
            }
            return self.few.resolve(alloc, tag, place);
        }
        self.few.resolve(alloc, tag, place)
    }
}

// Resolves a tag with only one declared handle.
fn resolve_alone<'a>(
    alloc: Global,
    handle: &'a str,
    prefix: &'a str,
    tag: &Tag<'a>,
    place: Position,
) -> Result<ResolvedTag<'a>, Fault>
    ensures text { IfOk result (λ text. TagText ((handle.entry.now, prefix.entry.now) ∷ []) (tag_value tag.now) text) }
    ensures refused { IfErr result (λ fault. (fault ≡ Fault.Memory)
        ⊎ ((fault ≡ Fault.UnknownHandle place) × UnknownHandleOf ((handle.entry.now, prefix.entry.now) ∷ []) (tag_value tag.now))) }
{
    let mut handles = Handles::new(alloc);
    match handles.declare(handle, prefix) {
        Ok(_) => handles.resolve(alloc, tag, place),
        Err(_) => Err(Fault::Memory),
    }
}
