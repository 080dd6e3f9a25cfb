//! Reads segments: the parts of a pattern between slashes.
ghost use Rattle.std.specs.Prelude.{◌≡◌, ◌↔◌, ◌∷◌, ◌<◌, ◌≤◌, [], ℕ, IfOk, IsTrue, List, MatchBool, MatchOption, None, length, position};
ghost use Rattle.yf_excludes.specs.Segments.{Adds, AtomAt, AtomsFrom, IsDeep, SegmentOf, SegmentsOf, atom_of, is_slash};

use crate::atom::Atom;
use crate::parts::{after_index, slash_at, up_to};
use crate::pattern::Segment;
use crate::read_class::read_class;
use std::alloc::{AllocError, Global};

// Returns the atom of a byte that begins neither a class nor an escape.
fn simple_atom(byte: u8) -> Atom
    ensures { result ≡ atom_of byte }
{
    if byte == b'*' {
        Atom::AnyRun
    } else if byte == b'?' {
        Atom::AnyByte
    } else {
        Atom::Byte(byte)
    }
}

// Returns the atom at an offset, and its end.
fn read_atom(alloc: Global, text: &[u8], at: usize) -> Result<Option<(Atom, usize)>, AllocError>
    requires { at < length text.now }
    ensures { IfOk result (λ o. MatchOption o ((a : Atom) (j : ℕ) → ¬ (AtomAt text.now at a j))
        (λ p. AtomAt text.now at p.0 p.1 × (at < p.1) × (p.1 ≤ length text.now))) }
{
    let byte = text[at];
    if byte == b'\\' {
        if at + 1 == text.len() {
            return Ok(None);
        }
        return Ok(Some((Atom::Byte(text[at + 1]), at + 2)));
    }
    if byte == b'[' {
        return match read_class(alloc, text, at + 1)? {
            None => Ok(None),
            Some((class, end)) => Ok(Some((Atom::OneOf(class), end))),
        };
    }
    Ok(Some((simple_atom(byte), at + 1)))
}

// Returns the atoms of a text.
fn read_atoms(alloc: Global, text: &[u8]) -> Result<Option<Vec<Atom>>, AllocError>
    ensures { IfOk result (λ o. MatchOption o ((found : List Atom) → ¬ (AtomsFrom text.now 0 found))
        (λ v. AtomsFrom text.now 0 v.items)) }
{
    let mut atoms = Vec::new(alloc);
    let mut at = 0;
    'atoms: while at < text.len() {
        match read_atom(alloc, text, at)? {
            None => return Ok(None),
            Some((atom, end)) => {
                atoms.push(atom)?;
                at = end;
            }
        }
    }
    Ok(Some(atoms))
}

// Returns whether a text is `**`.
fn is_deep(text: &[u8]) -> bool
    ensures { IsTrue result ↔ IsDeep text.now }
{
    text.len() >= 2 && text.iter().all(|b| *b == b'*')
}

// Returns the segment of a text that another segment follows.
fn read_segment(alloc: Global, text: &[u8]) -> Result<Option<Segment>, AllocError>
    ensures { IfOk result (λ o. MatchOption o ((s : Segment) → ¬ (SegmentOf text.now s)) (λ s. SegmentOf text.now s)) }
{
    if is_deep(text) {
        return Ok(Some(Segment::AnyDepth));
    }
    match read_atoms(alloc, text)? {
        None => Ok(None),
        Some(atoms) => Ok(Some(Segment::Name(atoms))),
    }
}

// Returns the atoms of any name.
fn any_name(alloc: Global) -> Result<Vec<Atom>, AllocError>
    ensures { IfOk result (λ v. v.items ≡ Atom.AnyRun ∷ []) }
{
    let mut atoms = Vec::new(alloc);
    atoms.push(Atom::AnyRun)?;
    Ok(atoms)
}

// Adds the segments of a text with no slash: its last ones. Returns whether they are any.
fn push_last(alloc: Global, segments: &mut Vec<Segment>, text: &[u8]) -> Result<bool, AllocError>
    requires { position is_slash text.now ≡ None }
    ensures { IfOk result (λ read. MatchBool read (Adds text.now segments.old.items segments.new.items)
        ((ss : List Segment) → ¬ (SegmentsOf text.now ss))) }
{
    if is_deep(text) {
        segments.push(Segment::AnyDepth)?;
        segments.push(Segment::Name(any_name(alloc)?))?;
        return Ok(true);
    }
    match read_segment(alloc, text)? {
        None => Ok(false),
        Some(segment) => {
            segments.push(segment)?;
            Ok(true)
        }
    }
}

/// Returns the segments of a text, or `None` if a class of a segment has no end or a backslash is at the end of one.
pub fn read_segments(alloc: Global, text: &[u8]) -> Result<Option<Vec<Segment>>, AllocError>
    ensures { IfOk result (λ o. MatchOption o ((ss : List Segment) → ¬ (SegmentsOf text.now ss))
        (λ v. SegmentsOf text.now v.items)) }
{
    let mut segments = Vec::new(alloc);
    let mut rest = text;
    'parts: loop {
        match slash_at(rest) {
            None => {
                if push_last(alloc, &mut segments, rest)? {
                    return Ok(Some(segments));
                }
                return Ok(None);
            }
            Some(slash) => match read_segment(alloc, up_to(rest, slash))? {
                None => return Ok(None),
                Some(segment) => {
                    segments.push(segment)?;
                    rest = after_index(rest, slash);
                }
            },
        }
    }
}
