//! Patterns, and the paths that they match.
ghost use Rattle.std.specs.Prelude.{◌≡◌, ◌↔◌, IsTrue};

use crate::atom::Atom;
use crate::spans::{Piece, spans};

/// The part of a pattern between two slashes.
#[derive(Drop)]
pub enum Segment {
    /// `**`: any number of names.
    AnyDepth,
    /// Atoms for one name.
    Name(Vec<Atom>),
}

impl<'a> Piece<&'a [u8]> for Segment {
    ghost use Rattle.yf_excludes.specs.Paths.{SegmentTakes, segment_is_run};

    ghost is_run = { segment_is_run };

    ghost takes = { SegmentTakes };

    fn is_run(&self) -> bool
        ensures { result ≡ segment_is_run self.now }
    {
        match self {
            Segment::AnyDepth => true,
            Segment::Name(_) => false,
        }
    }

    fn takes(&self, item: &&'a [u8]) -> bool
        ensures { IsTrue result ↔ SegmentTakes self.now item.now }
    {
        match self {
            Segment::AnyDepth => false,
            Segment::Name(atoms) => spans(atoms.as_slice(), item),
        }
    }
}

/// A pattern.
#[derive(Drop)]
pub struct Pattern {
    /// Whether it begins with `!`, so that matching paths are included.
    pub negated: bool,
    /// Whether it ends with `/`: it matches folders only.
    pub folders_only: bool,
    /// Its segments, from the settings file's folder on. A pattern that has no slash, except one at its end, begins
    /// with `Segment::AnyDepth`.
    pub segments: Vec<Segment>,
}

impl Pattern {
    ghost use Rattle.yf_excludes.specs.Paths.{Matches};

    /// Returns whether the pattern matches the path, which is given by its names.
    pub fn matches(&self, path: &[&[u8]], is_folder: bool) -> bool
        ensures { IsTrue result ↔ Matches self.now path.now is_folder }
    {
        if self.folders_only && !is_folder {
            return false;
        }
        spans(self.segments.as_slice(), path)
    }
}
