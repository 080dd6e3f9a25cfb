//! The paths that a list of patterns excludes.
ghost use Rattle.std.specs.Prelude.{◌↔◌, IsTrue};
ghost use Rattle.yf_excludes.specs.Excluded.{Excludes, IsExcluded};

use crate::parts::up_to;
use crate::pattern::Pattern;

/// Returns whether the patterns exclude a file. The last pattern that matches its path decides. Everything below an
/// excluded folder is excluded too: as in Git, no pattern includes it again.
///
/// The path is given by its names, from the settings file's folder to the file.
pub fn is_excluded(patterns: &[Pattern], path: &[&[u8]]) -> bool
    ensures { IsTrue result ↔ IsExcluded patterns.now path.now }
{
    for depth in 0..path.len() {
        let is_folder = depth + 1 < path.len();
        if last_excludes(patterns, up_to(path, depth + 1), is_folder) {
            return true;
        }
    }
    false
}

// Returns whether the last pattern that matches the path excludes it.
fn last_excludes(patterns: &[Pattern], path: &[&[u8]], is_folder: bool) -> bool
    ensures { IsTrue result ↔ Excludes path.now is_folder patterns.now }
{
    for n in 0..patterns.len() {
        let at = patterns.len() - 1 - n;
        let pattern = &patterns[at];
        if pattern.matches(path, is_folder) {
            return !pattern.negated;
        }
    }
    false
}
