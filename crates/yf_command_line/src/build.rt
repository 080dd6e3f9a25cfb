//! What `--version` prints: the version, the commit, the logic that the proofs were checked in, and the platform.

use std::alloc::{AllocError, Global};

/// The version. The newest heading of CHANGELOG.md has it too.
pub const VERSION: &str = "0.2.0";

/// The commit. `git archive` replaces these words with its hash (.gitattributes). In a checkout they stay.
pub const COMMIT: &str = "$Format:%H$";

/// The hash of the logic, as `rt version` prints it.
pub const LOGIC: &str = "dac8208d650f15bf";

/// The platform on which the program runs, and the oldest C library that it runs with. `dist/build` compares both with
/// the program.
pub const PLATFORM: &str = "x86_64-linux-gnu, glibc 2.34 or newer";

/// Returns the lines of `--version` after the first: the commit, the hash of the logic, and the platform.
///
/// # Errors
///
/// `AllocError` if memory is refused.
pub fn build_lines(alloc: Global) -> Result<String, AllocError> {
    if COMMIT.starts_with('$') {
        format!(in alloc; "built from a checkout\nlogic {LOGIC}\nplatform {PLATFORM}\n")
    } else {
        format!(in alloc; "commit {COMMIT}\nlogic {LOGIC}\nplatform {PLATFORM}\n")
    }
}
