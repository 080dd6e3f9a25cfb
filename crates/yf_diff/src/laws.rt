//! Consequences of the definitions.
ghost use Rattle.yf_diff.specs.Applied.{ScriptsApply};

/// The written hunks of a script, applied to the old text, give the new text: no change is left out, and the numbers
/// locate each hunk.
pub fn scripts_apply()
    ensures { ScriptsApply }
{}
