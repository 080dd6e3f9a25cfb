//! Laws of patterns, each the contract of a function that does nothing.
ghost use Rattle.yf_excludes.specs.OneMeaning.{OneMeaning};

/// All readings of a text as a pattern match the same paths, with the same effect.
pub fn patterns_have_one_meaning()
    ensures { OneMeaning }
{}
