//! The diagnosis of a refusal.
ghost use Rattle.std.specs.Prelude.{◌≡◌, Err};
ghost use Rattle.std.specs.Str.{IsCharBoundary};
ghost use Rattle.yf_diagnose.specs.SecondReadings.{IsDiagnosed, IsReadFrom};

use crate::why::Why;

/// An offset within a part of a text, and why its reading fails there.
#[derive(Clone, Copy)]
pub(crate) struct Mistake {
    pub(crate) at: usize,
    pub(crate) why: Why,
}

/// The offsets of a refusal in a text, in bytes, and its reason.
#[derive(Clone, Copy)]
pub struct Diagnosis {
    /// The start of the refused part, or of the white space before it.
    pub from: usize,
    /// The first wrong sign. For a quote that isn't closed it is the quote, for brackets the offset after the last sign
    /// in them.
    pub at: usize,
    pub why: Why,
}

/// Returns a refusal at the offset.
pub(crate) fn refused(at: usize, why: Why) -> Result<usize, Mistake>
    ensures { result ≡ Err (record { at = at; why = why }) }
{
    Err(Mistake { at, why })
}

/// Returns the diagnosis of a reading that begins at the offset. If the reading succeeded, it is `why` at the offset.
pub(crate) fn told(text: &str, at: usize, read: Result<usize, Mistake>, why: Why) -> Diagnosis
    requires boundary { IsCharBoundary text.now at }
    requires read { IsReadFrom text.now at read }
    ensures { IsDiagnosed text.now at result }
{
    match read {
        Err(wrong) => after(at, wrong),
        Ok(_) => here(at, why),
    }
}

/// Returns a diagnosis of the offset itself.
pub(crate) fn here(at: usize, why: Why) -> Diagnosis
    ensures { result ≡ record { from = at; at = at; why = why } }
{
    Diagnosis { from: at, at, why }
}

/// Returns the diagnosis of a reading that begins at `from` and fails.
pub(crate) fn after(from: usize, wrong: Mistake) -> Diagnosis
    ensures { result ≡ record { from = from; at = wrong.at; why = wrong.why } }
{
    Diagnosis {
        from,
        at: wrong.at,
        why: wrong.why,
    }
}
