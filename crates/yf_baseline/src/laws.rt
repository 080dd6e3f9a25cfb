//! Consequences of the definitions.
ghost use Rattle.yf_baseline.specs.Laws.{EntriesComeOnce, EntriesIgnoreOrder};

/// Each entry of the findings of a file occurs once.
pub fn entries_come_once()
    ensures { EntriesComeOnce }
{}

/// The entries of findings don't depend on the order of the findings.
pub fn entries_ignore_order()
    ensures { EntriesIgnoreOrder }
{}
