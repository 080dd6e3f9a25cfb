//! Decides whether to leave out the `---` of the first document.
ghost use Rattle.std.specs.Prelude.{◌≡◌};
ghost use Rattle.yf_print.specs.Layouts.BareSearch as BareSearch;
ghost use Rattle.yf_forms.specs.NormalForms.BareStart as BareStart;

use yf_events::event::Event;
use yf_events::reading::Reading;
use yf_forms::form::comments_before::first_after;
use yf_forms::style::{DocumentStart, Style};

/// Returns whether the first document has no `---` in the text.
fn begins_bare(reading: &Reading) -> bool
    ensures { result ≡ BareStart.begins_bare reading.now.events }
{
    if reading.len() > 1 {
        return match reading.event(1) {
            Event::DocStart { explicit } => !explicit,
            _ => false,
        };
    }
    false
}

/// Returns whether the first comment after the start of the first document is before the first leaf with characters and
/// before the next document.
fn is_led(reading: &Reading) -> bool
    ensures { result ≡ BareSearch.is_led reading.now }
{
    let documents = reading.documents();
    if documents.is_empty() {
        return false;
    }
    let k = first_after(reading.comments(), 0, documents[0].start);
    if k < reading.comments().len() {
        let (documents, leaves) = reading.place_of(k);
        return documents == 1 && leaves == 0;
    }
    false
}

/// Returns whether to leave out the `---` of the first document: the text has none, and the style keeps it so.
pub(crate) fn is_bare(reading: &Reading, style: &Style) -> bool
    ensures { result ≡ BareSearch.is_found_bare reading.now style.now }
{
    match style.document_start {
        DocumentStart::Always => false,
        DocumentStart::Keep => begins_bare(reading) && !is_led(reading),
    }
}
