//! Formatting a text.
ghost use Rattle.std.specs.Prelude.{◌≡◌, ◌≤◌, length, IfErr, IfOk};
ghost use Rattle.std.specs.Str.{IsUtf8};
ghost use Rattle.std.specs.String.{string_bytes};
ghost use Rattle.yf_events.specs.declared.reading.TheConstants.{LONGEST};
ghost use Rattle.yf_laws.specs.FormatPromises.{FormatKept};
ghost use Rattle.yf_rules.specs.Headline.{Headline};
ghost use Rattle.yf_rules.specs.declared.run.TheConstants.{INPUT_LIMIT};
ghost use Rattle.yf_stream.specs.ReadingOf.{ReadingOf};
ghost use Rattle.yf_stream.specs.StreamReader.{StreamFault, TheReading};

use std::alloc::{AllocError, Global};
use yf_events::reading::Reading;
use yf_forms::form::decide::decide;
use yf_forms::form::measure::measure_text;
use yf_forms::normal::normalized;
use yf_forms::style::Style;
use yf_laws::every_text::formattings_hold;
use yf_laws::passes::formattings_are_kept;
use yf_lines::fault::Fault;
use yf_print::layout::layout_by;
use yf_stream::stream::read_stream;

// Returns a text in the house style, from its reading. The normal form has the collections of the reading in the same
// forms, so it is printed from the measures and forms of the reading.
fn formatted(
    alloc: Global,
    text: &str,
    reading: Reading,
    style: &Style,
) -> Result<String, AllocError>
    ensures keeps { IsUtf8 text.now → ReadingOf text.now reading.entry
        → IfOk result (λ formatted. FormatKept text.now style.now (string_bytes formatted)) }
    ensures within { IfOk result (λ formatted. length (string_bytes formatted) ≤ LONGEST) }
{
    formattings_are_kept();
    let measures = measure_text(alloc, text, &reading, style)?;
    let forms = decide(alloc, &measures, &reading, style)?;
    let normal = normalized(alloc, reading, &measures, &forms, style)?;
    layout_by(alloc, text, &normal, measures, forms, style)
}

/// Returns the text in the house style. `Headline` states what is proved about the two texts. The result is the only
/// formatting of the text. It is a stream of at most 1 GiB, with the same content and the same comments at the same
/// places. Formatting it again changes nothing, and a check of it has no fixable finding. `Keeps` states how types,
/// spellings and blank lines are kept.
///
/// # Errors
///
/// Fails like `read_stream`, and with `Fault::Memory` if the formatted text would have more than `LONGEST` bytes.
pub fn format(alloc: Global, text: &str, style: &Style) -> Result<String, Fault>
    ensures headline { IfOk result (λ formatted. Headline text.now style.now (string_bytes formatted)) }
    ensures keeps { IfOk result (λ formatted. FormatKept text.now style.now (string_bytes formatted)) }
    ensures within { IfOk result (λ formatted. length (string_bytes formatted) ≤ LONGEST) }
    ensures refuses { IfErr result (StreamFault text.now) }
{
    match read_stream(alloc, text) {
        Ok(reading) => format_reading(alloc, text, reading, style),
        Err(fault) => Err(fault),
    }
}

/// Returns a stream in the house style from its reading, as `format` does.
///
/// # Errors
///
/// `Fault::Memory` if memory is refused, or if the formatted text would have more than `LONGEST` bytes.
pub fn format_reading(
    alloc: Global,
    text: &str,
    reading: Reading,
    style: &Style,
) -> Result<String, Fault>
    requires fits { length text.now ≤ INPUT_LIMIT }
    requires reads { TheReading text.now reading }
    ensures headline { IfOk result (λ formatted. Headline text.now style.now (string_bytes formatted)) }
    ensures keeps { IfOk result (λ formatted. FormatKept text.now style.now (string_bytes formatted)) }
    ensures within { IfOk result (λ formatted. length (string_bytes formatted) ≤ LONGEST) }
    ensures refused { IfErr result (λ fault. fault ≡ Fault.Memory) }
{
    formattings_hold();
    match formatted(alloc, text, reading, style) {
        Ok(output) => Ok(output),
        Err(AllocError) => Err(Fault::Memory),
    }
}
