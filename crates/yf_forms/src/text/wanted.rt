//! The style of a scalar in the house style.
ghost use Rattle.std.specs.Prelude.{◌≡◌, ◌<◌, length, slice_get, IfSome};
ghost use Rattle.yf_forms.specs.Nodes.ScalarStyles as Wanted;
ghost use Rattle.yf_forms.specs.Nodes.ScalarStyles.{quoted_in, wanted, wanted_of_event};
ghost use Rattle.yf_events.specs.Reading.{events_of};

use crate::style::Style;
use yf_events::event::{Event, ScalarStyle};
use yf_events::reading::Reading;
use yf_lines::quotes::Quotes;
use yf_lines::steady::is_steady;
use yf_quoted::write::choose_in;

/// Returns the quotes of a text in the house style: the preferred ones, but single quotes only if each character is
/// an nb-char (production 27) and no hidden one must be escaped, since single quotes have no escapes.
fn quotes_of(text: &str, house: &Style) -> ScalarStyle
    ensures { result ≡ quoted_in text.now house.now }
{
    match choose_in(text, house.quotes, house.invisible) {
        Quotes::Single => ScalarStyle::Single,
        Quotes::Double => ScalarStyle::Double,
    }
}

/// Returns whether the text has a character other than space and line feed. A block scalar needs one.
fn has_block_content(text: &str) -> bool
    ensures { result ≡ Wanted.has_block_content text.now }
{
    text.as_bytes().iter().any(|b| *b != b' ' && *b != b'\n')
}

/// Returns the style in which the house style writes a scalar of this style and text.
#[inline(always)]
pub fn wanted_of(written: ScalarStyle, text: &str, house: &Style) -> ScalarStyle
    ensures { result ≡ wanted written text.now house.now }
{
    match written {
        ScalarStyle::Plain => {
            if is_steady(text) {
                return ScalarStyle::Plain;
            }
            quotes_of(text, house)
        }
        ScalarStyle::Single | ScalarStyle::Double => quotes_of(text, house),
        ScalarStyle::Literal => {
            if has_block_content(text) {
                return ScalarStyle::Literal;
            }
            quotes_of(text, house)
        }
        ScalarStyle::Folded => {
            if has_block_content(text) {
                return ScalarStyle::Folded;
            }
            quotes_of(text, house)
        }
    }
}

/// Returns the style in which the house style writes the scalar at an index of the events, and `Plain` for another
/// event.
///
/// A plain scalar stays plain if its text is steady. A literal or folded one keeps its style if it has a character
/// other than space and line feed. Any other is quoted. The function allocates nothing.
pub fn wanted_style(reading: &Reading, i: usize, style: &Style) -> ScalarStyle
    requires { i < length reading.now.events }
    ensures { IfSome (slice_get (events_of reading.now) i) (λ e. result ≡ wanted_of_event e style.now) }
{
    match reading.event(i) {
        Event::Scalar {
            style: written,
            text,
            ..
        } => wanted_of(written, text, style),
        _ => ScalarStyle::Plain,
    }
}
