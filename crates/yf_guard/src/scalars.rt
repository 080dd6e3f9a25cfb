//! Empty nodes, and plain scalars over several lines.
ghost use Rattle.std.specs.List.{list_any};
ghost use Rattle.std.specs.Prelude.{◌≡◌, ◌==◌, ◌||◌};
ghost use Rattle.yf_guard.specs.Guards as Guards;
ghost use Rattle.yf_props.specs.Props.{props_value};

use yf_events::event::{ScalarStyle, Span};
use yf_forms::text::content_start::content_start;
use yf_props::props::Props;

fn is_plain(style: ScalarStyle) -> bool
    ensures { result ≡ Guards.is_plain style }
{
    match style {
        ScalarStyle::Plain => true,
        ScalarStyle::Single => false,
        ScalarStyle::Double => false,
        ScalarStyle::Literal => false,
        ScalarStyle::Folded => false,
    }
}

fn has_no_props(props: &Props) -> bool
    ensures { result ≡ Guards.has_no_props (props_value props.now) }
{
    match props.anchor {
        Some(_) => false,
        None => match props.tag {
            Some(_) => false,
            None => true,
        },
    }
}

/// Returns whether a scalar is an empty node without properties.
pub fn is_empty_scalar(props: &Props, style: ScalarStyle, text: &str) -> bool
    ensures { result ≡ Guards.is_empty_scalar (props_value props.now) style text.now }
{
    if is_plain(style) {
        if text.is_empty() {
            return has_no_props(props);
        }
        return false;
    }
    false
}

fn has_break_byte(bytes: &[u8]) -> bool
    ensures { result ≡ list_any (λ b. (b == 10) || (b == 13)) bytes.now }
{
    bytes.iter().any(|b| *b == b'\n' || *b == b'\r')
}

/// Returns whether a line break is between the two byte offsets.
fn has_break(text: &str, from: usize, end: usize) -> bool
    ensures { result ≡ Guards.has_break text.now from end }
{
    let bytes = text.as_bytes();
    let stop = end.min(bytes.len());
    if from >= stop {
        return false;
    }
    has_break_byte(&bytes[from..stop])
}

/// Returns the byte offset at which a plain scalar over several lines begins, after its properties, or `None` for
/// another scalar.
pub fn lines_start(
    text: &str,
    props: &Props,
    style: ScalarStyle,
    span: Option<Span>,
) -> Option<usize>
    ensures { result ≡ Guards.lines_start text.now (props_value props.now) style span }
{
    let Some(span) = span else {
        return None;
    };
    let start = content_start(text, span, props);
    if is_plain(style) {
        if has_break(text, start, span.end) {
            return Some(start);
        }
        return None;
    }
    None
}
