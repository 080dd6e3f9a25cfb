//! Ended nodes, and the nodes that end where they begin: scalars and aliases.
ghost use Rattle.std.specs.Prelude.{◌≡◌, false};
ghost use Rattle.std.specs.Str.{IsUtf8};
ghost use Rattle.yf_forms.specs.Nodes.OneLineFlows.{scalar_may_be_kept};
ghost use Rattle.yf_forms.specs.NormalForms.Measures.{is_one_line_style, width_if};
ghost use Rattle.yf_forms.specs.Passes.MeasurePass as Measuring;
ghost use Rattle.yf_forms.specs.Nodes.OneLine.{props_text, scalar_text, spaced};
ghost use Rattle.yf_forms.specs.declared.style.Style.{Style};
ghost use Rattle.yf_forms.specs.Nodes.ScalarStyles as Wanted;
ghost use Rattle.yf_props.specs.Props.{props_value};

use crate::form::measure::Measure;
use crate::style::Style;
use crate::text::wanted::wanted_of;
use crate::text::width::{char_count, joined_width, props_width, scalar_width};
use yf_events::event::{ScalarStyle, Span};
use yf_props::props::Props;

/// An ended node, as seen by the collection around it. `inside` is its width if it may be in kept text.
#[derive(Clone, Copy)]
pub struct Ended {
    pub measure: Measure,
    pub inside: Option<usize>,
    pub is_alias: bool,
}

/// Returns whether a scalar with the wanted style may be in kept text: a quoted one, or a plain one with characters
/// that stays plain.
#[inline(always)]
fn may_be_inside(written: ScalarStyle, wanted: ScalarStyle, text: &str) -> bool
    ensures { (house : Style) → wanted ≡ Wanted.wanted written text.now house → result ≡ scalar_may_be_kept written text.now }
{
    match written {
        ScalarStyle::Plain => {
            if text.is_empty() {
                return false;
            }
            matches!(wanted, ScalarStyle::Plain)
        }
        ScalarStyle::Single | ScalarStyle::Double => true,
        ScalarStyle::Literal | ScalarStyle::Folded => false,
    }
}

/// Returns the index of the leaf if it has characters, and so a part of the text.
#[inline(always)]
fn leaf_if(span: Option<Span>, i: usize) -> Option<usize>
    ensures { result ≡ Measuring.leaf_if span i }
{
    match span {
        Some(_) => Some(i),
        None => None,
    }
}

/// Returns the measure of a scalar or an alias of that width.
#[inline(always)]
fn leaf(i: usize, width: Option<usize>, leaf: Option<usize>) -> Measure
    ensures { result ≡ record { last = i; width = width; can_be_kept = false; first_leaf = leaf; last_leaf = leaf } }
{
    Measure {
        last: i,
        width,
        can_be_kept: false,
        first_leaf: leaf,
        last_leaf: leaf,
    }
}

/// Returns the number of characters of a scalar in a style, with its properties, or `None` if it is a block scalar.
#[inline(always)]
fn width_in_style(props: &Props, style: ScalarStyle, text: &str, house: &Style) -> Option<usize>
    ensures width { result ≡ width_if (is_one_line_style style) (spaced (props_text (props_value props.now)) (scalar_text house.now style text.now)) }
    ensures utf8 { (IsUtf8 (props_text (props_value props.now))) × (IsUtf8 text.now) }
{
    let before = props_width(props);
    match scalar_width(style, text, house) {
        Some(width) => Some(joined_width(before, width)),
        None => None,
    }
}

/// Returns the scalar at an index of the events.
#[inline(always)]
pub(crate) fn scalar(
    i: usize,
    span: Option<Span>,
    props: &Props,
    written: ScalarStyle,
    text: &str,
    style: &Style,
) -> Ended
    ensures ended { result ≡ Measuring.ended_scalar style.now i span (props_value props.now) written text.now }
    ensures utf8 { (IsUtf8 (props_text (props_value props.now))) × (IsUtf8 text.now) }
{
    let wanted = wanted_of(written, text, style);
    let width = width_in_style(props, wanted, text, style);
    let measure = leaf(i, width, leaf_if(span, i));
    if may_be_inside(written, wanted, text) {
        return Ended {
            measure,
            inside: width,
            is_alias: false,
        };
    }
    Ended {
        measure,
        inside: None,
        is_alias: false,
    }
}

/// Returns the alias at an index of the events.
pub(crate) fn alias(i: usize, name: &str) -> Ended
    ensures ended { result ≡ Measuring.ended_alias i name.now }
    ensures utf8 { IsUtf8 name.now }
{
    let width = Some(char_count(name).saturating_add(1));
    Ended {
        measure: leaf(i, width, Some(i)),
        inside: width,
        is_alias: true,
    }
}
