//! Rows in another form, and entries of their table without lines.
ghost use Rattle.std.specs.Prelude.{◌≡◌, ◌≤◌, [], length, IfOk};
ghost use Rattle.yf_events.specs.EventForms as Formed;
ghost use Rattle.yf_events.specs.EventForms.{LinesDropped, is_folded_shape, shape_formed};
ghost use Rattle.yf_events.specs.Packed.{TableGrown};

use crate::event::ScalarStyle;
use crate::packed::{More, Shape, more_in};
use crate::slices::Slices;
use std::alloc::{AllocError, Global};
use yf_lines::packed_lines::narrow;
use yf_lines::text::OwnedText;

/// Returns the kind of an event with brackets or none around its collection, or with its scalar in this style.
#[inline(always)]
pub fn formed(shape: Shape, flow: bool, style: ScalarStyle) -> Shape
    ensures { result ≡ shape_formed flow style shape }
{
    match shape {
        Shape::SeqStart { .. } => Shape::SeqStart { flow },
        Shape::MapStart { .. } => Shape::MapStart { flow },
        Shape::Scalar { .. } => Shape::Scalar { style },
        Shape::StreamStart => Shape::StreamStart,
        Shape::StreamEnd => Shape::StreamEnd,
        Shape::DocStart { explicit } => Shape::DocStart { explicit },
        Shape::DocEnd { explicit } => Shape::DocEnd { explicit },
        Shape::SeqEnd => Shape::SeqEnd,
        Shape::MapEnd => Shape::MapEnd,
        Shape::Alias => Shape::Alias,
    }
}

/// Returns whether the event is a folded scalar.
#[inline(always)]
pub fn is_folded(shape: Shape) -> bool
    ensures { result ≡ is_folded_shape shape }
{
    match shape {
        Shape::Scalar {
            style: ScalarStyle::Folded,
        } => true,
        _ => false,
    }
}

/// Returns the number of the entry of the table, without lines unless they are kept. Rows may share an entry, so an
/// entry with lines stays unchanged, and another one is added.
#[inline(always)]
pub fn relined<'a>(
    alloc: Global,
    list: &mut Vec<More<'a>>,
    number: u32,
    keeps: bool,
) -> Result<u32, AllocError>
    requires { number ≤ length list.old.items }
    ensures grown { TableGrown list.old.items list.new.items }
    ensures relined { IfOk result (λ n. LinesDropped list.old.items list.new.items keeps number n) }
{
    if keeps {
        return Ok(number);
    }
    let Some(more) = more_in(list.as_slice(), number) else {
        return Ok(number);
    };
    if more.folded.as_slice().is_empty() {
        return Ok(number);
    }
    let bare = without_lines(alloc, more)?;
    list.push(bare)?;
    narrow(list.len())
}

/// Returns the entry without lines.
fn without_lines<'a>(alloc: Global, more: &More<'a>) -> Result<More<'a>, AllocError>
    ensures { IfOk result (λ bare. bare ≡ record more.now { folded = [] }) }
{
    let text = match &more.text {
        Some(text) => Some(OwnedText::new(String::from_str(alloc, text.as_str())?)),
        None => None,
    };
    Ok(More {
        props: more.props,
        tag_offset: more.tag_offset,
        text,
        folded: Slices::new(alloc),
    })
}
