//! The readers of scalars and properties, as flow nodes take them.
ghost use Rattle.std.specs.Prelude.{◌≡◌, ◌+◌, ◌++◌, IfOk, IfSome};
ghost use Rattle.std.specs.Str.{IsCharBoundary};
ghost use Rattle.yf_chars.specs.Boundary.{BoundaryFrom};
ghost use Rattle.yf_flow.specs.NodeOffsets.{PlainRead, PropertiesRead};

use crate::frame::{FlowContext, FlowCursor};
use std::alloc::{AllocError, Global};
use yf_events::values::Values;
use yf_lines::text::Text;
use yf_plain::plain::read_plain_in;
use yf_props::properties::{Properties, node_properties};

/// A scalar: its text, and the byte offset after it.
#[derive(Drop)]
pub(crate) struct Scalar<'a> {
    pub(crate) text: Text<'a>,
    pub(crate) end: usize,
}

/// Reads properties (c-ns-properties(n,c), production 96).
pub(crate) fn read_properties<'a>(
    alloc: Global,
    scene: FlowContext<'a>,
    at: usize,
) -> Result<Option<Properties<'a>>, AllocError>
    requires { IsCharBoundary scene.text.now at }
    ensures place { IfOk result (λ o. IfSome o (λ p. BoundaryFrom scene.entry.text.now (at + 1) p.end)) }
    ensures reads { IfOk result (PropertiesRead scene.entry at) }
{
    match node_properties(alloc, scene.text, at, scene.indentation, scene.context)? {
        Some(properties) => Ok(Some(properties)),
        None => Ok(None),
    }
}

/// Reads a plain scalar (ns-plain(n,c), production 131).
#[inline(always)]
pub(crate) fn read_plain<'a>(cursor: &FlowCursor<'a>) -> Result<Option<Scalar<'a>>, AllocError>
    requires { IsCharBoundary cursor.now.scene.text.now cursor.now.at }
    ensures place { IfOk result (λ o. IfSome o (λ p. BoundaryFrom cursor.now.scene.text.now (cursor.now.at + 1) p.end)) }
    ensures reads { IfOk result (PlainRead cursor.now) }
{
    let scene = &cursor.scene;
    match read_plain_in(
        cursor.alloc,
        scene.text,
        cursor.at,
        scene.indentation,
        scene.context,
    ) {
        Ok(Some((text, end))) => Ok(Some(Scalar { text, end })),
        Ok(None) => Ok(None),
        Err(_) => Err(AllocError),
    }
}

/// Adds offsets of escapes that are not characters.
pub(crate) fn keep_escapes(
    bad: &Values<usize>,
    escapes: &mut Values<usize>,
) -> Result<(), AllocError>
    ensures { IfOk result (λ _. escapes.new ≡ escapes.old ++ bad.now) }
{
    let offsets = bad.as_slice();
    let mut at = 0;
    'offsets: while at < offsets.len() {
        escapes.push(offsets[at])?;
        at += 1;
    }
    Ok(())
}
