//! Properties of a node (YAML 1.2.2, section 6.9).
ghost use Rattle.std.specs.Prelude.{◌≡◌, ◌≢◌, ◌<◌, false, IfOk, IfSome, MatchOption};
ghost use Rattle.std.specs.Str.{IsCharBoundary};
ghost use Rattle.yf_chars.specs.Chain.{Chosen, Stuck};
ghost use Rattle.yf_chars.specs.Signs.{AMPERSAND, EXCLAMATION};
ghost use Rattle.yf_chars.specs.Text.{code};
ghost use Rattle.yf_props.specs.Names.{Anchor, TagProperty, anchor_only, tag_only, Properties as PropertiesOf};
ghost use Rattle.yf_props.specs.Properties.{properties_value};
ghost use Rattle.yf_props.specs.Props.{tag_value};

use crate::alias::anchor_property;
use crate::props::{Props, Tag};
use crate::tag::{TagPart, tag_property};
use std::alloc::{AllocError, Global};
use yf_chars::context::Ctx;
use yf_chars::text::is_char_at;
use yf_comments::comments::{Comments, Separation};
use yf_comments::separation::separate;

/// The result of reading properties.
#[derive(Drop)]
pub struct Properties<'a> {
    pub props: Props<'a>,
    /// The byte offset of the tag's `!`, if there is a tag.
    pub tag_offset: Option<usize>,
    /// The comments between the tag and the anchor.
    pub comments: Comments<'a>,
    /// The byte offset after the properties.
    pub end: usize,
}

// Returns the properties with only an anchor.
fn only_anchor<'a>(alloc: Global, anchor: &'a str, end: usize) -> Properties<'a>
    ensures value { properties_value result ≡ anchor_only anchor.now }
    ensures end { result.end ≡ end }
{
    Properties {
        props: Props {
            anchor: Some(anchor),
            tag: None,
        },
        tag_offset: None,
        comments: Comments::new(alloc),
        end,
    }
}

// Returns the properties with only a tag, which is at the offset.
fn only_tag<'a>(alloc: Global, at: usize, part: TagPart<'a>) -> Properties<'a>
    ensures value { properties_value result ≡ tag_only at (tag_value part.entry.tag) }
    ensures end { result.end ≡ part.entry.end }
{
    Properties {
        props: Props {
            anchor: None,
            tag: Some(part.tag),
        },
        tag_offset: Some(at),
        comments: Comments::new(alloc),
        end: part.end,
    }
}

// Reads an optional separation and tag after an anchor that ends at the offset.
fn after_anchor<'a>(
    alloc: Global,
    s: &'a str,
    at: usize,
    n: i32,
    ctx: Ctx,
    anchor: &'a str,
    end: usize,
) -> Result<Properties<'a>, AllocError>
    requires anchor { Anchor s.now at end anchor.now }
    requires boundary { IsCharBoundary s.now end }
    ensures reads { IfOk result (λ p. Chosen (PropertiesOf s.now n ctx at) p.end (properties_value p)) }
    ensures boundary { IfOk result (λ p. IsCharBoundary s.now p.end) }
{
    match separate(alloc, s, end, n, ctx)? {
        Some(
            Separation {
                comments,
                end: start,
            },
        ) => match tag_property(s, start) {
            Some(TagPart { tag, end: tag_end }) => Ok(Properties {
                props: Props {
                    anchor: Some(anchor),
                    tag: Some(tag),
                },
                tag_offset: Some(start),
                comments,
                end: tag_end,
            }),
            None => Ok(only_anchor(alloc, anchor, end)),
        },
        None => Ok(only_anchor(alloc, anchor, end)),
    }
}

// Reads an optional separation and anchor after a tag.
fn after_tag<'a>(
    alloc: Global,
    s: &'a str,
    at: usize,
    n: i32,
    ctx: Ctx,
    part: TagPart<'a>,
) -> Result<Properties<'a>, AllocError>
    requires tag { Chosen (TagProperty s.now at) part.end (tag_value part.tag) }
    requires boundary { IsCharBoundary s.now part.end }
    ensures reads { IfOk result (λ p. Chosen (PropertiesOf s.now n ctx at) p.end (properties_value p)) }
    ensures boundary { IfOk result (λ p. IsCharBoundary s.now p.end) }
{
    match separate(alloc, s, part.end, n, ctx)? {
        Some(
            Separation {
                comments,
                end: start,
            },
        ) => match anchor_property(s, start) {
            Some((anchor, anchor_end)) => Ok(Properties {
                props: Props {
                    anchor: Some(anchor),
                    tag: Some(part.tag),
                },
                tag_offset: Some(at),
                comments,
                end: anchor_end,
            }),
            None => Ok(only_tag(alloc, at, part)),
        },
        None => Ok(only_tag(alloc, at, part)),
    }
}

/// Reads properties (c-ns-properties(n,c), production 96) that begin at a byte offset: a tag, an anchor, or both in
/// either order with separation between them, with all characters that may be in them. `n` is an indentation, from -1.
///
/// Returns `None` if no properties begin at the offset. Usually none do, and a test of the first character shows it.
#[inline(always)]
pub fn node_properties<'a>(
    alloc: Global,
    s: &'a str,
    at: usize,
    n: i32,
    ctx: Ctx,
) -> Result<Option<Properties<'a>>, AllocError>
    ensures reads { IfOk result (λ o. MatchOption o (Stuck (PropertiesOf s.now n ctx at))
        (λ p. Chosen (PropertiesOf s.now n ctx at) p.end (properties_value p))) }
    ensures boundary { IfOk result (λ o. IfSome o (λ p. IsCharBoundary s.now p.end)) }
    ensures order { IfOk result (λ o. IfSome o (λ p. at < p.end)) }
{
    if is_property_at(s, at) {
        return anchor_or_tag(alloc, s, at, n, ctx);
    }
    Ok(None)
}

// Returns whether the first character of an anchor or a tag is at the offset.
#[inline(always)]
fn is_property_at(s: &str, at: usize) -> bool
    ensures { result ≡ false → (code s.now at ≢ AMPERSAND) × (code s.now at ≢ EXCLAMATION) }
{
    if is_char_at(s, at, b'&') {
        return true;
    }
    is_char_at(s, at, b'!')
}

// Reads properties after the test of the first character.
#[inline(never)]
fn anchor_or_tag<'a>(
    alloc: Global,
    s: &'a str,
    at: usize,
    n: i32,
    ctx: Ctx,
) -> Result<Option<Properties<'a>>, AllocError>
    ensures reads { IfOk result (λ o. MatchOption o (Stuck (PropertiesOf s.now n ctx at))
        (λ p. Chosen (PropertiesOf s.now n ctx at) p.end (properties_value p))) }
    ensures boundary { IfOk result (λ o. IfSome o (λ p. IsCharBoundary s.now p.end)) }
    ensures order { IfOk result (λ o. IfSome o (λ p. at < p.end)) }
{
    match anchor_property(s, at) {
        Some((anchor, end)) => {
            let found = after_anchor(alloc, s, at, n, ctx, anchor, end)?;
            return Ok(Some(found));
        }
        None => {}
    }
    match tag_property(s, at) {
        Some(part) => {
            let found = after_tag(alloc, s, at, n, ctx, part)?;
            Ok(Some(found))
        }
        None => Ok(None),
    }
}
