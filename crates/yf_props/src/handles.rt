//! Tag handles (YAML 1.2.2, section 6.8.2), and the tags that shorthands mean (section 6.9.1).
ghost use Rattle.std.specs.Prelude.{◌≡◌, ◌⊎◌, ◌++◌, [], ◌∷◌, false, not, Option, Some, None, Ok, Err, MatchOption, IfOk, IfErr, if◌then◌else◌, codes};
ghost use Rattle.yf_lines.specs.Text.{text_bytes};
ghost use Rattle.yf_props.specs.Props.{tag_value};
ghost use Rattle.yf_props.specs.Handles.{default_prefix, prefix_of, SuffixText, TagText, UnknownHandleOf, is_declared};

use crate::props::Tag;
use crate::resolved::ResolvedTag;
use indexmap::IndexMap;
use percent_encoding::{DecodeError, percent_decode};
use std::alloc::{AllocError, Global};
use std::borrow::CowStr;
use std::marker::Model;
use yf_lines::fault::Fault;
use yf_lines::place::Position;
use yf_lines::text::{OwnedText, Text};

/// The tag handles of one document. A contract sees the list of the declarations, each a handle and its prefix; a
/// handle without one may have a default.
#[derive(Drop)]
pub struct Handles<'a> {
    prefixes: IndexMap<&'a str, &'a str>,
}

impl<'a> Model for Handles<'a> {
    ghost use Rattle.std.specs.Prelude.{List, map};
    ghost use Rattle.yf_props.specs.Handles.{Declaration, declaration};

    ghost Value = { List Declaration };

    ghost view = { λ h. map declaration h.prefixes.entries };
}

// Returns the prefix of a handle that is not declared.
fn default_of(handle: &str) -> Option<&'static str>
    ensures { MatchOption result (default_prefix handle.now ≡ None) (λ prefix. default_prefix handle.now ≡ Some prefix.now) }
{
    match handle {
        "!" => Some("!"),
        "!!" => Some("tag:yaml.org,2002:"),
        _ => None,
    }
}

// Returns the meaning of a suffix. The text is a new one only if the suffix has escapes.
fn suffix_text<'a>(alloc: Global, suffix: &'a str) -> Result<Text<'a>, AllocError>
    ensures { IfOk result (λ text. SuffixText suffix.now (text_bytes text)) }
{
    match percent_decode(suffix.as_bytes()).decode_utf8(alloc) {
        Ok(CowStr::Borrowed(part)) => Ok(Text::Part(part)),
        Ok(CowStr::Owned(decoded)) => Ok(Text::Owned(OwnedText::new(decoded))),
        Err(DecodeError::Utf8(_)) => Ok(Text::Part(suffix)),
        Err(DecodeError::OutOfMemory) => Err(AllocError),
    }
}

impl<'a> Handles<'a> {
    /// Returns the handles of a document without TAG directives: the prefix of `!` is `!`, and that of `!!` is
    /// `tag:yaml.org,2002:`.
    pub fn new(alloc: Global) -> Handles<'a>
        ensures none { result ≡ [] }
        ensures primary { prefix_of result (codes "!") ≡ Some (codes "!") }
        ensures secondary { prefix_of result (codes "!!") ≡ Some (codes "tag:yaml.org,2002:") }
    {
        Handles {
            prefixes: IndexMap::new(alloc),
        }
    }

    /// Declares a handle's prefix, as a TAG directive does. It replaces the handle's default, if any.
    ///
    /// Returns whether the handle is new; if it was declared before, its prefix doesn't change. If memory is refused,
    /// the handles are unchanged.
    pub fn declare(&mut self, handle: &'a str, prefix: &'a str) -> Result<bool, Fault>
        ensures declared { IfOk result (λ fresh. (fresh ≡ not (is_declared self.old handle.entry.now))
            × (self.new ≡ (if fresh then self.old ++ (handle.entry.now, prefix.entry.now) ∷ [] else self.old))) }
        ensures refused { IfErr result (λ fault. (fault ≡ Fault.Memory) × (self.new ≡ self.old)
            × (is_declared self.old handle.entry.now ≡ false)) }
    {
        if self.prefixes.contains_key(handle) {
            return Ok(false);
        }
        match self.prefixes.insert(handle, prefix) {
            Ok(_) => Ok(true),
            Err(_) => Err(Fault::Memory),
        }
    }

    // Returns the prefix of a handle: the declared one, or else the default.
    fn prefix(&self, handle: &str) -> Option<&'a str>
        ensures { MatchOption result (prefix_of self.now handle.now ≡ None) (λ prefix. prefix_of self.now handle.now ≡ Some prefix.now) }
    {
        match self.prefixes.get(handle) {
            Some(&prefix) => Some(prefix),
            None => default_of(handle),
        }
    }

    /// Returns the meaning of a tag (section 6.9.1): the text between the brackets of a verbatim tag, `!` for `!`, and
    /// a handle's prefix and the suffix for a shorthand. In the suffix, each `%` with two hexadecimal digits means a
    /// byte; if the bytes are then not UTF-8, the suffix stays as it is written.
    ///
    /// Fails with `UnknownHandle` at `place`, the tag's position, if the handle is neither declared nor a default.
    pub fn resolve(
        &self,
        alloc: Global,
        tag: &Tag<'a>,
        place: Position,
    ) -> Result<ResolvedTag<'a>, Fault>
        ensures refused { IfErr result (λ fault. (fault ≡ Fault.Memory)
            ⊎ ((fault ≡ Fault.UnknownHandle place) × UnknownHandleOf self.now (tag_value tag.now))) }
        ensures text { IfOk result (λ text. TagText self.now (tag_value tag.now) text) }
    {
        match *tag {
            Tag::Verbatim(text) => Ok(ResolvedTag::new(text, Text::Part(""))),
            Tag::Short { handle, suffix } => match self.prefix(handle) {
                Some(prefix) => match suffix_text(alloc, suffix) {
                    Ok(suffix) => Ok(ResolvedTag::new(prefix, suffix)),
                    Err(AllocError) => Err(Fault::Memory),
                },
                None => Err(Fault::UnknownHandle { place }),
            },
            Tag::NonSpecific => Ok(ResolvedTag::new("!", Text::Part(""))),
        }
    }
}
