//! The rules of style. Each has its function in a file of `rules`.
ghost use Rattle.std.specs.Prelude.{IfOk};
ghost use Rattle.yf_rule_sets.specs.RuleOf.{definition_of};

pub mod blank_lines;
pub mod byte_order_mark;
pub mod comment_space;
pub mod document_start;
pub mod final_break;
pub mod flow_layout;
pub mod hidden_character;
pub mod indentation;
pub mod key_mark;
pub mod line_breaks;
pub mod line_length;
pub mod quoting;
pub mod repeated_keys;
pub mod trailing_blanks;

use crate::facts::found::{FoundOffsets, Global, Reading, Src, Style};

/// The rules, in the order of their numbers.
#[derive(Clone, Copy)]
pub enum StyleRule {
    /// The first character of the white space that ends a line, except on content lines of block scalars.
    TrailingBlanks,
    /// The first entry of a block collection that is not at its column in the house style, and the header of a block
    /// scalar with content that is not.
    Indentation,
    /// The first character of the content of a scalar that is not in the style that the house style gives it.
    Quoting,
    /// The first character of content of a document without `---`, except the first document if the style keeps it so,
    /// and a `---` with more than white space after it on its line.
    DocumentStart,
    /// The end of a text that is not empty and does not end with a line break.
    FinalBreak,
    /// The first break that is not a line feed.
    LineBreaks,
    /// Each byte order mark outside of scalars. Marks together at the start of a line have one position.
    ByteOrderMark,
    /// A blank line that is the first line, follows another one or a `---` with only white space after it, is directly
    /// before a document marker or a directive, or has only blank lines after it.
    BlankLines,
    /// The opening bracket of an outermost flow collection that is not written as the house style writes it, or may not
    /// be kept there.
    FlowLayout,
    /// The `#` of a comment that follows other text on its line, unless exactly two spaces are between them.
    CommentSpace,
    /// The first character past the longest line that the style allows, of each longer line.
    LineLength,
    /// A scalar key with the text and the resolved tag of an earlier scalar key of its mapping.
    RepeatedKeys,
    /// The `?` of an entry of a block mapping, if the house style writes its key without it.
    KeyMark,
    /// Each hidden character outside of quoted scalars, except byte order marks, if the style escapes hidden
    /// characters.
    HiddenCharacter,
}

/// Returns the byte offsets at fault by a rule.
pub fn offsets_by(
    rule: StyleRule,
    alloc: Global,
    src: &Src,
    reading: &Reading,
    style: &Style,
) -> FoundOffsets
    ensures { IfOk result (λ offsets. (definition_of rule).faults src.now reading.now style.now offsets.items) }
{
    match rule {
        StyleRule::TrailingBlanks => trailing_blanks::offsets(alloc, src, reading),
        StyleRule::Indentation => indentation::offsets(alloc, src, reading, style),
        StyleRule::Quoting => quoting::offsets(alloc, src, reading, style),
        StyleRule::DocumentStart => document_start::offsets(alloc, src, reading, style),
        StyleRule::FinalBreak => final_break::offsets(alloc, src),
        StyleRule::LineBreaks => line_breaks::offsets(alloc, src),
        StyleRule::ByteOrderMark => byte_order_mark::offsets(alloc, src, reading),
        StyleRule::BlankLines => blank_lines::offsets(alloc, src, reading),
        StyleRule::FlowLayout => flow_layout::offsets(alloc, src, reading, style),
        StyleRule::CommentSpace => comment_space::offsets(alloc, src, reading),
        StyleRule::LineLength => line_length::offsets(alloc, src, style),
        StyleRule::RepeatedKeys => repeated_keys::offsets(alloc, reading),
        StyleRule::KeyMark => key_mark::offsets(alloc, src, reading, style),
        StyleRule::HiddenCharacter => hidden_character::offsets(alloc, src, reading, style),
    }
}
