//! The header of a block scalar (YAML 1.2.2, section 8.1.1).

/// What to do with the line breaks after the last content line (section 8.1.1.2, the chomping indicator).
#[derive(Clone, Copy)]
pub enum Chomp {
    /// `-`: none of these breaks is content.
    Strip,
    /// No sign: the last content line's break is content.
    Clip,
    /// `+`: that break and the empty lines after it are content.
    Keep,
}

/// The header of a block scalar (c-b-block-header, production 162).
#[derive(Clone, Copy)]
pub struct Header {
    /// Whether the style is `>`, otherwise `|`.
    pub folded: bool,
    /// The indentation indicator, 1 to 9.
    pub digit: Option<u8>,
    pub chomp: Chomp,
}
