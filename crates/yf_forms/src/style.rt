//! The settings of the house style.
ghost use Rattle.std.specs.Prelude.{◌≡◌, ◌≤◌, true};

use yf_lines::invisible::Invisible;
use yf_lines::quotes::Quotes;

/// The documents that begin with a `---`.
#[derive(Clone, Copy)]
pub enum DocumentStart {
    /// All documents.
    Always,
    /// All but a first document without one in the text that has no comment between its beginning and its first leaf
    /// with characters.
    Keep,
}

/// The column of a comment on a line of its own.
#[derive(Clone, Copy)]
pub enum CommentColumns {
    /// The column of the next line.
    Next,
    /// The column of the block around the comment in the text.
    Block,
}

/// The settings of the house style. Each value of this type is within the ranges of its fields.
#[derive(Clone, Copy)]
pub struct Style {
    /// The distance in columns between an entry and the entry around it, 2 to 8.
    pub indent: usize,
    /// The last column, from 1, for the closing bracket of a flow collection on one line, 40 to 1000.
    pub max_line: usize,
    /// The quotes of scalars that can be written in either.
    pub quotes: Quotes,
    /// Whether the entries of a sequence that is the value of an implicit key are to the right of the key. If not,
    /// they are at the key's column.
    pub seq_indent: bool,
    /// The documents that begin with a `---`.
    pub document_start: DocumentStart,
    /// The columns of comments on lines of their own.
    pub comments: CommentColumns,
    /// How quoted scalars hold hidden characters.
    pub invisible: Invisible,
    pub ghost indent_from: { 2 ≤ indent },
    pub ghost indent_to: { indent ≤ 8 },
    pub ghost max_line_from: { 40 ≤ max_line },
    pub ghost max_line_to: { max_line ≤ 1000 },
}

impl Style {
    /// Returns the style without any settings: indent 2, lines of 100 columns, double quotes, sequences to the right
    /// of their keys, `---` before each document, comments at the columns of the next lines, hidden characters
    /// unchanged.
    pub fn house() -> Style
        ensures indent { result.indent ≡ 2 }
        ensures max_line { result.max_line ≡ 100 }
        ensures quotes { result.quotes ≡ Quotes.Double }
        ensures seq_indent { result.seq_indent ≡ true }
        ensures document_start { result.document_start ≡ DocumentStart.Always }
        ensures comments { result.comments ≡ CommentColumns.Next }
        ensures invisible { result.invisible ≡ Invisible.Plain }
    {
        Style {
            indent: 2,
            max_line: 100,
            quotes: Quotes::Double,
            seq_indent: true,
            document_start: DocumentStart::Always,
            comments: CommentColumns::Next,
            invisible: Invisible::Plain,
        }
    }
}
