//! The questions of a server about a document.
ghost use Rattle.std.specs.Prelude.{◌≡◌, IfOk, map, option_map, string_bytes};
ghost use Rattle.yf_server.specs.Analysis.{TextClaim, kind_number, problem_read, severity_number};

use std::alloc::{AllocError, Global};

/// How severe a problem is (`DiagnosticSeverity` of LSP 3.17).
#[derive(Clone, Copy)]
pub enum Severity {
    Error,
    Warning,
    Information,
    Hint,
}

impl Severity {
    /// Returns the number that the protocol gives the severity.
    pub fn number(self) -> u64
        ensures { result ≡ severity_number self }
    {
        match self {
            Severity::Error => 1,
            Severity::Warning => 2,
            Severity::Information => 3,
            Severity::Hint => 4,
        }
    }
}

/// A problem of a text.
#[derive(Drop)]
pub struct Problem {
    /// The byte offset at which it starts.
    pub start: usize,
    /// The byte offset at which it ends.
    pub end: usize,
    pub severity: Severity,
    /// Its name, for example that of a rule.
    pub code: &'static str,
    /// The text that a client shows.
    pub message: String,
}

/// A part of a text that may be folded, if it has several lines.
#[derive(Clone, Copy)]
pub struct Foldable {
    /// A byte offset in its first line.
    pub start: usize,
    /// A byte offset in its last line.
    pub last: usize,
    /// Whether it consists of comments.
    pub is_comment: bool,
}

/// A span of a text, by byte offsets.
#[derive(Clone, Copy)]
pub struct TextSpan {
    pub start: usize,
    pub end: usize,
}

/// What a part of a text is: the root of a document, or an entry of a collection, by its value or its item.
#[derive(Clone, Copy)]
pub enum PartKind {
    Document,
    Mapping,
    Sequence,
    Scalar,
    Alias,
    Empty,
}

impl PartKind {
    /// Returns the number that the protocol gives a symbol of that kind (`SymbolKind`): a module, an object, an array,
    /// a string, a variable or null.
    pub fn number(self) -> u64
        ensures { result ≡ kind_number self }
    {
        match self {
            PartKind::Document => 2,
            PartKind::Mapping => 19,
            PartKind::Sequence => 18,
            PartKind::Scalar => 15,
            PartKind::Alias => 13,
            PartKind::Empty => 21,
        }
    }
}

/// A part of a text: an entry of a collection, or the root of a document.
#[derive(Clone, Copy)]
pub struct Part {
    /// How many parts it is in.
    pub depth: usize,
    pub kind: PartKind,
    pub whole: TextSpan,
    /// The part of it that names it, for example a key.
    pub name: TextSpan,
    /// Its value, or its item.
    pub node: TextSpan,
}

/// An analysis of documents: their formattings, their problems, and the parts of their texts.
pub trait Analysis {
    /// The claim about documents.
    ghost claim: { Self → TextClaim };

    /// Returns the formatting of the text of the document with a URI, or `None` if the document gets no formatting.
    ///
    /// # Errors
    ///
    /// `AllocError` if memory is refused.
    fn formatted(&self, alloc: Global, uri: &str, text: &str) -> Result<Option<String>, AllocError>
        ensures { IfOk result (λ new. (claim self.now).Formats uri.now text.now (option_map string_bytes new)) };

    /// Returns the text of a document with some lines formatted: those from the line of one byte offset to the line of
    /// another one. `None` if the document gets no formatting.
    ///
    /// # Errors
    ///
    /// `AllocError` if memory was refused.
    fn formatted_lines(
        &self,
        alloc: Global,
        uri: &str,
        text: &str,
        first: usize,
        last: usize,
    ) -> Result<Option<String>, AllocError>
        ensures { IfOk result (λ new.
            (claim self.now).FormatsLines uri.now text.now first last (option_map string_bytes new)) };

    /// Returns the problems of the text of a document, in order.
    ///
    /// # Errors
    ///
    /// `AllocError` if memory is refused.
    fn problems(&self, alloc: Global, uri: &str, text: &str) -> Result<Vec<Problem>, AllocError>
        ensures { IfOk result (λ problems.
            (claim self.now).Finds uri.now text.now (map problem_read problems.items)) };

    /// Returns the parts of a text that may be folded, or `None` if the text is not read.
    ///
    /// # Errors
    ///
    /// `AllocError` if memory is refused.
    fn foldable(&self, alloc: Global, text: &str) -> Result<Option<Vec<Foldable>>, AllocError>
        ensures { IfOk result (λ parts. (claim self.now).Folds text.now (option_map (λ v. v.items) parts)) };

    /// Returns the parts of a text, each one before the parts in it, or `None` if the text is not read.
    ///
    /// # Errors
    ///
    /// `AllocError` if memory is refused.
    fn outline(&self, alloc: Global, text: &str) -> Result<Option<Vec<Part>>, AllocError>
        ensures { IfOk result (λ parts. (claim self.now).Outlines text.now (option_map (λ v. v.items) parts)) };
}
