//! The open documents of a server.
ghost use Rattle.std.specs.Prelude.{◌≡◌, [], None, Some, IfOk, IsErrOf, MatchBool, MatchOption, OnErr, OnOk, int_lt, option_map, string_bytes};
ghost use Rattle.yf_positions.specs.Changes.{all_changed};
ghost use Rattle.yf_server.specs.Documents.{IsFirst, FollowsEvent, StaysAt, Updates, act_read, change_outcome, changed_by, close_outcome, event_read, find, is_done, outcome_of, start_of, text_after, text_of, text_outcome, without_text};

use std::alloc::{AllocError, Global};
use yf_positions::change::{ChangeError, ContentChange};
use yf_positions::document::Document;
use yf_positions::encoding::Encoding;

/// A document that a client has open.
#[derive(Drop)]
pub struct OpenDocument {
    /// The name of the document, which the client gives.
    pub uri: String,
    /// The version, which the client makes higher with each change.
    pub version: i64,
    /// The text; `None` if it is lost: the client's text is another one than the server had.
    pub document: Option<Document>,
}

/// An action of a client on a document.
#[derive(Drop)]
pub enum DocumentAct<'v> {
    /// It opens the document (`textDocument/didOpen`).
    Open {
        version: i64,
        text: &'v str,
    },
    /// It changes the document (`textDocument/didChange`).
    Change {
        version: i64,
        changes: Vec<ContentChange<'v>>,
    },
    /// It closes the document (`textDocument/didClose`).
    Close,
}

/// An action of a client on the document with a URI.
#[derive(Drop)]
pub struct DocumentEvent<'v> {
    pub uri: &'v str,
    pub act: DocumentAct<'v>,
}

/// The result of an event.
#[derive(Clone, Copy)]
pub enum Outcome {
    /// The document was opened, changed or closed.
    Done,
    /// No document with this URI is open.
    NotOpen,
    /// The version is not higher than the one before.
    OldVersion,
    /// The range of a change ends before it starts.
    ReversedRange,
    /// The text is lost, and the first change is not of the whole text.
    Lost,
}

/// Why a text is not changed.
#[derive(Clone, Copy)]
enum Unchanged {
    /// Memory was refused.
    Memory,
    /// The range of a change ends before it starts.
    ReversedRange,
    /// The text is lost, and the first change is not of the whole text.
    Lost,
}

/// Returns the index of the first document with a URI.
pub fn place_of(documents: &[OpenDocument], uri: &str) -> Option<usize>
    ensures { MatchOption result (find uri.now documents.now ≡ None) (IsFirst documents.now uri.now) }
{
    let mut at = 0;
    while at < documents.len() {
        let document = &documents[at];
        if uri == document.uri.as_str() {
            return Some(at);
        }
        at += 1;
    }
    None
}

/// Adds a document, or puts it in the place of the document with its URI.
fn put(documents: &mut Vec<OpenDocument>, document: OpenDocument) -> Result<(), AllocError>
    ensures done { OnOk result (Updates documents.old.items documents.new.items (string_bytes document.uri)
        (Some (text_of document))) }
    ensures kept { OnErr result (documents.new.items ≡ documents.old.items) }
{
    match place_of(documents.as_slice(), document.uri.as_str()) {
        None => {
            documents.push(document)?;
            Ok(())
        }
        Some(at) => {
            documents[at] = document;
            Ok(())
        }
    }
}

/// Removes the documents with a URI.
fn withdraw(documents: &mut Vec<OpenDocument>, uri: &str)
    ensures { Updates documents.old.items documents.new.items uri.now None }
{
    'places: loop {
        match place_of(documents.as_slice(), uri) {
            None => return,
            Some(at) => {
                documents.remove(at);
            }
        }
    }
}

/// Returns whether a version is higher than that of a document.
fn is_newer(was: &OpenDocument, version: i64) -> bool
    ensures { result ≡ int_lt was.now.version version }
{
    was.version < version
}

/// Returns a document after changes.
fn after_changes(
    alloc: Global,
    was: &Document,
    changes: &[ContentChange<'_>],
    encoding: Encoding,
) -> Result<Document, Unchanged>
    ensures done { IfOk result (λ document. all_changed encoding was.now changes.now ≡ Some document) }
    ensures reversed { IsErrOf result Unchanged.ReversedRange → all_changed encoding was.now changes.now ≡ None }
    ensures known { IsErrOf result Unchanged.Lost → ⊥ }
{
    match was.after_changes(alloc, changes, encoding) {
        Ok(document) => Ok(document),
        Err(ChangeError::ReversedRange) => Err(Unchanged::ReversedRange),
        Err(ChangeError::Memory) => Err(Unchanged::Memory),
    }
}

/// Returns whether the first change is of the whole text.
fn is_whole(changes: &[ContentChange<'_>]) -> bool
    ensures { MatchBool result (start_of None changes.now ≡ Some []) (start_of None changes.now ≡ None) }
{
    if changes.is_empty() {
        return false;
    }
    let first = &changes[0];
    match first.range {
        None => true,
        Some(_) => false,
    }
}

/// Returns the document that changes lead to.
fn changed(
    alloc: Global,
    was: &Option<Document>,
    changes: &[ContentChange<'_>],
    encoding: Encoding,
) -> Result<Document, Unchanged>
    ensures done { IfOk result (λ document. (text_after encoding was.now changes.now ≡ Some document)
        × (text_outcome encoding changes.now (start_of was.now changes.now) ≡ Outcome.Done)) }
    ensures reversed { IsErrOf result Unchanged.ReversedRange → (text_after encoding was.now changes.now ≡ None)
        × (text_outcome encoding changes.now (start_of was.now changes.now) ≡ Outcome.ReversedRange) }
    ensures lost { IsErrOf result Unchanged.Lost → (text_after encoding was.now changes.now ≡ None)
        × (text_outcome encoding changes.now (start_of was.now changes.now) ≡ Outcome.Lost) }
{
    match was {
        Some(document) => after_changes(alloc, document, changes, encoding),
        None => {
            if !is_whole(changes) {
                return Err(Unchanged::Lost);
            }
            let Ok(empty) = Document::new(alloc, String::new(alloc)) else {
                return Err(Unchanged::Memory);
            };
            after_changes(alloc, &empty, changes, encoding)
        }
    }
}

/// Changes a document, if it is open and the version is higher than the one before.
fn change(
    alloc: Global,
    documents: &mut Vec<OpenDocument>,
    uri: &str,
    version: i64,
    changes: &[ContentChange<'_>],
    encoding: Encoding,
) -> Result<Outcome, AllocError>
    ensures done { OnOk result (Updates documents.old.items documents.new.items uri.now
        (changed_by encoding (find uri.now documents.old.items) version changes.now)) }
    ensures outcome { IfOk result (λ outcome. outcome ≡
        change_outcome encoding (find uri.now documents.old.items) version changes.now) }
    ensures same { IfOk result (λ outcome. StaysAt outcome documents.old.items documents.new.items) }
    ensures kept { OnErr result (documents.new.items ≡ documents.old.items) }
{
    let at = match place_of(documents.as_slice(), uri) {
        None => return Ok(Outcome::NotOpen),
        Some(at) => at,
    };
    let was = &documents[at];
    if !is_newer(was, version) {
        return Ok(Outcome::OldVersion);
    }
    let document = match changed(alloc, &was.document, changes, encoding) {
        Ok(document) => document,
        Err(Unchanged::ReversedRange) => return Ok(Outcome::ReversedRange),
        Err(Unchanged::Lost) => return Ok(Outcome::Lost),
        Err(Unchanged::Memory) => return Err(AllocError),
    };
    let uri = String::from_str(alloc, uri)?;
    documents[at] = OpenDocument {
        uri,
        version,
        document: Some(document),
    };
    Ok(Outcome::Done)
}

/// Closes a document.
fn close(documents: &mut Vec<OpenDocument>, uri: &str) -> Outcome
    ensures done { Updates documents.old.items documents.new.items uri.now None }
    ensures outcome { result ≡ close_outcome (find uri.now documents.old.items) }
    ensures same { StaysAt result documents.old.items documents.new.items }
{
    match place_of(documents.as_slice(), uri) {
        None => Outcome::NotOpen,
        Some(_) => {
            withdraw(documents, uri);
            Outcome::Done
        }
    }
}

/// Returns whether all was done.
pub fn is_done(outcome: Outcome) -> bool
    ensures { result ≡ is_done outcome }
{
    match outcome {
        Outcome::Done => true,
        Outcome::NotOpen => false,
        Outcome::OldVersion => false,
        Outcome::ReversedRange => false,
        Outcome::Lost => false,
    }
}

/// Drops the text of a document.
pub fn lose(documents: &mut Vec<OpenDocument>, uri: &str)
    ensures { Updates documents.old.items documents.new.items uri.now
        (option_map without_text (find uri.now documents.old.items)) }
{
    match place_of(documents.as_slice(), uri) {
        None => {}
        Some(at) => documents[at].document = None,
    }
}

/// Opens a document, also if it is open.
fn open(
    alloc: Global,
    documents: &mut Vec<OpenDocument>,
    uri: &str,
    version: i64,
    text: &str,
) -> Result<(), AllocError>
    ensures done { OnOk result (Updates documents.old.items documents.new.items uri.now
        (Some (record { version = version; text = Some text.now }))) }
    ensures kept { OnErr result (documents.new.items ≡ documents.old.items) }
{
    let text = String::from_str(alloc, text)?;
    let document = Document::new(alloc, text)?;
    let uri = String::from_str(alloc, uri)?;
    put(
        documents,
        OpenDocument {
            uri,
            version,
            document: Some(document),
        },
    )
}

/// Handles a client's event for a document, and returns the result.
///
/// A document that is opened while it is open gets the new version and text. A document that cannot be changed stays as
/// it was. If its text is lost, only changes that begin with one of the whole text change it.
///
/// # Errors
///
/// `AllocError` if memory is refused; every document is then unchanged.
pub fn act(
    alloc: Global,
    documents: &mut Vec<OpenDocument>,
    event: &DocumentEvent<'_>,
    encoding: Encoding,
) -> Result<Outcome, AllocError>
    ensures done { OnOk result (FollowsEvent encoding documents.old.items documents.new.items (event_read event.now)) }
    ensures outcome { IfOk result (λ outcome. outcome ≡
        outcome_of encoding (find event.now.uri.now documents.old.items) (act_read event.now.act)) }
    ensures same { IfOk result (λ outcome. StaysAt outcome documents.old.items documents.new.items) }
    ensures kept { OnErr result (documents.new.items ≡ documents.old.items) }
{
    match &event.act {
        DocumentAct::Open { version, text } => {
            open(alloc, documents, event.uri, *version, text)?;
            Ok(Outcome::Done)
        }
        DocumentAct::Change { version, changes } => {
            change(
                alloc,
                documents,
                event.uri,
                *version,
                changes.as_slice(),
                encoding,
            )
        }
        DocumentAct::Close => Ok(close(documents, event.uri)),
    }
}
