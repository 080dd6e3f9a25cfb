//! The reader of whole streams.
ghost use Rattle.std.specs.Prelude.{◌≡◌, ◌+◌, ◌-◌, ◌<◌, ◌≤◌, ◌^◌, [], length, Err, IfOk, IfSome, MatchOption};
ghost use Rattle.std.specs.Str.{IsCharBoundary};
ghost use Rattle.yf_events.specs.Reading.{ListsFit};
ghost use Rattle.yf_stream.specs.DerivedParts.{no_parts};
ghost use Rattle.yf_stream.specs.DerivedStreams.{ListsDerived, ShapeOr};
ghost use Rattle.yf_stream.specs.MadeReadings.{MadeOr, NoBreach};
ghost use Rattle.yf_stream.specs.StreamDrafts.{drafted, lists_of, nothing_drafted};
ghost use Rattle.yf_stream.specs.NotedLists.{FaultAt, ListsOrRefusal};
ghost use Rattle.yf_stream.specs.PartsPlaces.{PartsAt};
ghost use Rattle.yf_stream.specs.RefusalPlaces.{RefusalAt, offset_of};
ghost use Rattle.yf_stream.specs.StreamReader as StreamReader;

use crate::between::skip_prefix;
use crate::breaches::{Breach, BreachKind};
use crate::documents::{Parts, StreamContext, StreamCursor, StreamStep};
use crate::leaf_lines::on_leaf_lines;
use crate::resolve::{Resolved, resolve};
use std::alloc::{AllocError, Global};
use yf_diagnose::diagnose;
use yf_events::event::NewEvent;
use yf_events::lists::Lists;
use yf_events::part::Part;
pub use yf_events::reading::LONGEST;
use yf_events::reading::Reading;
use yf_events::tags::Tags;
use yf_events::values::Values;
use yf_lines::fault::Fault;
use yf_lines::place::Position;
use yf_lines::table::LineTable;

// Why a text is refused, with a byte offset.
#[derive(Clone, Copy)]
enum Refusal {
    Syntax(usize),
    TooDeep(usize),
    Breach(Breach),
}

// The reading in progress: the parts that have been read of a text, and the notes on them.
#[derive(Drop)]
struct Draft<'a> {
    parts: Parts<'a>,
    resolved: Resolved<'a>,
    on_leaf_line: Values<bool>,
}

/// Reads a whole stream (l-yaml-stream, production 211): its documents with their events, comments and offsets.
///
/// # Errors
///
/// Fails with `Fault::Syntax` if the text is no stream with at most `DEPTH` collections open at once. If such a text
/// has more than `DEPTH` openers, the fault may be `Fault::TooDeep`. Otherwise fails with the first in the text of: a
/// tag whose handle is not declared (`UnknownHandle`), an alias without an anchor of its name before it in its document
/// (`UnknownAlias`), a second YAML directive or a second TAG directive for one handle in a document
/// (`RepeatedDirective`), a major version other than 1 (`BadVersion`), an escape that is no character (`EscapeValue`).
/// Fails with `Fault::Memory` if memory is refused, and always if the text has more than `LONGEST` bytes
/// (`long`).
///
/// A reading that is returned is the only one of the text, and each fault has its cause (`reads`).
pub fn read_stream<'a>(alloc: Global, text: &'a str) -> Result<Reading<'a>, Fault>
    ensures reads { StreamReader.ReadsStream text.now result }
    ensures long { 2 ^ 30 < length text.now → result ≡ Err Fault.Memory }
{
    if text.len() > LONGEST {
        return Err(Fault::Memory);
    }
    let mut draft = Draft {
        parts: Parts::new(alloc),
        resolved: Resolved {
            tags: Tags::new(alloc),
            first: None,
        },
        on_leaf_line: Values::new(alloc),
    };
    match fill(alloc, text, &mut draft) {
        Ok(None) => Ok(Reading::of_stream(into_lists(draft))),
        Ok(Some(refusal)) => {
            drop(draft);
            Err(fault_at(alloc, text, refusal))
        }
        Err(AllocError) => {
            drop(draft);
            Err(Fault::Memory)
        }
    }
}

fn into_lists<'a>(draft: Draft<'a>) -> Lists<'a>
    ensures { result ≡ lists_of draft.entry }
{
    let Draft {
        parts: Parts {
            part: Part {
                events,
                comments,
                escapes,
            },
            documents,
        },
        resolved: Resolved { tags, .. },
        on_leaf_line,
    } = draft;
    Lists {
        events,
        resolved: tags,
        comments,
        on_leaf_line,
        documents,
        escapes,
    }
}

// Returns the fault of a refusal with its position, or `Fault::Memory`.
fn fault_at(alloc: Global, text: &str, refusal: Refusal) -> Fault
    requires { IsCharBoundary text.now (offset_of refusal) }
    ensures { FaultAt text.now refusal result }
{
    let Ok(table) = LineTable::build(alloc, text) else {
        return Fault::Memory;
    };
    match refusal {
        Refusal::Syntax(offset) => {
            let told = diagnose(text, offset);
            Fault::Syntax {
                place: table.place(told.at),
                what: told.why.words(),
            }
        }
        Refusal::TooDeep(offset) => Fault::TooDeep {
            place: table.place(offset),
        },
        Refusal::Breach(breach) => fault_of(breach, table.place(breach.offset)),
    }
}

// Returns the fault for a breach.
fn fault_of(breach: Breach, place: Position) -> Fault
    ensures { result ≡ StreamReader.fault_of breach.kind place }
{
    match breach.kind {
        BreachKind::UnknownHandle => Fault::UnknownHandle { place },
        BreachKind::UnknownAlias => Fault::UnknownAlias { place },
        BreachKind::RepeatedDirective => Fault::RepeatedDirective { place },
        BreachKind::BadVersion => Fault::BadVersion { place },
        BreachKind::EscapeValue => Fault::EscapeValue { place },
    }
}

// Fills the draft with the stream's reading, or returns why the text has none.
fn fill<'a>(
    alloc: Global,
    text: &'a str,
    draft: &mut Draft<'a>,
) -> Result<Option<Refusal>, AllocError>
    requires nothing { draft.old ≡ nothing_drafted }
    ensures made { IfOk result (λ o. MadeOr text.now (drafted draft.new o)) }
    ensures reads { length text.now ≤ 2 ^ 30 → IfOk result (λ o. ListsDerived text.now (drafted draft.new o)) }
    ensures refusal { IfOk result (λ o. MatchOption o (ListsFit (lists_of draft.new)) (λ refusal. RefusalAt text.now refusal)) }
{
    if let Some(refusal) = read_documents(alloc, text, &mut draft.parts)? {
        return Ok(Some(refusal));
    }
    note(alloc, text, draft)
}

// Resolves the tags of the parts and notes which comments are on the lines of leaves, or returns the first breach.
fn note<'a>(
    alloc: Global,
    text: &'a str,
    draft: &mut Draft<'a>,
) -> Result<Option<Refusal>, AllocError>
    requires parts { PartsAt text.now draft.old.parts }
    requires resolved { draft.old.resolved ≡ record { tags = []; first = None } }
    requires notes { draft.old.on_leaf_line ≡ [] }
    ensures noted { IfOk result (λ o. ListsOrRefusal text.now draft.old.parts (drafted draft.new o)) }
    ensures refusal { IfOk result (λ o. MatchOption o (ListsFit (lists_of draft.new)) (λ refusal. RefusalAt text.now refusal)) }
{
    let parts = &draft.parts;
    let part = &parts.part;
    resolve(
        alloc,
        &part.events,
        &parts.documents,
        &part.escapes,
        &mut draft.resolved,
    )?;
    match draft.resolved.first {
        Some(breach) => return Ok(Some(Refusal::Breach(breach))),
        None => {}
    }
    on_leaf_lines(text, &part.events, &part.comments, &mut draft.on_leaf_line)?;
    Ok(None)
}

// Reads all documents, or returns why the text is no stream.
fn read_documents<'a>(
    alloc: Global,
    text: &'a str,
    parts: &mut Parts<'a>,
) -> Result<Option<Refusal>, AllocError>
    requires nothing { parts.old ≡ no_parts }
    ensures refusal { IfOk result (λ o. IfSome o (λ refusal. RefusalAt text.now refusal)) }
    ensures underived { IfOk result (λ o. IfSome o (λ refusal. NoBreach refusal)) }
    ensures derived { length text.now ≤ 2 ^ 30 → IfOk result (λ o. ShapeOr text.now parts.new o) }
    ensures parts { IfOk result (λ _. PartsAt text.now parts.new) }
{
    parts.push_unplaced(alloc, NewEvent::StreamStart)?;
    let mut cursor = StreamCursor {
        at: 0,
        floor: 0,
        reached: 0,
        may_be_bare: true,
    };
    'documents: loop {
        cursor = skip_prefix(alloc, text, cursor, parts)?;
        if cursor.at == text.len() {
            parts.close(alloc, cursor, false)?;
            parts.push_unplaced(alloc, NewEvent::StreamEnd)?;
            return Ok(None);
        }
        match parts.read_next(StreamContext { alloc, text }, cursor)? {
            StreamStep::Go(next) => cursor = next,
            StreamStep::Syntax(offset) => return Ok(Some(Refusal::Syntax(offset))),
            StreamStep::TooDeep(offset) => return Ok(Some(Refusal::TooDeep(offset))),
        }
    }
}
