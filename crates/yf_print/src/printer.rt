//! The context of the printer, its frames, and how it prints documents, entries, and the start of block collections.
//! Columns count from 0.
ghost use Rattle.std.specs.Prelude.{◌<◌, ◌≡◌, ◌++◌, ◌∷◌, ◌==◌, false, length, map, not, reverse, slice_get, OnOk, IfOk};
ghost use Rattle.std.specs.String.{string_bytes};
ghost use Rattle.yf_print.specs.Passes.Drafts.{draft};
ghost use Rattle.yf_print.specs.Passes.PrintPass as Printing;
ghost use Rattle.yf_print.specs.Passes.Pages.{form_at, placed_at, work_on};
ghost use Rattle.yf_print.specs.Passes.PrintPass.{level_of, frames_after, marked, sign, space_text};
ghost use Rattle.yf_print.specs.Layouts.Rows.{joined_words};
ghost use Rattle.yf_events.specs.Event.{props_of};

use crate::bare::is_bare;
use crate::looks::{entry_at, has_props_at, push_props_if};
use crate::output::Output;
use crate::trails::Trails;
use std::alloc::{AllocError, Global};
use yf_events::directive::Directive;
use yf_events::document::Doc;
use yf_events::event::Entry;
use yf_events::reading::Reading;
use yf_forms::form::forms::Forms;
use yf_forms::form::measures::Measures;
use yf_forms::style::Style;
use yf_forms::text::block::push_spaces;

/// The decisions on a reading before it is printed.
#[derive(Drop)]
pub struct Plan {
    pub measures: Measures,
    pub forms: Forms,
    pub trails: Trails,
    pub style: Style,
}

/// The reading to print, the plan for it, and the allocator.
#[derive(Clone, Copy)]
pub struct PrintContext<'r, 'a> {
    pub alloc: Global,
    /// The source.
    pub text: &'r str,
    pub reading: &'r Reading<'a>,
    pub plan: &'r Plan,
}

/// What a block collection awaits.
#[derive(Clone, Copy)]
pub enum FrameState {
    /// An item.
    Item,
    /// A key, or the end.
    Key,
    /// The value of a key without `?`.
    Value,
    /// The value of a key with `?`, with the entry that the key begins.
    ExplicitValue(Option<Entry>),
}

/// An open block collection.
#[derive(Clone, Copy)]
pub struct PrintFrame {
    /// The column of its entries.
    pub column: usize,
    pub awaited: FrameState,
    /// Whether its first entry goes on the current line.
    pub is_inline: bool,
}

/// The role of a node. The current line holds the text before the node.
#[derive(Clone, Copy)]
pub enum Role {
    /// The root of a document, on a line of its own.
    Root,
    /// After the `-`, the `?` or the explicit `:` of an entry at that column.
    After(usize),
    /// A key without `?`.
    Key,
    /// After the `:` of a key without `?`, in an entry at that column.
    Value(usize),
}

/// Appends a space if one is needed.
fn push_space_if(out: &mut String, is_needed: bool) -> Result<(), AllocError>
    ensures { OnOk result (string_bytes out.new ≡ string_bytes out.old ++ space_text is_needed) }
{
    if is_needed {
        return out.push(' ');
    }
    Ok(())
}

/// Appends words, with one space between them.
fn push_words(out: &mut String, words: &[&str]) -> Result<(), AllocError>
    ensures { OnOk result (string_bytes out.new ≡ string_bytes out.old ++ joined_words (map (λ word. word.now) words.now)) }
{
    let mut is_after = false;
    for word in words {
        push_space_if(out, is_after)?;
        out.push_str(word)?;
        is_after = true;
    }
    Ok(())
}

/// Prints directives, each on a line of its own.
fn push_directives(
    output: &mut Output,
    page: &PrintContext,
    directives: &[Directive],
) -> Result<(), AllocError>
    ensures { OnOk result (draft output.new ≡ Printing.directive_lines (work_on page.now) directives.now (draft output.old)) }
{
    for directive in directives {
        output.line.push('%')?;
        push_words(&mut output.line, directive.words.as_slice())?;
        output.open_line(page, 0)?;
    }
    Ok(())
}

/// Prints the directives of a document, after a `...` unless the document is the first. Prints nothing if it has none.
fn push_document_directives(
    output: &mut Output,
    page: &PrintContext,
    is_first: bool,
    directives: &[Directive],
) -> Result<(), AllocError>
    ensures { OnOk result (draft output.new ≡ Printing.directives (work_on page.now) is_first directives.now (draft output.old)) }
{
    if directives.is_empty() {
        return Ok(());
    }
    if !is_first {
        output.line.push_str("...")?;
        output.open_line(page, 0)?;
    }
    push_directives(output, page, directives)
}

/// Prints the directives of a document, on a line that was begun, but not its `---`.
fn begin_document(
    output: &mut Output,
    page: &PrintContext,
    is_first: bool,
    document: &Doc,
) -> Result<(), AllocError>
    ensures { OnOk result (draft output.new ≡ Printing.document_begun (work_on page.now) is_first document.now
        (draft output.old)) }
{
    output.meet(page.reading, document.start);
    push_document_directives(output, page, is_first, document.directives.as_slice())
}

fn push_document_mark(output: &mut Output) -> Result<(), AllocError>
    ensures { OnOk result (draft output.new ≡ marked (draft output.old)) }
{
    output.line.push_str("---")?;
    output.forbid_blank();
    Ok(())
}

/// Begins an entry, on a line of its own unless it is the first one of an inline collection.
fn begin_entry(
    output: &mut Output,
    page: &PrintContext,
    is_inline: bool,
    column: usize,
    is_item: bool,
    entry: Option<Entry>,
) -> Result<(), AllocError>
    ensures { OnOk result (draft output.new ≡ Printing.entry_begun (work_on page.now) is_inline column is_item entry (draft output.old)) }
{
    if !is_inline {
        output.open_line(page, column)?;
    }
    output.mark_start(page, column, is_item, entry)?;
    if let Some(entry) = entry {
        if !is_inline {
            output.set_blank_before(entry.blank_before);
        }
        output.meet(page.reading, entry.start);
    }
    Ok(())
}

/// Begins the value of a key with `?`. `entry` is the one that the key began.
fn begin_explicit_value(
    output: &mut Output,
    page: &PrintContext,
    column: usize,
    entry: Option<Entry>,
) -> Result<(), AllocError>
    ensures { OnOk result (draft output.new ≡ Printing.with_colon (work_on page.now) column entry (draft output.old)) }
{
    output.open_line(page, column)?;
    output.mark_start(page, column, false, entry)?;
    if let Some(offset) = colon_of(entry) {
        output.meet(page.reading, offset);
    }
    output.line.push(':')
}

/// Returns the byte offset of the `:` after a key.
fn colon_of(entry: Option<Entry>) -> Option<usize>
    ensures { result ≡ Printing.colon_of entry }
{
    match entry {
        Some(entry) => entry.colon,
        None => None,
    }
}

/// Prints the sign before the next node of a block collection, updates the frame, and returns the node's role. The
/// entry of the event at an index is looked up only for an item or a key.
#[inline(always)]
fn next_role(
    output: &mut Output,
    level: &mut PrintFrame,
    page: &PrintContext,
    i: usize,
) -> Result<Role, AllocError>
    requires { i < length page.now.reading.now.events }
    ensures role { IfOk result (λ role. role ≡ Printing.role_in (form_at page.now i) level.old.column level.old.awaited) }
    ensures printed { OnOk result (draft output.new ≡ Printing.sign_in (work_on page.now) (form_at page.now i)
        (placed_at page.now i).entry level.old.is_inline level.old.column level.old.awaited (draft output.old)) }
    ensures level { OnOk result (level.new ≡ record {
      column = level.old.column;
      awaited = Printing.awaited_after (form_at page.now i) (placed_at page.now i).entry level.old.awaited;
      is_inline = false;
    }) }
{
    let column = level.column;
    let is_inline = level.is_inline;
    level.is_inline = false;
    match level.awaited {
        FrameState::Item => {
            begin_entry(output, page, is_inline, column, true, entry_at(page, i))?;
            output.line.push('-')?;
            Ok(Role::After(column))
        }
        FrameState::Key => {
            let entry = entry_at(page, i);
            begin_entry(output, page, is_inline, column, false, entry)?;
            if page.plan.forms.at(i).is_implicit {
                level.awaited = FrameState::Value;
                return Ok(Role::Key);
            }
            level.awaited = FrameState::ExplicitValue(entry);
            output.line.push('?')?;
            Ok(Role::After(column))
        }
        FrameState::Value => {
            level.awaited = FrameState::Key;
            Ok(Role::Value(column))
        }
        FrameState::ExplicitValue(key) => {
            level.awaited = FrameState::Key;
            begin_explicit_value(output, page, column, key)?;
            Ok(Role::After(column))
        }
    }
}

/// Prints the sign before the node that the event at an index begins, and returns the node's role.
#[inline(always)]
pub(crate) fn node_role(
    output: &mut Output,
    levels: &mut Vec<PrintFrame>,
    page: &PrintContext,
    i: usize,
) -> Result<Role, AllocError>
    requires { i < length page.now.reading.now.events }
    ensures role { IfOk result (λ role. role ≡ Printing.role (form_at page.now i) (reverse levels.old.items)) }
    ensures printed { OnOk result (draft output.new ≡ sign (work_on page.now) (form_at page.now i) (placed_at page.now i).entry
        (reverse levels.old.items) (draft output.old)) }
    ensures levels { OnOk result (reverse levels.new.items ≡ frames_after (form_at page.now i) (placed_at page.now i).entry
        (reverse levels.old.items)) }
{
    let count = levels.len();
    if count > 0 {
        return next_role(output, &mut levels[count - 1], page, i);
    }
    Ok(Role::Root)
}

/// Prints the separation before the properties of a block collection, or before its entries if it has none.
fn before_collection(
    output: &mut Output,
    page: &PrintContext,
    has_props: bool,
    role: Role,
) -> Result<(), AllocError>
    ensures { OnOk result (draft output.new ≡ Printing.before_collection (work_on page.now) has_props role (draft output.old)) }
{
    match role {
        Role::Root => {
            if has_props {
                output.open_line(page, 0)?;
                output.forbid_blank();
            }
            Ok(())
        }
        Role::After(_) => {
            push_spaces(&mut output.line, page.plan.style.indent.saturating_sub(1))?;
            if has_props {
                output.forbid_blank();
            }
            Ok(())
        }
        Role::Key | Role::Value(_) => {
            if has_props {
                output.line.push(' ')?;
            }
            output.forbid_blank();
            Ok(())
        }
    }
}

/// Prints the properties of a block collection, and begins it.
#[inline(always)]
pub(crate) fn begin_collection(
    output: &mut Output,
    levels: &mut Vec<PrintFrame>,
    page: &PrintContext,
    i: usize,
    role: Role,
    first: FrameState,
) -> Result<(), AllocError>
    requires { i < length page.now.reading.now.events }
    ensures printed { OnOk result (draft output.new ≡ Printing.collection_begun (work_on page.now)
        (props_of (placed_at page.now i).event) role (draft output.old)) }
    ensures levels { OnOk result (reverse levels.new.items ≡ level_of (form_at page.now i)
        (Printing.has_props (props_of (placed_at page.now i).event)) first role ∷ reverse levels.old.items) }
{
    let with_props = has_props_at(page, i);
    before_collection(output, page, with_props, role)?;
    push_props_if(&mut output.line, page, i, with_props)?;
    levels.push(PrintFrame {
        column: page.plan.forms.at(i).column,
        awaited: first,
        is_inline: !with_props && matches!(role, Role::After(_)),
    })?;
    Ok(())
}

/// Begins the next document, and returns how many have begun.
pub(crate) fn next_document(
    output: &mut Output,
    page: &PrintContext,
    documents: usize,
) -> Result<usize, AllocError>
    ensures printed { OnOk result (draft output.new ≡ Printing.document_printed (work_on page.now) documents
        (slice_get page.now.reading.now.documents documents) (draft output.old)) }
    ensures documents { IfOk result (λ next. next ≡ Printing.documents_after documents (slice_get page.now.reading.now.documents documents)) }
{
    let list = page.reading.documents();
    if documents < list.len() {
        let document = &list[documents];
        if documents == 0 && is_bare(page.reading, &page.plan.style) {
            output.meet(page.reading, document.start);
            return Ok(1);
        }
        output.open_line(page, 0)?;
        begin_document(output, page, documents == 0, document)?;
        push_document_mark(output)?;
        return Ok(documents + 1);
    }
    output.open_line(page, 0)?;
    push_document_mark(output)?;
    Ok(documents)
}
