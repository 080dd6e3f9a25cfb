//! The open block collections, by the columns of their entries, and the column of a comment among them. Columns count
//! from 0.
ghost use Rattle.std.specs.Prelude.{◌≡◌, ◌≤◌, ◌<◌, ◌++◌, ◌∷◌, [], false, filter, length, nat_lt, reverse, take, true, IfOk, OnErr, OnOk};
ghost use Rattle.std.specs.List.{All};
ghost use Rattle.std.specs.List.Sorted.{IsNonDecreasingBy, IsPartitionPoint};
ghost use Rattle.yf_print.specs.Layouts.CommentColumns as Columns;
ghost use Rattle.yf_print.specs.Passes.Drafts.{after_blocks, begins_with};
ghost use Rattle.yf_print.specs.Passes.HeldBlocks as Held;

use std::alloc::{AllocError, Global};
use std::marker::Model;

/// A collection that is printed in block style.
#[derive(Clone, Copy)]
pub struct OpenBlock {
    /// The column of its first entry in the source, if only white space and the signs of entries precede the entry on
    /// its line.
    pub source: Option<usize>,
    /// The column of its printed entries.
    pub printed: usize,
    pub is_sequence: bool,
}

/// The open collections. Contracts see them as a list, the innermost first.
///
/// Here the innermost is the last. The entries of each are further right than those of the one around it, or it is a
/// sequence at the column of a mapping; and no source column is left of one around it. So a binary search finds both.
#[derive(Drop)]
pub struct OpenBlocks {
    all: Vec<OpenBlock>,
    /// The collections with a source column.
    sourced: Vec<OpenBlock>,
}

impl Model for OpenBlocks {
    ghost use Rattle.std.specs.Prelude.{List, reverse};
    ghost use Rattle.yf_print.specs.declared.open_blocks.OpenBlock.{OpenBlock};
    ghost use Rattle.yf_print.specs.Passes.HeldBlocks.{IsHeld};

    ghost Value = { List OpenBlock };

    ghost view = { λ a. reverse a.all.items };

    ghost invariant = { λ a. IsHeld a.all.items a.sourced.items };
}

impl OpenBlocks {
    pub(crate) fn new(alloc: Global) -> OpenBlocks
        ensures { result ≡ [] }
    {
        OpenBlocks {
            all: Vec::new(alloc),
            sourced: Vec::new(alloc),
        }
    }

    /// Ends all collections.
    pub(crate) fn clear(&mut self)
        ensures { self.new ≡ [] }
    {
        self.all.clear();
        self.sourced.clear();
    }

    /// Begins these entries.
    pub(crate) fn push_entries(&mut self, entries: &[OpenBlock]) -> Result<(), AllocError>
        ensures { OnOk result (self.new ≡ after_blocks entries.now self.old) }
    {
        for entry in entries {
            push_entry(&mut self.all, &mut self.sourced, *entry)?;
        }
        Ok(())
    }

    /// Returns the column of a comment from that source column, before a line that begins with these entries, or with a
    /// leaf if there are none.
    pub(crate) fn column_in(
        &self,
        indent: usize,
        may_be_further: bool,
        next: usize,
        column: usize,
        starts: &[OpenBlock],
        has_leaf: bool,
    ) -> Result<usize, AllocError>
        ensures { IfOk result (λ kept. kept ≡ Columns.column_in indent may_be_further next column (begins_with starts.now has_leaf) self.now) }
    {
        if starts.is_empty() {
            if has_leaf {
                return Ok(next);
            }
            return self.column_at_end(indent, may_be_further, next, column);
        }
        self.column_before_entry(indent, may_be_further, next, column, starts[0])
    }

    /// Returns the column of a comment before a document or at the end.
    fn column_at_end(
        &self,
        indent: usize,
        may_be_further: bool,
        next: usize,
        column: usize,
    ) -> Result<usize, AllocError>
        ensures { IfOk result (λ kept. kept ≡ Columns.column_among indent may_be_further next column self.now self.now) }
    {
        let left = column_left(indent, may_be_further, column, self.sourced.as_slice())?;
        Ok(self.column_or(column, left.unwrap_or(next)))
    }

    /// Returns the column of a comment before an entry of a collection.
    fn column_before_entry(
        &self,
        indent: usize,
        may_be_further: bool,
        next: usize,
        column: usize,
        entry: OpenBlock,
    ) -> Result<usize, AllocError>
        ensures { IfOk result (λ kept. kept ≡ Columns.column_in indent may_be_further next column (Columns.begins_entry entry) self.now) }
    {
        let count = left_open(entry, self.all.as_slice());
        if goes_on(entry, self.all.as_slice(), count) {
            return self.column_inward(indent, may_be_further, next, column, entry);
        }
        if is_source(column, entry.source) {
            return Ok(next);
        }
        Ok(self.column_or(column, next))
    }

    /// Returns the column of a comment before an entry of an open collection.
    fn column_inward(
        &self,
        indent: usize,
        may_be_further: bool,
        next: usize,
        column: usize,
        entry: OpenBlock,
    ) -> Result<usize, AllocError>
        requires { Columns.goes_on entry (Columns.not_ended entry self.now) ≡ true }
        ensures { IfOk result (λ kept. kept ≡ Columns.column_among indent may_be_further next column (Columns.inward_from entry self.now) self.now) }
    {
        let outer = left_outside(entry, self.sourced.as_slice());
        let inner = &self.sourced.as_slice()[outer..];
        let left = column_left(indent, may_be_further, column, inner)?;
        Ok(self.column_or(column, left.unwrap_or(next)))
    }

    /// Returns the printed column of the innermost collection with that source column; otherwise the margin, for a
    /// comment that was there; otherwise `other`.
    fn column_or(&self, column: usize, other: usize) -> usize
        ensures { result ≡ Columns.or_else (Columns.column_at column self.now) (Columns.at_margin column self.now other) }
    {
        match column_at(column, self.sourced.as_slice()) {
            Some(printed) => printed,
            None => margin_or(column, self.all.as_slice(), other),
        }
    }
}

/// Returns the margin for a comment that was there, if a collection is open; otherwise `other`.
fn margin_or(column: usize, all: &[OpenBlock], other: usize) -> usize
    ensures { result ≡ Columns.at_margin column (reverse all.now) other }
{
    if column == 0 {
        if !all.is_empty() {
            return 0;
        }
    }
    other
}

/// Returns whether that is the source column of a collection.
fn is_source(column: usize, source: Option<usize>) -> bool
    ensures { result ≡ Columns.is_source column source }
{
    match source {
        Some(source) => source == column,
        None => false,
    }
}

/// Returns whether an entry of a collection ends another one.
fn is_ended_by(entry: OpenBlock, block: OpenBlock) -> bool
    ensures { result ≡ Columns.is_ended_by entry block }
{
    if entry.printed < block.printed {
        return true;
    }
    if entry.printed == block.printed {
        if block.is_sequence {
            return !entry.is_sequence;
        }
    }
    false
}

/// Returns the number of collections that an entry doesn't end.
fn left_open(entry: OpenBlock, blocks: &[OpenBlock]) -> usize
    requires { IsNonDecreasingBy Held.rank blocks.now }
    ensures within { result ≤ length blocks.now }
    ensures parts { IsPartitionPoint (λ b. Columns.is_ended_by entry b ≡ false) (λ b. Columns.is_ended_by entry b ≡ true) blocks.now result }
{
    blocks.partition_point(|block| !is_ended_by(entry, *block))
}

/// Returns the number of collections around an entry, without its own.
fn left_outside(entry: OpenBlock, blocks: &[OpenBlock]) -> usize
    requires { IsNonDecreasingBy Held.rank blocks.now }
    ensures within { result ≤ length blocks.now }
    ensures parts { IsPartitionPoint (λ b. Columns.is_ended_by b entry ≡ true) (λ b. Columns.is_ended_by b entry ≡ false) blocks.now result }
{
    blocks.partition_point(|block| is_ended_by(*block, entry))
}

/// Returns whether a collection is the innermost of the first `count`.
fn goes_on(entry: OpenBlock, blocks: &[OpenBlock], count: usize) -> bool
    requires { count ≤ length blocks.now }
    ensures { result ≡ Columns.goes_on entry (reverse (take count blocks.now)) }
{
    if count == 0 {
        return false;
    }
    let block = blocks[count - 1];
    block.printed == entry.printed && block.is_sequence == entry.is_sequence
}

/// Begins an entry.
fn push_entry(
    all: &mut Vec<OpenBlock>,
    sourced: &mut Vec<OpenBlock>,
    entry: OpenBlock,
) -> Result<(), AllocError>
    requires { Held.IsHeld all.old.items sourced.old.items }
    ensures held { Held.IsHeld all.new.items sourced.new.items }
    ensures opens { OnOk result (reverse all.new.items ≡ Columns.open_after entry (reverse all.old.items)) }
{
    if end_blocks(all, sourced, entry) {
        return Ok(());
    }
    push_block(all, sourced, placed_in(entry, sourced.as_slice()))
}

/// Ends the collections that an entry ends. Returns whether the entry's collection is the innermost of the others.
fn end_blocks(all: &mut Vec<OpenBlock>, sourced: &mut Vec<OpenBlock>, entry: OpenBlock) -> bool
    requires { Held.IsHeld all.old.items sourced.old.items }
    ensures held { Held.IsHeld all.new.items sourced.new.items }
    ensures left { reverse all.new.items ≡ Columns.not_ended entry (reverse all.old.items) }
    ensures known { result ≡ Columns.goes_on entry (reverse all.new.items) }
    ensures around { All (λ b. Columns.is_ended_by entry b ≡ false) all.new.items }
{
    let count = left_open(entry, all.as_slice());
    let sources = left_open(entry, sourced.as_slice());
    let is_known = goes_on(entry, all.as_slice(), count);
    all.truncate(count);
    sourced.truncate(sources);
    is_known
}

/// Returns an entry's collection within others. It keeps its source column if that isn't left of one of theirs.
fn placed_in(entry: OpenBlock, sourced: &[OpenBlock]) -> OpenBlock
    requires { Held.IsSourced sourced.now }
    ensures { result ≡ Columns.placed_in entry (reverse sourced.now) }
{
    if sourced.is_empty() {
        return entry;
    }
    let Some(own) = entry.source else {
        return entry;
    };
    if own < source_of(sourced[sourced.len() - 1]) {
        return OpenBlock {
            source: None,
            printed: entry.printed,
            is_sequence: entry.is_sequence,
        };
    }
    entry
}

/// Adds a collection within all others, or changes nothing if memory is refused.
fn push_block(
    all: &mut Vec<OpenBlock>,
    sourced: &mut Vec<OpenBlock>,
    block: OpenBlock,
) -> Result<(), AllocError>
    ensures pushed { OnOk result ((all.new.items ≡ all.old.items ++ block ∷ []) × (sourced.new.items ≡ sourced.old.items ++ filter Held.has_source (block ∷ []))) }
    ensures kept { OnErr result ((all.new.items ≡ all.old.items) × (sourced.new.items ≡ sourced.old.items)) }
{
    all.reserve(1)?;
    push_sourced(sourced, block)?;
    all.push(block)?;
    Ok(())
}

/// Adds a collection if it has a source column.
fn push_sourced(sourced: &mut Vec<OpenBlock>, block: OpenBlock) -> Result<(), AllocError>
    ensures pushed { OnOk result (sourced.new.items ≡ sourced.old.items ++ filter Held.has_source (block ∷ [])) }
    ensures kept { OnErr result (sourced.new.items ≡ sourced.old.items) }
{
    if block.source.is_none() {
        return Ok(());
    }
    sourced.push(block)?;
    Ok(())
}

/// Returns the source column of a collection, or 0.
fn source_of(block: OpenBlock) -> usize
    ensures { result ≡ Held.source_of block }
{
    match block.source {
        Some(source) => source,
        None => 0,
    }
}

/// Returns the printed column of the innermost collection with that source column.
fn column_at(column: usize, blocks: &[OpenBlock]) -> Option<usize>
    requires { Held.IsSourced blocks.now }
    ensures { result ≡ Columns.column_at column (reverse blocks.now) }
{
    let count = blocks.partition_point(|block| source_of(*block) <= column);
    if count == 0 {
        return None;
    }
    let block = blocks[count - 1];
    if source_of(block) == column {
        return Some(block.printed);
    }
    None
}

/// Returns a column one indentation further in, if `may_be`.
fn further_in(indent: usize, may_be: bool, column: usize) -> Result<usize, AllocError>
    ensures { IfOk result (λ further. further ≡ Columns.further_in indent may_be column) }
{
    if !may_be {
        return Ok(column);
    }
    match column.checked_add(indent) {
        Some(further) => Ok(further),
        None => Err(AllocError),
    }
}

/// Returns the printed column of the innermost collection with a source column left of that column.
fn column_left(
    indent: usize,
    may_be_further: bool,
    column: usize,
    blocks: &[OpenBlock],
) -> Result<Option<usize>, AllocError>
    requires { Held.IsSourced blocks.now }
    ensures { IfOk result (λ left. left ≡ Columns.column_left indent may_be_further column (reverse blocks.now)) }
{
    let count = blocks.partition_point(|block| source_of(*block) < column);
    if count == 0 {
        return Ok(None);
    }
    let block = blocks[count - 1];
    if count < blocks.len() {
        return Ok(Some(block.printed));
    }
    let further = further_in(indent, may_be_further, block.printed)?;
    Ok(Some(further))
}
