//! Lists of events.
ghost use Rattle.std.specs.Prelude.{◌≡◌, ℕ, ◌<◌, ◌≤◌, [], ◌∷◌, ◌++◌, drop, take, length, map, slice_get, if◌then◌else◌, is_ok, IfSome};

use crate::event::{Entry, Event, PlacedEvent, ScalarStyle, Span, View};
use crate::packed::{
    More, PackedEvent, Shape, entry_of, event_of, folded_of, keyed, more_in, naming_from, shift,
    span_of, tag_of, view_of,
};
use crate::packing::{narrow_entry, row_of, scalar_row};
use crate::relined::{formed, is_folded, relined};
use std::alloc::{AllocError, Global};
use std::marker::Model;
use yf_lines::packed_lines::narrow;
use yf_props::props::Tag;

/// Events in order. In a contract it is the list of their values.
#[derive(Drop)]
pub struct Events<'a> {
    rows: Vec<PackedEvent<'a>>,
    more: Vec<More<'a>>,
}

impl<'a> Model for Events<'a> {
    ghost use Rattle.std.specs.Prelude.{List, map};
    ghost use Rattle.yf_events.specs.Event.{EventInText};
    ghost use Rattle.yf_events.specs.Packed.{RowsFit, row_value};

    ghost Value = { List EventInText };

    ghost view = { λ e. map (row_value e.more.items) e.rows.items };

    ghost invariant = { λ e. RowsFit e.more.items e.rows.items };
}

impl<'a> Events<'a> {
    ghost use Rattle.yf_events.specs.BareScalar.{bare_scalar};
    ghost use Rattle.yf_events.specs.Edit.{edited, ended, coloned};
    ghost use Rattle.yf_events.specs.EventForms.{formed};
    ghost use Rattle.yf_events.specs.Packed.{shape_value};
    ghost use Rattle.yf_events.specs.NamelessEvents.{NothingAt};
    ghost use Rattle.yf_events.specs.Tags.{written_tag};
    ghost use Rattle.yf_props.specs.Props.{no_props, optional_tag_value};
    ghost use Rattle.yf_events.specs.Event.{event_value, placed_value, view_value, with_entry};

    pub fn new(alloc: Global) -> Events<'a>
        ensures { result ≡ [] }
    {
        Events {
            rows: Vec::new(alloc),
            more: Vec::new(alloc),
        }
    }

    /// Adds an event at the end.
    #[inline(always)]
    pub fn push(&mut self, event: PlacedEvent<'a>) -> Result<(), AllocError>
        ensures { self.new ≡ (if is_ok result then self.old ++ placed_value event.entry ∷ [] else self.old) }
    {
        let row = row_of(&mut self.more, event)?;
        self.rows.push(row)?;
        Ok(())
    }

    /// Adds a scalar without properties at the end, with its span and the entry that it begins. Its text is a slice
    /// of the source.
    #[inline(always)]
    pub fn push_scalar(
        &mut self,
        style: ScalarStyle,
        text: &'a str,
        start: usize,
        end: usize,
        entry: Option<Entry>,
    ) -> Result<(), AllocError>
        ensures { self.new ≡ (if is_ok result then self.old ++ bare_scalar style text.now start end entry ∷ [] else self.old) }
    {
        let row = scalar_row(style, text, start, end, entry)?;
        self.rows.push(row)?;
        Ok(())
    }

    #[inline(always)]
    pub fn len(&self) -> usize
        ensures { result ≡ length self.now }
    {
        self.rows.len()
    }

    /// Returns the event at an index, with its offsets.
    #[inline(always)]
    pub fn at(&self, i: usize) -> View<'_>
        requires { i < length self.now }
        ensures { slice_get self.now i ≡ Some (view_value result) }
    {
        let row = &self.rows[i];
        view_of(row, more_in(self.more.as_slice(), row.more))
    }

    /// Returns the event at an index.
    #[inline(always)]
    pub fn event(&self, i: usize) -> Event<'_>
        requires { i < length self.now }
        ensures { slice_get (map (λ e. e.event) self.now) i ≡ Some (event_value result) }
    {
        let row = &self.rows[i];
        event_of(row, more_in(self.more.as_slice(), row.more))
    }

    /// Returns the kind of the event at an index and its text, if the table has nothing of it.
    #[inline(always)]
    pub(crate) fn alone(&self, i: usize) -> Option<(Shape, &str)>
        requires { i < length self.now }
        ensures { IfSome result (λ a. slice_get (map (λ e. e.event) self.now) i ≡ Some (shape_value a.0 no_props a.1.now)) }
    {
        let row = &self.rows[i];
        if row.more == 0 {
            return Some((row.shape, row.text));
        }
        None
    }

    /// Returns the event at an index, if the table has nothing of it: it begins no node with properties, and its text
    /// is a slice of the source.
    #[inline(always)]
    pub fn bare_event(&self, i: usize) -> Option<Event<'_>>
        requires { i < length self.now }
        ensures { IfSome result (λ e. slice_get (map (λ e. e.event) self.now) i ≡ Some (event_value e)) }
    {
        let row = &self.rows[i];
        if row.more == 0 {
            return Some(event_of(row, None));
        }
        None
    }

    /// Returns the tag of the node that the event at an index begins, as it is written.
    #[inline(always)]
    pub fn tag(&self, i: usize) -> Option<Tag<'a>>
        requires { i < length self.now }
        ensures { slice_get (map (λ e. written_tag e.event) self.now) i ≡ Some (optional_tag_value result) }
    {
        let row = &self.rows[i];
        tag_of(row, more_in(self.more.as_slice(), row.more))
    }

    /// Returns the span of the event at an index.
    #[inline(always)]
    pub fn span(&self, i: usize) -> Option<Span>
        requires { i < length self.now }
        ensures { slice_get (map (λ e. e.span) self.now) i ≡ Some result }
    {
        span_of(&self.rows[i])
    }

    /// Returns the entry that the event at an index begins.
    #[inline(always)]
    pub fn entry(&self, i: usize) -> Option<Entry>
        requires { i < length self.now }
        ensures { slice_get (map (λ e. e.entry) self.now) i ≡ Some result }
    {
        entry_of(&self.rows[i])
    }

    /// Returns the lines of the scalar at an index if it was read as a folded one, and none otherwise.
    #[inline(always)]
    pub fn folded(&self, i: usize) -> &[&str]
        requires { i < length self.now }
        ensures { slice_get (map (λ e. e.folded) self.now) i ≡ Some (map (λ line. line.now) result.now) }
    {
        folded_of(more_in(self.more.as_slice(), self.rows[i].more))
    }

    /// Returns the first index from `start` on with an event that names something, or the number of events. These
    /// events name something: one that begins a document, one that begins a node with an anchor or a tag, and an
    /// alias.
    #[inline(always)]
    pub fn naming_from(&self, start: usize) -> usize
        requires { start ≤ length self.now }
        ensures within { (start ≤ result) × (result ≤ length self.now) }
        ensures silent { (k : ℕ) → start ≤ k → k < result → NothingAt self.now k }
        ensures ends { NothingAt self.now result → ⊥ }
    {
        naming_from(self.rows.as_slice(), self.more.as_slice(), start)
    }

    /// Moves all events of another list to the end.
    pub fn append(&mut self, mut other: Events<'a>) -> Result<(), AllocError>
        ensures { self.new ≡ (if is_ok result then self.old ++ other.entry else self.old) }
    {
        shift(&mut other.rows, narrow(self.more.len())?)?;
        self.more.append(&mut other.more)?;
        self.rows.append(&mut other.rows)?;
        Ok(())
    }

    /// Puts an event before the one at an index, or at the end.
    #[inline(always)]
    pub fn insert(&mut self, i: usize, event: PlacedEvent<'a>) -> Result<(), AllocError>
        requires { i ≤ length self.old }
        ensures { self.new ≡ (if is_ok result then take i self.old ++ placed_value event.entry ∷ drop i self.old else self.old) }
    {
        let row = row_of(&mut self.more, event)?;
        self.rows.insert(i, row)?;
        Ok(())
    }

    /// Keeps only the first `count` events.
    pub fn truncate(&mut self, count: usize)
        ensures { self.new ≡ take count self.old }
    {
        self.rows.truncate(count);
    }

    /// Gives the event at an index its entry.
    pub fn set_entry(&mut self, i: usize, entry: Entry) -> Result<(), AllocError>
        requires { i < length self.old }
        ensures { self.new ≡ (if is_ok result then with_entry self.old i entry else self.old) }
    {
        let beginning = narrow_entry(Some(entry))?;
        let row = &mut self.rows[i];
        row.begins = beginning.begins;
        row.entry = beginning.start;
        row.colon = beginning.colon;
        Ok(())
    }

    /// Sets the end of the node that the event at an index begins. A node without a span, such as an empty one, stays
    /// so. Here and below, changes nothing if the index is past the end.
    pub fn set_end(&mut self, i: usize, end: usize) -> Result<(), AllocError>
        ensures edited { self.new ≡ (if is_ok result then edited (ended end) i self.old else self.old) }
        ensures len { length self.new ≡ length self.old }
    {
        let end = narrow(end)?;
        if i < self.rows.len() {
            self.rows[i].end = end;
        }
        Ok(())
    }

    /// Sets the offset of the `:` in the entry that the event at an index begins, if it begins one.
    pub fn set_colon(&mut self, i: usize, colon: usize) -> Result<(), AllocError>
        ensures len { length self.new ≡ length self.old }
        ensures edited { self.new ≡ (if is_ok result then edited (coloned colon) i self.old else self.old) }
    {
        let colon = narrow(colon)?;
        if i < self.rows.len() {
            let row = &mut self.rows[i];
            row.begins = keyed(row.begins);
            row.colon = colon;
        }
        Ok(())
    }

    /// Gives the event at an index this style if it is a scalar, and brackets or none if it begins a collection. Only
    /// a folded scalar keeps its lines.
    #[inline(always)]
    pub fn set_form(
        &mut self,
        alloc: Global,
        i: usize,
        flow: bool,
        style: ScalarStyle,
    ) -> Result<(), AllocError>
        requires { i < length self.old }
        ensures { self.new ≡ (if is_ok result then edited (formed flow style) i self.old else self.old) }
    {
        let shape = formed(self.rows[i].shape, flow, style);
        let more = relined(alloc, &mut self.more, self.rows[i].more, is_folded(shape))?;
        let row = &mut self.rows[i];
        row.shape = shape;
        row.more = more;
        Ok(())
    }
}
