//! Prints a normal reading in one pass over its events. Columns count from 0.
ghost use Rattle.std.specs.Prelude.{◌<◌, ◌≡◌, ◌≤◌, length, OnOk, IfOk};
ghost use Rattle.std.specs.String.{string_bytes};
ghost use Rattle.yf_events.specs.Event.{event_value, props_of};
ghost use Rattle.yf_print.specs.Passes.PrintPass as Printing;
ghost use Rattle.yf_print.specs.Passes.Pages.{form_at, measure_at, placed_at, work_on};
ghost use Rattle.yf_print.specs.Passes.PrintWork.{work_of};
ghost use Rattle.yf_print.specs.Passes.PrinterState.{state_of};
ghost use Rattle.yf_print.specs.Passes.TrailPass.{all_found};
ghost use Rattle.yf_events.specs.declared.reading.TheConstants.{LONGEST};

use crate::leaves::push_leaf;
use crate::looks::event_at;
use crate::output::Output;
use crate::printer::{
    FrameState, Plan, PrintContext, PrintFrame, Role, begin_collection, next_document, node_role,
};
use crate::trails::find_trails;
use std::alloc::{AllocError, Global};
use yf_events::event::Event;
use yf_events::reading::Reading;
use yf_forms::form::forms::Forms;
use yf_forms::form::measures::Measures;
use yf_forms::style::Style;

/// The printer between two events.
#[derive(Drop)]
pub(crate) struct Printer {
    output: Output,
    /// The open block collections, the innermost last.
    levels: Vec<PrintFrame>,
    /// How many documents have begun.
    documents: usize,
    /// The index of the last event that was printed or skipped.
    done: usize,
}

impl Printer {
    /// Prints a leaf, an empty node or a kept flow collection.
    #[inline(always)]
    fn leaf(&mut self, page: &PrintContext, i: usize, role: Role) -> Result<(), AllocError>
        requires { i < length page.now.reading.now.events }
        ensures { OnOk result (state_of self.new ≡ Printing.leaf_at (work_on page.now) i (measure_at page.now i) (form_at page.now i)
            (placed_at page.now i) role (state_of self.old)) }
    {
        self.done = push_leaf(&mut self.output, page, i, role)?;
        Ok(())
    }

    /// Begins a block collection, or prints a kept or empty collection.
    #[inline(always)]
    fn collection(
        &mut self,
        page: &PrintContext,
        i: usize,
        role: Role,
        first: FrameState,
    ) -> Result<(), AllocError>
        requires { i < length page.now.reading.now.events }
        ensures { OnOk result (state_of self.new ≡ Printing.collection_if (Printing.is_whole i (measure_at page.now i) (form_at page.now i))
            (work_on page.now) i (measure_at page.now i) (form_at page.now i) (placed_at page.now i)
            (props_of (placed_at page.now i).event) first role (state_of self.old)) }
    {
        if page.plan.forms.at(i).is_kept || page.plan.measures.at(i).is_leaf(i) {
            return self.leaf(page, i, role);
        }
        begin_collection(&mut self.output, &mut self.levels, page, i, role, first)?;
        self.done = i;
        Ok(())
    }

    /// Prints the node that the event begins, or begins it if it is a block collection.
    #[inline(always)]
    fn node_at(&mut self, page: &PrintContext, i: usize, role: Role) -> Result<(), AllocError>
        requires { i < length page.now.reading.now.events }
        ensures { OnOk result (state_of self.new ≡ Printing.node_in (work_on page.now) i (measure_at page.now i) (form_at page.now i)
            (placed_at page.now i) (placed_at page.now i).event role (state_of self.old)) }
    {
        match event_at(page, i) {
            Event::SeqStart { .. } => self.collection(page, i, role, FrameState::Item),
            Event::MapStart { .. } => self.collection(page, i, role, FrameState::Key),
            _ => self.leaf(page, i, role),
        }
    }

    /// Prints the sign before the node that the event begins, and the node.
    fn node(&mut self, page: &PrintContext, i: usize) -> Result<(), AllocError>
        requires { i < length page.now.reading.now.events }
        ensures { OnOk result (state_of self.new ≡ Printing.node (work_on page.now) i (measure_at page.now i) (form_at page.now i)
            (placed_at page.now i) (state_of self.old)) }
    {
        let role = node_role(&mut self.output, &mut self.levels, page, i)?;
        if page.plan.measures.at(i).is_leaf(i) {
            return self.leaf(page, i, role);
        }
        self.node_at(page, i, role)
    }

    /// Begins the next document.
    fn document(&mut self, page: &PrintContext) -> Result<(), AllocError>
        ensures { OnOk result (state_of self.new ≡ Printing.document (work_on page.now) (state_of self.old)) }
    {
        self.documents = next_document(&mut self.output, page, self.documents)?;
        Ok(())
    }

    /// Passes one event.
    #[inline(always)]
    fn event(&mut self, page: &PrintContext, i: usize, event: &Event) -> Result<(), AllocError>
        requires { i < length page.now.reading.now.events }
        ensures { OnOk result (state_of self.new ≡ Printing.past_event (work_on page.now) i (measure_at page.now i) (form_at page.now i)
            (placed_at page.now i) (event_value event.now) (state_of self.old)) }
    {
        match event {
            Event::StreamStart => Ok(()),
            Event::StreamEnd => Ok(()),
            Event::DocEnd { .. } => Ok(()),
            Event::DocStart { .. } => self.document(page),
            Event::SeqEnd => {
                let _ = self.levels.pop();
                Ok(())
            }
            Event::MapEnd => {
                let _ = self.levels.pop();
                Ok(())
            }
            Event::Scalar { .. } => self.node(page, i),
            Event::Alias { .. } => self.node(page, i),
            Event::SeqStart { .. } => self.node(page, i),
            Event::MapStart { .. } => self.node(page, i),
        }
    }

    /// Passes one event, but skips it if it is within a printed node.
    #[inline(always)]
    fn advance(&mut self, page: &PrintContext, i: usize) -> Result<(), AllocError>
        requires { i < length page.now.reading.now.events }
        ensures { OnOk result (state_of self.new ≡ Printing.next (work_on page.now) i (placed_at page.now i) (state_of self.old)) }
    {
        if self.done < i {
            return self.event(page, i, &event_at(page, i));
        }
        Ok(())
    }
}

/// Returns the printed text of a page.
fn text_of(page: &PrintContext) -> Result<String, AllocError>
    ensures printed { IfOk result (λ text. string_bytes text ≡ Printing.printed (work_on page.now)) }
    ensures within { IfOk result (λ text. length (string_bytes text) ≤ LONGEST) }
{
    let mut printer = Printer {
        output: Output::new(page.alloc),
        levels: Vec::new(page.alloc),
        documents: 0,
        done: 0,
    };
    for i in 0..page.reading.len() {
        printer.advance(page, i)?;
    }
    let Printer { output, .. } = printer;
    output.finish(page)
}

/// Prints a reading from its measures and the forms of its nodes.
pub fn layout_by(
    alloc: Global,
    text: &str,
    reading: &Reading,
    measures: Measures,
    forms: Forms,
    style: &Style,
) -> Result<String, AllocError>
    ensures printed { IfOk result (λ layout. string_bytes layout
        ≡ Printing.printed (work_of text.now reading.now style.now measures forms (all_found reading.now measures forms))) }
    ensures within { IfOk result (λ text. length (string_bytes text) ≤ LONGEST) }
{
    let trails = find_trails(alloc, reading, &measures, &forms)?;
    let plan = Plan {
        measures,
        forms,
        trails,
        style: *style,
    };
    text_of(&PrintContext {
        alloc,
        text,
        reading,
        plan: &plan,
    })
}
