//! The measures of all events of a reading, each in a row of twenty bytes.
ghost use Rattle.std.specs.Prelude.{◌≡◌, [], ◌∷◌, ◌++◌, get_or, set, IfOk};
ghost use Rattle.yf_forms.specs.NormalForms.Measures.{no_measure};
ghost use Rattle.yf_forms.specs.NormalForms.Packed.{measure_in};

use crate::form::measure::Measure;
use crate::form::narrow::{narrow_if, some_if};
use std::alloc::{AllocError, Global};
use std::marker::Model;
use yf_lines::packed_lines::narrow;

/// A measure, with a note for each optional number whether it is present.
#[derive(Clone, Copy)]
pub struct PackedMeasure {
    width: u32,
    last: u32,
    first_leaf: u32,
    last_leaf: u32,
    has_width: bool,
    can_be_kept: bool,
    has_first_leaf: bool,
    has_last_leaf: bool,
}

/// The measure of an event that begins no node.
const NO_MEASURE: PackedMeasure = PackedMeasure {
    width: 0,
    last: 0,
    first_leaf: 0,
    last_leaf: 0,
    has_width: false,
    can_be_kept: false,
    has_first_leaf: false,
    has_last_leaf: false,
};

#[inline(always)]
fn packed(measure: &Measure) -> Result<PackedMeasure, AllocError>
    ensures { IfOk result (λ p. measure_in p ≡ measure.now) }
{
    let width = narrow_if(measure.width)?;
    let last = narrow(measure.last)?;
    let first_leaf = narrow_if(measure.first_leaf)?;
    let last_leaf = narrow_if(measure.last_leaf)?;
    Ok(PackedMeasure {
        width,
        last,
        first_leaf,
        last_leaf,
        has_width: measure.width.is_some(),
        can_be_kept: measure.can_be_kept,
        has_first_leaf: measure.first_leaf.is_some(),
        has_last_leaf: measure.last_leaf.is_some(),
    })
}

#[inline(always)]
fn unpacked(packed: &PackedMeasure) -> Measure
    ensures { result ≡ measure_in packed.now }
{
    Measure {
        last: packed.last as usize,
        width: some_if(packed.has_width, packed.width),
        can_be_kept: packed.can_be_kept,
        first_leaf: some_if(packed.has_first_leaf, packed.first_leaf),
        last_leaf: some_if(packed.has_last_leaf, packed.last_leaf),
    }
}

/// The measures of all events of a reading. In a contract it is their list.
#[derive(Drop)]
pub struct Measures {
    list: Vec<PackedMeasure>,
}

impl Model for Measures {
    ghost use Rattle.std.specs.Prelude.{List, map};
    ghost use Rattle.yf_forms.specs.declared.form.measure.Measure.{Measure};
    ghost use Rattle.yf_forms.specs.NormalForms.Packed.{measure_in};

    ghost Value = { List Measure };

    ghost view = { λ m. map measure_in m.list.items };
}

impl Measures {
    pub(crate) fn new(alloc: Global) -> Measures
        ensures { result ≡ [] }
    {
        Measures {
            list: Vec::new(alloc),
        }
    }

    /// Adds the measure of an event that begins no node, or a node that has not ended yet.
    #[inline(always)]
    pub(crate) fn push_none(&mut self) -> Result<(), AllocError>
        ensures { IfOk result (λ _. self.new ≡ self.old ++ no_measure ∷ []) }
    {
        self.list.push(NO_MEASURE)?;
        Ok(())
    }

    /// Adds the measure of the node that the next event begins and ends.
    #[inline(always)]
    pub(crate) fn push(&mut self, measure: &Measure) -> Result<(), AllocError>
        ensures { IfOk result (λ _. self.new ≡ self.old ++ measure.now ∷ []) }
    {
        let row = packed(measure)?;
        self.list.push(row)?;
        Ok(())
    }

    /// Notes the measure of the node that the event at an index begins.
    #[inline(always)]
    pub(crate) fn set(&mut self, i: usize, measure: &Measure) -> Result<(), AllocError>
        ensures { IfOk result (λ _. self.new ≡ set self.old i measure.now) }
    {
        let row = packed(measure)?;
        if i < self.list.len() {
            self.list[i] = row;
        }
        Ok(())
    }

    /// Returns the measure of the event at an index, or `Measure::NONE` past the end.
    pub fn at(&self, i: usize) -> Measure
        ensures { result ≡ get_or self.now i no_measure }
    {
        match self.list.get(i) {
            Some(row) => unpacked(row),
            None => Measure::NONE,
        }
    }
}
