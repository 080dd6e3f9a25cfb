//! The forms of all events of a reading, each in a row of twelve bytes.
ghost use Rattle.std.specs.Prelude.{◌≡◌, [], ◌∷◌, ◌++◌, get_or, length, IfOk};
ghost use Rattle.yf_forms.specs.NormalForms.Forms.{no_form};
ghost use Rattle.yf_forms.specs.NormalForms.Packed.{form_in};

use crate::form::decide::Form;
use crate::form::narrow::{narrow_if, some_if};
use std::alloc::{AllocError, Global};
use std::marker::Model;
use yf_lines::packed_lines::narrow;

/// A form in few bytes, with a note whether it has a comment.
#[derive(Clone, Copy)]
pub struct PackedForm {
    column: u32,
    key_comment: u32,
    has_key_comment: bool,
    is_kept: bool,
    is_implicit: bool,
}

#[inline(always)]
fn packed(form: &Form) -> Result<PackedForm, AllocError>
    ensures { IfOk result (λ p. form_in p ≡ form.now) }
{
    let column = narrow(form.column)?;
    let key_comment = narrow_if(form.key_comment)?;
    Ok(PackedForm {
        column,
        key_comment,
        has_key_comment: form.key_comment.is_some(),
        is_kept: form.is_kept,
        is_implicit: form.is_implicit,
    })
}

#[inline(always)]
fn unpacked(packed: &PackedForm) -> Form
    ensures { result ≡ form_in packed.now }
{
    Form {
        is_kept: packed.is_kept,
        is_implicit: packed.is_implicit,
        key_comment: some_if(packed.has_key_comment, packed.key_comment),
        column: packed.column as usize,
    }
}

/// The forms of all events of a reading. In a contract it is their list.
#[derive(Drop)]
pub struct Forms {
    list: Vec<PackedForm>,
}

impl Model for Forms {
    ghost use Rattle.std.specs.Prelude.{List, map};
    ghost use Rattle.yf_forms.specs.declared.form.decide.Form.{Form};
    ghost use Rattle.yf_forms.specs.NormalForms.Packed.{form_in};

    ghost Value = { List Form };

    ghost view = { λ f. map form_in f.list.items };
}

impl Forms {
    pub(crate) fn new(alloc: Global) -> Forms
        ensures { result ≡ [] }
    {
        Forms {
            list: Vec::new(alloc),
        }
    }

    /// Adds the form of the next event.
    pub(crate) fn push(&mut self, form: Form) -> Result<(), AllocError>
        ensures { IfOk result (λ _. self.new ≡ self.old ++ form ∷ []) }
    {
        let row = packed(&form)?;
        self.list.push(row)?;
        Ok(())
    }

    /// Returns the number of forms, one for each event.
    pub fn len(&self) -> usize
        ensures { result ≡ length self.now }
    {
        self.list.len()
    }

    /// Returns the form of the event at an index, or `Form::NONE` past the end.
    pub fn at(&self, i: usize) -> Form
        ensures { result ≡ get_or self.now i no_form }
    {
        match self.list.get(i) {
            Some(row) => unpacked(row),
            None => Form::NONE,
        }
    }
}
