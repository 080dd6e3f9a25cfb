//! The inputs and the files that the FILEs of a command line name.
ghost use Rattle.std.specs.Prelude.{◌≡◌, ◌∷◌, map, IfOk};
ghost use Rattle.std.specs.List.{list_any};
ghost use Rattle.yf_command_line.specs.Requests.{all_files, all_inputs, first_input, input_of, inputs_of};
ghost use Rattle.yf_command_line.specs.Requests.{is_standard_input};

use crate::command::{FileList, Input, InputList};
use std::alloc::{AllocError, Global};
use yf_lines::text::OwnedText;

// Returns the first input. Without a FILE it is standard input.
pub(crate) fn first_input(alloc: Global, files: &[&str]) -> Result<Input, AllocError>
    ensures { IfOk result (λ input. input ≡ first_input (map (λ f. f.now) files.now)) }
{
    match files {
        [] => Ok(Input::Standard),
        [file, ..] => input_of(alloc, file),
    }
}

// Returns the inputs, in the order of the FILEs. Without a FILE, standard input is the only one.
pub(crate) fn inputs_of(alloc: Global, files: &[&str]) -> Result<InputList, AllocError>
    ensures { IfOk result (λ inputs. all_inputs inputs ≡ inputs_of (map (λ f. f.now) files.now)) }
{
    match files {
        [] => Ok(InputList {
            first: Input::Standard,
            rest: Vec::new(alloc),
        }),
        [file, others @ ..] => {
            let first = input_of(alloc, file)?;
            let rest = further_inputs(alloc, others)?;
            Ok(InputList { first, rest })
        }
    }
}

// Returns the inputs that the FILEs name, in order.
fn further_inputs(alloc: Global, files: &[&str]) -> Result<Vec<Input>, AllocError>
    ensures { IfOk result (λ inputs. inputs.items ≡ map input_of (map (λ f. f.now) files.now)) }
{
    let mut inputs = Vec::new(alloc);
    for file in files {
        inputs.push(input_of(alloc, file)?)?;
    }
    Ok(inputs)
}

// Returns the input that a FILE names.
fn input_of(alloc: Global, file: &str) -> Result<Input, AllocError>
    ensures { IfOk result (λ input. input ≡ input_of file.now) }
{
    if is_standard_input(file) {
        return Ok(Input::Standard);
    }
    Ok(Input::File(text_of(alloc, file)?))
}

// Returns the names of the files, as owned texts, in order.
pub(crate) fn files_of(alloc: Global, first: &str, rest: &[&str]) -> Result<FileList, AllocError>
    ensures { IfOk result (λ list. all_files list ≡ first.now ∷ map (λ f. f.now) rest.now) }
{
    let first = text_of(alloc, first)?;
    let rest = further_files(alloc, rest)?;
    Ok(FileList { first, rest })
}

// Returns the names as owned texts, in order.
fn further_files(alloc: Global, files: &[&str]) -> Result<Vec<OwnedText>, AllocError>
    ensures { IfOk result (λ texts. texts.items ≡ map (λ f. f.now) files.now) }
{
    let mut texts = Vec::new(alloc);
    for file in files {
        texts.push(text_of(alloc, file)?)?;
    }
    Ok(texts)
}

// Returns a word as an owned text.
pub(crate) fn text_of(alloc: Global, word: &str) -> Result<OwnedText, AllocError>
    ensures { IfOk result (λ text. text ≡ word.now) }
{
    Ok(OwnedText::new(String::from_str(alloc, word)?))
}

// Returns whether one of the FILEs is standard input.
pub(crate) fn has_standard_input(files: &[&str]) -> bool
    ensures { result ≡ list_any is_standard_input (map (λ f. f.now) files.now) }
{
    for file in files {
        if is_standard_input(file) {
            return true;
        }
    }
    false
}

// Returns whether a FILE is standard input.
fn is_standard_input(file: &str) -> bool
    ensures { result ≡ is_standard_input file.now }
{
    file == "-"
}
