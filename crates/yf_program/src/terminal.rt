//! The form of the findings that `check` prints, by its options, the terminal and the environment.
ghost use Rattle.std.specs.Prelude.{◌≡◌, ◌||◌, unwrap_or};
ghost use Rattle.yf_program.specs.Forms.{checks_at_once, default_output, explains_in, form_of, has_colors};
ghost use Rattle.yf_program.specs.Forms.{has_several, limit_in, writes_at_once};

use yf_command_line::command::{Check, Colors, InputList, Output, Printing};
use yf_findings::printed::Form;
use yf_line_ranges::range::LineRange;

/// What is known of standard output and the environment.
#[derive(Clone, Copy)]
pub struct Terminal {
    /// Whether standard output is a terminal.
    pub output: bool,
    /// Whether the environment forbids colors: `NO_COLOR` is set and not empty, or `TERM` is `dumb`.
    pub no_color: bool,
}

/// Returns the form of the findings that `check` prints. If `named`, each line has the name of its input. `explain` says
/// whether `--explain` is given.
pub fn form_of(printing: Printing, terminal: Terminal, named: bool, explain: bool) -> Form
    ensures { result ≡ form_of printing terminal named explain }
{
    let colored = has_colors(printing.colors, terminal);
    match output_of(printing.output, terminal.output, explain) {
        Output::Lines => Form::Lines { named },
        Output::Full => Form::Full { colored },
        Output::Statistics => Form::Statistics,
        Output::Baseline => Form::Baseline,
        Output::Report(format) => Form::Report(format),
    }
}

// Returns the output that the command line names, or else the default one.
fn output_of(output: Option<Output>, is_terminal: bool, explain: bool) -> Output
    ensures { result ≡ unwrap_or output (default_output is_terminal explain) }
{
    match output {
        Some(output) => output,
        None => default_output(is_terminal, explain),
    }
}

// Returns how findings are printed if the command line names no output.
fn default_output(is_terminal: bool, explain: bool) -> Output
    ensures { result ≡ default_output is_terminal explain }
{
    if is_terminal && !explain {
        return Output::Full;
    }
    Output::Lines
}

// Returns whether the output has colors.
fn has_colors(colors: Colors, terminal: Terminal) -> bool
    ensures { result ≡ has_colors colors terminal }
{
    match colors {
        Colors::Always => true,
        Colors::Never => false,
        Colors::Auto => terminal.output && !terminal.no_color,
    }
}

/// Returns whether each line has the name of its input: with `--names`, or for several inputs.
pub fn is_named(names: bool, inputs: &InputList) -> bool
    ensures { result ≡ names || has_several inputs.now }
{
    names || !inputs.rest.is_empty()
}

/// Returns whether the findings of an input are written as soon as it is checked: if each is a line, and neither
/// `--lines` nor `--max-findings` may leave one out.
pub fn writes_at_once(form: Form, lines: &[LineRange], limit: Option<usize>) -> bool
    ensures { result ≡ writes_at_once form lines.now limit }
{
    match form {
        Form::Lines { .. } => lines.is_empty() && limit.is_none(),
        Form::Full { .. } | Form::Statistics | Form::Baseline | Form::Report(_) => false,
    }
}

/// Returns whether a check writes the findings of an input as soon as it is checked. A baseline may leave findings out.
pub fn checks_at_once(form: Form, check: &Check) -> bool
    ensures { result ≡ checks_at_once form check.now }
{
    check.baseline.is_none() && writes_at_once(form, check.lines.as_slice(), check.printing.limit)
}

/// Returns the limit of findings to print. `--statistics` counts all findings, and a baseline lists all, whatever the
/// limit.
pub fn limit_in(form: Form, limit: Option<usize>) -> Option<usize>
    ensures { result ≡ limit_in form limit }
{
    match form {
        Form::Statistics | Form::Baseline => None,
        Form::Lines { .. } | Form::Full { .. } | Form::Report(_) => limit,
    }
}

/// Returns whether refusals are explained: with `--explain`, and always in the form for people.
pub fn explains_in(form: Form, explain: bool) -> bool
    ensures { result ≡ explains_in form explain }
{
    match form {
        Form::Full { .. } => true,
        Form::Lines { .. } | Form::Statistics | Form::Baseline | Form::Report(_) => explain,
    }
}
