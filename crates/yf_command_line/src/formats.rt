//! The outputs by the name of their format.
ghost use Rattle.std.specs.Prelude.{◌≡◌};
ghost use Rattle.yf_command_line.specs.Formats.{output_named, problems_named};

use crate::command::Output;
use yf_report::reports::Format;

// Returns how `check` prints problems in the format with this name.
pub(crate) fn output_named(name: &str) -> Option<Output>
    ensures { result ≡ output_named name.now }
{
    if name == "baseline" {
        return Some(Output::Baseline);
    }
    problems_named(name)
}

// Returns how `fmt --check` prints problems in the format with this name. `check` has all these formats.
pub(crate) fn problems_named(name: &str) -> Option<Output>
    ensures { result ≡ problems_named name.now }
{
    if name == "line" {
        return Some(Output::Lines);
    }
    if name == "full" {
        return Some(Output::Full);
    }
    if name == "json" {
        return Some(Output::Report(Format::Json));
    }
    if name == "sarif" {
        return Some(Output::Report(Format::Sarif));
    }
    if name == "github" {
        return Some(Output::Report(Format::Github));
    }
    if name == "gitlab" {
        return Some(Output::Report(Format::Gitlab));
    }
    if name == "junit" {
        return Some(Output::Report(Format::Junit));
    }
    if name == "checkstyle" {
        return Some(Output::Report(Format::Checkstyle));
    }
    None
}
