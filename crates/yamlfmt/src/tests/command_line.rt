//! Command lines: their requests, and the texts of help and of refusals.

use crate::tests::answers::words_of;
use crate::tests::command_rows::{LINES, Verb, Wanted};
use std::alloc::Global;
use yf_command_line::command::{Command, FileList, Fmt, Input, InputList, Request, Settings};
use yf_command_line::command_line::parse_line;
use yf_command_line::usage::Usage;
use yf_rule_pages::pages::PAGES;
use yf_rules::asked::RULE_NAMES;

/// Returns whether the settings are those of the file with this name. An empty name means the nearest settings file, and
/// `--no-config` means the defaults.
fn is_config(settings: &Settings, name: &str) -> bool {
    match settings {
        Settings::Nearest => name.is_empty(),
        Settings::File(found) => found.as_str() == name,
        Settings::Defaults => name == "--no-config",
    }
}

/// Returns whether a text has these lines: the name and the version, the commit or that there is none, the logic, and
/// the platform.
fn is_version(text: &str) -> bool {
    let Some(built) = text.strip_prefix("yamlfmt 0.2.0\n") else {
        return false;
    };
    let Some(built) = built.strip_suffix("platform x86_64-linux-gnu, glibc 2.34 or newer\n") else {
        return false;
    };
    let Some(line) = built.strip_suffix("\nlogic dac8208d650f15bf\n") else {
        return false;
    };
    match line.strip_prefix("commit ") {
        Some(hash) => {
            hash.len() >= 40 && hash.as_bytes().iter().all(|byte| byte.is_ascii_hexdigit())
        }
        None => line == "built from a checkout",
    }
}

/// A request: the command, the first input, whether the input is rewritten, whether it is only checked, whether a diff
/// is printed, and the number of further inputs.
type Shape<'a> = (Verb, &'a str, bool, bool, bool, usize);

/// Returns the name of an input.
fn name_of(input: &Input) -> &str {
    match input {
        Input::Standard => "",
        Input::File(name) => name.as_str(),
    }
}

/// Returns the request of a command as such a tuple.
fn shape(command: &Command) -> Shape<'_> {
    match command {
        Command::Events(input) => (Verb::Events, name_of(input), false, false, false, 0),
        Command::Check(check) => {
            let InputList { first, rest } = &check.inputs;
            (Verb::Check, name_of(first), false, false, false, rest.len())
        }
        Command::Fmt(Fmt::Print(input)) => (Verb::Fmt, name_of(input), false, false, false, 0),
        Command::Fmt(Fmt::Check { inputs, .. }) => {
            let InputList { first, rest } = inputs;
            (Verb::Fmt, name_of(first), false, true, false, rest.len())
        }
        Command::Fmt(Fmt::Diff(inputs)) => {
            let InputList { first, rest } = inputs;
            (Verb::Fmt, name_of(first), false, false, true, rest.len())
        }
        Command::Fmt(Fmt::Write(files)) => {
            let FileList { first, rest } = files;
            (Verb::Fmt, first.as_str(), true, false, false, rest.len())
        }
        Command::Fmt(Fmt::Part { .. }) => (Verb::Part, "", false, false, false, 0),
        Command::Server => (Verb::Server, "", false, false, false, 0),
    }
}

/// Returns whether the result is as expected.
fn is_found(parsed: &Result<Request, Usage>, wanted: Wanted) -> bool {
    match (parsed, wanted) {
        (Ok(request), Wanted::Command(verb, config, file, write, check, diff, more)) => {
            let (is_verb, name, writes, checks, diffs, others) = shape(&request.command);
            is_verb == verb
                && name == file
                && writes == write
                && checks == check
                && diffs == diff
                && others == more
                && is_config(&request.settings, config)
        }
        (Err(Usage::Wrong(_)), Wanted::Wrong) => true,
        (Err(Usage::Wrong(text)), Wanted::Refused(wanted)) => text.as_str() == wanted,
        (Err(Usage::Help(text)), Wanted::Help(wanted)) => text.as_str() == wanted,
        (Err(Usage::Help(text)), Wanted::Version) => is_version(text.as_str()),
        _ => false,
    }
}

/// Returns whether the result for a command line is as expected.
fn asks(alloc: Global, line: &str, wanted: Wanted) -> bool {
    match &words_of(alloc, line) {
        Ok(words) => is_found(
            &parse_line(alloc, words.as_slice(), &RULE_NAMES, &PAGES),
            wanted,
        ),
        Err(_) => false,
    }
}

#[test]
fn command_lines_ask_for_commands_or_are_refused(rt: HostRuntime) {
    for (line, wanted) in &LINES {
        assert!(rt; asks(rt.alloc(), line, *wanted), "{line}");
    }
}
