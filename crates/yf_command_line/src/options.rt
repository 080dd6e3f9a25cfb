//! The commands of the program and their options, as the library for command lines takes them.
ghost use Rattle.std.specs.Prelude.{◌≡◌, IfOk};
ghost use Rattle.clap.specs.Words.{App, Rule, app_of, with_rule, with_subcommand};
ghost use Rattle.yf_command_line.specs.Options.{any_text_flag, bare_command, check_flag, config_option};
ghost use Rattle.yf_command_line.specs.Options.{configured, explaining_command, name_word, names_flag};
ghost use Rattle.yf_command_line.specs.Options.{diff_flag, explain_flag, file_word, file_words, format_option};
ghost use Rattle.yf_command_line.specs.Options.{formatting_command};
ghost use Rattle.yf_command_line.specs.Options.{lines_option, no_config_flag, show_settings_flag};
ghost use Rattle.yf_command_line.specs.Options.{naming, with_config, with_defaults, with_settings, write_flag};
ghost use Rattle.yf_command_line.specs.Options.{reading_command, serving_command, stdin_name_option, stdio_flag};
ghost use Rattle.yf_command_line.specs.Options.{writing_command, yamlfmt};
ghost use Rattle.yf_command_line.specs.Options.{IsOption, IsPart};

use crate::build::VERSION;
use crate::check_options::check_command;
use clap::{Arg, ArgAction, Command};
use std::alloc::{AllocError, Global};

pub(crate) const EVENTS: &str = "events";

pub(crate) const CHECK: &str = "check";

pub(crate) const FMT: &str = "fmt";

pub(crate) const SERVER: &str = "server";

pub(crate) const CONFIG: &str = "config";

pub(crate) const NO_CONFIG: &str = "no-config";

pub(crate) const SHOW_SETTINGS: &str = "show-settings";

pub(crate) const EXPLAIN: &str = "explain";

pub(crate) const ANY_TEXT: &str = "any-text";

pub(crate) const STDIN_NAME: &str = "stdin-name";

pub(crate) const NAMES: &str = "names";

pub(crate) const WITHOUT: &str = "without";

pub(crate) const BASELINE: &str = "baseline";

pub(crate) const FORMAT: &str = "format";

pub(crate) const STATISTICS: &str = "statistics";

pub(crate) const MAX_FINDINGS: &str = "max-findings";

pub(crate) const COLOR: &str = "color";

pub(crate) const WRITE: &str = "write";

pub(crate) const DIFF: &str = "diff";

pub(crate) const LINES: &str = "lines";

pub(crate) const NAME: &str = "name";

const STDIO: &str = "stdio";

pub(crate) const FILE: &str = "file";

// The command of the program, with its subcommands.
pub(crate) fn yamlfmt_command<'a>(alloc: Global) -> Result<Command<'a>, AllocError>
    ensures { IfOk result (λ c. app_of c ≡ yamlfmt) }
{
    let events = reading_command(alloc, EVENTS, "Print the events of a YAML stream");
    let with_events = with_part(bare_command(alloc), events);
    let with_check = with_part(with_events, check_command(alloc));
    let with_fmt = with_part(with_check, fmt_command(alloc));
    let with_server = with_part(with_fmt, server_command(alloc));
    with_part(with_server, explain_command(alloc))
}

// The program's command before its subcommands. `--explain` may come before a subcommand too.
fn bare_command<'a>(alloc: Global) -> Result<Command<'a>, AllocError>
    ensures { IfOk result (λ c. app_of c ≡ bare_command) }
{
    let command = Command::new(alloc, "yamlfmt")
        .version(VERSION)
        .about(
            "Formats YAML in one house style, checks its style, prints its events and serves editors",
        )
        .no_binary_name(true)
        .subcommand_required(true)
        .arg_required_else_help(true);
    match command.arg(explain_flag(alloc)) {
        Ok(command) => command.bin_name("yamlfmt"),
        Err(error) => Err(error),
    }
}

// The command with one more subcommand, if both were made.
fn with_part<'a>(
    command: Result<Command<'a>, AllocError>,
    part: Result<Command<'a>, AllocError>,
) -> Result<Command<'a>, AllocError>
    ensures { (a p : App) → IfOk command.entry (λ c. app_of c ≡ a) → IfOk part.entry (λ c. IsPart c p)
        → IfOk result (λ c. app_of c ≡ with_subcommand a p.top) }
{
    match part {
        Ok(part) => match command {
            Ok(command) => command.subcommand(part),
            Err(error) => Err(error),
        },
        Err(error) => Err(error),
    }
}

fn reading_command<'a>(
    alloc: Global,
    name: &'a str,
    about: &'a str,
) -> Result<Command<'a>, AllocError>
    ensures { IfOk result (λ c. IsPart c (reading_command name.entry.now)) }
{
    with_arg(configured(alloc, name, about), file_word(alloc))
}

fn fmt_command<'a>(alloc: Global) -> Result<Command<'a>, AllocError>
    ensures { IfOk result (λ c. IsPart c writing_command) }
{
    let lines = lines_option(
        alloc,
        "Format these lines, for example 3-7,12; lines near them may change too",
    );
    let choosing = with_arg(formatting_command(alloc), lines);
    let format = format_option(
        alloc,
        "With --check, report as line, full, json, sarif, github, gitlab, junit or checkstyle",
    );
    let reporting = with_arg(choosing, format);
    with_arg(reporting, file_words(alloc))
}

// Returns `fmt` with the options of `naming`, and `--write`, `--check` and `--diff`.
fn formatting_command<'a>(alloc: Global) -> Result<Command<'a>, AllocError>
    ensures { IfOk result (λ c. IsPart c formatting_command) }
{
    let command = naming(alloc, FMT, "Format YAML in the house style");
    let writing = with_arg(command, write_flag(alloc));
    let checking = with_arg(writing, check_flag(alloc));
    with_arg(checking, diff_flag(alloc))
}

fn server_command<'a>(alloc: Global) -> Result<Command<'a>, AllocError>
    ensures { IfOk result (λ c. IsPart c serving_command) }
{
    let command = with_settings(alloc, SERVER, "Run a language server for an editor");
    with_arg(command, stdio_flag(alloc))
}

fn explain_command<'a>(alloc: Global) -> Result<Command<'a>, AllocError>
    ensures { IfOk result (λ c. IsPart c explaining_command) }
{
    let about = "Explain a rule or a refusal; without NAME, list all";
    let command = Command::new(alloc, EXPLAIN).about(about);
    command.arg(name_word(alloc))
}

// A command with the options of `configured`, and `--names`.
pub(crate) fn naming<'a>(
    alloc: Global,
    name: &'a str,
    about: &'a str,
) -> Result<Command<'a>, AllocError>
    ensures { IfOk result (λ c. IsPart c (naming name.entry.now)) }
{
    with_arg(configured(alloc, name, about), names_flag(alloc))
}

// A command with `--config`, `--no-config`, `--show-settings`, `--explain`, `--any-text` and `--stdin-name`.
fn configured<'a>(alloc: Global, name: &'a str, about: &'a str) -> Result<Command<'a>, AllocError>
    ensures { IfOk result (λ c. IsPart c (configured name.entry.now)) }
{
    let explaining = with_arg(with_settings(alloc, name, about), explain_flag(alloc));
    let taking = with_arg(explaining, any_text_flag(alloc));
    with_arg(taking, stdin_name_option(alloc))
}

// A command with `--config`, `--no-config` and `--show-settings`.
fn with_settings<'a>(
    alloc: Global,
    name: &'a str,
    about: &'a str,
) -> Result<Command<'a>, AllocError>
    ensures { IfOk result (λ c. IsPart c (with_settings name.entry.now)) }
{
    with_arg(with_defaults(alloc, name, about), show_settings_flag(alloc))
}

// A command with `--config` and `--no-config`.
fn with_defaults<'a>(
    alloc: Global,
    name: &'a str,
    about: &'a str,
) -> Result<Command<'a>, AllocError>
    ensures { IfOk result (λ c. IsPart c (with_defaults name.entry.now)) }
{
    with_arg(with_config(alloc, name, about), no_config_flag(alloc))
}

// A command with `--config`.
fn with_config<'a>(alloc: Global, name: &'a str, about: &'a str) -> Result<Command<'a>, AllocError>
    ensures { IfOk result (λ c. IsPart c (with_config name.entry.now)) }
{
    let command = Command::new(alloc, name).about(about);
    command.arg(config_option(alloc))
}

// The command with one more option, if it was made.
pub(crate) fn with_arg<'a>(
    command: Result<Command<'a>, AllocError>,
    arg: Arg<'a>,
) -> Result<Command<'a>, AllocError>
    ensures { (a : App) (r : Rule) → IfOk command.entry (λ c. IsPart c a) → IsOption arg.entry r
        → IfOk result (λ c. IsPart c (with_rule a r)) }
{
    match command {
        Ok(command) => command.arg(arg),
        Err(error) => Err(error),
    }
}

fn config_option<'a>(alloc: Global) -> Arg<'a>
    ensures { IsOption result config_option }
{
    Arg::new(alloc, CONFIG)
        .long(CONFIG)
        .value_name("FILE")
        .help("Read the settings from this TOML file")
}

fn no_config_flag<'a>(alloc: Global) -> Arg<'a>
    ensures { IsOption result no_config_flag }
{
    Arg::new(alloc, NO_CONFIG)
        .long(NO_CONFIG)
        .action(ArgAction::SetTrue)
        .help("Use the default settings; don't look for a settings file")
}

fn show_settings_flag<'a>(alloc: Global) -> Arg<'a>
    ensures { IsOption result show_settings_flag }
{
    Arg::new(alloc, SHOW_SETTINGS)
        .long(SHOW_SETTINGS)
        .action(ArgAction::SetTrue)
        .help("Print the settings in force as TOML, and do nothing else")
}

fn explain_flag<'a>(alloc: Global) -> Arg<'a>
    ensures { IsOption result explain_flag }
{
    Arg::new(alloc, EXPLAIN)
        .long(EXPLAIN)
        .action(ArgAction::SetTrue)
        .help("Explain errors and findings on standard error")
}

fn any_text_flag<'a>(alloc: Global) -> Arg<'a>
    ensures { IsOption result any_text_flag }
{
    Arg::new(alloc, ANY_TEXT)
        .long(ANY_TEXT)
        .action(ArgAction::SetTrue)
        .help("Don't skip encrypted files, templates and plain text over several lines")
}

fn stdin_name_option<'a>(alloc: Global) -> Arg<'a>
    ensures { IsOption result stdin_name_option }
{
    Arg::new(alloc, STDIN_NAME)
        .long(STDIN_NAME)
        .value_name("NAME")
        .help("Give standard input this name, for messages, excludes and templates")
}

fn names_flag<'a>(alloc: Global) -> Arg<'a>
    ensures { IsOption result names_flag }
{
    Arg::new(alloc, NAMES)
        .long(NAMES)
        .action(ArgAction::SetTrue)
        .help("Print the name of the input before each line, also for a single input")
}

fn write_flag<'a>(alloc: Global) -> Arg<'a>
    ensures { IsOption result write_flag }
{
    Arg::new(alloc, WRITE)
        .long(WRITE)
        .action(ArgAction::SetTrue)
        .help("Write the result back to FILE")
}

fn check_flag<'a>(alloc: Global) -> Arg<'a>
    ensures { IsOption result check_flag }
{
    Arg::new(alloc, CHECK)
        .long(CHECK)
        .action(ArgAction::SetTrue)
        .help("Print the first position that would change, and exit with 1 if there is one")
}

fn diff_flag<'a>(alloc: Global) -> Arg<'a>
    ensures { IsOption result diff_flag }
{
    Arg::new(alloc, DIFF)
        .long(DIFF)
        .action(ArgAction::SetTrue)
        .help("Print the changes as a unified diff, and exit with 1 if there are any")
}

pub(crate) fn format_option<'a>(alloc: Global, help: &'a str) -> Arg<'a>
    ensures { IsOption result format_option }
{
    Arg::new(alloc, FORMAT)
        .long(FORMAT)
        .value_name("FORMAT")
        .help(help)
}

pub(crate) fn lines_option<'a>(alloc: Global, help: &'a str) -> Arg<'a>
    ensures { IsOption result lines_option }
{
    Arg::new(alloc, LINES)
        .long(LINES)
        .value_name("LINES")
        .action(ArgAction::Append)
        .help(help)
}

fn stdio_flag<'a>(alloc: Global) -> Arg<'a>
    ensures { IsOption result stdio_flag }
{
    Arg::new(alloc, STDIO)
        .long(STDIO)
        .action(ArgAction::SetTrue)
        .help("Accepted for editors; changes nothing")
}

fn name_word<'a>(alloc: Global) -> Arg<'a>
    ensures { IsOption result name_word }
{
    Arg::new(alloc, NAME).value_name("NAME").help(
        "The name of a rule or of a refusal, such as quoting or read-failed",
    )
}

fn file_word<'a>(alloc: Global) -> Arg<'a>
    ensures { IsOption result file_word }
{
    Arg::new(alloc, FILE).value_name("FILE").help(
        "The file to read; without FILE, or with '-', standard input",
    )
}

pub(crate) fn file_words<'a>(alloc: Global) -> Arg<'a>
    ensures { IsOption result file_words }
{
    Arg::new(alloc, FILE)
        .value_name("FILE")
        .action(ArgAction::Append)
        .help("The files to read; without FILE, or for '-', standard input")
}
