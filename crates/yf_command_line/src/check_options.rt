//! `check` and its options, as the library for command lines takes them.
ghost use Rattle.std.specs.Prelude.{IfOk};
ghost use Rattle.yf_command_line.specs.Options.{IsOption, IsPart, baseline_option, checking_command, choosing_command};
ghost use Rattle.yf_command_line.specs.Options.{color_option, max_findings_option, printing_command, statistics_flag};
ghost use Rattle.yf_command_line.specs.Options.{without_option};

use crate::options::{
    BASELINE, CHECK, COLOR, MAX_FINDINGS, STATISTICS, WITHOUT, file_words, format_option,
    lines_option, naming, with_arg,
};
use clap::{Arg, ArgAction, Command};
use std::alloc::{AllocError, Global};

pub(crate) fn check_command<'a>(alloc: Global) -> Result<Command<'a>, AllocError>
    ensures { IfOk result (λ c. IsPart c checking_command) }
{
    with_arg(printing_command(alloc), file_words(alloc))
}

// Returns `check` with all its options.
fn printing_command<'a>(alloc: Global) -> Result<Command<'a>, AllocError>
    ensures { IfOk result (λ c. IsPart c printing_command) }
{
    let format = format_option(
        alloc,
        "Print the findings as line, full, json, sarif, github, gitlab, junit, checkstyle or baseline",
    );
    let printing = with_arg(choosing_command(alloc), format);
    let counting = with_arg(printing, statistics_flag(alloc));
    let limiting = with_arg(counting, max_findings_option(alloc));
    with_arg(limiting, color_option(alloc))
}

// Returns `check` with the options of `naming`, `--without`, `--lines` and `--baseline`.
fn choosing_command<'a>(alloc: Global) -> Result<Command<'a>, AllocError>
    ensures { IfOk result (λ c. IsPart c choosing_command) }
{
    let command = naming(alloc, CHECK, "Report where a file breaks a style rule");
    let leaving_out = with_arg(command, without_option(alloc));
    let lines = lines_option(
        alloc,
        "Print only the findings on these lines, for example 3-7,12",
    );
    let choosing = with_arg(leaving_out, lines);
    with_arg(choosing, baseline_option(alloc))
}

fn without_option<'a>(alloc: Global) -> Arg<'a>
    ensures { IsOption result without_option }
{
    Arg::new(alloc, WITHOUT)
        .long(WITHOUT)
        .value_name("RULES")
        .action(ArgAction::Append)
        .help("Skip the rules with these ids (comma-separated)")
}

fn baseline_option<'a>(alloc: Global) -> Arg<'a>
    ensures { IsOption result baseline_option }
{
    Arg::new(alloc, BASELINE)
        .long(BASELINE)
        .value_name("FILE")
        .help("Leave out the findings that this baseline lists")
}

fn statistics_flag<'a>(alloc: Global) -> Arg<'a>
    ensures { IsOption result statistics_flag }
{
    Arg::new(alloc, STATISTICS)
        .long(STATISTICS)
        .action(ArgAction::SetTrue)
        .help("Print the number of findings of each rule")
}

fn max_findings_option<'a>(alloc: Global) -> Arg<'a>
    ensures { IsOption result max_findings_option }
{
    Arg::new(alloc, MAX_FINDINGS)
        .long(MAX_FINDINGS)
        .value_name("N")
        .help("Print at most N findings")
}

fn color_option<'a>(alloc: Global) -> Arg<'a>
    ensures { IsOption result color_option }
{
    Arg::new(alloc, COLOR)
        .long(COLOR)
        .value_name("WHEN")
        .help("When --format full has colors: auto, always or never")
}
