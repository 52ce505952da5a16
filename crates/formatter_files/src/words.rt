//! The options that programs which format files have in common.
ghost use Rattle.std.specs.Prelude.{◌≡◌, IfErr, IfOk, false, is_some};
ghost use Rattle.clap.specs.Words.{app_of, first_of, found_of, rows_of, rule_of};
ghost use Rattle.formatter_files.specs.Faults.{IsRequestError, IsOutOfMemory};
ghost use Rattle.formatter_files.specs.Words.{HasIndent, HasWidth, IsIndent, IsTask, IsWidth, action_asked, files, flag, has_flag};
ghost use Rattle.formatter_files.specs.Words.{number_rule, program, with_files, with_letter, with_numbers, with_width};

use crate::action::{Action, Report, WriteConflict};
use crate::request_error::RequestError;
use crate::task::Task;
use clap::builder::ValueParser;
use clap::{Arg, ArgAction, ArgMatches, Command};
use std::alloc::{AllocError, Global};

/// An option that takes a number, no greater than `most`.
pub fn number<'w>(alloc: Global, name: &'w str, most: u64, help: &'w str) -> Arg<'w>
    ensures rule { rule_of result ≡ number_rule name.entry.now most }
    ensures local { result.global ≡ false }
{
    Arg::new(alloc, name)
        .long(name)
        .value_name("N")
        .value_parser(ValueParser::unsigned(0, most))
        .help(help)
}

/// An option that takes no value.
pub fn flag<'w>(alloc: Global, name: &'w str, help: &'w str) -> Arg<'w>
    ensures rule { rule_of result ≡ flag name.entry.now }
    ensures local { result.global ≡ false }
{
    Arg::new(alloc, name)
        .long(name)
        .action(ArgAction::SetTrue)
        .help(help)
}

/// The option under a letter too: `-w` stands for `--write`.
fn lettered<'w>(arg: Arg<'w>, letter: char) -> Arg<'w>
    ensures rule { rule_of result ≡ with_letter letter (rule_of arg.entry) }
    ensures local { result.global ≡ arg.entry.global }
{
    arg.short(letter)
}

/// The files, as many as there are.
fn files<'w>(alloc: Global) -> Arg<'w>
    ensures rule { rule_of result ≡ files }
    ensures local { result.global ≡ false }
{
    Arg::new(alloc, "FILE").action(ArgAction::Append).help(
        "Files and folders to lay out, `-` for standard input [default: -]",
    )
}

/// A program of this name, with no option yet. Its `version` and what it is `about` are for people.
pub fn program<'w>(alloc: Global, name: &'w str, version: &'w str, about: &'w str) -> Command<'w>
    ensures { app_of result ≡ program name.entry.now }
{
    Command::new(alloc, name).version(version).about(about)
}

/// The command with the option `--width`.
///
/// `AllocError` where memory is refused.
pub fn with_width<'w>(alloc: Global, command: Command<'w>) -> Result<Command<'w>, AllocError>
    ensures { IfOk result (λ made. app_of made ≡ with_width (app_of command.entry)) }
{
    command.arg(number(
        alloc,
        "width",
        u64::MAX,
        "The width of a line, in columns [default: 80]",
    ))
}

/// The command with the options `--width` and `--indent` or `-i`, of which the second says how far the `members` are indented.
///
/// `AllocError` where memory is refused.
pub fn with_numbers<'w>(
    alloc: Global,
    command: Command<'w>,
    members: &'w str,
) -> Result<Command<'w>, AllocError>
    ensures { IfOk result (λ made. app_of made ≡ with_numbers (app_of command.entry)) }
{
    let with_width = with_width(alloc, command)?;
    with_width.arg(lettered(number(alloc, "indent", u64::from(u32::MAX), members), 'i'))
}

/// The command with `--check`, `--diff`, `--write`, their letters, and the files.
///
/// `AllocError` where memory is refused.
pub fn with_files<'w>(alloc: Global, command: Command<'w>) -> Result<Command<'w>, AllocError>
    ensures { IfOk result (λ made. app_of made ≡ with_files (app_of command.entry)) }
{
    command
        .arg(lettered(
            flag(
                alloc,
                "check",
                "Write nothing, name each file that is not laid out so, and end with 1 if one is not",
            ),
            'c',
        ))?
        .arg(lettered(
            flag(
                alloc,
                "diff",
                "Write nothing to files, print how each differs from its layout, and end with 1 if one does",
            ),
            'd',
        ))?
        .arg(lettered(
            flag(
                alloc,
                "write",
                "Replace each file that is not laid out so by its layout",
            ),
            'w',
        ))?
        .arg(flag(alloc, "no-editorconfig", "Read no `.editorconfig` files"))?
        .arg(files(alloc))
}

/// Whether the flag is given: its value is `true` where it is.
pub fn has_flag(matches: &ArgMatches<'_>, name: &str) -> bool
    ensures { result ≡ has_flag name.now (rows_of (found_of matches.now)) }
{
    match matches.get_str(name) {
        Some(value) => value == "true",
        None => false,
    }
}

/// Whether the option is given a value.
pub fn is_given(matches: &ArgMatches<'_>, name: &str) -> bool
    ensures { result ≡ is_some (first_of name.now (rows_of (found_of matches.now))) }
{
    matches.get_str(name).is_some()
}

/// The width that is asked for, in columns.
pub fn width(matches: &ArgMatches<'_>) -> usize
    requires { HasWidth (rows_of (found_of matches.now)) }
    ensures { IsWidth (rows_of (found_of matches.now)) result }
{
    matches.get_one("width").unwrap_or(80)
}

/// The indent that is asked for, in columns.
pub fn indent(matches: &ArgMatches<'_>) -> u32
    requires { HasIndent (rows_of (found_of matches.now)) }
    ensures { IsIndent (rows_of (found_of matches.now)) result }
{
    matches.get_one("indent").unwrap_or(2)
}

/// What is to be done with layouts.
///
/// `WriteConflict` where `--write` is given with `--check` or `--diff`.
fn action(matches: &ArgMatches<'_>) -> Result<Action, WriteConflict>
    ensures { result ≡ action_asked (rows_of (found_of matches.now)) }
{
    let report = Report::of(has_flag(matches, "check"), has_flag(matches, "diff"));
    Action::of(has_flag(matches, "write"), report)
}

/// What is to become of layouts, and of which files.
///
/// An error where `--write` is given with `--check` or `--diff`, and where memory is refused.
pub fn task<'w>(alloc: Global, matches: &ArgMatches<'w>) -> Result<Task<'w>, RequestError>
    ensures ok { IfOk result (IsTask (rows_of (found_of matches.now))) }
    ensures err { IfErr result (IsRequestError IsOutOfMemory (rows_of (found_of matches.now))) }
{
    Ok(Task {
        action: action(matches)?,
        editorconfig: !has_flag(matches, "no-editorconfig"),
        has_width: is_given(matches, "width"),
        has_indent: is_given(matches, "indent"),
        files: Vec::from_slice(alloc, matches.get_strs("FILE").unwrap_or(&[]))?,
    })
}
