//! What the words of `tomlfmt` ask for.
ghost use Rattle.std.specs.Prelude.{◌≡◌, IfErr, IfOk, map};
ghost use Rattle.clap.specs.Words.{app_of, found_of, rows_of};
ghost use Rattle.formatter_files.specs.Faults.{IsRequestError, IsOutOfMemory};
ghost use Rattle.formatter_files.specs.Words.{HasIndent, HasWidth};
ghost use Rattle.tomlfmt.specs.Words.{AnswersTomlWords, AsksForToml, tomlfmt, tomlfmt_matches};

use clap::{ArgMatches, Command};
use formatter_files::request_error::RequestError;
use formatter_files::task::Task;
use formatter_files::words::{
    flag, has_flag, indent, program, task, width, with_files, with_numbers,
};
use std::alloc::{AllocError, Global};
use std::convert::AsStr;
use toml_formatter::Style;

/// What the words ask for.
#[derive(Drop)]
pub struct TomlRequest<'w> {
    /// How files are laid out.
    pub style: Style,
    /// What is to become of the layouts, and of which files.
    pub task: Task<'w>,
}

/// The command `tomlfmt`.
fn command<'w>(alloc: Global) -> Result<Command<'w>, AllocError>
    ensures { IfOk result (λ made. app_of made ≡ tomlfmt) }
{
    let about = "Lays TOML texts out, and changes no key, value or comment";
    let members = "How far in the members of a broken array are [default: 2]";
    let command = with_numbers(alloc, program(alloc, "tomlfmt", "0.4.0", about), members)?;
    let no_align = flag(alloc, "no-align", "Align no comments at the ends of lines");
    with_files(alloc, command.arg(no_align)?)
}

/// What is asked for by what was read in the words.
fn asked<'w>(alloc: Global, matches: &ArgMatches<'w>) -> Result<TomlRequest<'w>, RequestError>
    requires width { HasWidth (rows_of (found_of matches.now)) }
    requires indent { HasIndent (rows_of (found_of matches.now)) }
    ensures ok { IfOk result (AsksForToml (rows_of (found_of matches.now))) }
    ensures err { IfErr result (IsRequestError IsOutOfMemory (rows_of (found_of matches.now))) }
{
    Ok(TomlRequest {
        style: Style {
            width: width(matches),
            indent: indent(matches),
            align: !has_flag(matches, "no-align"),
        },
        task: task(alloc, matches)?,
    })
}

/// What the words ask for, of which the first names the program: what `clap` reads in them by the options of `tomlfmt`.
///
/// An error where they are not such words, where they ask for help or the version, and where files are to be replaced and to be
/// compared alone.
pub fn requested<'w, S: AsStr>(
    alloc: Global,
    words: &'w [S],
) -> Result<TomlRequest<'w>, RequestError>
    ensures ok { IfOk result (AsksForToml (tomlfmt_matches (map S.text words.entry.now))) }
    ensures err { AnswersTomlWords (map S.text words.entry.now) result }
{
    let matches = command(alloc)?.try_get_matches_from(words)?;
    asked(alloc, &matches)
}
