//! What the words of `jsonfmt` ask for.
ghost use Rattle.std.specs.Prelude.{◌≡◌, IfErr, IfOk, map};
ghost use Rattle.clap.specs.Words.{app_of, found_of, kind_of, rows_of};
ghost use Rattle.formatter_files.specs.Faults.{IsRequestError};
ghost use Rattle.formatter_files.specs.Words.{HasWidth};
ghost use Rattle.jsonfmt.specs.Words.{AnswersWords, AsksForJson, AsksLines, AsksStyle, HasDepth, IsErrorFor, jsonfmt, matches};

use crate::words::{breaking, depth, fill, indent, lettered, line_end, word};
use clap::error::ErrorKind;
use clap::{ArgMatches, Command, Error};
use formatter_files::request_error::RequestError;
use formatter_files::task::Task;
use formatter_files::words::{
    flag, has_flag, number, program, task, width, with_files, with_width,
};
use json_formatter::Style;
use std::alloc::{AllocError, Global};
use std::convert::AsStr;

/// What the words ask for.
#[derive(Drop)]
pub struct JsonRequest<'w> {
    /// How files are laid out.
    pub style: Style,
    /// Whether each line of a file is a text of its own, laid out on one line.
    pub lines: bool,
    /// What is to become of the layouts, and of which files.
    pub task: Task<'w>,
}

// How deep lists may be in one another at most.
const MOST_LEVELS: u64 = 100_000;

// What is said after a wrong indent, a wrong line end, and a wrong word for what fills lines.
const NO_INDENT: &str =
    "'--indent <N|tab>': neither a number of columns up to 4294967295 nor `tab`";

const NO_LINE_END: &str = "'--line-ending <lf|crlf>'\n  [possible values: lf, crlf]";

const NO_FILL: &str = "'--fill <numbers|all|none>'\n  [possible values: numbers, all, none]";

/// The command `jsonfmt`.
fn command<'w>(alloc: Global) -> Result<Command<'w>, AllocError>
    ensures { IfOk result (λ made. app_of made ≡ jsonfmt) }
{
    let about = "Lays JSON texts out, and changes nothing but their white space";
    let command = with_width(alloc, program(alloc, "jsonfmt", "0.4.0", about))?;
    let members =
        "How far in the members of an array or an object are, or `tab`: a tab a level [default: 2]";
    let columns = word(alloc, "indent", "N|tab", members);
    let indent = lettered(columns, 'i');
    let with_indent = command.arg(indent)?;
    let filled =
        "Which arrays fill their lines: of numbers, all without arrays and objects, or none [default: numbers]";
    let fill = word(alloc, "fill", "numbers|all|none", filled);
    let with_fill = with_indent.arg(fill)?;
    let help = "Keep blank lines between members, of several one";
    let blank_lines = flag(alloc, "keep-blank-lines", help);
    let with_blank_lines = with_fill.arg(blank_lines)?;
    let ends = "How lines end [default: as the first line of the text]";
    let line_end = word(alloc, "line-ending", "lf|crlf", ends);
    let with_line_end = with_blank_lines.arg(line_end)?;
    let compact = flag(
        alloc,
        "compact",
        "Lay out by the value alone, and leave no blanks inside the braces of an object on one line",
    );
    let with_compact = with_line_end.arg(compact)?;
    let levels = "How deep arrays and objects may be in one another, up to 100000 [default: 1000]";
    let depth = number(alloc, "depth", MOST_LEVELS, levels);
    let with_depth = with_compact.arg(depth)?;
    let help = "Lay out each line of a file, as a text of its own, on one line";
    let lines = flag(alloc, "lines", help);
    with_files(alloc, with_depth.arg(lines)?)
}

/// The error for a wrong word, after which is said why it is none.
fn refuse(alloc: Global, word: Option<&str>, why: &str) -> Result<Error, AllocError>
    ensures { IfOk result (λ error. kind_of error ≡ ErrorKind.ValueValidation) }
{
    let word = word.unwrap_or("");
    let message = format!(in alloc; "invalid value '{word}' for {why}")?;
    command(alloc)?.error(ErrorKind::ValueValidation, message.as_str())
}

/// The error for an option that says how a text is broken into lines, where each text is a line.
fn refuse_breaking(alloc: Global, option: &str) -> Result<Error, AllocError>
    ensures { IfOk result (λ error. kind_of error ≡ ErrorKind.ArgumentConflict) }
{
    let message = format!(in alloc; "the argument '--lines' cannot be used with '{option}'")?;
    command(alloc)?.error(ErrorKind::ArgumentConflict, message.as_str())
}

/// How files are laid out, by what was read in the words.
///
/// An error where a word names no indent, no line end or nothing that fills lines, and where memory is refused.
fn style(alloc: Global, matches: &ArgMatches<'_>) -> Result<Style, Error>
    requires width { HasWidth (rows_of (found_of matches.now)) }
    requires depth { HasDepth (rows_of (found_of matches.now)) }
    ensures ok { IfOk result (AsksStyle (rows_of (found_of matches.now))) }
    ensures err { IfErr result (IsErrorFor (rows_of (found_of matches.now))) }
{
    let Some(indent) = indent(matches) else {
        return Err(refuse(alloc, matches.get_str("indent"), NO_INDENT)?);
    };
    let Some(line_end) = line_end(matches) else {
        return Err(refuse(alloc, matches.get_str("line-ending"), NO_LINE_END)?);
    };
    let Some(fill) = fill(matches) else {
        return Err(refuse(alloc, matches.get_str("fill"), NO_FILL)?);
    };
    Ok(Style {
        width: width(matches),
        indent: indent.columns,
        tabs: indent.tabs,
        line_end,
        fill,
        blank_lines: has_flag(matches, "keep-blank-lines"),
        compact: has_flag(matches, "compact"),
        depth: depth(matches),
    })
}

/// Whether each line of a file is a text of its own, by what was read in the words.
///
/// An error where it is said too how a text is broken into lines, and where memory is refused.
fn lines(alloc: Global, matches: &ArgMatches<'_>) -> Result<bool, Error>
    ensures ok { IfOk result (AsksLines (rows_of (found_of matches.now))) }
    ensures err { IfErr result (IsErrorFor (rows_of (found_of matches.now))) }
{
    let lines = has_flag(matches, "lines");
    if let Some(option) = breaking(matches) {
        if lines {
            return Err(refuse_breaking(alloc, option)?);
        }
    }
    Ok(lines)
}

/// What is asked for by what was read in the words.
fn asked<'w>(alloc: Global, matches: &ArgMatches<'w>) -> Result<JsonRequest<'w>, RequestError>
    requires width { HasWidth (rows_of (found_of matches.now)) }
    requires depth { HasDepth (rows_of (found_of matches.now)) }
    ensures ok { IfOk result (AsksForJson (rows_of (found_of matches.now))) }
    ensures err { let rows = rows_of (found_of matches.now) in IfErr result (IsRequestError (IsErrorFor rows) rows) }
{
    Ok(JsonRequest {
        style: style(alloc, matches)?,
        lines: lines(alloc, matches)?,
        task: task(alloc, matches)?,
    })
}

/// What the words ask for, of which the first names the program: what `clap` reads in them by the options of `jsonfmt`.
///
/// An error where they are not such words, where they ask for help or the version, where the indent is neither a number nor `tab`,
/// the line end neither `lf` nor `crlf`, or what fills lines neither `numbers`, `all` nor `none`, where it is said how a text is
/// broken while each is a line, and where files are to be replaced and to be compared alone.
pub fn requested<'w, S: AsStr>(
    alloc: Global,
    words: &'w [S],
) -> Result<JsonRequest<'w>, RequestError>
    ensures ok { IfOk result (AsksForJson (matches (map S.text words.entry.now))) }
    ensures err { AnswersWords (map S.text words.entry.now) result }
{
    let matches = command(alloc)?.try_get_matches_from(words)?;
    asked(alloc, &matches)
}
