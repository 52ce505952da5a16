//! What single words of `jsonfmt` ask for.
ghost use Rattle.std.specs.Prelude.{◌≡◌, MatchOption, false, is_some};
ghost use Rattle.clap.specs.Words.{found_of, rows_of, rule_of};
ghost use Rattle.formatter_files.specs.Words.{with_letter};
ghost use Rattle.jsonfmt.specs.Words.{AsksIndent, AsksNoIndent, HasDepth, IsDepth, breaks_texts, fill_asked, fills_named};
ghost use Rattle.jsonfmt.specs.Words.{indent_word, line_end_named, line_end_of, word_rule};

use clap::{Arg, ArgMatches};
use formatter_files::words::{has_flag, is_given};
use json_formatter::{Fill, LineEnd};
use std::alloc::Global;

/// How far in the members of an array or an object are.
#[derive(Clone, Copy)]
pub(crate) struct Indentation {
    pub columns: u32,
    pub tabs: bool,
}

/// Where none is asked for.
const TWO_SPACES: Indentation = Indentation {
    columns: 2,
    tabs: false,
};

/// A tab, which counts 4 columns where nothing else is said.
pub(crate) const TAB: Indentation = Indentation {
    columns: 4,
    tabs: true,
};

/// An option that takes a word. Help calls that `value`.
pub(crate) fn word<'w>(alloc: Global, name: &'w str, value: &'w str, help: &'w str) -> Arg<'w>
    ensures rule { rule_of result ≡ word_rule name.entry.now }
    ensures local { result.global ≡ false }
{
    Arg::new(alloc, name)
        .long(name)
        .value_name(value)
        .help(help)
}

/// The option under a letter too.
pub(crate) fn lettered<'w>(arg: Arg<'w>, letter: char) -> Arg<'w>
    ensures rule { rule_of result ≡ with_letter letter (rule_of arg.entry) }
    ensures local { result.global ≡ arg.entry.global }
{
    arg.short(letter)
}

// The indent that a word asks for, if it is one.
fn indent_named(word: &str) -> Option<Indentation>
    ensures { MatchOption result (AsksNoIndent (Some word.now)) (λ indent. AsksIndent (Some word.now) indent.columns indent.tabs) }
{
    if word == "tab" {
        return Some(TAB);
    }
    match word.parse::<u32>() {
        Ok(columns) => Some(Indentation {
            columns,
            tabs: false,
        }),
        Err(_) => None,
    }
}

/// The indent that is asked for, or `None` where a word asks for it that is none.
pub(crate) fn indent(matches: &ArgMatches<'_>) -> Option<Indentation>
    ensures { let word = indent_word (rows_of (found_of matches.now)) in
        MatchOption result (AsksNoIndent word) (λ indent. AsksIndent word indent.columns indent.tabs) }
{
    match matches.get_str("indent") {
        Some(word) => indent_named(word),
        None => Some(TWO_SPACES),
    }
}

// The line end that a word names.
fn line_end_named(word: &str) -> Option<LineEnd>
    ensures { result ≡ line_end_named word.now }
{
    if word == "lf" {
        Some(LineEnd::Lf)
    } else if word == "crlf" {
        Some(LineEnd::CrLf)
    } else {
        None
    }
}

/// The line end that is asked for, or `None` where a word names none.
pub(crate) fn line_end(matches: &ArgMatches<'_>) -> Option<LineEnd>
    ensures { result ≡ line_end_of (rows_of (found_of matches.now)) }
{
    match matches.get_str("line-ending") {
        Some(word) => line_end_named(word),
        None => Some(LineEnd::OfText),
    }
}

// The arrays that a word names.
fn fills_named(word: &str) -> Option<Fill>
    ensures { result ≡ fills_named word.now }
{
    if word == "numbers" {
        Some(Fill::Numbers)
    } else if word == "all" {
        Some(Fill::All)
    } else if word == "none" {
        Some(Fill::Nothing)
    } else {
        None
    }
}

/// Which arrays are to fill their lines, or `None` where a word names none such.
pub(crate) fn fill(matches: &ArgMatches<'_>) -> Option<Fill>
    ensures { result ≡ fill_asked (rows_of (found_of matches.now)) }
{
    match matches.get_str("fill") {
        Some(word) => fills_named(word),
        None => Some(Fill::Numbers),
    }
}

/// How deep lists may be in one another, as is asked for.
pub(crate) fn depth(matches: &ArgMatches<'_>) -> usize
    requires { HasDepth (rows_of (found_of matches.now)) }
    ensures { IsDepth (rows_of (found_of matches.now)) result }
{
    matches.get_one("depth").unwrap_or(1000)
}

/// The first option that is given and says how a text is broken into lines, as messages name it.
pub(crate) fn breaking(matches: &ArgMatches<'_>) -> Option<&'static str>
    ensures { is_some result ≡ breaks_texts (rows_of (found_of matches.now)) }
{
    if is_given(matches, "width") {
        Some("--width <N>")
    } else if is_given(matches, "indent") {
        Some("--indent <N|tab>")
    } else if is_given(matches, "fill") {
        Some("--fill <numbers|all|none>")
    } else if has_flag(matches, "keep-blank-lines") {
        Some("--keep-blank-lines")
    } else {
        None
    }
}
