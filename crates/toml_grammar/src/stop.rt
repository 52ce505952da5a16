//! How far into the lexeme of a fault a text is TOML, what was expected there, and what stands there.
ghost use Rattle.std.specs.Prelude.{◌≡◌, slice_index};
ghost use Rattle.toml_grammar.specs.Stops as spec;

use crate::expected::Expected;
use crate::fault::Fault;
use crate::word_stop::{StringDue, comment_stop, string_stop};
use toml_lexemes::Lexeme;

/// What stands where something else was expected.
#[derive(Clone, Copy, Drop)]
pub enum Found<'t> {
    /// A byte that is no UTF-8.
    Byte,
    /// This lexeme.
    Lexeme(Lexeme<'t>),
    /// This byte of a string or a comment.
    Letter(u8),
    /// A backslash in a string, and this byte after it.
    Escape(u8),
    /// A blank.
    Blank,
    /// The end of the text.
    End,
}

/// Where a text stops being TOML within a lexeme.
#[derive(Clone, Copy)]
pub(crate) struct Stop<'t> {
    /// After so many of its bytes.
    pub within: usize,
    /// What was expected there.
    pub expected: Expected,
    /// What stands there.
    pub found: Found<'t>,
}

/// What stands where a lexeme, or none, was found.
pub(crate) fn found_of(lexeme: Option<Lexeme<'_>>) -> Found<'_>
    ensures { result ≡ spec.found_of lexeme.entry }
{
    match lexeme {
        Some(lexeme) => Found::Lexeme(lexeme),
        None => Found::End,
    }
}

/// What was expected in a string.
fn expected_for_due(due: StringDue) -> Expected
    ensures { result ≡ spec.expected_for_due due }
{
    match due {
        StringDue::Quote => Expected::Quote,
        StringDue::Quotes => Expected::Quotes,
        StringDue::Escape => Expected::Escape,
        StringDue::Digit => Expected::Digit,
        StringDue::Scalar => Expected::Scalar,
        StringDue::LineEnd => Expected::LineEnd,
        StringDue::LineFeed => Expected::LineFeed,
        StringDue::Plain => Expected::Plain,
    }
}

/// What stands in a string in place of what was to come, at the end of the text or before it.
fn found_in_string<'t>(due: StringDue, at_end: bool, byte: u8) -> Found<'t>
    ensures { result ≡ spec.found_in_string due at_end byte }
{
    match due {
        StringDue::Quote | StringDue::Quotes if at_end => Found::End,
        StringDue::Quote | StringDue::Quotes => Found::Lexeme(Lexeme::LineEnd),
        StringDue::Escape => Found::Escape(byte),
        _ => Found::Letter(byte),
    }
}

/// The byte at a place of a text, or 0 past the end.
fn byte_at(text: &str, place: usize) -> u8
    ensures { result ≡ slice_index text.now place }
{
    text.as_bytes().get(place).copied().unwrap_or(0)
}

/// Where a string stops being one of TOML, which is the last lexeme of the text or not.
fn in_string<'t>(text: &'t str, is_last: bool) -> Stop<'t>
    ensures { result ≡ spec.in_string text.now is_last }
{
    let stop = string_stop(text);
    let at_end = is_last && stop.count == text.len();
    let within = if matches!(stop.due, StringDue::Escape) {
        stop.count.saturating_sub(1)
    } else {
        stop.count
    };
    Stop {
        within,
        expected: expected_for_due(stop.due),
        found: found_in_string(stop.due, at_end, byte_at(text, stop.count)),
    }
}

/// The same in a key, where no string of several lines may stand.
fn in_key_string<'t>(text: &'t str, is_last: bool) -> Stop<'t>
    ensures { result ≡ spec.in_key_string text.entry is_last }
{
    let stop = in_string(text, is_last);
    match stop.expected {
        Expected::Quotes => Stop {
            within: 0,
            expected: Expected::OneLine,
            found: Found::Lexeme(Lexeme::String(text)),
        },
        _ => stop,
    }
}

/// Where a comment stops being one of TOML.
fn in_comment<'t>(text: &'t str) -> Stop<'t>
    ensures { result ≡ spec.in_comment text.now }
{
    let within = comment_stop(text);
    Stop {
        within,
        expected: Expected::Plain,
        found: Found::Letter(byte_at(text, within)),
    }
}

/// Where the text stops at a fault, whose lexeme is the last one of the text or not.
pub(crate) fn stop_of(fault: Fault<'_>, is_last: bool) -> Stop<'_>
    ensures { result ≡ spec.stop_of fault.entry is_last }
{
    match (fault.expected, fault.found) {
        (Expected::String, Some(Lexeme::String(text))) => in_string(text, is_last),
        (Expected::KeyString, Some(Lexeme::String(text))) => in_key_string(text, is_last),
        (Expected::Comment, Some(Lexeme::Comment(text))) => in_comment(text),
        (expected, found) => Stop {
            within: 0,
            expected,
            found: found_where(expected, found),
        },
    }
}

/// What stands at the beginning of a lexeme: a blank before it, where nothing may be between two brackets.
fn found_where(expected: Expected, lexeme: Option<Lexeme<'_>>) -> Found<'_>
    ensures { result ≡ spec.found_where expected lexeme.entry }
{
    match (expected, lexeme) {
        (Expected::Bracket, Some(Lexeme::CloseArray)) => Found::Blank,
        _ => found_of(lexeme),
    }
}
