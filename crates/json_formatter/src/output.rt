//! Where a layout goes: into a text, or to a writer.
ghost use Rattle.std.specs.Prelude.{◌≡◌, ℕ, ◌+◌, ◌<◌, ◌≤◌, List, ◌++◌, ◌∷◌, [], length, replicate, OnOk, OnErr, IfErr, IfSome, MatchOption};
ghost use Rattle.std.specs.Bool.{MatchBool};
ghost use Rattle.arrayvec.specs.ArrayString.{array_string_len};
ghost use Rattle.std.specs.String.{string_bytes};
ghost use Rattle.json.specs.Ascii.{line_feed};
ghost use Rattle.json_lexemes.specs.View.{text_of};
ghost use Rattle.std.specs.Io.KnownBytes.{Appends};
ghost use Rattle.prettyless_model.specs.Spaces.{spaces};
ghost use Rattle.prettyless_sink.specs.Sink.{AppendsProperBeginning};
ghost use Rattle.json_formatter.specs.Blanks.{blank_code};
ghost use Rattle.json_formatter.specs.Formats.{IsWriting};
ghost use Rattle.json_formatter.specs.Gaps.{gap_bytes};
ghost use Rattle.json_formatter.specs.Kept.{spelled_bytes};
ghost use Rattle.json_formatter.specs.Outputs.{WritesHeld, WriterFailed};

use crate::blanks::{Blank, MOST, some_blanks};
use crate::error::FormatError;
use crate::gaps::{Gap, Layout};
use crate::spelling::Spelled;
use arrayvec::ArrayString;
use json_lexemes::Lexeme;
use prettyless_sink::io_write::write_whole;
use std::alloc::AllocError;
use std::io::Write;

// A line end and 100 spaces.
const LINE: &str =
    "\n                                                                                                    ";

// A line end and 31 spaces.
const SHORT_LINE: &str = "\n                               ";

// How many bytes a writer is given at once, unless a lexeme has more.
const HELD: usize = 16_384;

// A line end and at most 100 spaces.
#[inline(always)]
fn some_line(indent: usize) -> &'static str
    requires { indent ≤ 100 }
    ensures { result.now ≡ line_feed ∷ spaces indent }
{
    &LINE[..indent + 1]
}

// Writes the whole text, or fails as `Write` after a beginning of it that is not all.
fn write_text<W: Write>(writer: &mut W, text: &[u8]) -> Result<(), FormatError>
    ensures ok { OnOk result (Appends (W.contents writer.old) (W.contents writer.new) text.now) }
    ensures beginning { OnErr result (AppendsProperBeginning (W.contents writer.old) (W.contents writer.new) text.now) }
    ensures err { IfErr result IsWriting }
{
    write_whole(writer, text).map_err(FormatError::Write)
}

// Gives the writer what is held and a text that does not fit after it.
fn write_held<W: Write>(
    writer: &mut W,
    held: &mut ArrayString<HELD>,
    text: &str,
) -> Result<(), FormatError>
    ensures ok { OnOk result (WritesHeld (W.contents writer.old) (W.contents writer.new) held.old.bytes held.new.bytes text.now) }
    ensures beginning { OnErr result (WriterFailed (W.contents writer.old) (W.contents writer.new) held.old.bytes text.now) }
    ensures err { IfErr result IsWriting }
{
    write_text(writer, held.as_str().as_bytes())?;
    held.clear();
    match held.try_push_str(text) {
        Ok(()) => Ok(()),
        Err(_) => write_text(writer, text.as_bytes()),
    }
}

// Puts a text after what is held for a writer.
#[inline(always)]
fn put<W: Write>(
    writer: &mut W,
    held: &mut ArrayString<HELD>,
    text: &str,
) -> Result<(), FormatError>
    ensures ok { OnOk result (WritesHeld (W.contents writer.old) (W.contents writer.new) held.old.bytes held.new.bytes text.now) }
    ensures beginning { OnErr result (WriterFailed (W.contents writer.old) (W.contents writer.new) held.old.bytes text.now) }
    ensures err { IfErr result IsWriting }
{
    match held.try_push_str(text) {
        Ok(()) => Ok(()),
        Err(_) => write_held(writer, held, text),
    }
}

// Puts so many blanks.
#[inline(always)]
fn put_blanks<W: Write>(
    writer: &mut W,
    held: &mut ArrayString<HELD>,
    blank: Blank,
    count: usize,
) -> Result<(), FormatError>
    ensures ok { OnOk result (WritesHeld (W.contents writer.old) (W.contents writer.new) held.old.bytes held.new.bytes
        (replicate count (blank_code blank))) }
    ensures beginning { OnErr result (WriterFailed (W.contents writer.old) (W.contents writer.new) held.old.bytes
        (replicate count (blank_code blank))) }
    ensures err { IfErr result IsWriting }
{
    let mut left = count;
    while left > 0 {
        let piece = left.min(MOST);
        put(writer, held, some_blanks(blank, piece))?;
        left -= piece;
    }
    Ok(())
}

// Puts a gap.
#[inline(always)]
fn put_gap<W: Write>(
    writer: &mut W,
    held: &mut ArrayString<HELD>,
    gap: Gap,
) -> Result<(), FormatError>
    ensures ok { OnOk result (WritesHeld (W.contents writer.old) (W.contents writer.new) held.old.bytes held.new.bytes (gap_bytes gap)) }
    ensures beginning { OnErr result (WriterFailed (W.contents writer.old) (W.contents writer.new) held.old.bytes (gap_bytes gap)) }
    ensures err { IfErr result IsWriting }
{
    match gap {
        Gap::Nothing => Ok(()),
        Gap::Space => put(writer, held, " "),
        Gap::Line(indent) if indent <= 100 => put(writer, held, some_line(indent)),
        Gap::Line(indent) => {
            put(writer, held, "\n")?;
            put_blanks(writer, held, Blank::Space, indent)
        }
        Gap::BlankLine(indent) => {
            put(writer, held, "\n\n")?;
            put_blanks(writer, held, Blank::Space, indent)
        }
    }
}

// Puts a gap as it is spelled.
#[inline(always)]
fn put_spelled<W: Write>(
    writer: &mut W,
    held: &mut ArrayString<HELD>,
    gap: Spelled,
) -> Result<(), FormatError>
    ensures ok { OnOk result (WritesHeld (W.contents writer.old) (W.contents writer.new) held.old.bytes held.new.bytes
        (spelled_bytes gap)) }
    ensures beginning { OnErr result (WriterFailed (W.contents writer.old) (W.contents writer.new) held.old.bytes (spelled_bytes gap)) }
    ensures err { IfErr result IsWriting }
{
    match gap {
        Spelled::Plain(gap) => put_gap(writer, held, gap),
        Spelled::Line(ends, tabs, spaces) => {
            put(writer, held, ends)?;
            put_blanks(writer, held, Blank::Tab, tabs)?;
            put_blanks(writer, held, Blank::Space, spaces)
        }
    }
}

// Holds a line end and at most 31 spaces. The bytes are copied in a step of 32, without a call.
#[inline(always)]
fn hold_short_line(held: &mut ArrayString<HELD>, indent: usize)
    requires indent { indent ≤ 31 }
    requires room { array_string_len held.old + 32 ≤ HELD }
    ensures { held.new.bytes ≡ held.old.bytes ++ (line_feed ∷ spaces indent) }
{
    let end = held.len() + (indent + 1);
    held.push_str(SHORT_LINE);
    held.truncate(end);
}

// Holds a word of a text. Those of one byte or two are copied without a call.
#[inline(always)]
fn hold_word(held: &mut ArrayString<HELD>, word: &str)
    requires { array_string_len held.old + length word.now ≤ HELD }
    ensures { held.new.bytes ≡ held.old.bytes ++ word.now }
{
    match word.len() {
        1 => held.push_str(word),
        2 => held.push_str(word),
        _ => held.push_str(word),
    }
}

// Holds a gap, unless it has more bytes than a line end and 100 spaces.
#[inline(always)]
fn hold_gap(held: &mut ArrayString<HELD>, gap: Gap) -> bool
    requires { array_string_len held.old + 101 ≤ HELD }
    ensures held { MatchBool result (held.new.bytes ≡ held.old.bytes ++ gap_bytes gap) (held.new ≡ held.old) }
    ensures len { array_string_len held.new ≤ array_string_len held.old + 101 }
{
    match gap {
        Gap::Nothing => {}
        Gap::Space => held.push_str(" "),
        Gap::Line(indent) if indent <= 31 => hold_short_line(held, indent),
        Gap::Line(indent) if indent <= 100 => held.push_str(some_line(indent)),
        Gap::Line(_) | Gap::BlankLine(_) => return false,
    }
    true
}

// Holds a lexeme.
#[inline(always)]
fn hold_lexeme(held: &mut ArrayString<HELD>, lexeme: Lexeme<'_>)
    requires { array_string_len held.old + length (text_of lexeme) ≤ HELD }
    ensures { held.new.bytes ≡ held.old.bytes ++ text_of lexeme.entry }
{
    match lexeme {
        Lexeme::OpenObject => held.push_str("{"),
        Lexeme::CloseObject => held.push_str("}"),
        Lexeme::OpenArray => held.push_str("["),
        Lexeme::CloseArray => held.push_str("]"),
        Lexeme::Comma => held.push_str(","),
        Lexeme::Colon => held.push_str(":"),
        Lexeme::String(word) | Lexeme::Word(word) => hold_word(held, word),
    }
}

// Holds a gap and the lexeme after it, if there is room for them and the gap is short.
#[inline(always)]
fn hold_plain(held: &mut ArrayString<HELD>, gap: Gap, lexeme: Lexeme<'_>) -> bool
    ensures { MatchBool result (held.new.bytes ≡ held.old.bytes ++ (gap_bytes gap ++ text_of lexeme.entry)) (held.new ≡ held.old) }
{
    if held.remaining_capacity() < 101 || held.remaining_capacity() - 101 < lexeme.text().len() {
        return false;
    }
    if !hold_gap(held, gap) {
        return false;
    }
    hold_lexeme(held, lexeme);
    true
}

// Holds a gap and the lexeme after it as `hold_plain` does, where the gap has line feeds and spaces alone.
#[inline(always)]
fn hold(held: &mut ArrayString<HELD>, gap: Spelled, lexeme: Lexeme<'_>) -> bool
    ensures { MatchBool result (held.new.bytes ≡ held.old.bytes ++ (spelled_bytes gap ++ text_of lexeme.entry))
        (held.new ≡ held.old) }
{
    match gap {
        Spelled::Plain(gap) => hold_plain(held, gap, lexeme),
        Spelled::Line(_, _, _) => false,
    }
}

// Holds the lexemes of a layout with their gaps, as long as `hold` does. Answers the first one that it doesn't hold, or `None`
// where none is left.
fn hold_some<'a>(
    held: &mut ArrayString<HELD>,
    layout: &mut Layout<'a>,
) -> Option<(Spelled, Lexeme<'a>)>
    ensures held { MatchOption result ((held.new.bytes ≡ held.old.bytes ++ layout.old) × (layout.new ≡ []))
        (λ next. (done : List ℕ) × (held.new.bytes ≡ held.old.bytes ++ done)
        × (layout.old ≡ done ++ (spelled_bytes next.0 ++ (text_of next.1 ++ layout.new)))) }
    ensures fewer { IfSome result (λ next. length layout.new < length layout.old) }
{
    while let Some((gap, lexeme)) = layout.next() {
        if !hold(held, gap, lexeme) {
            return Some((gap, lexeme));
        }
    }
    None
}

// Puts a layout.
fn put_layout<W: Write>(
    writer: &mut W,
    held: &mut ArrayString<HELD>,
    layout: &mut Layout<'_>,
) -> Result<(), FormatError>
    ensures ok { OnOk result (WritesHeld (W.contents writer.old) (W.contents writer.new) held.old.bytes held.new.bytes layout.old) }
    ensures beginning { OnErr result (WriterFailed (W.contents writer.old) (W.contents writer.new) held.old.bytes layout.old) }
    ensures err { IfErr result IsWriting }
{
    while let Some((gap, lexeme)) = hold_some(held, layout) {
        put_spelled(writer, held, gap)?;
        put(writer, held, lexeme.text())?;
    }
    Ok(())
}

/// Writes a layout and what ends it, or fails after a beginning of them that isn't all.
pub(crate) fn write_layout<W: Write>(
    writer: &mut W,
    layout: &mut Layout<'_>,
    end: &str,
) -> Result<(), FormatError>
    ensures ok { OnOk result (Appends (W.contents writer.old) (W.contents writer.new) (layout.old ++ end.now)) }
    ensures beginning { OnErr result
        (AppendsProperBeginning (W.contents writer.old) (W.contents writer.new) (layout.old ++ end.now)) }
    ensures err { IfErr result IsWriting }
{
    let mut held = ArrayString::new();
    put_layout(writer, &mut held, layout)?;
    put(writer, &mut held, end)?;
    write_text(writer, held.as_str().as_bytes())
}

// Adds so many blanks to a text.
#[inline(always)]
fn push_blanks(text: &mut String, blank: Blank, count: usize) -> Result<(), AllocError>
    ensures { OnOk result (string_bytes text.new ≡ string_bytes text.old ++ replicate count (blank_code blank)) }
{
    let mut left = count;
    while left > 0 {
        let piece = left.min(MOST);
        text.push_str(some_blanks(blank, piece))?;
        left -= piece;
    }
    Ok(())
}

// Adds a gap to a text.
#[inline(always)]
fn push_gap(text: &mut String, gap: Gap) -> Result<(), AllocError>
    ensures { OnOk result (string_bytes text.new ≡ string_bytes text.old ++ gap_bytes gap) }
{
    match gap {
        Gap::Nothing => Ok(()),
        Gap::Space => text.push_str(" "),
        Gap::Line(indent) if indent <= 100 => text.push_str(some_line(indent)),
        Gap::Line(indent) => {
            text.push_str("\n")?;
            push_blanks(text, Blank::Space, indent)
        }
        Gap::BlankLine(indent) => {
            text.push_str("\n\n")?;
            push_blanks(text, Blank::Space, indent)
        }
    }
}

// Adds a gap to a text as it is spelled.
#[inline(always)]
fn push_spelled(text: &mut String, gap: Spelled) -> Result<(), AllocError>
    ensures { OnOk result (string_bytes text.new ≡ string_bytes text.old ++ spelled_bytes gap) }
{
    match gap {
        Spelled::Plain(gap) => push_gap(text, gap),
        Spelled::Line(ends, tabs, spaces) => {
            text.push_str(ends)?;
            push_blanks(text, Blank::Tab, tabs)?;
            push_blanks(text, Blank::Space, spaces)
        }
    }
}

// Adds a lexeme to a text.
#[inline(always)]
fn push_lexeme(text: &mut String, lexeme: Lexeme<'_>) -> Result<(), AllocError>
    ensures { OnOk result (string_bytes text.new ≡ string_bytes text.old ++ text_of lexeme.entry) }
{
    match lexeme {
        Lexeme::OpenObject => text.push_str("{"),
        Lexeme::CloseObject => text.push_str("}"),
        Lexeme::OpenArray => text.push_str("["),
        Lexeme::CloseArray => text.push_str("]"),
        Lexeme::Comma => text.push_str(","),
        Lexeme::Colon => text.push_str(":"),
        Lexeme::String(word) | Lexeme::Word(word) => text.push_str(word),
    }
}

/// Adds a layout to a text, and what ends it, or memory was refused.
pub(crate) fn push_layout(
    text: &mut String,
    layout: &mut Layout<'_>,
    end: &str,
) -> Result<(), AllocError>
    ensures { OnOk result (string_bytes text.new ≡ string_bytes text.old ++ (layout.old ++ end.now)) }
{
    while let Some((gap, lexeme)) = layout.next() {
        push_spelled(text, gap)?;
        push_lexeme(text, lexeme)?;
    }
    text.push_str(end)
}
