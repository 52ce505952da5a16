ghost use Rattle.std.specs.Prelude.{◌≡◌, ◌==◌, cond};
ghost use Rattle.toml_grammar.specs.Strings as spec;

use crate::bytes::is_non_eol;

/// The quotes that strings are written with.
#[derive(Clone, Copy)]
pub(crate) enum Quoting {
    /// `"..."`, with escapes.
    Basic,
    /// `'...'`
    Literal,
}

/// Where in a string a byte stands.
#[derive(Clone, Copy)]
pub(crate) enum StringPlace {
    /// Before its first quote.
    Start,
    /// After the first quote.
    Opened(Quoting),
    /// After two quotes with nothing between them.
    Doubled(Quoting),
    /// In a string of one line.
    InLine(Quoting),
    /// After the quote that closes a string of one line.
    EndedLine,
    /// In a string of several lines.
    InLines(Quoting),
    /// After a CR in a string of several lines.
    Returned(Quoting),
    /// In a string of several lines, after one quote.
    Closing(Quoting),
    /// In a string of several lines, after two quotes.
    ClosingMore(Quoting),
    /// After the three quotes that close a string of several lines.
    Closed(Quoting),
    /// After one quote more.
    ClosedMore(Quoting),
    /// After two quotes more.
    EndedLines,
    /// After a backslash, in a string of several lines or of one.
    Escaped(bool),
    /// After a backslash and blanks in a string of several lines.
    Folded,
    /// In an escape in hex digits, in a string of several lines or of one. So many digits are due, and those before them
    /// write this.
    Hex(bool, u8, u32),
    /// The bytes are no beginning of a string.
    Wrong,
}

/// Whether the byte is the quote of the string.
#[inline]
fn is_mark(quoting: Quoting, byte: u8) -> bool
    ensures { result ≡ (byte == spec.mark_of quoting) }
{
    match quoting {
        Quoting::Basic => byte == b'"',
        Quoting::Literal => byte == b'\'',
    }
}

/// Whether the byte begins an escape.
#[inline]
fn begins_escape(quoting: Quoting, byte: u8) -> bool
    ensures { result ≡ spec.begins_escape quoting byte }
{
    match quoting {
        Quoting::Basic => byte == b'\\',
        Quoting::Literal => false,
    }
}

/// The place in the text of a string, of several lines or of one.
#[inline]
fn in_text(quoting: Quoting, lines: bool) -> StringPlace
    ensures { result ≡ spec.in_text quoting lines }
{
    if lines {
        StringPlace::InLines(quoting)
    } else {
        StringPlace::InLine(quoting)
    }
}

/// The place after a byte in a string of one line.
#[inline]
fn line_place(quoting: Quoting, byte: u8) -> StringPlace
    ensures { result ≡ spec.line_place quoting byte }
{
    if is_mark(quoting, byte) {
        StringPlace::EndedLine
    } else if begins_escape(quoting, byte) {
        StringPlace::Escaped(false)
    } else if is_non_eol(byte) {
        StringPlace::InLine(quoting)
    } else {
        StringPlace::Wrong
    }
}

/// The place after a byte in a string of several lines.
#[inline]
fn lines_place(quoting: Quoting, byte: u8) -> StringPlace
    ensures { result ≡ spec.lines_place quoting byte }
{
    if is_mark(quoting, byte) {
        StringPlace::Closing(quoting)
    } else if begins_escape(quoting, byte) {
        StringPlace::Escaped(true)
    } else if is_non_eol(byte) || byte == b'\n' {
        StringPlace::InLines(quoting)
    } else if byte == b'\r' {
        StringPlace::Returned(quoting)
    } else {
        StringPlace::Wrong
    }
}

/// Whether the byte is an escape of one letter, after the backslash.
#[inline]
fn is_escape_letter(byte: u8) -> bool
    ensures { result ≡ spec.is_escape_letter byte }
{
    matches!(byte, b'b' | b't' | b'n' | b'f' | b'r' | b'"' | b'\\')
}

/// The place after a byte where a line end is due, after a backslash.
#[inline]
fn folded_place(byte: u8) -> StringPlace
    ensures { result ≡ spec.folded_place byte }
{
    match byte {
        b' ' | b'\t' => StringPlace::Folded,
        b'\n' => StringPlace::InLines(Quoting::Basic),
        b'\r' => StringPlace::Returned(Quoting::Basic),
        _ => StringPlace::Wrong,
    }
}

/// The place after the byte that follows a backslash.
#[inline]
fn escaped_place(lines: bool, byte: u8) -> StringPlace
    ensures { result ≡ spec.escaped_place lines byte }
{
    if is_escape_letter(byte) {
        in_text(Quoting::Basic, lines)
    } else if byte == b'u' {
        StringPlace::Hex(lines, 4, 0)
    } else if byte == b'U' {
        StringPlace::Hex(lines, 8, 0)
    } else if lines {
        folded_place(byte)
    } else {
        StringPlace::Wrong
    }
}

/// Whether the value is a Unicode scalar value.
#[inline]
fn is_scalar(value: u32) -> bool
    ensures { result ≡ spec.is_scalar value }
{
    value < 0xD800 || (0xE000 <= value && value <= 0x10_FFFF)
}

/// The place after a hex digit, where so many were due before it.
#[inline]
fn after_hex(lines: bool, due: u8, value: u32) -> StringPlace
    ensures { result ≡ spec.after_hex lines due value }
{
    if 1 < due {
        StringPlace::Hex(lines, due - 1, value)
    } else if is_scalar(value) {
        in_text(Quoting::Basic, lines)
    } else {
        StringPlace::Wrong
    }
}

/// The place after a byte where hex digits are due.
#[inline]
fn hex_place(lines: bool, due: u8, value: u32, byte: u8) -> StringPlace
    ensures { result ≡ spec.hex_place lines due value byte }
{
    match char::from(byte).to_digit(16) {
        Some(digit) if value <= 0x10_FFFF => after_hex(lines, due, 16 * value + digit),
        _ => StringPlace::Wrong,
    }
}

/// The place where the byte is the quote of the string, and else the other place.
#[inline]
fn at_mark(quoting: Quoting, byte: u8, place: StringPlace, other: StringPlace) -> StringPlace
    ensures { result ≡ cond (byte == spec.mark_of quoting) place other }
{
    if is_mark(quoting, byte) { place } else { other }
}

/// The place after the first byte.
fn opened_place(byte: u8) -> StringPlace
    ensures { result ≡ spec.string_next StringPlace.Start byte }
{
    match byte {
        b'"' => StringPlace::Opened(Quoting::Basic),
        b'\'' => StringPlace::Opened(Quoting::Literal),
        _ => StringPlace::Wrong,
    }
}

/// The place after one byte more.
#[inline]
pub(crate) fn string_next(place: StringPlace, byte: u8) -> StringPlace
    ensures { result ≡ spec.string_next place byte }
{
    match place {
        StringPlace::Start => opened_place(byte),
        StringPlace::Opened(q) => at_mark(q, byte, StringPlace::Doubled(q), line_place(q, byte)),
        StringPlace::Doubled(q) => at_mark(q, byte, StringPlace::InLines(q), StringPlace::Wrong),
        StringPlace::InLine(q) => line_place(q, byte),
        StringPlace::InLines(q) => lines_place(q, byte),
        StringPlace::Returned(q) if byte == b'\n' => StringPlace::InLines(q),
        StringPlace::Closing(q) => at_mark(
            q,
            byte,
            StringPlace::ClosingMore(q),
            lines_place(q, byte),
        ),
        StringPlace::ClosingMore(q) => at_mark(
            q,
            byte,
            StringPlace::Closed(q),
            lines_place(q, byte),
        ),
        StringPlace::Closed(q) => at_mark(q, byte, StringPlace::ClosedMore(q), StringPlace::Wrong),
        StringPlace::ClosedMore(q) => at_mark(q, byte, StringPlace::EndedLines, StringPlace::Wrong),
        StringPlace::Escaped(lines) => escaped_place(lines, byte),
        StringPlace::Folded => folded_place(byte),
        StringPlace::Hex(lines, due, value) => hex_place(lines, due, value, byte),
        _ => StringPlace::Wrong,
    }
}

/// The place after all bytes.
fn string_place(text: &str) -> StringPlace
    ensures { result ≡ spec.string_place text.now }
{
    text.as_bytes().iter().fold(StringPlace::Start, |place, byte| string_next(place, *byte))
}

/// Whether a string lexeme is closed and valid, of the two kinds of one line, which may stand in a key.
#[tactic(auto, unfolding(crate::specs::Strings::is_key_string))]
pub fn is_key_string(text: &str) -> bool
    ensures { result ≡ spec.is_key_string text.now }
{
    matches!(
        string_place(text),
        StringPlace::Doubled(_) | StringPlace::EndedLine
    )
}

/// Whether a string lexeme is closed and valid, of any of the four kinds.
#[tactic(auto, unfolding(crate::specs::Strings::is_string, crate::specs::Strings::is_key_string))]
pub fn is_string(text: &str) -> bool
    ensures { result ≡ spec.is_string text.now }
{
    matches!(
        string_place(text),
        StringPlace::Doubled(_)
            | StringPlace::EndedLine
            | StringPlace::Closed(_)
            | StringPlace::ClosedMore(_)
            | StringPlace::EndedLines
    )
}
