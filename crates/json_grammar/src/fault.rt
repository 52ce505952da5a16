//! Where a text stops being JSON, and what it was to have there.
ghost use Rattle.std.specs.Prelude.{◌≡◌, ◌+◌, ◌^◌, ◌<◌, ◌≤◌, length, min, take, None, IfOk, IfSome};
ghost use Rattle.std.specs.Str.{IsUtf8};
ghost use Rattle.json_validity.specs.Document.{document};
ghost use Rattle.text_lexemes.specs.Places.{IsPlace, IsPlaceWithin};
ghost use Rattle.json.specs.Ascii as ascii;
ghost use Rattle.json.specs.Word.{head};
ghost use Rattle.json_lexemes.specs.View.{IsNamed, text_of};
ghost use Rattle.json_grammar.specs.Faults.{IsEndOfUtf8, IsExpectedBy, IsFaultBy, IsFaultInWord, IsStopFrom};
ghost use Rattle.json_grammar.specs.Faults.{NamesJsonStop, StopsBeingJson};
ghost use Rattle.json_grammar.specs.Readings.{json_sort_of};
ghost use Rattle.json_grammar.specs.Steps.{json_reading_of};
ghost use Rattle.json_grammar.specs.Strings.{IsStringFault};

use crate::expected::Expected;
use crate::next::{Bracket, Reading};
use crate::string::refused_part;
use json_lexemes::{Lexeme, Lexer, spaces_end};
use std::alloc::{AllocError, Global};
use std::str::from_utf8;
use text_lexemes::{Place, place_at};

/// Why a text is not JSON.
#[derive(Clone, Copy, Drop)]
pub struct Fault<'t> {
    /// The byte from which on it is none.
    pub place: Place,
    /// What was expected there.
    pub expected: Expected,
    /// The lexeme that stands there, and of a string that is refused for a part of it this part, as a word. `None` at the end, and
    /// where the bytes are no UTF-8.
    pub found: Option<Lexeme<'t>>,
    /// Where the string begins whose closing quote was expected, or the bracket stands that is open at the end of the text or where
    /// a bracket of the other kind is.
    pub opened: Option<Place>,
}

/// A fault, by its offset.
#[derive(Clone, Copy, Drop)]
struct Stop<'t> {
    offset: usize,
    expected: Expected,
    found: Option<Lexeme<'t>>,
    opened: Option<usize>,
}

/// The stop in a string that begins at this offset, which is not JSON: at the first part that may not be there, or at its end, where
/// its closing quote is missing.
fn stop_in_string(text: &str, offset: usize) -> Stop<'_>
    requires { offset + length text.now < 2 ^ 64 }
    ensures { head text.now ≡ ascii.quote
        → IsStopFrom offset result.offset (λ within. IsStringFault text.now within result.expected) }
{
    let part = refused_part(text);
    Stop {
        offset: offset.saturating_add(part.offset),
        expected: part.expected,
        found: if part.text.is_empty() {
            None
        } else {
            Some(Lexeme::Word(part.text))
        },
        opened: if part.expected == Expected::Quote {
            Some(offset)
        } else {
            None
        },
    }
}

/// The stop in a word that begins at this offset, where something else was expected: after the value that it begins with, if it
/// does, where one may come.
fn stop_in_word<'t>(
    reading: &mut Reading,
    word: &'t str,
    offset: usize,
    expected: Expected,
) -> Result<Stop<'t>, AllocError>
    requires { offset + length word.now < 2 ^ 64 }
    ensures { expected ≡ reading.old.next → IfOk result (λ stop. IsStopFrom offset stop.offset
        (λ within. IsFaultInWord (json_reading_of reading.old) word.now within stop.expected)) }
{
    match reading.value_in(word)? {
        Some((len, expected)) => Ok(Stop {
            offset: offset.saturating_add(len),
            expected,
            found: Some(Lexeme::Word(word.get(len..).unwrap_or(""))),
            opened: None,
        }),
        None => Ok(Stop {
            offset,
            expected,
            found: Some(Lexeme::Word(word)),
            opened: None,
        }),
    }
}

/// Where the bracket stands that is open, if this is one that closes the other kind.
fn mismatched(reading: &Reading, lexeme: Lexeme<'_>) -> Option<usize> {
    match (lexeme, reading.innermost()) {
        (Lexeme::CloseArray, Some(Bracket::Object)) => reading.opened(),
        (Lexeme::CloseObject, Some(Bracket::Array)) => reading.opened(),
        _ => None,
    }
}

/// The stop at a lexeme that begins at this offset, where something else was expected.
fn stop_at<'t>(
    reading: &mut Reading,
    lexeme: Lexeme<'t>,
    offset: usize,
    expected: Expected,
) -> Result<Stop<'t>, AllocError>
    requires { offset + length (text_of lexeme) < 2 ^ 64 }
    ensures { IsNamed lexeme.entry → IsExpectedBy (json_sort_of (text_of lexeme.entry)) (json_reading_of reading.old) expected
        → IfOk result (λ stop. IsStopFrom offset stop.offset (λ within.
        IsFaultBy (json_sort_of (text_of lexeme.entry)) (json_reading_of reading.old) (text_of lexeme.entry) within
        stop.expected)) }
{
    match lexeme {
        Lexeme::String(text) if reading.expects_string() => Ok(stop_in_string(text, offset)),
        Lexeme::Word(word) => stop_in_word(reading, word, offset, expected),
        _ => Ok(Stop {
            offset,
            expected,
            found: Some(lexeme),
            opened: mismatched(reading, lexeme),
        }),
    }
}

/// Where a text stops being JSON: at the first lexeme that may not stand where it does, or at its end.
fn stop_in<'t>(alloc: Global, text: &'t str) -> Result<Stop<'t>, AllocError>
    ensures stop { document text.now ≡ None → IfOk result (λ stop. StopsBeingJson text.now stop.offset stop.expected) }
    ensures within { IfOk result (λ stop. stop.offset ≤ length text.now) }
{
    let bytes = text.as_bytes();
    let mut reading = Reading::new(alloc);
    let mut offset = 0;
    for lexeme in Lexer::new(text) {
        offset = spaces_end(bytes, offset);
        if let Some(expected) = reading.step(lexeme, offset)? {
            return stop_at(&mut reading, lexeme, offset, expected);
        }
        offset += lexeme.text().len();
    }
    Ok(Stop {
        offset: bytes.len(),
        expected: reading.next,
        found: None,
        opened: reading.opened(),
    })
}

/// The place of this offset, or of the end of the text where that is before it.
fn place_within(bytes: &[u8], offset: usize) -> Place
    ensures { IsPlace (take (min offset (length bytes.now)) bytes.now) result }
{
    place_at(bytes, offset.min(bytes.len()))
}

/// The fault at a stop.
fn fault_at<'t>(bytes: &[u8], stop: Stop<'t>) -> Fault<'t>
    ensures place { IsPlace (take (min stop.entry.offset (length bytes.now)) bytes.now) result.place }
    ensures opened { IfSome result.opened (IsPlaceWithin bytes.now) }
    ensures expected { result.expected ≡ stop.entry.expected }
{
    Fault {
        place: place_within(bytes, stop.offset),
        expected: stop.expected,
        found: stop.found,
        opened: match stop.opened {
            Some(offset) => Some(place_within(bytes, offset)),
            None => None,
        },
    }
}

/// Where bytes stop being a JSON text, and why: at the first that is not UTF-8, or at the first lexeme that may not stand
/// where it does, in a string at the first escape or control character that may not. For bytes that are not a JSON text.
///
/// `AllocError` where memory is refused.
pub fn fault_of<'t>(alloc: Global, bytes: &'t [u8]) -> Result<Fault<'t>, AllocError>
    ensures place { IfOk result (λ fault. IsPlaceWithin bytes.now fault.place) }
    ensures opened { IfOk result (λ fault. IfSome fault.opened (IsPlaceWithin bytes.now)) }
    ensures encoding { ¬ (IsUtf8 bytes.now) → IfOk result (λ fault. fault.expected ≡ Expected.Utf8) }
    ensures no_utf8 { ¬ (IsUtf8 bytes.now) → IfOk result (λ fault. IsEndOfUtf8 bytes.now fault.place) }
    ensures stop { IsUtf8 bytes.now → document bytes.now ≡ None
        → IfOk result (λ fault. NamesJsonStop bytes.now fault.place fault.expected) }
{
    match from_utf8(bytes) {
        Ok(text) => Ok(fault_at(bytes, stop_in(alloc, text)?)),
        Err(error) => Ok(fault_at(
            bytes,
            Stop {
                offset: error.valid_up_to(),
                expected: Expected::Utf8,
                found: None,
                opened: None,
            },
        )),
    }
}
