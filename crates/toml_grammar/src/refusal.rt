//! Why a text is refused, and where.
ghost use Rattle.std.specs.Prelude.{◌≡◌, ◌≤◌, length, codes, true, false, None, IfOk, IfSome};
ghost use Rattle.std.specs.Str.{IsUtf8};
ghost use Rattle.text_lexemes.specs.Places.{IsPlaceWithin};
ghost use Rattle.toml_grammar.specs.Faults.{IsFault};
ghost use Rattle.toml_grammar.specs.Grammar.{is_toml};
ghost use Rattle.toml_grammar.specs.Nesting.{is_too_deep};
ghost use Rattle.toml_grammar.specs.Opened.{innermost_opened, opened_in};
ghost use Rattle.toml_grammar.specs.Refusals as spec;
ghost use Rattle.toml_grammar.specs.Refusals.{IsMissed, IsOpenedPlace, NamesBracket, NamesFault, nesting};

use crate::expected::Expected;
use crate::fault::{Fault, fault_of};
use crate::nesting::too_deep;
use crate::next::Bracket;
use crate::opened::opened_at;
use crate::stop::{Found, found_of, stop_of};
use std::alloc::{AllocError, Global};
use std::str::from_utf8;
use text_lexemes::{Place, place_at};
use toml_lexemes::Lexeme;

/// Why a text is refused.
#[derive(Clone, Copy, Drop)]
pub struct Refusal<'t> {
    /// From where on.
    pub place: Place,
    /// What was expected there, as a message names it.
    pub expected: &'static str,
    /// What stands there.
    pub found: Found<'t>,
    /// Where the string or the bracket stands that is open there and is missed.
    pub opened: Option<Place>,
}

/// Whether the bracket is missed at a fault, which stands on a later line or not: the text or a line ends there, the bracket of
/// the other kind stands there, or an array goes on from another line.
fn is_missed(bracket: Bracket, fault: Fault<'_>, is_later: bool) -> bool
    ensures { result ≡ spec.is_missed bracket fault.entry.found fault.entry.expected is_later }
{
    match (bracket, fault.found) {
        (_, None | Some(Lexeme::LineEnd)) => true,
        (Bracket::Array, Some(Lexeme::CloseTable)) => true,
        (Bracket::Table, Some(Lexeme::CloseArray)) => true,
        _ => {
            is_later
                && matches!(
                    fault.expected,
                    Expected::ValueOrBracket | Expected::CommaOrBracket
                )
        }
    }
}

/// Where the bracket stands that is open at a fault, if it is missed there.
///
/// `AllocError` where memory is refused.
fn missed_at(alloc: Global, text: &str, fault: Fault<'_>) -> Result<Option<Place>, AllocError>
    requires { fault.offset ≤ length text.now }
    ensures { IfOk result (λ place. (is : IsFault text.now fault.entry)
        → IsMissed text.now fault.entry (innermost_opened (opened_in is.before)) place) }
{
    let bytes = text.as_bytes();
    match opened_at(alloc, text, fault)? {
        Some(opened) => {
            let place = place_at(bytes, opened.offset.min(bytes.len()));
            let is_later = place.line < place_at(bytes, fault.offset).line;
            if is_missed(opened.bracket, fault, is_later) {
                return Ok(Some(place));
            }
            Ok(None)
        }
        None => Ok(None),
    }
}

/// Where the string or the bracket stands that is open at a fault, where this was expected, if it is missed there.
///
/// `AllocError` where memory is refused.
fn opened_place(
    alloc: Global,
    text: &str,
    fault: Fault<'_>,
    expected: Expected,
) -> Result<Option<Place>, AllocError>
    requires { fault.offset ≤ length text.now }
    ensures { IfOk result (λ place. (is : IsFault text.now fault.entry)
        → IsOpenedPlace text.now fault.entry expected (innermost_opened (opened_in is.before)) place) }
{
    match expected {
        Expected::Quote | Expected::Quotes => Ok(Some(place_at(text.as_bytes(), fault.offset))),
        _ => missed_at(alloc, text, fault),
    }
}

/// Whether the lexeme of a fault is the last one of the text.
fn is_last(text: &str, fault: Fault<'_>) -> bool
    ensures { result ≡ spec.is_last text.now fault.entry }
{
    let length = match fault.found {
        Some(lexeme) => lexeme.text().len(),
        None => 0,
    };
    fault.offset.saturating_add(length) >= text.len()
}

/// The refusal of a text by its fault.
///
/// `AllocError` where memory is refused.
fn by_fault<'t>(alloc: Global, text: &'t str, fault: Fault<'t>) -> Result<Refusal<'t>, AllocError>
    requires within { fault.offset ≤ length text.now }
    requires is { IsFault text.now fault }
    ensures place { IfOk result (λ refusal. IsPlaceWithin text.now refusal.place) }
    ensures names { IfOk result (λ refusal. NamesFault text.now refusal) }
    ensures opened { IfOk result (λ refusal. IfSome refusal.opened (IsPlaceWithin text.now)) }
{
    let bytes = text.as_bytes();
    let stop = stop_of(fault, is_last(text, fault));
    let opened = opened_place(alloc, text, fault, stop.expected)?;
    let offset = fault.offset.saturating_add(stop.within);
    Ok(Refusal {
        place: place_at(bytes, offset.min(bytes.len())),
        expected: stop.expected.name(),
        found: stop.found,
        opened,
    })
}

/// The refusal of a text that is TOML.
fn by_depth(text: &str) -> Refusal<'_>
    ensures place { IsPlaceWithin text.now result.place }
    ensures expected { result.expected.now ≡ nesting }
    ensures bracket { is_too_deep text.now ≡ true → NamesBracket text.now result }
    ensures opened { result.opened ≡ None }
{
    let (offset, found) = too_deep(text);
    Refusal {
        place: place_at(text.as_bytes(), offset),
        expected: "at most 128 levels of nesting",
        found: found_of(found),
        opened: None,
    }
}

/// Why a text is refused: it stops being TOML, or brackets are too deep in one another.
fn refusal_in<'t>(alloc: Global, text: &'t str) -> Result<Refusal<'t>, AllocError>
    ensures place { IfOk result (λ refusal. IsPlaceWithin text.now refusal.place) }
    ensures fault { IfOk result (λ refusal. is_toml text.now ≡ false → NamesFault text.now refusal) }
    ensures depth { IfOk result (λ refusal. is_toml text.now ≡ true → refusal.expected.now ≡ nesting) }
    ensures bracket { IfOk result (λ refusal. is_toml text.now ≡ true → is_too_deep text.now ≡ true
        → NamesBracket text.now refusal) }
    ensures opened { IfOk result (λ refusal. IfSome refusal.opened (IsPlaceWithin text.now)) }
{
    match fault_of(alloc, text)? {
        Some(fault) => by_fault(alloc, text, fault),
        None => Ok(by_depth(text)),
    }
}

/// Why bytes are refused, and where: where they stop being UTF-8, where the text stops being TOML, or where brackets are too deep
/// in one another. For bytes that are refused.
///
/// `AllocError` where memory is refused.
pub fn refusal_of<'t>(alloc: Global, bytes: &'t [u8]) -> Result<Refusal<'t>, AllocError>
    ensures place { IfOk result (λ refusal. IsPlaceWithin bytes.now refusal.place) }
    ensures encoding { ¬ (IsUtf8 bytes.now) → IfOk result (λ refusal. refusal.expected.now ≡ codes "UTF-8") }
    ensures fault { IsUtf8 bytes.now → IfOk result (λ refusal. is_toml bytes.now ≡ false → NamesFault bytes.now refusal) }
    ensures depth { IsUtf8 bytes.now → IfOk result (λ refusal. is_toml bytes.now ≡ true → refusal.expected.now ≡ nesting) }
    ensures bracket { IsUtf8 bytes.now → IfOk result (λ refusal. is_toml bytes.now ≡ true → is_too_deep bytes.now ≡ true
        → NamesBracket bytes.now refusal) }
    ensures opened { IfOk result (λ refusal. IfSome refusal.opened (IsPlaceWithin bytes.now)) }
{
    match from_utf8(bytes) {
        Ok(text) => refusal_in(alloc, text),
        Err(error) => Ok(Refusal {
            place: place_at(bytes, error.valid_up_to().min(bytes.len())),
            expected: "UTF-8",
            found: Found::Byte,
            opened: None,
        }),
    }
}
