ghost use Rattle.std.specs.Prelude.{◌≡◌, ◌+◌, ◌-◌, ◌<◌, ◌≤◌, ◌∷◌, ◌||◌, false, length, take, drop, slice_index};
ghost use Rattle.std.specs.Str.{IsCharBoundary};
ghost use Rattle.json.specs.Word.{is_operator, is_space};
ghost use Rattle.json.specs.Lex.{between, in_string, in_word};
ghost use Rattle.json_lexemes.specs.Lexemes.{cut};
ghost use Rattle.json_lexemes.specs.SpacedLexemes.{first_spaces};
ghost use Rattle.json_lexemes.specs.View.{text_of, IsNamed, IsFirst};
ghost use Rattle.json_lexemes.specs.Words.{StringGoesOn, WordGoesOn};

use crate::lexeme::Lexeme;
use std::simd::prelude::*;

/// Whether the byte is one of JSON's spaces. One test shows that most bytes are none.
#[inline]
fn is_space(byte: u8) -> bool
    ensures { result ≡ is_space byte }
{
    byte <= b' ' && matches!(byte, b' ' | b'\t' | b'\n' | b'\r')
}

/// Whether a word ends before this byte. One test shows that it doesn't before digits, points and minus signs.
#[inline]
fn ends_word(byte: u8) -> bool
    ensures { result ≡ (is_operator byte || is_space byte) }
{
    !matches!(byte, b'-'..=b'9')
        && (matches!(byte, b'{' | b'}' | b'[' | b']' | b':' | b',') || is_space(byte))
}

/// The first place from `from` on where no space stands, or the end.
#[inline(always)]
pub fn spaces_end(bytes: &[u8], from: usize) -> usize
    requires { from ≤ length bytes.now }
    ensures bounds { (from ≤ result) × (result ≤ length bytes.now) }
    ensures cut { cut between (drop result bytes.now) ≡ cut between (drop from bytes.now) }
    ensures spaces { result ≡ from + length (first_spaces (drop from bytes.now)) }
    ensures after { from < result → slice_index bytes.now (result - 1) < 128 }
    ensures stops { result < length bytes.now → is_space (slice_index bytes.now result) ≡ false }
{
    for place in from..bytes.len() {
        if !is_space(bytes[place]) {
            return place;
        }
    }
    bytes.len()
}

/// How many of the next 16 bytes are digits, letters, points, minus signs and slashes, before the first that is none of these. None
/// of them ends a word. They are tested side by side, where 16 are left.
#[inline(always)]
fn word_len(bytes: &[u8], from: usize) -> usize
    requires { from ≤ length bytes.now }
    ensures bounds { from + result ≤ length bytes.now }
    ensures goes_on { WordGoesOn bytes.now from (from + result) }
{
    if bytes.len() - from < 16 {
        return 0;
    }
    let next = u8x16::from_slice(&bytes[from..]);
    let digits = (next - u8x16::splat(b'-')).simd_lt(u8x16::splat(13));
    let letters = ((next | u8x16::splat(b' ')) - u8x16::splat(b'a')).simd_lt(u8x16::splat(26));
    let others = (!(digits | letters)).to_bitmask();
    if others == 0 {
        16
    } else {
        others.trailing_zeros() as usize
    }
}

/// The place where the word ends that goes on at `from`.
#[inline(always)]
fn word_end(bytes: &[u8], from: usize) -> usize
    requires { from ≤ length bytes.now }
    ensures bounds { (from ≤ result) × (result ≤ length bytes.now) }
    ensures cut { cut in_word (drop from bytes.now)
        ≡ take (result - from) (drop from bytes.now) ∷ cut between (drop result bytes.now) }
    ensures ended { result < length bytes.now → slice_index bytes.now result < 128 }
{
    let mut place = from;
    while place < bytes.len() {
        if ends_word(bytes[place]) {
            return place;
        }
        place += 1 + word_len(bytes, place + 1);
    }
    bytes.len()
}

/// How many of the next 16 bytes come before a quote or a backslash. They are tested side by side, where 16 are left.
#[inline(always)]
fn plain_len(bytes: &[u8], from: usize) -> usize
    requires { from ≤ length bytes.now }
    ensures bounds { from + result ≤ length bytes.now }
    ensures goes_on { StringGoesOn bytes.now from (from + result) }
{
    if bytes.len() - from < 16 {
        return 0;
    }
    let next = u8x16::from_slice(&bytes[from..]);
    let quotes = next.simd_eq(u8x16::splat(b'"'));
    let backslashes = next.simd_eq(u8x16::splat(b'\\'));
    let others = (quotes | backslashes).to_bitmask();
    if others == 0 {
        16
    } else {
        others.trailing_zeros() as usize
    }
}

/// The place after the closing quote of the string that goes on at `from`, or the end where there is none.
#[inline(always)]
fn string_end(bytes: &[u8], from: usize) -> usize
    requires { from ≤ length bytes.now }
    ensures bounds { (from ≤ result) × (result ≤ length bytes.now) }
    ensures cut { cut in_string (drop from bytes.now)
        ≡ take (result - from) (drop from bytes.now) ∷ cut between (drop result bytes.now) }
    ensures closed { result < length bytes.now
        → (from < result) × (slice_index bytes.now (result - 1) < 128) }
{
    let mut place = from;
    while place < bytes.len() {
        match bytes[place] {
            b'"' => return place + 1,
            b'\\' => place += 2,
            _ => place += 1 + plain_len(bytes, place + 1),
        }
    }
    bytes.len()
}

/// The lexeme that begins at a place.
#[inline(always)]
pub(crate) fn lexeme_at<'a>(text: &'a str, place: usize) -> Lexeme<'a>
    requires within { place < length text.now }
    requires boundary { IsCharBoundary text.now place }
    requires begins { is_space (slice_index text.now place) ≡ false }
    ensures first { IsFirst text.now place (text_of result) }
    ensures named { IsNamed result }
{
    let bytes = text.as_bytes();
    match bytes[place] {
        b'{' => Lexeme::OpenObject,
        b'}' => Lexeme::CloseObject,
        b'[' => Lexeme::OpenArray,
        b']' => Lexeme::CloseArray,
        b',' => Lexeme::Comma,
        b':' => Lexeme::Colon,
        b'"' => Lexeme::String(&text[place..string_end(bytes, place + 1)]),
        _ => Lexeme::Word(&text[place..word_end(bytes, place + 1)]),
    }
}
