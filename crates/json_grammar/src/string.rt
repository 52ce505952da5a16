//! What JSON does not allow in a string.
ghost use Rattle.std.specs.Prelude.{◌≡◌, ℕ, ◌≤◌, ◌∷◌, length, slice_index_or, is_some, MatchOption, drop};
ghost use Rattle.std.specs.Char.{digit_value};
ghost use Rattle.json.specs.Ascii as ascii;
ghost use Rattle.json.specs.Text.{after_backslash, after_high, after_u, is_high_surrogate, is_low_surrogate};
ghost use Rattle.json.specs.Text.{plain, short_escape};
ghost use Rattle.json.specs.Word.{head};
ghost use Rattle.json_grammar.specs.Strings.{HasNoPart, HasParts, IsStringPart, IsStringFault, NeverCloses, Reads, TellsOfMore};
ghost use Rattle.json_grammar.specs.Strings.{TellsOfString, expected_for_escape, expected_in_string, first_unit, padded_unit};

use crate::expected::Expected;

/// The value of a digit, or at least 16 where it is not hexadecimal.
fn digit(byte: u8) -> u32
    ensures { result ≡ digit_value byte }
{
    match byte {
        b'0'..=b'9' => (byte - b'0') as u32,
        b'A'..=b'Z' => (byte - b'A') as u32 + 10,
        b'a'..=b'z' => (byte - b'a') as u32 + 10,
        _ => 36,
    }
}

/// The byte at this place, or this one where there is none.
fn byte_or(bytes: &[u8], index: usize, other: u8) -> u8
    ensures { result ≡ slice_index_or bytes.now index other }
{
    if index < bytes.len() {
        bytes[index]
    } else {
        other
    }
}

/// The code unit that four hexadecimal digits spell, with which these bytes begin, or that they begin: the first and the second
/// digit are these where they are missing, and the others 0.
fn padded_unit(bytes: &[u8], first: u8, second: u8) -> Option<u32>
    ensures { result ≡ padded_unit bytes.now first second }
{
    let (a, b, c, d) = (
        digit(byte_or(bytes, 0, first)),
        digit(byte_or(bytes, 1, second)),
        digit(byte_or(bytes, 2, b'0')),
        digit(byte_or(bytes, 3, b'0')),
    );
    if (a < 16) & (b < 16) & (c < 16) & (d < 16) {
        Some(a * 4096 + b * 256 + c * 16 + d)
    } else {
        None
    }
}

/// The code unit that four hexadecimal digits spell, if these bytes begin with them.
fn code_unit(bytes: &[u8]) -> Option<u32>
    ensures { result ≡ first_unit bytes.now }
{
    if bytes.len() < 4 {
        None
    } else {
        padded_unit(bytes, b'0', b'0')
    }
}

/// Whether this code unit begins a surrogate pair.
fn is_high(unit: u32) -> bool
    ensures { result ≡ is_high_surrogate unit }
{
    0xd800 <= unit && unit < 0xdc00
}

/// Whether this code unit ends a surrogate pair.
fn is_low(unit: u32) -> bool
    ensures { result ≡ is_low_surrogate unit }
{
    0xdc00 <= unit && unit < 0xe000
}

/// How many bytes the escape has that is the second half of a surrogate pair. `None` where these bytes begin with none.
fn second_half(bytes: &[u8]) -> Option<usize>
    ensures { (high : ℕ)
        → MatchOption result (NeverCloses (after_high high) bytes.now) (Reads (after_high high) bytes.now) }
{
    let (first, rest) = bytes.split_first()?;
    let (second, digits) = rest.split_first()?;
    let unit = code_unit(digits)?;
    if (*first == b'\\') & (*second == b'u') & is_low(unit) {
        Some(6)
    } else {
        None
    }
}

/// How many bytes an escape by number has after its `\u`, or a surrogate pair. `None` where JSON does not allow what
/// comes there.
fn number(bytes: &[u8]) -> Option<usize>
    ensures { MatchOption result (NeverCloses after_u bytes.now) (Reads after_u bytes.now) }
{
    let unit = code_unit(bytes)?;
    if is_high(unit) {
        return Some(4 + second_half(&bytes[4..])?);
    }
    if is_low(unit) {
        return None;
    }
    Some(4)
}

/// Whether a backslash and this byte are an escape, other than one by number.
fn is_short(byte: u8) -> bool
    ensures { result ≡ is_some (short_escape byte) }
{
    matches!(byte, b'"' | b'\\' | b'/' | b'b' | b'f' | b'n' | b'r' | b't')
}

/// How many bytes an escape has after its backslash. `None` where JSON does not allow what comes there.
fn escape(bytes: &[u8]) -> Option<usize>
    ensures { MatchOption result (NeverCloses after_backslash bytes.now) (Reads after_backslash bytes.now) }
{
    let (first, rest) = bytes.split_first()?;
    if *first == b'u' {
        return Some(1 + number(rest)?);
    }
    if is_short(*first) { Some(1) } else { None }
}

/// How many bytes the part of a string has that comes first: a byte that stands for itself, an escape, or a surrogate
/// pair of two escapes. `None` at a quote, and where JSON does not allow what comes there.
fn first_part(bytes: &[u8]) -> Option<usize>
    ensures { MatchOption result (HasNoPart bytes.now) (IsStringPart bytes.now) }
{
    let (first, rest) = bytes.split_first()?;
    match *first {
        b'\\' => Some(1 + escape(rest)?),
        b'"' => None,
        0..=0x1f => None,
        _ => Some(1),
    }
}

/// How many bytes the parts have together with which these begin, in a string.
fn parts(bytes: &[u8]) -> usize
    ensures reads { Reads plain bytes.now result }
    ensures last { HasNoPart (drop result bytes.now) }
{
    let mut len = 0;
    while let Some(part) = first_part(&bytes[len..]) {
        len += part;
    }
    len
}

/// How many bytes of a string, spelled with its quotes, come before what JSON does not allow, or before its end.
fn allowed_len(bytes: &[u8]) -> usize
    ensures within { result ≤ length bytes.now }
    ensures parts { head bytes.now ≡ ascii.quote → HasParts bytes.now result }
{
    match bytes.split_first() {
        Some((_, content)) => 1 + parts(content),
        None => 0,
    }
}

/// Whether the digits of the second half of a surrogate pair go on after these.
fn low_goes_on(digits: &[u8]) -> bool
    ensures { (high : ℕ) → TellsOfMore (after_high high) (ascii.backslash ∷ ascii.lower_u ∷ digits.now) result }
{
    if digits.len() > 3 {
        return false;
    }
    match padded_unit(digits, b'd', b'c') {
        Some(unit) => is_low(unit),
        None => false,
    }
}

/// Whether the second half of a surrogate pair goes on after these bytes.
fn half_goes_on(bytes: &[u8]) -> bool
    ensures { (high : ℕ) → TellsOfMore (after_high high) bytes.now result }
{
    let Some((first, rest)) = bytes.split_first() else {
        return true;
    };
    if *first != b'\\' {
        return false;
    }
    let Some((second, digits)) = rest.split_first() else {
        return true;
    };
    if *second != b'u' {
        return false;
    }
    low_goes_on(digits)
}

/// Whether an escape by number, or a surrogate pair, goes on after these bytes, which follow its `\u`.
fn number_goes_on(bytes: &[u8]) -> bool
    ensures { TellsOfMore after_u bytes.now result }
{
    let Some(unit) = padded_unit(bytes, b'0', b'0') else {
        return false;
    };
    if bytes.len() < 4 {
        return !is_low(unit);
    }
    if is_high(unit) {
        return half_goes_on(&bytes[4..]);
    }
    false
}

/// Whether an escape goes on after these bytes, which follow its backslash.
fn escape_goes_on(bytes: &[u8]) -> bool
    ensures { TellsOfMore after_backslash bytes.now result }
{
    let Some((first, rest)) = bytes.split_first() else {
        return true;
    };
    if *first == b'u' {
        return number_goes_on(rest);
    }
    false
}

/// Whether a string goes on after these bytes, no part of which JSON allows: they are none, or the beginning of an escape.
fn goes_on(bytes: &[u8]) -> bool
    ensures { TellsOfString bytes.now result }
{
    let Some((first, rest)) = bytes.split_first() else {
        return true;
    };
    if *first == b'\\' {
        return escape_goes_on(rest);
    }
    false
}

/// What was expected in place of an escape, of which this follows the backslash.
fn expected_for_escape(bytes: &[u8]) -> Expected
    ensures { result ≡ expected_for_escape bytes.now }
{
    match bytes.split_first() {
        Some((b'u', digits)) if code_unit(digits).is_some() => Expected::Pair,
        _ => Expected::Escape,
    }
}

/// What was expected in a string in place of this.
fn expected_in(bytes: &[u8]) -> Expected
    ensures { result ≡ expected_in_string bytes.now }
{
    match bytes.split_first() {
        Some((b'\\', escape)) => expected_for_escape(escape),
        Some((b'\n' | b'\r', _)) => Expected::Quote,
        Some((byte, _)) if *byte < 0x20 => Expected::Control,
        _ => Expected::Quote,
    }
}

/// How many hexadecimal digits an escape by number has, of the four that it is to have.
fn digits(escape: &[u8]) -> usize {
    let mut count = 0usize;
    for byte in escape.get(2..6).or(escape.get(2..)).unwrap_or(&[]) {
        if !byte.is_ascii_hexdigit() {
            break;
        }
        count = count.saturating_add(1);
    }
    count
}

/// How many bytes the backslash at the beginning has, with the character after it.
fn escape_len(bytes: &[u8]) -> usize {
    let mut len = 2usize;
    for byte in bytes.get(2..).unwrap_or(&[]) {
        if !matches!(*byte, 0x80..=0xBF) {
            break;
        }
        len = len.saturating_add(1);
    }
    len
}

/// How many bytes a message shows of what JSON does not allow: an escape with its digits or its character, or one byte.
fn refused_len(bytes: &[u8]) -> usize {
    match (bytes.first(), bytes.get(1)) {
        (None, _) => 0,
        (Some(b'\\'), Some(b'u')) => digits(bytes).saturating_add(2),
        (Some(b'\\'), Some(_)) => escape_len(bytes),
        (Some(_), _) => 1,
    }
}

/// Where a string stops being one of JSON.
#[derive(Clone, Copy, Drop)]
pub(crate) struct RefusedPart<'s> {
    /// How many bytes come before that.
    pub offset: usize,
    /// What was expected there. At the end of a line, and at the end: the quote that ends the string.
    pub expected: Expected,
    /// How that is spelled which comes there. Empty at the end.
    pub text: &'s str,
}

/// The first part of a string, spelled with its quotes, that JSON does not allow: an escape, half of a surrogate pair,
/// the end of a line, or another control character. Where it has none, its end, also within an escape.
pub(crate) fn refused_part(string: &str) -> RefusedPart<'_>
    ensures { head string.now ≡ ascii.quote → IsStringFault string.now result.offset result.expected }
{
    let bytes = string.as_bytes();
    let allowed = allowed_len(bytes);
    let rest = &bytes[allowed..];
    if goes_on(rest) {
        return RefusedPart {
            offset: bytes.len(),
            expected: Expected::Quote,
            text: "",
        };
    }
    let end = allowed.saturating_add(refused_len(rest));
    RefusedPart {
        offset: allowed,
        expected: expected_in(rest),
        text: string.get(allowed..end).unwrap_or(""),
    }
}
