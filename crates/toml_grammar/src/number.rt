ghost use Rattle.std.specs.Prelude.{◌≡◌, ◌≤◌};
ghost use Rattle.std.specs.Char.{is_digit};
ghost use Rattle.std.specs.List.{position_or_len};
ghost use Rattle.toml_grammar.specs.Numbers as spec;

use crate::bytes::{byte_at, front, is_plus_or_minus, past};

/// Whether the byte is a digit.
#[inline]
fn is_digit(byte: u8, radix: u32) -> bool
    requires low { 2 ≤ radix }
    requires high { radix ≤ 16 }
    ensures { result ≡ is_digit byte radix }
{
    char::from(byte).is_digit(radix)
}

/// Whether the bytes are one or more digits, between any two of which one underscore may stand.
#[tactic(auto, using(crate::proofs::Digits::digits_from_at))]
fn is_digits(bytes: &[u8], radix: u32) -> bool
    requires low { 2 ≤ radix }
    requires high { radix ≤ 16 }
    ensures { result ≡ spec.is_digits radix bytes.now }
{
    let mut after = false;
    'bytes: for byte in bytes {
        if *byte == b'_' {
            if !after {
                return false;
            }
            after = false;
        } else if is_digit(*byte, radix) {
            after = true;
        } else {
            return false;
        }
    }
    after
}

/// The bytes without the sign at the front, if one stands there.
#[tactic(auto, unfolding(crate::specs::Numbers::unsigned))]
fn unsigned(bytes: &[u8]) -> &[u8]
    ensures { result.now ≡ spec.unsigned bytes.now }
{
    if is_plus_or_minus(byte_at(bytes, 0)) {
        past(bytes, 1)
    } else {
        bytes
    }
}

/// Whether the bytes are a decimal integer without its sign.
#[tactic(auto, unfolding(crate::specs::Numbers::is_whole))]
fn is_whole(bytes: &[u8]) -> bool
    ensures { result ≡ spec.is_whole bytes.now }
{
    is_digits(bytes, 10) && (bytes.len() == 1 || byte_at(bytes, 0) != b'0')
}

/// Whether the bytes are nothing, or a point and digits, where they begin with a point.
#[tactic(auto, unfolding(crate::specs::Numbers::is_fraction))]
fn is_fraction(bytes: &[u8]) -> bool
    ensures { result ≡ spec.is_fraction bytes.now }
{
    bytes.is_empty() || is_digits(past(bytes, 1), 10)
}

/// Whether the bytes are nothing, or an exponent, where they begin with its letter.
#[tactic(auto, unfolding(crate::specs::Numbers::is_exponent))]
fn is_exponent(bytes: &[u8]) -> bool
    ensures { result ≡ spec.is_exponent bytes.now }
{
    bytes.is_empty() || is_digits(unsigned(past(bytes, 1)), 10)
}

/// The place of the first point, or the end.
#[inline]
fn point_place(bytes: &[u8]) -> usize
    ensures { result ≡ position_or_len spec.is_dot bytes.now }
{
    bytes.iter().take_while(|byte| **byte != b'.').count()
}

/// The place of the first `e` or `E`, or the end.
#[inline]
fn exponent_place(bytes: &[u8]) -> usize
    ensures { result ≡ position_or_len spec.is_exponent_letter bytes.now }
{
    bytes
        .iter()
        .take_while(|byte| **byte != b'e' && **byte != b'E')
        .count()
}

/// Whether the bytes are an integer or a float, without a sign and an exponent.
#[tactic(auto, unfolding(crate::specs::Numbers::is_mantissa))]
fn is_mantissa(bytes: &[u8]) -> bool
    ensures { result ≡ spec.is_mantissa bytes.now }
{
    let point = point_place(bytes);
    is_whole(front(bytes, point)) && is_fraction(past(bytes, point))
}

/// Whether the bytes are an integer or a float in decimal digits, without its sign.
#[tactic(auto, unfolding(crate::specs::Numbers::is_decimal))]
fn is_decimal(bytes: &[u8]) -> bool
    ensures { result ≡ spec.is_decimal bytes.now }
{
    let letter = exponent_place(bytes);
    is_mantissa(front(bytes, letter)) && is_exponent(past(bytes, letter))
}

/// Whether the bytes are inf or nan.
#[tactic(auto, unfolding(crate::specs::Numbers::is_special))]
fn is_special(bytes: &[u8]) -> bool
    ensures { result ≡ spec.is_special bytes.now }
{
    bytes == b"inf".as_slice() || bytes == b"nan".as_slice()
}

/// Whether the bytes are an integer in hex, octal or binary digits.
#[tactic(auto, unfolding(crate::specs::Numbers::is_prefixed))]
fn is_prefixed(bytes: &[u8]) -> bool
    ensures { result ≡ spec.is_prefixed bytes.now }
{
    if byte_at(bytes, 0) != b'0' {
        return false;
    }
    let digits = past(bytes, 2);
    match byte_at(bytes, 1) {
        b'x' => is_digits(digits, 16),
        b'o' => is_digits(digits, 8),
        b'b' => is_digits(digits, 2),
        _ => false,
    }
}

/// Whether the bytes are an integer or a float, of any size.
#[tactic(auto, unfolding(crate::specs::Numbers::is_toml_number))]
pub(crate) fn is_number(bytes: &[u8]) -> bool
    ensures { result ≡ spec.is_toml_number bytes.now }
{
    let number = unsigned(bytes);
    is_decimal(number) || is_special(number) || is_prefixed(bytes)
}
