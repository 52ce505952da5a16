ghost use Rattle.std.specs.Prelude.{◌≡◌, ◌≤◌};
ghost use Rattle.std.specs.Char.{is_ascii_digit};
ghost use Rattle.std.specs.List.{list_all, prefix_len, zip};
ghost use Rattle.toml_grammar.specs.Dates as spec;

use crate::bytes::{byte_at, front, is_plus_or_minus, past};

/// Whether a byte is what a form has at its place: any digit for `0`, and else that byte.
#[inline]
fn fits_form(expected: u8, byte: u8) -> bool
    ensures { result ≡ spec.fits_form expected byte }
{
    if expected == b'0' {
        byte.is_ascii_digit()
    } else {
        byte == expected
    }
}

/// Whether the bytes fit a form as far as both go.
#[inline]
fn fit_form(form: &[u8], bytes: &[u8]) -> bool
    ensures { result ≡ list_all (λ p. spec.fits_form p.0 p.1) (zip form.now bytes.now) }
{
    form.iter()
        .zip(bytes)
        .all(|(expected, byte)| fits_form(*expected, *byte))
}

/// Whether the bytes have a form, in full.
#[tactic(auto, unfolding(crate::specs::Dates::has_form))]
fn has_form(form: &[u8], bytes: &[u8]) -> bool
    ensures { result ≡ spec.has_form form.now bytes.now }
{
    bytes.len() == form.len() && fit_form(form, bytes)
}

/// The number that two digits write.
fn two_digits(bytes: &[u8], place: usize) -> u32
    requires { place ≤ 100 }
    ensures value { result ≡ spec.two_digits bytes.now place }
    ensures small { result ≤ 2277 }
{
    let tens = u32::from(byte_at(bytes, place)).saturating_sub(48);
    let ones = u32::from(byte_at(bytes, place + 1)).saturating_sub(48);
    10 * tens + ones
}

/// Whether the year has 366 days.
fn is_leap_year(year: u32) -> bool
    ensures { result ≡ spec.is_leap_year year }
{
    (year % 4 == 0 && year % 100 != 0) || year % 400 == 0
}

/// How many days the month of the year has.
fn days_in(year: u32, month: u32) -> u32
    ensures { result ≡ spec.days_in year month }
{
    match month {
        2 if is_leap_year(year) => 29,
        2 => 28,
        4 | 6 | 9 | 11 => 30,
        _ => 31,
    }
}

/// Whether the year and the month have the day. TOML 1.0 leaves days and years open; here 0000 is a year.
fn has_day(year: u32, month: u32, day: u32) -> bool
    ensures { result ≡ spec.has_day year month day }
{
    1 <= month && month <= 12 && 1 <= day && day <= days_in(year, month)
}

/// Whether the bytes are a local date.
#[tactic(auto, unfolding(crate::specs::Dates::is_date))]
pub(crate) fn is_date_of(bytes: &[u8]) -> bool
    ensures { result ≡ spec.is_date bytes.now }
{
    has_form(b"0000-00-00", bytes)
        && has_day(
            100 * two_digits(bytes, 0) + two_digits(bytes, 2),
            two_digits(bytes, 5),
            two_digits(bytes, 8),
        )
}

/// Whether the hours and minutes at the front are those of a day.
#[tactic(auto, unfolding(crate::specs::Dates::has_hours))]
fn has_hours(bytes: &[u8]) -> bool
    ensures { result ≡ spec.has_hours bytes.now }
{
    two_digits(bytes, 0) <= 23 && two_digits(bytes, 3) <= 59
}

/// Whether the bytes are hours, minutes and seconds. TOML 1.0 leaves leap seconds open; here seconds are 0 to 59.
#[tactic(auto, unfolding(crate::specs::Dates::is_clock))]
fn is_clock(bytes: &[u8]) -> bool
    ensures { result ≡ spec.is_clock bytes.now }
{
    has_form(b"00:00:00", bytes) && has_hours(bytes) && two_digits(bytes, 6) <= 59
}

/// How many digits stand at the front.
#[inline]
fn digit_count(bytes: &[u8]) -> usize
    ensures { result ≡ prefix_len is_ascii_digit bytes.now }
{
    bytes
        .iter()
        .take_while(|byte| byte.is_ascii_digit())
        .count()
}

/// What follows the fraction of a second at the front, if one stands there.
#[tactic(auto, unfolding(crate::specs::Dates::after_fraction))]
fn after_fraction(bytes: &[u8]) -> &[u8]
    ensures { result.now ≡ spec.after_fraction bytes.now }
{
    let digits = past(bytes, 1);
    let count = digit_count(digits);
    if byte_at(bytes, 0) == b'.' && count > 0 {
        past(digits, count)
    } else {
        bytes
    }
}

/// Whether the bytes are an offset in hours and minutes.
#[tactic(auto, unfolding(crate::specs::Dates::is_numeric_offset))]
fn is_numeric_offset(bytes: &[u8]) -> bool
    ensures { result ≡ spec.is_numeric_offset bytes.now }
{
    let time = past(bytes, 1);
    is_plus_or_minus(byte_at(bytes, 0)) && has_form(b"00:00", time) && has_hours(time)
}

/// Whether the bytes are the offset of a time.
#[tactic(auto, unfolding(crate::specs::Dates::is_offset))]
fn is_offset(bytes: &[u8]) -> bool
    ensures { result ≡ spec.is_offset bytes.now }
{
    let first = byte_at(bytes, 0);
    (bytes.len() == 1 && (first == b'Z' || first == b'z')) || is_numeric_offset(bytes)
}

/// What follows the seconds of a time and their fraction.
#[inline]
fn after_seconds(bytes: &[u8]) -> &[u8]
    ensures { result.now ≡ spec.after_seconds bytes.now }
{
    after_fraction(past(bytes, 8))
}

/// Whether the bytes are a time with no offset.
#[tactic(auto, unfolding(crate::specs::Dates::is_local_time))]
pub(crate) fn is_local_time(bytes: &[u8]) -> bool
    ensures { result ≡ spec.is_local_time bytes.now }
{
    is_clock(front(bytes, 8)) && after_seconds(bytes).is_empty()
}

/// Whether the bytes are a time, with an offset or without.
#[tactic(auto, unfolding(crate::specs::Dates::is_time))]
fn is_time_of(bytes: &[u8]) -> bool
    ensures { result ≡ spec.is_time bytes.now }
{
    let rest = after_seconds(bytes);
    is_clock(front(bytes, 8)) && (rest.is_empty() || is_offset(rest))
}

/// Whether the bytes are a date and a time, joined by T.
#[tactic(auto, unfolding(crate::specs::Dates::is_date_time))]
pub(crate) fn is_date_time(bytes: &[u8]) -> bool
    ensures { result ≡ spec.is_date_time bytes.now }
{
    let delimiter = byte_at(bytes, 10);
    is_date_of(front(bytes, 10))
        && (delimiter == b'T' || delimiter == b't')
        && is_time_of(past(bytes, 11))
}

/// Whether a word is a local date alone, after which a time may follow past one space.
pub fn is_date(text: &str) -> bool
    ensures { result ≡ spec.is_date text.now }
{
    is_date_of(text.as_bytes())
}

/// Whether a word is a time, with an offset or without, as it may follow a date past one space.
pub fn is_time(text: &str) -> bool
    ensures { result ≡ spec.is_time text.now }
{
    is_time_of(text.as_bytes())
}
