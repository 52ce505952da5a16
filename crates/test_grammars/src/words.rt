//! Words of TOML: keys, numbers, dates and times. Most are examples of its specification, or a step beside them.
use std::process::Abort;
use toml_grammar::{is_date, is_time, is_value, key_word};

// A word, whether a part of a key is due before it, and whether one is after it. There is none after what is no such word.
#[rattlefmt::skip]
const KEYS: &[(&str, bool, Option<bool>)] = &[
    ("bare_key", true, Some(false)), ("bare-key", true, Some(false)), ("1234", true, Some(false)),
    ("physical.color", true, Some(false)), ("3.14159", true, Some(false)), ("fruit.", true, Some(true)),
    (".", false, Some(true)), (".color", false, Some(false)), (".a.", false, Some(true)),
    ("-", true, Some(false)), ("a", false, None), (".", true, None), (".a", true, None), ("a..b", true, None),
    ("..", false, None), ("a+b", true, None), ("ʎǝʞ", true, None),
];

const NUMBERS: &str =
    "true false +99 42 0 -0 +0 -17 1_000 5_349_221 1_2_3_4_5 340282366920938463463374607431768211456 \
     0xDEADBEEF 0xdead_beef 0o01234567 0b11010110 \
     +1.0 3.1415 -0.01 5e+22 1e06 -2E-2 6.626e-34 224_617.445_991_228 1e1_000 1e999 0e0 inf +inf -nan";

const NO_NUMBERS: &str = "True truef 01 -01 0_0 _1 1_ 1__2 +_1 --1 + \
     0x 0x_1 0xG 0o8 0b2 0X1 +0x1 -0b1 00x1 \
     .7 7. 3.e+20 1.e1 1.2.3 1._2 1_.2 01.5 1e 1e+ 1e1.5 1ee1 1e_1 Inf ++inf 1.0f 0x1.8";

const TIMES: &str =
    "1979-05-27T07:32:00Z 1979-05-27T00:32:00-07:00 1979-05-27T00:32:00.999999-07:00 \
     1979-05-27t07:32:00z 1979-05-27T07:32:00 1979-05-27T00:32:00.999999 1979-05-27 07:32:00 00:32:00.999999 \
     23:59:59.0000000000001 2000-02-29 2024-02-29T23:59:59+23:59";

const NO_TIMES: &str =
    "1900-02-29 2023-02-29 1979-04-31 1979-13-01 1979-00-01 1979-01-00 1979-1-01 79-05-27 \
     1979-05-27T 1979-05-27T07:32 1979-05-27T07:32Z 1979-05-27T07:32:00.Z 1979-05-27T07:32:00+24:00 \
     1979-05-27T07:32:00+00:60 1979-05-27T07:32:00+0700 1979-05-27T07:32:00ZZ 1979-05-27Z 07:32:00Z 07:32 7:32:00 \
     24:00:00 23:60:00 23:59:60 23:59:59.";

// Whether a word is a date before a space, and whether it is a time after one.
#[rattlefmt::skip]
const HALVES: &[(&str, bool, bool)] = &[
    ("1979-05-27", true, false), ("07:32:00", false, true), ("07:32:00Z", false, true),
    ("00:32:00.999999-07:00", false, true), ("00:32:00.5", false, true), ("1979-05-27T07:32:00", false, false),
    ("1979-05-2", false, false), ("1979-05-277", false, false), ("1979/05/27", false, false),
    ("07:32:00+7:00", false, false), ("07-32-00", false, false), ("", false, false),
];

// Ends the test where this is wrong of a word.
fn check(rt: &impl Abort, holds: bool, word: &str) {
    assert!(rt; holds, "{word:?}");
}

fn compare_values(rt: &impl Abort, words: &str, expected: bool) {
    for word in words.split_whitespace() {
        check(rt, is_value(word) == expected, word);
    }
}

#[test]
fn key_words_alternate_parts_and_dots(rt: HostRuntime) {
    for &(word, due, expected) in KEYS {
        check(&rt, key_word(word, due) == expected, word);
    }
}

#[test]
fn values_are_booleans_numbers_and_times(rt: HostRuntime) {
    compare_values(&rt, NUMBERS, true);
    compare_values(&rt, NO_NUMBERS, false);
    compare_values(&rt, TIMES, true);
    compare_values(&rt, NO_TIMES, false);
    check(&rt, !is_value(""), "");
    check(&rt, !is_value("1979-05-27 07:32:00Z"), "with a space");
}

#[test]
fn a_date_and_a_time_are_two_words(rt: HostRuntime) {
    for &(word, date, time) in HALVES {
        check(&rt, is_date(word) == date && is_time(word) == time, word);
    }
}
