//! Strings and comments of TOML.
use std::process::Abort;
use toml_grammar::{is_comment, is_key_string, is_string};

// Of one line, as keys may be too.
#[rattlefmt::skip]
const STRINGS: &[&str] = &[
    "\"\"", "''", "\"I'm a string. \\\"You can quote me\\\". Jos\\u00E9\\nSF.\"", "\"\\b\\t\\n\\f\\r\\\"\\\\\"",
    "\"\\U0001F600\"", "\"\\uD7FF\\uE000\\U0010FFFF\"", "\"\t é \u{80}\"", "'C:\\Users\\nodejs'", "'<\\i\\c*\\s*>'",
    "\"'\"", "'\"'",
];

#[rattlefmt::skip]
const NO_STRINGS: &[&str] = &[
    // Escapes of no character.
    "\"\\uD800\"", "\"\\uDFFF\"", "\"\\U00110000\"", "\"\\UFFFFFFFF\"",
    "\"\\u12\"", "\"\\u12G4\"", "\"\\e\"", "\"\\x41\"", "\"\\ \"", "\"\\/\"",
    // No end, or one too early.
    "\"a\\\"", "\"a", "\"", "'a\"", "'a'b'",
    // Line ends and control characters.
    "\"a\nb\"", "'a\rb'", "\"\u{7F}\"", "'\u{1F}'", "\"\0\"",
    "a", "",
    // The same of several lines.
    "\"\"\"three at the end\"\"\"\"\"\"",
    "'''three at the end''''''",
    "'''Here are fifteen apostrophes: ''''''''''''''''''",
    "\"\"\"a\\ b\"\"\"", "\"\"\"a\\ \"\"\"", "\"\"\"a\rb\"\"\"", "'''a\r'''", "\"\"\"\\\rb\"\"\"",
    "\"\"\"\\e\"\"\"", "\"\"\"\\uD800\"\"\"", "\"\"\"\u{B}\"\"\"", "'''\u{7F}'''",
    "\"\"\"a\"\"", "\"\"\"a\\\"\"\"", "'''a\"\"\"", "\"\"\"",
];

// Of several lines.
#[rattlefmt::skip]
const LONG_STRINGS: &[&str] = &[
    "\"\"\"\"\"\"", "''''''", "\"\"\"\nRoses are red\r\nViolets are blue\"\"\"",
    "\"\"\"\\\n  The quick brown \\\n\n  fox.\\  \t\r\n  \"\"\"", "\"\"\"\\ \n\"\"\"",
    "\"\"\"Here are two quotation marks: \"\". Simple enough.\"\"\"", "\"\"\"Here are three: \"\"\\\".\"\"\"",
    "\"\"\"\"This,\" she said, \"is just a pointless statement.\"\"\"\"", "\"\"\"two at the end\"\"\"\"\"",
    "'''I [dw]on't need \\d{2} apples'''", "''''That,' she said, 'is still pointless.''''", "'''two at the end'''''",
    "'''\ttab\r\n'''",
];

const COMMENTS: &[&str] = &[
    "# This is a full-line comment",
    "#",
    "#\ttab é \u{80} ~",
    "# a \\ \" '",
];

const NO_COMMENTS: &[&str] = &[
    "#\r", "#a\u{7F}", "#\0", "#\u{8}", "#\u{1F}", "#\n", "a # b", "",
];

// Ends the test where this is wrong of a text.
fn check(rt: &impl Abort, holds: bool, text: &str) {
    assert!(rt; holds, "{text:?}");
}

fn compare_strings(rt: &impl Abort, texts: &[&str], string: bool, key: bool) {
    for text in texts {
        let same = is_string(text) == string && is_key_string(text) == key;
        check(rt, same, text);
    }
}

#[test]
fn strings_are_of_one_line_or_of_several(rt: HostRuntime) {
    compare_strings(&rt, STRINGS, true, true);
    compare_strings(&rt, LONG_STRINGS, true, false);
    compare_strings(&rt, NO_STRINGS, false, false);
}

fn compare_comments(rt: &impl Abort, texts: &[&str], expected: bool) {
    for text in texts {
        check(rt, is_comment(text) == expected, text);
    }
}

#[test]
fn comments_hold_no_control_characters(rt: HostRuntime) {
    compare_comments(&rt, COMMENTS, true);
    compare_comments(&rt, NO_COMMENTS, false);
}
