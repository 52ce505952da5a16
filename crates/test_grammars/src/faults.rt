//! Where texts stop being TOML, and what was expected there.
use std::alloc::Global;
use std::process::Abort;
use std::test::Fail;
use toml_grammar::{Expected, Fault, fault_of};
use toml_lexemes::Lexeme;
use toml_lexemes::Lexeme::{
    CloseArray, CloseTable, Comma, Comment, Equals, LineEnd, OpenArray, String, Word,
};

// A text, the offset of its fault, what was expected there, and what stands there.
type Row<'a> = (&'a str, usize, Expected, Option<Lexeme<'a>>);

#[rattlefmt::skip]
const ROWS: &[Row<'static>] = &[
    // Keys and headers.
    ("key = # nothing", 6, Expected::Value, Some(Comment("# nothing"))),
    ("a = \"Tom\" b = 1", 10, Expected::LineEnd, Some(Word("b"))),
    ("= 1", 0, Expected::Line, Some(Equals)),
    ("a b = 1", 2, Expected::DotOrEquals, Some(Word("b"))),
    ("a\n= 1", 1, Expected::DotOrEquals, Some(LineEnd)),
    ("a. = 1", 3, Expected::Key, Some(Equals)),
    ("a..b = 1", 0, Expected::Line, Some(Word("a..b"))),
    ("a = 1\n\"\"\"b\"\"\" = 2", 6, Expected::KeyString, Some(String("\"\"\"b\"\"\""))),
    ("[", 1, Expected::Key, None),
    ("[]", 1, Expected::Key, Some(CloseArray)),
    ("[a]]", 3, Expected::LineEnd, Some(CloseArray)),
    ("[a\n]", 2, Expected::DotOrBracket, Some(LineEnd)),
    ("[ [a]]", 2, Expected::Key, Some(OpenArray)),
    ("[[a] ]", 5, Expected::Bracket, Some(CloseArray)),
    ("[[a\"b\"]]", 3, Expected::DotOrBrackets, Some(String("\"b\""))),
    ("\u{FEFF}a = 1", 0, Expected::Line, Some(Word("\u{FEFF}a"))),
    // Values.
    ("a = [1 2]", 7, Expected::CommaOrBracket, Some(Word("2"))),
    ("a = [,]", 5, Expected::ValueOrBracket, Some(Comma)),
    ("a = [1,", 7, Expected::ValueOrBracket, None),
    ("a = {", 5, Expected::KeyOrBrace, None),
    ("a = { b = 1, }", 13, Expected::Key, Some(CloseTable)),
    ("a = { b = 1 # c\n}", 12, Expected::CommaOrBrace, Some(Comment("# c"))),
    ("a = [{ b = 1\n}]", 12, Expected::CommaOrBrace, Some(LineEnd)),
    ("a = [1}", 6, Expected::CommaOrBracket, Some(CloseTable)),
    ("a = 1979-05-27  07:32:00", 16, Expected::LineEnd, Some(Word("07:32:00"))),
    ("a = 1979-05-27\t07:32:00", 15, Expected::LineEnd, Some(Word("07:32:00"))),
    ("a = [1979-05-27\n07:32:00]", 16, Expected::CommaOrBracket, Some(Word("07:32:00"))),
    ("a = yes", 4, Expected::Value, Some(Word("yes"))),
    ("a = \"b", 4, Expected::String, Some(String("\"b"))),
    ("a = 1 # \u{7}", 6, Expected::Comment, Some(Comment("# \u{7}"))),
    ("a = 1 \r", 7, Expected::LineFeed, None),
    ("a\r= 1", 2, Expected::LineFeed, Some(Equals)),
    ("a = 1\r\r\n", 7, Expected::LineFeed, Some(LineEnd)),
];

fn compare(
    rt: &impl Abort,
    memory: Global,
    (text, offset, expected, found): Row<'_>,
) -> Result<(), Fail> {
    let fault = Fault {
        offset,
        expected,
        found,
    };
    assert!(rt; fault_of(memory, text)? == Some(fault), "{text:?}");
    Ok(())
}

#[test]
fn faults_are_found(rt: HostRuntime) -> Result<(), Fail> {
    for &row in ROWS {
        compare(&rt, rt.alloc(), row)?;
    }
    Ok(())
}

#[test]
fn what_was_expected_has_a_name(rt: HostRuntime) {
    assert!(rt; Expected::ValueOrBracket.name() == "a value or `]`");
}
