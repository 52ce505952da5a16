//! The lexemes that texts are cut into, TOML or not.
use std::alloc::Global;
use std::process::Abort;
use std::test::Fail;
use toml_lexemes::Lexeme::{
    CloseArray, CloseTable, Comma, Comment, Equals, LineEnd, OpenArray, OpenTable, String, Word,
};
use toml_lexemes::{Lexeme, Spaced, SpacedLexer, lexemes};

type Row<'a> = (&'a str, &'a [Lexeme<'a>]);

#[rattlefmt::skip]
const ROWS: &[Row<'static>] = &[
    // All constructs of TOML.
    ("# The project's file.\r\n[project]\n", &[Comment("# The project's file."), LineEnd, OpenArray, Word("project"), CloseArray, LineEnd]),
    ("name = \"to\\\"ml\" # \"quoted\"\n", &[Word("name"), Equals, String("\"to\\\"ml\""), Comment("# \"quoted\""), LineEnd]),
    (
        "\t'a b'.\"c\".d='C:\\dir\\'\r\n",
        &[String("'a b'"), Word("."), String("\"c\""), Word(".d"), Equals, String("'C:\\dir\\'"), LineEnd],
    ),
    ("released = 1979-05-27T07:32:00Z", &[Word("released"), Equals, Word("1979-05-27T07:32:00Z")]),
    (
        "[ \"\",'', \"\"\"\"\"\", {x=-1, y = [0x1F]},  # none\n]",
        &[
            OpenArray, String("\"\""), Comma, String("''"), Comma, String("\"\"\"\"\"\""), Comma,
            OpenTable, Word("x"), Equals, Word("-1"), Comma, Word("y"), Equals, OpenArray, Word("0x1F"), CloseArray, CloseTable,
            Comma, Comment("# none"), LineEnd, CloseArray,
        ],
    ),
    ("[[tool.x]]\n", &[OpenArray, OpenArray, Word("tool.x"), CloseArray, CloseArray, LineEnd]),
    (
        "text = \"\"\"\nSay \"\" and \\\"\"\" \\\\ \"\"\"\"\"\n",
        &[Word("text"), Equals, String("\"\"\"\nSay \"\" and \\\"\"\" \\\\ \"\"\"\"\""), LineEnd],
    ),
    ("raw = '''it''s \\'''\n", &[Word("raw"), Equals, String("'''it''s \\'''"), LineEnd]),
    // Strings that nothing closes, and comments with a CR.
    ("", &[]),
    ("\"open\\\nb", &[String("\"open\\"), LineEnd, Word("b")]),
    ("'open\r\n", &[String("'open\r"), LineEnd]),
    ("'\n", &[String("'"), LineEnd]),
    ("\"\"\"a\n\"\"", &[String("\"\"\"a\n\"\"")]),
    ("'''a''''''", &[String("'''a'''''"), String("'")]),
    (
        "\"a\"b'c'é\"\"é",
        &[String("\"a\""), Word("b"), String("'c'"), Word("é"), String("\"\""), Word("é")],
    ),
    ("#a\rb\r", &[Comment("#a\rb\r")]),
    ("#\r\r\n\r=", &[Comment("#\r"), LineEnd, Equals]),
];

fn compare(rt: &impl Abort, memory: Global, (text, expected): Row<'_>) -> Result<(), Fail> {
    let found = lexemes(memory, text)?;
    assert!(rt; found.as_slice() == expected, "{text:?}");
    Ok(())
}

#[test]
fn texts_are_cut(rt: HostRuntime) -> Result<(), Fail> {
    for &row in ROWS {
        compare(&rt, rt.alloc(), row)?;
    }
    Ok(())
}

// A text, each of its lexemes with the blanks before it, and the blanks before its end.
#[rattlefmt::skip]
const SPACED: &[(&str, Option<Lexeme<'static>>)] = &[
    ("\t", Some(Word("a"))),
    (" ", Some(Equals)),
    ("", Some(Word("1"))),
    (" \r", Some(LineEnd)),
    (" \t", None),
];

fn compare_spaced(
    rt: &impl Abort,
    memory: Global,
    text: &str,
    expected: &[(&str, Option<Lexeme<'_>>)],
) -> Result<(), Fail> {
    let found: Vec<Spaced<'_>> = SpacedLexer::new(text).collect(memory)?;
    assert!(rt; found.len() == expected.len());
    for (found, &(gap, lexeme)) in found.iter().zip(expected) {
        assert!(rt; found.gap == gap && found.lexeme == lexeme, "{gap:?}");
    }
    Ok(())
}

#[test]
fn lexemes_have_gaps(rt: HostRuntime) -> Result<(), Fail> {
    compare_spaced(&rt, rt.alloc(), "\ta =1 \r\n \t", SPACED)?;
    compare_spaced(&rt, rt.alloc(), "", &[("", None)])
}
