//! Blank lines of a text.
ghost use Rattle.std.specs.Prelude.{◌≡◌, length, drop};
ghost use Rattle.json_lexemes.specs.SpacedLexemes.{after_lexeme, first_spaces, has_blank_line, line_feeds};
ghost use Rattle.json_lexemes.specs.View.{text_of};

use crate::lexeme::Lexeme;
use std::marker::Model;

/// Goes over a text beside its lexemes, and says before which of them a blank line stands. It takes no memory. A clause sees
/// the bytes that are left.
#[derive(Drop)]
pub struct BlankLines<'a> {
    rest: &'a [u8],
}

impl<'a> Model for BlankLines<'a> {
    ghost use Rattle.std.specs.Prelude.{ℕ, List, ⊤};

    ghost Value = { List ℕ };

    ghost view = { λ a. a.rest.now };

    ghost invariant = { λ a. ⊤ };
}

impl<'a> BlankLines<'a> {
    /// Before the first lexeme of this text.
    pub fn new(text: &'a str) -> BlankLines<'a>
        ensures { result ≡ text.now }
    {
        BlankLines {
            rest: text.as_bytes(),
        }
    }

    /// Passes the next lexeme, and the spaces before it. Answers whether a blank line is among these: they have two line feeds
    /// at least.
    pub fn pass(&mut self, lexeme: Lexeme<'_>) -> bool
        ensures blank { result ≡ has_blank_line (first_spaces self.old) }
        ensures left { self.new ≡ after_lexeme self.old (text_of lexeme.entry) }
    {
        let (line_feeds, after) = past_spaces(self.rest);
        self.rest = past(after, lexeme.text().len());
        line_feeds >= 2
    }
}

/// How many line feeds stand among the spaces that the bytes begin with, and the bytes after these spaces.
fn past_spaces(bytes: &[u8]) -> (usize, &[u8])
    ensures line_feeds { result.0 ≡ line_feeds (first_spaces bytes.now) }
    ensures after { result.1.now ≡ drop (length (first_spaces bytes.now)) bytes.now }
{
    let mut rest = bytes;
    let mut line_feeds = 0;
    while let Some((byte, after)) = rest.split_first() {
        match byte {
            b'\n' => line_feeds += 1,
            b' ' | b'\t' | b'\r' => {}
            _ => return (line_feeds, rest),
        }
        rest = after;
    }
    (line_feeds, rest)
}

/// The bytes after so many, or none.
fn past(bytes: &[u8], count: usize) -> &[u8]
    ensures { result.now ≡ drop count bytes.now }
{
    bytes.get(count..).unwrap_or(&[])
}
