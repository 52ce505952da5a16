//! Blank lines of a text that its layout keeps.
ghost use Rattle.std.specs.Prelude.{◌≡◌, false};
ghost use Rattle.json.specs.Ascii.{comma};
ghost use Rattle.json_lexemes.specs.SpacedLexemes.{after_lexeme, first_spaces};
ghost use Rattle.json_lexemes.specs.View.{text_of, IsNamed};
ghost use Rattle.json_formatter.specs.BlankLines.{kept_gap};
ghost use Rattle.json_formatter.specs.Documents.{is_json_sign};
ghost use Rattle.json_formatter.specs.Gaps.{gap_bytes};

use crate::gaps::Gap;
use json_lexemes::{BlankLines, Lexeme};

/// Where a layout that keeps blank lines stands in its text.
#[derive(Drop)]
pub(crate) struct Kept<'a> {
    blank_lines: BlankLines<'a>,
    after_comma: bool,
}

impl<'a> Kept<'a> {
    /// Before the first lexeme of this text.
    pub(crate) fn new(text: &'a str) -> Kept<'a>
        ensures text { result.blank_lines ≡ text.now }
        ensures first { result.after_comma ≡ false }
    {
        Kept {
            blank_lines: BlankLines::new(text),
            after_comma: false,
        }
    }

    /// Passes the next lexeme. Answers the gap before it, with an empty line where one is kept.
    pub(crate) fn gap(&mut self, gap: Gap, lexeme: Lexeme<'_>) -> Gap
        requires { IsNamed lexeme }
        ensures gap { gap_bytes result
            ≡ kept_gap self.old.after_comma (first_spaces self.old.blank_lines) (gap_bytes gap) }
        ensures after { self.new.after_comma ≡ is_json_sign comma (text_of lexeme.entry) }
        ensures left { self.new.blank_lines ≡ after_lexeme self.old.blank_lines (text_of lexeme.entry) }
    {
        let is_blank = self.blank_lines.pass(lexeme);
        let after_comma = self.after_comma;
        self.after_comma = matches!(lexeme, Lexeme::Comma);
        match gap {
            Gap::Line(indent) if after_comma && is_blank => Gap::BlankLine(indent),
            _ => gap,
        }
    }
}
