//! Where the lexemes of a layout stand on their lines, and by how much comments are moved to be aligned.
ghost use Rattle.std.specs.Prelude.{◌≡◌};
ghost use Rattle.toml_documents.specs.Alignment as spec;
ghost use Rattle.toml_lexemes.specs.SpacedLexer.{spaced_of, IsNamedIf};

use crate::breaks::has_lines;
use prettyless_text::measure::{is_ascii, text_width};
use toml_lexemes::{Lexeme, Spaced, SpacedLexer};

/// How far a line has come.
#[derive(Clone, Copy)]
pub(crate) struct Reach {
    /// How many columns are taken.
    pub(crate) columns: usize,
    /// Whether a comment that comes now is one at the end of a line: something is before it, which has no line end in it.
    pub(crate) holds: bool,
    /// Whether such a comment came.
    pub(crate) ended: bool,
}

/// Where a layout stands before one of its lexemes.
#[derive(Clone, Copy)]
pub(crate) struct Standing {
    pub(crate) reach: Reach,
    /// The most columns before the comments of the lines that follow each other here, if the line before is one of them.
    pub(crate) most: Option<usize>,
}

/// At the beginning of a line.
const LINE_START: Reach = Reach {
    columns: 0,
    holds: false,
    ended: false,
};

/// At the beginning of a layout.
pub(crate) const START: Standing = Standing {
    reach: LINE_START,
    most: None,
};

pub(crate) fn is_comment_lexeme(found: Spaced<'_>) -> bool
    requires { IsNamedIf found.lexeme }
    ensures { result ≡ spec.is_comment_lexeme (spaced_of found.entry) }
{
    matches!(found.lexeme, Some(Lexeme::Comment(_)))
}

pub(crate) fn ends_the_line(found: Spaced<'_>) -> bool
    requires { IsNamedIf found.lexeme }
    ensures { result ≡ spec.ends_the_line (spaced_of found.entry) }
{
    matches!(found.lexeme, Some(Lexeme::LineEnd))
}

impl Reach {
    /// After a lexeme that ends no line.
    fn past(self, found: Spaced<'_>) -> Reach
        ensures { result ≡ spec.reach_past self (spaced_of found.entry) }
    {
        let text = found.text();
        Reach {
            columns: self
                .columns
                .saturating_add(found.gap.len())
                .saturating_add(text_width(text, is_ascii(text))),
            holds: !has_lines(text),
            ended: self.ended,
        }
    }

    /// After a comment at its end.
    fn with_comment(self) -> Reach
        ensures { result ≡ spec.reach_with_comment self }
    {
        Reach {
            ended: true,
            ..self
        }
    }
}

/// The most columns before the comments of the lines that follow each other from one on, which has come so far before its
/// comment.
fn most_columns(mut lexemes: SpacedLexer<'_>, first: Reach) -> usize
    ensures { result ≡ spec.most_columns first.columns (spec.reach_with_comment first) lexemes.entry }
{
    let mut most = first.columns;
    let mut reach = first.with_comment();
    while let Some(found) = lexemes.next() {
        if is_comment_lexeme(found) {
            if !reach.holds {
                return most;
            }
            most = most.max(reach.columns);
            reach = reach.with_comment();
        } else if ends_the_line(found) {
            if !reach.ended {
                return most;
            }
            reach = LINE_START;
        } else {
            reach = reach.past(found);
        }
    }
    most
}

impl Standing {
    /// The most columns before the comment that comes now and those that it is aligned with, in front of these lexemes.
    fn most_here(self, lexemes: &SpacedLexer<'_>) -> usize
        ensures { result ≡ spec.most_here self lexemes.now }
    {
        match self.most {
            Some(most) => most,
            None => most_columns(lexemes.again(), self.reach),
        }
    }

    /// After a lexeme in front of others, and by how many columns it is moved, if it is a comment at the end of a line.
    pub(crate) fn past(
        self,
        found: Spaced<'_>,
        lexemes: &SpacedLexer<'_>,
    ) -> (Standing, Option<usize>)
        requires { IsNamedIf found.lexeme }
        ensures standing { result.0 ≡ spec.standing_past self (spaced_of found.entry) lexemes.now }
        ensures moved { result.1 ≡ spec.moved_by self (spaced_of found.entry) lexemes.now }
    {
        let reach = self.reach;
        if is_comment_lexeme(found) && reach.holds {
            let most = self.most_here(lexemes);
            let standing = Standing {
                reach: reach.with_comment(),
                most: Some(most),
            };
            return (standing, Some(most.saturating_sub(reach.columns)));
        }
        if ends_the_line(found) {
            let most = if reach.ended { self.most } else { None };
            let reach = LINE_START;
            return (Standing { reach, most }, None);
        }
        let reach = reach.past(found);
        (Standing { reach, ..self }, None)
    }
}
