//! Whether comments of later lines may be aligned with those of lines that were laid out.
ghost use Rattle.std.specs.Prelude.{◌≡◌};
ghost use Rattle.toml_documents.specs.Walks as spec;
ghost use Rattle.toml_lexemes.specs.SpacedLexemes.{toml_spaced_lexemes};
ghost use Rattle.toml_lexemes.specs.SpacedLexer.{spaced_of, IsNamedIf};

use crate::breaks::has_lines;
use crate::standing::{ends_the_line, is_comment_lexeme};
use toml_lexemes::{Spaced, SpacedLexer};

/// What lines are, read up to here.
#[derive(Clone, Copy)]
pub(crate) struct LinesRead {
    /// Whether a comment that comes now is one at the end of a line.
    holds: bool,
    /// Whether such a comment came on this line.
    ended: bool,
    /// Whether nothing stands on this line.
    fresh: bool,
    /// Whether the line before it has just ended, with no such comment: none that comes is aligned with one before.
    free: bool,
    /// Whether no such comment came at all.
    plain: bool,
    /// Whether each text that was read ends with the end of a line.
    whole: bool,
}

/// Before the first line.
pub(crate) const FIRST: LinesRead = LinesRead {
    holds: false,
    ended: false,
    fresh: true,
    free: false,
    plain: true,
    whole: true,
};

/// Whether the text ends there.
fn is_end(found: Spaced<'_>) -> bool
    requires { IsNamedIf found.lexeme }
    ensures { result ≡ spec.is_text_end (spaced_of found.entry).lexeme }
{
    found.lexeme.is_none()
}

impl LinesRead {
    /// After the end of a text, which has this gap before it.
    fn past_end(self, gap: &str) -> LinesRead
        ensures { result ≡ spec.past_end self gap.now }
    {
        LinesRead {
            whole: self.whole && self.fresh && gap.is_empty(),
            ..self
        }
    }

    /// After a comment at the end of a line.
    fn past_comment(self) -> LinesRead
        ensures { result ≡ spec.past_comment self }
    {
        LinesRead {
            ended: true,
            fresh: false,
            free: false,
            plain: false,
            ..self
        }
    }

    /// After the end of a line.
    fn past_line(self) -> LinesRead
        ensures { result ≡ spec.past_line self }
    {
        LinesRead {
            holds: false,
            ended: false,
            fresh: true,
            free: !self.ended,
            ..self
        }
    }

    /// After any other lexeme.
    fn past_text(self, text: &str) -> LinesRead
        ensures { result ≡ spec.past_text self text.now }
    {
        LinesRead {
            holds: !has_lines(text),
            fresh: false,
            free: false,
            ..self
        }
    }

    /// After a comment.
    fn past_any_comment(self, text: &str) -> LinesRead
        ensures { result ≡ spec.past_any_comment self.holds self text.now }
    {
        if self.holds {
            self.past_comment()
        } else {
            self.past_text(text)
        }
    }

    /// After a lexeme, or the end of a text.
    fn past(self, found: Spaced<'_>) -> LinesRead
        requires { IsNamedIf found.lexeme }
        ensures { result ≡ spec.walk_past self (spaced_of found.entry) }
    {
        if is_end(found) {
            return self.past_end(found.gap);
        }
        if is_comment_lexeme(found) {
            return self.past_any_comment(found.text());
        }
        if ends_the_line(found) {
            return self.past_line();
        }
        self.past_text(found.text())
    }

    /// After all of a text.
    pub(crate) fn over(self, text: &str) -> LinesRead
        ensures { result ≡ spec.walked self (toml_spaced_lexemes text.now) }
    {
        let mut walk = self;
        let mut lexemes = SpacedLexer::new(text);
        while let Some(found) = lexemes.next() {
            walk = walk.past(found);
        }
        walk
    }

    /// Whether no comment that comes is aligned with one of these lines.
    pub(crate) fn is_settled(self) -> bool
        ensures { result ≡ spec.is_settled self }
    {
        self.whole && self.free
    }

    /// Whether these lines have no comments at their ends.
    pub(crate) fn is_plain(self) -> bool
        ensures { result ≡ self.plain }
    {
        self.plain
    }
}
