/// A lexeme of a TOML text, as it is spelled there.
#[derive(Clone, Copy, Debug, PartialEq, Eq)]
pub enum Lexeme<'a> {
    /// `[`
    OpenArray,
    /// `]`
    CloseArray,
    /// `{`
    OpenTable,
    /// `}`
    CloseTable,
    /// `,`
    Comma,
    /// `=`
    Equals,
    /// The end of a line, LF. A CR before it is no part of it.
    LineEnd,
    /// A comment, from `#` up to the line end or the end of the text.
    Comment(&'a str),
    /// A string of any of the four kinds, with its quotes. One of one line that no quote closes goes up to the line end, and
    /// one of several lines up to the end of the text.
    String(&'a str),
    /// A key, a number, a date, a literal, or what stands in place of one: it goes up to a blank, a line end, a sign, a
    /// quote, a comment or the end.
    Word(&'a str),
}

impl<'a> Lexeme<'a> {
    ghost use Rattle.std.specs.Prelude.{◌≡◌};
    ghost use Rattle.toml_lexemes.specs.View.{toml_text_of};

    /// The lexeme as it is spelled; a line end is LF alone.
    #[inline]
    pub fn text(self) -> &'a str
        ensures { result.now ≡ toml_text_of self.entry }
    {
        match self {
            Lexeme::OpenArray => "[",
            Lexeme::CloseArray => "]",
            Lexeme::OpenTable => "{",
            Lexeme::CloseTable => "}",
            Lexeme::Comma => ",",
            Lexeme::Equals => "=",
            Lexeme::LineEnd => "\n",
            Lexeme::Comment(text) | Lexeme::String(text) | Lexeme::Word(text) => text,
        }
    }
}
