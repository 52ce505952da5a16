/// A lexeme of a JSON text, as it is spelled there.
#[derive(Clone, Copy, Debug, PartialEq, Eq)]
pub enum Lexeme<'a> {
    /// `{`
    OpenObject,
    /// `}`
    CloseObject,
    /// `[`
    OpenArray,
    /// `]`
    CloseArray,
    /// `,`
    Comma,
    /// `:`
    Colon,
    /// A string, from its quote to its closing quote, or to the end of the text where no quote closes it.
    String(&'a str),
    /// A number or a literal, or what stands in place of one: it goes up to an operator, a space or the end.
    Word(&'a str),
}

impl<'a> Lexeme<'a> {
    ghost use Rattle.std.specs.Prelude.{◌≡◌};
    ghost use Rattle.json_lexemes.specs.View.{text_of};

    /// The lexeme as it is spelled.
    #[inline(always)]
    pub fn text(self) -> &'a str
        ensures { result.now ≡ text_of self.entry }
    {
        match self {
            Lexeme::OpenObject => "{",
            Lexeme::CloseObject => "}",
            Lexeme::OpenArray => "[",
            Lexeme::CloseArray => "]",
            Lexeme::Comma => ",",
            Lexeme::Colon => ":",
            Lexeme::String(text) | Lexeme::Word(text) => text,
        }
    }
}
