//! What a text was to have where it stops being JSON.
ghost use Rattle.std.specs.Prelude.{◌≡◌};
ghost use Rattle.json_grammar.specs.Expected.{name_of};

/// What was expected.
#[derive(Clone, Copy, Debug, Drop, PartialEq, Eq)]
pub enum Expected {
    /// A byte that goes on as UTF-8 does.
    Utf8,
    /// A value, at the beginning, after a colon, or after a comma of an array.
    Value,
    /// The first value of an array, or the bracket that closes it.
    ValueOrBracket,
    /// A key, after a comma of an object.
    Key,
    /// The first key of an object, or the brace that closes it.
    KeyOrBrace,
    /// The colon after a key.
    Colon,
    /// What follows a value of an array.
    CommaOrBracket,
    /// What follows a value of an object.
    CommaOrBrace,
    /// The end, after the one value of a text.
    End,
    /// The quote that ends a string.
    Quote,
    /// A backslash with what JSON has after it.
    Escape,
    /// The escape that is the other half of a surrogate pair.
    Pair,
    /// An escape in place of a control character.
    Control,
    /// An array or an object that is less deep within others.
    LessNesting,
}

impl Expected {
    /// As a message names it.
    pub fn name(self) -> &'static str
        ensures { result.now ≡ name_of self }
    {
        match self {
            Expected::Utf8 => "UTF-8",
            Expected::Value => "a value",
            Expected::ValueOrBracket => "a value or `]`",
            Expected::Key => "a key",
            Expected::KeyOrBrace => "a key or `}`",
            Expected::Colon => "`:`",
            Expected::CommaOrBracket => "`,` or `]`",
            Expected::CommaOrBrace => "`,` or `}`",
            Expected::End => "the end of the text",
            Expected::Quote => "a closing quote",
            Expected::Escape => "a valid escape",
            Expected::Pair => "both halves of a surrogate pair",
            Expected::Control => "an escape for a control character",
            Expected::LessNesting => "at most 100,000 levels of nesting",
        }
    }
}
