//! What a text was to have where it stops being TOML.
ghost use Rattle.std.specs.Prelude.{◌≡◌};
ghost use Rattle.toml_grammar.specs.Expected.{expected_name};

/// What was expected.
#[derive(Clone, Copy, Debug, PartialEq, Eq)]
pub enum Expected {
    /// What begins a line: a key, a header, a comment, or nothing.
    Line,
    /// The first part of a key, or the part after a dot.
    Key,
    /// What follows a part of the key of a value.
    DotOrEquals,
    /// What follows a part of the key of `[key]`.
    DotOrBracket,
    /// What follows a part of the key of `[[key]]`.
    DotOrBrackets,
    /// The second bracket that closes `[[key]]`, with nothing before it.
    Bracket,
    /// The value of a key.
    Value,
    /// A value of an array, or the bracket that closes it.
    ValueOrBracket,
    /// The first key of an inline table, or the brace that closes it.
    KeyOrBrace,
    /// What follows a value of an array.
    CommaOrBracket,
    /// What follows a value of an inline table.
    CommaOrBrace,
    /// What follows a header, or a value outside of brackets: a line end, a comment or the end.
    LineEnd,
    /// A line feed after a CR.
    LineFeed,
    /// A string that TOML allows as a value.
    String,
    /// A string that TOML allows as a part of a key.
    KeyString,
    /// A comment that TOML allows.
    Comment,
    /// A string of one line, as a part of a key.
    OneLine,
    /// The quote that closes a string of one line.
    Quote,
    /// The quotes that close a string of several lines.
    Quotes,
    /// What makes an escape with a backslash.
    Escape,
    /// A digit of an escape in hex digits.
    Digit,
    /// An escape in hex digits of a Unicode scalar value.
    Scalar,
    /// No control character but the tab.
    Plain,
}

impl Expected {
    /// As a message names it.
    pub fn name(self) -> &'static str
        ensures { result.now ≡ expected_name self }
    {
        match self {
            Expected::Line => "a key, a table header or a line end",
            Expected::Key => "a key",
            Expected::DotOrEquals => "`.` or `=`",
            Expected::DotOrBracket => "`.` or `]`",
            Expected::DotOrBrackets => "`.` or `]]`",
            Expected::Bracket => "`]` directly after `]`",
            Expected::Value => "a value",
            Expected::ValueOrBracket => "a value or `]`",
            Expected::KeyOrBrace => "a key or `}`",
            Expected::CommaOrBracket => "`,` or `]`",
            Expected::CommaOrBrace => "`,` or `}`",
            Expected::LineEnd => "the end of the line",
            Expected::LineFeed => "a line feed after the carriage return",
            Expected::String => "a closed string with valid escapes and no control characters",
            Expected::KeyString =>
                "a closed string of one line with valid escapes and no control characters",
            Expected::Comment => "a comment without control characters",
            Expected::OneLine => "a string of one line",
            Expected::Quote => "a closing quote",
            Expected::Quotes => "three closing quotes",
            Expected::Escape => "a valid escape",
            Expected::Digit => "a hex digit",
            Expected::Scalar => "a digit that makes a Unicode character",
            Expected::Plain => "no control character",
        }
    }
}
