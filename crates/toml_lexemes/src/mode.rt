ghost use Rattle.std.specs.Prelude.{◌≡◌, ◌==◌, cond};
ghost use Rattle.toml_lexemes.specs.Bytes as ascii;
ghost use Rattle.text_lexemes.specs.Languages as language;
ghost use Rattle.toml_lexemes.specs.Lexemes as spec;
ghost use Rattle.toml_lexemes.specs.Modes.{kind_of, inner_of, turn_of};

/// The kinds of string.
#[derive(Clone, Copy)]
pub(crate) enum StringKind {
    /// `"..."`, in which a backslash escapes the byte after it.
    Basic,
    /// `'...'`
    Literal,
}

/// Where in a lexeme a byte stands.
#[derive(Clone, Copy)]
pub(crate) enum LexerMode {
    InWord,
    InComment,
    /// After the first quote of a string.
    Opened(StringKind),
    /// After two quotes with nothing between them.
    Doubled(StringKind),
    /// In a string of one line.
    InLine(StringKind),
    InLineEscape,
    /// In a string of several lines.
    InLines(StringKind),
    InLinesEscape,
    /// In a string of several lines, after one quote.
    Closing(StringKind),
    /// In a string of several lines, after two quotes.
    ClosingMore(StringKind),
    /// After the three quotes that close a string of several lines.
    Closed(StringKind),
    /// After one quote more.
    ClosedMore(StringKind),
}

/// What a byte is to the lexeme that is being read.
#[derive(Clone, Copy)]
pub(crate) enum ByteTurn {
    /// A byte of it, after which it goes on.
    GoesOn(LexerMode),
    /// Its last byte.
    Ends,
    /// The first byte after it.
    Stops,
}

/// Whether the byte is a blank.
#[inline]
pub(crate) fn is_blank(byte: u8) -> bool
    ensures { result ≡ ascii.is_blank byte }
{
    matches!(byte, b' ' | b'\t' | b'\r')
}

/// Whether the byte is a sign.
#[inline]
fn is_sign(byte: u8) -> bool
    ensures { result ≡ ascii.is_sign byte }
{
    matches!(byte, b'[' | b']' | b'{' | b'}' | b',' | b'=')
}

/// Whether a word ends before the byte.
#[inline]
fn ends_word(byte: u8) -> bool
    ensures { result ≡ ascii.ends_word byte }
{
    is_sign(byte)
        || is_blank(byte)
        || byte == b'"'
        || byte == b'\''
        || byte == b'\n'
        || byte == b'#'
}

/// Whether the byte is the quote of this kind of string.
#[inline]
fn is_mark(kind: StringKind, byte: u8) -> bool
    ensures { result ≡ (byte == spec.quote_mark (kind_of kind)) }
{
    match kind {
        StringKind::Basic => byte == b'"',
        StringKind::Literal => byte == b'\'',
    }
}

/// Whether the byte escapes the next one.
#[inline]
fn escapes(kind: StringKind, byte: u8) -> bool
    ensures { result ≡ spec.escapes (kind_of kind) byte }
{
    match kind {
        StringKind::Basic => byte == b'\\',
        StringKind::Literal => false,
    }
}

/// What a byte is in a string of one line.
#[inline]
fn line_turn(kind: StringKind, byte: u8) -> ByteTurn
    ensures { turn_of result ≡ spec.line_turn (kind_of kind) byte }
{
    if byte == b'\n' {
        ByteTurn::Stops
    } else if is_mark(kind, byte) {
        ByteTurn::Ends
    } else if escapes(kind, byte) {
        ByteTurn::GoesOn(LexerMode::InLineEscape)
    } else {
        ByteTurn::GoesOn(LexerMode::InLine(kind))
    }
}

/// What a byte is in a string of several lines.
#[inline]
fn lines_turn(kind: StringKind, byte: u8) -> ByteTurn
    ensures { turn_of result ≡ spec.lines_turn (kind_of kind) byte }
{
    if is_mark(kind, byte) {
        ByteTurn::GoesOn(LexerMode::Closing(kind))
    } else if escapes(kind, byte) {
        ByteTurn::GoesOn(LexerMode::InLinesEscape)
    } else {
        ByteTurn::GoesOn(LexerMode::InLines(kind))
    }
}

/// The lexeme goes on in a mode where the byte is the quote of its kind, and else takes a turn.
#[inline]
fn at_mark(kind: StringKind, byte: u8, mode: LexerMode, other: ByteTurn) -> ByteTurn
    ensures { turn_of result
        ≡ cond (byte == spec.quote_mark (kind_of kind)) (language.goes_on (inner_of mode)) (turn_of other) }
{
    if is_mark(kind, byte) {
        ByteTurn::GoesOn(mode)
    } else {
        other
    }
}

/// The lexeme stops where this is so, and else goes on in the mode.
#[inline]
fn stops_at(stops: bool, mode: LexerMode) -> ByteTurn
    ensures { turn_of result ≡ cond stops language.stops (language.goes_on (inner_of mode)) }
{
    if stops {
        ByteTurn::Stops
    } else {
        ByteTurn::GoesOn(mode)
    }
}

/// What a byte is to the lexeme in this mode, directly before a line feed or not.
#[inline]
pub(crate) fn turn_at(mode: LexerMode, byte: u8, before_line_feed: bool) -> ByteTurn
    ensures { turn_of result ≡ spec.turn (inner_of mode) byte before_line_feed }
{
    match mode {
        LexerMode::InWord => stops_at(ends_word(byte), mode),
        LexerMode::InComment => stops_at(
            byte == b'\n' || (byte == b'\r' && before_line_feed),
            mode,
        ),
        LexerMode::Opened(kind) => at_mark(
            kind,
            byte,
            LexerMode::Doubled(kind),
            line_turn(kind, byte),
        ),
        LexerMode::Doubled(kind) => at_mark(kind, byte, LexerMode::InLines(kind), ByteTurn::Stops),
        LexerMode::InLine(kind) => line_turn(kind, byte),
        LexerMode::InLineEscape => stops_at(byte == b'\n', LexerMode::InLine(StringKind::Basic)),
        LexerMode::InLines(kind) => lines_turn(kind, byte),
        LexerMode::InLinesEscape => ByteTurn::GoesOn(LexerMode::InLines(StringKind::Basic)),
        LexerMode::Closing(kind) => at_mark(
            kind,
            byte,
            LexerMode::ClosingMore(kind),
            lines_turn(kind, byte),
        ),
        LexerMode::ClosingMore(kind) => at_mark(
            kind,
            byte,
            LexerMode::Closed(kind),
            lines_turn(kind, byte),
        ),
        LexerMode::Closed(kind) => at_mark(
            kind,
            byte,
            LexerMode::ClosedMore(kind),
            ByteTurn::Stops,
        ),
        LexerMode::ClosedMore(kind) if is_mark(kind, byte) => ByteTurn::Ends,
        LexerMode::ClosedMore(_) => ByteTurn::Stops,
    }
}
