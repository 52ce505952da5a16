ghost use Rattle.toml_syntax.specs.Laws.{FormattedAreToml, FormattedKeepLexemes, FormattedSayTheSame, FormattedStay};
ghost use Rattle.toml_syntax.specs.Laws.{ParsedAreToml, ParsedKeepLexemes, ReadAreFormed, ReadKeepLexemes};
ghost use Rattle.toml_syntax.specs.Laws.{SettledSayTheSame, SettledStay, SpelledAreRead};

/// What is spelled is read again, and what is read may be spelled.
pub fn law_reading()
    ensures read { SpelledAreRead }
    ensures formed { ReadAreFormed }
{}

/// Statements that are laid out stay when they are laid out again, and say what they said.
pub fn law_layout()
    ensures stay { SettledStay }
    ensures same { SettledSayTheSame }
{}

/// A text that is laid out stays when it is laid out again, says what it said, and is TOML by the grammar.
pub fn law_formatting()
    ensures stay { FormattedStay }
    ensures same { FormattedSayTheSame }
    ensures toml { FormattedAreToml }
{}

/// A text is read as statements where it is TOML by the grammar, and else not.
pub fn law_same_texts()
    ensures { ParsedAreToml }
{}

/// Reading loses no lexeme and moves none, but for commas, line ends and how the words of a key are cut. A text that is laid
/// out has the lexemes that it had, but for these and the blanks at the end of comments.
pub fn law_words()
    ensures read { ReadKeepLexemes }
    ensures parsed { ParsedKeepLexemes }
    ensures formatted { FormattedKeepLexemes }
{}
