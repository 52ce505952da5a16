ghost use Rattle.json_lexemes.specs.Laws.{GapsAreSpaces, SpacedAreLexemes, TextsAreJoined};
ghost use Rattle.json_lexemes.specs.Laws.{GapsKeepReadings, LexemesAreNotEmpty, LexemesOfLanguage, TextsAreSpacedLexemes};

/// A text is its lexemes in their order, with nothing but spaces before, between and after them. No lexeme is empty.
pub fn law_spacing()
    ensures spaced { TextsAreSpacedLexemes }
    ensures some { LexemesAreNotEmpty }
{}

/// The lexemes with their gaps are the text, put together, but for the spaces at its end. Each gap is spaces alone, and the
/// lexemes are those of the text.
pub fn law_joined()
    ensures joined { TextsAreJoined }
    ensures spaces { GapsAreSpaces }
    ensures lexemes { SpacedAreLexemes }
{}

/// The lexemes of a text that is a JSON value, with any spaces around them or none, are a text of the same value, and of
/// the same lexemes.
pub fn law_reading()
    ensures { GapsKeepReadings }
{}

/// The lexemes of a text are those of a language that is read from the left, so each law of `text_lexemes` holds of them.
pub fn law_language()
    ensures { LexemesOfLanguage }
{}
