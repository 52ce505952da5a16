ghost use Rattle.toml_lexemes.specs.Laws.{BlankMayFollow, EndMayFollow, FirstByteDecides, LineFeedMayFollow};
ghost use Rattle.toml_lexemes.specs.Laws.{CommentsAreEnded, SignsAreEnded, WordsAreEnded};
ghost use Rattle.text_lexemes.specs.LexemeLaws.{GapsAndLexemesAreTexts, GapsAreBlanks, LexemesAreSome, LexemesStandAfterGaps};
ghost use Rattle.text_lexemes.specs.LexemeLaws.{LexemesStandAlone, TextsAreSpaced};
ghost use Rattle.toml_lexemes.specs.Laws.{GapsKeepLexemes, TextsAreWellSpaced};
ghost use Rattle.toml_lexemes.specs.Lexemes.{toml};
ghost use Rattle.toml_lexemes.specs.StatementLaws.{ClosedTextsAreSound, GapsKeepStatements, LexemesAreSaid};
ghost use Rattle.toml_lexemes.specs.StatementLaws.{LineEndsDivide, LineEndsSayNothing, ShownAsRead};

/// A text is its lexemes in their order, with nothing but blanks before, between and after them. No lexeme is empty.
pub fn law_spacing()
    ensures spaced { TextsAreSpaced toml }
    ensures some { LexemesAreSome toml }
{}

/// The lexemes with their gaps are the text, put together. Each gap is blanks alone, and the lexemes are those of the text.
pub fn law_joined()
    ensures joined { GapsAndLexemesAreTexts toml }
    ensures blanks { GapsAreBlanks toml }
    ensures lexemes { LexemesStandAfterGaps toml }
{}

/// Lexemes with any gaps of blanks around them, and after each what may follow it, are a text of the same lexemes. Each
/// lexeme of a text is one, and has after it there what may follow it.
pub fn law_gaps()
    ensures kept { GapsKeepLexemes }
    ensures alone { LexemesStandAlone toml }
    ensures well_spaced { TextsAreWellSpaced }
{}

/// What may follow a lexeme. The end of the text may. Where any byte may, a line feed may, but after a CR. Where a byte may
/// that begins no line end, a blank, a sign and a comment may. After a sign any byte may, after a word what ends a word, and
/// after a comment a line end.
pub fn law_following()
    ensures end { EndMayFollow }
    ensures line_feed { LineFeedMayFollow }
    ensures blank { BlankMayFollow }
    ensures first { FirstByteDecides }
    ensures signs { SignsAreEnded }
    ensures words { WordsAreEnded }
    ensures comments { CommentsAreEnded }
{}

/// Bytes that show items have the statements that these items are read as. The lexemes of a text whose strings are closed
/// may be shown so.
pub fn law_shown()
    ensures read { ShownAsRead }
    ensures sound { ClosedTextsAreSound }
{}

/// What the statements have of a text: all its lexemes in their order, words in their parts, but commas and line ends; and
/// nothing of the gaps between them. Line ends alone are no statement, and a line end outside of brackets divides the statements.
pub fn law_statements()
    ensures said { LexemesAreSaid }
    ensures gaps { GapsKeepStatements }
    ensures divide { LineEndsDivide }
    ensures nothing { LineEndsSayNothing }
{}
