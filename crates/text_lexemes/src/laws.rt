//! Laws of each language. The functions do nothing: their contracts speak.

ghost use Rattle.text_lexemes.specs.Languages.{Language};
ghost use Rattle.text_lexemes.specs.SpacedTexts.{IsLocal};
ghost use Rattle.text_lexemes.specs.LexemeLaws.{FollowersAreLexemes, FollowersLeaveFirst, GapsAndLexemesAreTexts, GapsAreBlanks};
ghost use Rattle.text_lexemes.specs.LexemeLaws.{LexemesAreSome, LexemesMayFollow, LexemesStandAfterGaps, LexemesStandAlone};
ghost use Rattle.text_lexemes.specs.LexemeLaws.{TextsAreSpaced};

/// A text is its lexemes in their order, with nothing but blanks before, between and after them. No lexeme is empty.
pub fn law_spacing<Inner>()
    ensures spaced { (L : Language Inner) → TextsAreSpaced L }
    ensures some { (L : Language Inner) → LexemesAreSome L }
{}

/// The lexemes with their gaps are the text, put together. Each gap is blanks alone, and the lexemes are those of the text.
pub fn law_joined<Inner>()
    ensures joined { (L : Language Inner) → GapsAndLexemesAreTexts L }
    ensures blanks { (L : Language Inner) → GapsAreBlanks L }
    ensures lexemes { (L : Language Inner) → LexemesStandAfterGaps L }
{}

/// Texts with any gaps of blanks around them, and after each what may follow it, are the lexemes of the whole. The lexemes of each
/// text stand so, and each is a lexeme alone, where later bytes do not make a byte a part of it.
pub fn law_gaps<Inner>()
    ensures kept { (L : Language Inner) → FollowersAreLexemes L }
    ensures alone { (L : Language Inner) → IsLocal L → LexemesStandAlone L }
    ensures well_spaced { (L : Language Inner) → LexemesMayFollow L }
{}

/// What may follow a text is what leaves it the first lexeme, before the lexemes of what follows.
pub fn law_following<Inner>()
    ensures { (L : Language Inner) → FollowersLeaveFirst L }
{}
