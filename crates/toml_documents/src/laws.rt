ghost use Rattle.toml_documents.specs.AlignmentLaws.{AlignedCommentsStay, AlignedDocumentsStay, AlignedLexemesStay, AlignedTextsAreToml};
ghost use Rattle.toml_documents.specs.LaidLaws.{LayoutsAreLaidAgain, LayoutsAreToml};
ghost use Rattle.toml_documents.specs.Spellings.{LayoutsAreSpelledOut};

/// Comments that are aligned change no lexeme of their text, which is still TOML where it was, and has the same document, so it is
/// laid out alike. Aligned again they stay.
pub fn law_alignment()
    ensures lexemes { AlignedLexemesStay }
    ensures again { AlignedCommentsStay }
    ensures documents { AlignedDocumentsStay }
    ensures toml { AlignedTextsAreToml }
{}

/// The document of a text, TOML or not, has a layout in every style: the texts of the document in their order, a line end where
/// one was laid, spaces before a text that begins a line, and nothing else. The texts are single spaces, commas, and the lexemes
/// of the text in their order, each as it is spelled, comments without blanks at their end. So nothing is lost or added but
/// line ends, blanks and commas. Words of a key may stand side by side, where they are one lexeme.
pub fn law_layout()
    ensures { LayoutsAreSpelledOut }
{}

/// The layout of a TOML text is TOML, in every style: each lexeme stands where it may, though commas and comments change their
/// order, after a gap that may be there, and none runs into the next but the words of a key.
pub fn law_toml()
    ensures { LayoutsAreToml }
{}

/// The layout of a TOML text that is laid out again in the same style, with the same line ends, is the same bytes, comments aligned
/// or not.
pub fn law_again()
    ensures { LayoutsAreLaidAgain }
{}
