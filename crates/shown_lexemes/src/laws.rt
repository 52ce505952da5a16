ghost use Rattle.shown_lexemes.specs.ShownLaws.{FixedTextsAreListed, LayoutsHaveLexemes, ShownAreLexemes, TablesShowLexemes};

/// In each language: bytes that show items have the texts of these items as lexemes, in their order, where each text may come after
/// the one before it and the gap between them; so do items whose gaps are as a table of neighbours asks, and the whole layouts of a
/// document that shows such items. An optional text is a lexeme or not. The function does nothing: its contract speaks.
pub fn law_shown<Inner>()
    ensures shown { ShownAreLexemes Inner }
    ensures table { TablesShowLexemes Inner }
    ensures layouts { LayoutsHaveLexemes Inner }
    ensures fixed { FixedTextsAreListed }
{}
