//! What holds of all documents and layouts, by the definitions alone. The functions do nothing: their contracts speak.
ghost use Rattle.prettyless_model.specs.Content.{LayoutsHaveContent};
ghost use Rattle.prettyless_model.specs.Levels.{FewerSuffixesThanNodes, MoreLevelsChangeNothing};

/// The levels of a layout are never spent: any number above what the document may leave pending gives the same layout,
/// and the size of the document is such a number.
pub fn law_levels()
    ensures more { MoreLevelsChangeNothing }
    ensures enough { FewerSuffixesThanNodes }
{}

/// What a document spells is what its layout writes, but for space, CR and LF, where the layout does not fail: in its
/// order without line suffixes, each byte as often with them, and interleaved where none is inside another. What it shows
/// is there: each text whole, with such gaps between them, and late ones at the end of their line.
pub fn law_content()
    ensures { LayoutsHaveContent }
{}
