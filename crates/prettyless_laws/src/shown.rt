ghost use Rattle.prettyless_laws.specs.Shown.{BracketedShow, MarksStandInGaps, PunctuatedShow, SeparatedShow, TextsShow};
ghost use Rattle.prettyless_laws.specs.SpacedItems.{FixedAreSpaced};
ghost use Rattle.prettyless_model.specs.Shows.{LayoutsShow, LayoutsShowTexts, ShownIsImplied};

/// What a document shows, whichever alternatives are taken, its layout shows, where it does not fail: each text whole, in
/// its order, with such gaps between them, and late ones at the end of their line. Where texts alone are asked for, there
/// may be any gaps. Bytes that show items show what these imply.
pub fn law_texts()
    ensures shown { LayoutsShow }
    ensures texts { LayoutsShowTexts }
    ensures implied { ShownIsImplied }
{}

/// Where each of some documents shows items, as `law_texts` says, so do lists of them: with those of the separator in each
/// gap, those of the punctuation after each document but the last, and those of the brackets around them all.
pub fn law_lists()
    ensures texts { TextsShow }
    ensures separated { SeparatedShow }
    ensures punctuated { PunctuatedShow }
    ensures bracketed { BracketedShow }
    ensures gaps { MarksStandInGaps }
{}

/// Bytes that show texts and gaps alone are these texts, with such gaps around them.
pub fn law_spaced()
    ensures { FixedAreSpaced }
{}
