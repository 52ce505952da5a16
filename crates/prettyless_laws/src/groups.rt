ghost use Rattle.prettyless_laws.specs.Parts.{InlineIsLaidAsOneText, InlineIsSeenAsOneText, GroupsThatFitAreOneText};
ghost use Rattle.prettyless_laws.specs.Parts.{GroupsThatDoNotFitAreBroken, WideGroupsAreBroken, WideBeginningsBreakGroups};
ghost use Rattle.prettyless_laws.specs.Parts.{NeverFlatGroupsAreBroken, LayoutsGoByWhatFollows, BreaksReadAlike, DocumentsAreLaidInTurn};
ghost use Rattle.prettyless_laws.specs.Parts.{LineEndsHideWhatFollows, LineEndsHideTheirRight, HardLinesTakeAnIndent, HardLinesEndLines};
ghost use Rattle.prettyless_laws.specs.Parts.{LayoutsEndWithNothingPending};

/// Where it is known which groups fit, a document is laid part by part, and a formatter can write the parts without building
/// the document.
///
/// A document that is texts alone on a flat line is laid there as one text, its bytes and its columns taken together. A group
/// of it is that text where the text and what follows it, up to the end of the line, stay within the width, and else the
/// document in Break. Where the text, or a beginning of it, is wider than the width itself, the group is broken wherever it
/// stands. So is every group with a hard line in it, a text of several lines, `expand_parent` or `fail`, where its flat line
/// would show that.
///
/// Of what follows a document its layout takes two things alone: the indent of the nearest, and what a probe finds there. So
/// documents that are appended, in any grouping, are laid one after another, each with the later ones following. What comes
/// after the end of a line is hidden from both. A hard line takes the indent alone. Where nothing is pending it ends the line,
/// and bytes that a document is laid to are its layout.
pub fn law_parts()
    ensures laid { InlineIsLaidAsOneText }
    ensures seen { InlineIsSeenAsOneText }
    ensures fits { GroupsThatFitAreOneText }
    ensures does_not_fit { GroupsThatDoNotFitAreBroken }
    ensures too_wide { WideGroupsAreBroken }
    ensures begins_too_wide { WideBeginningsBreakGroups }
    ensures never_flat { NeverFlatGroupsAreBroken }
    ensures follows { LayoutsGoByWhatFollows }
    ensures breaks { BreaksReadAlike }
    ensures in_turn { DocumentsAreLaidInTurn }
    ensures hidden { LineEndsHideWhatFollows }
    ensures hidden_right { LineEndsHideTheirRight }
    ensures takes_indent { HardLinesTakeAnIndent }
    ensures ends_line { HardLinesEndLines }
    ensures ends { LayoutsEndWithNothingPending }
{}
