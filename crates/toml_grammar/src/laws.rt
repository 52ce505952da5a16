ghost use Rattle.toml_grammar.specs.GapLaws.{GapsAreUnseen, KeyWordsAreJoined};
ghost use Rattle.toml_grammar.specs.Laws.{CommentsOfTomlAreClear, StringsOfTomlAreClosed};
ghost use Rattle.toml_grammar.specs.WordLaws.{KeyStringsAreStrings, CommentsEndWithNoReturn, CommentsHoldNoReturn};
ghost use Rattle.toml_grammar.specs.WordLaws.{StringsAreClosed};

/// A valid string is closed: any byte that is no quote may come directly after it. One that may stand in a key is a valid
/// string. A valid comment holds no CR, and does not end with one.
pub fn law_closed()
    ensures strings { StringsAreClosed }
    ensures key_strings { KeyStringsAreStrings }
    ensures comments { CommentsHoldNoReturn }
    ensures ends { CommentsEndWithNoReturn }
{}

/// The strings of a TOML text are closed, so any byte that is no quote may come directly after one, and its comments hold no CR.
pub fn law_closed_strings()
    ensures strings { StringsOfTomlAreClosed }
    ensures comments { CommentsOfTomlAreClear }
{
    law_closed();
}

/// What the grammar does not see. Which blanks stand before a lexeme is one thing but between the brackets of a header of an array
/// of tables, where none do, before a time, where one space does, and for CR, which stands before LF alone. And two words that
/// may follow each other in a key are one word side by side.
pub fn law_unseen()
    ensures gaps { GapsAreUnseen }
    ensures keys { KeyWordsAreJoined }
{}
