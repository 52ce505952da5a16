//! The lexemes of small texts of a small language, as the definitions alone compute them. The functions do nothing: their contracts
//! speak.

ghost use Rattle.std.specs.Prelude.{◌∷◌, []};
ghost use Rattle.text_lexemes.specs.Rows.{FollowsSmall, FollowsSmallNot, HasLexemes};

/// Blanks are in no lexeme but notes, and not at the end of notes.
#[tactic(auto, unfolding(crate::specs::Languages::cut))]
pub fn lexemes()
    ensures nothing { HasLexemes " \n" [] }
    ensures names { HasLexemes " ab cd" ("ab" ∷ "cd" ∷ []) }
    ensures signs { HasLexemes "a;b;;" ("a" ∷ ";" ∷ "b" ∷ ";" ∷ ";" ∷ []) }
    ensures note { HasLexemes "a# b c  \nd" ("a" ∷ "# b c" ∷ "d" ∷ []) }
    ensures note_at_the_end { HasLexemes "# b " ("# b" ∷ []) }
{}

/// A name is ended by a blank, a sign, a note or the end; a note by its line end; a sign by any byte.
pub fn followers()
    ensures blank { FollowsSmall "a" " b" }
    ensures sign { FollowsSmall "a" ";b" }
    ensures end { FollowsSmall "a" "" }
    ensures after_sign { FollowsSmall ";" "a" }
    ensures line_end { FollowsSmall "# a" "  \nb" }
    ensures name { FollowsSmallNot "a" "b" }
    ensures same_line { FollowsSmallNot "# a" " b" }
    ensures two_lexemes { FollowsSmallNot "a b" ";" }
    ensures blank_first { FollowsSmallNot " a" ";" }
    ensures none { FollowsSmallNot "" "a" }
{}
