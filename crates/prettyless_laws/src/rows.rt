//! Traces of small documents, what is around their texts, what small documents show, and what they are on a flat line, as the
//! definitions alone compute them. The functions do nothing: their contracts speak.

ghost use Rattle.std.specs.Prelude.{pos, codes, true, false, ◌∷◌, ◌++◌, []};
ghost use Rattle.prettyless_model.specs.declared.choice.ColumnTest.TheVariants as by_column;
ghost use Rattle.prettyless_model.specs.Tree.{Nil, Fail, MultilineText, WeakSpace, HardLine, WeakLine, Append, LineSuffix, Nest, Flatten};
ghost use Rattle.prettyless_model.specs.Tree.{Group, Union, PartialUnion};
ghost use Rattle.prettyless_model.specs.Rows.{accent, at_indent, flat_or_failed, in_turn, letter, letter_in_group, noted, numbers, pair};
ghost use Rattle.prettyless_model.specs.Rows.{row_text, tight_pair, two_lines};
ghost use Rattle.prettyless_model.specs.Shows.{Mark, AreShown, apart, ended, loose, spaced};
ghost use Rattle.prettyless_laws.specs.Trace.{Ending, Indent, Gap, Source, Alternative, First, Second};
ghost use Rattle.prettyless_laws.specs.Enclosed.{FlatGroup, BrokenGroup, Flattened, KeptBranch};
ghost use Rattle.prettyless_laws.specs.Rows.{HasTextsIn, late_in_group, text_in};
ghost use Rattle.prettyless_laws.specs.Rows.{DoesNotHave, DoesNotShow, FailsAfter, HasNoTexts, HasTrace, IsFlatText};
ghost use Rattle.prettyless_laws.specs.Rows.{LinedTextsStandApart, ShowsItems, ShowsNothing, WideListsAreLaidByTheirMembers};
ghost use Rattle.prettyless_laws.specs.Rows.{WideTextsAreOnLines, accented, either_number, late_item, late_comment, late_with};
ghost use Rattle.prettyless_laws.specs.Rows.{numbers_items, numbers_with, one_number, one_number_items, padded, comment_with, text_item};
ghost use Rattle.prettyless_laws.specs.Rows.{text_piece, two_late, two_late_items, widely_spaced, with_empty_line};

/// Each line end is followed by the indent of the next line, and each text comes after its weak spaces.
pub fn rows()
    ensures lines { HasTrace 80 with_empty_line
        (Gap 0 ∷ text_piece "aaa" 3 ∷ Ending ∷ Indent 2 false ∷ Ending ∷ Indent 2 true ∷ Gap 0 ∷ text_piece "bbb" 5 ∷ []) }
    ensures nothing { HasTrace 80 Nil [] }
    ensures last_line { HasTrace 80 (Nest (pos 2) HardLine) (Ending ∷ Indent 2 false ∷ []) }
    ensures spaces { HasTrace 80 (in_turn (row_text "a") (WeakSpace ∷ WeakSpace ∷ row_text "b" ∷ WeakSpace ∷ []))
        (Gap 0 ∷ text_piece "a" 1 ∷ Gap 2 ∷ text_piece "b" 4 ∷ []) }
    ensures group_fits { HasTrace 80 (pair "a" "b")
        (Alternative First ∷ Gap 0 ∷ text_piece "a" 1 ∷ Gap 0 ∷ text_piece " " 2 ∷ Gap 0 ∷ text_piece "b" 3 ∷ []) }
    ensures group_fills { HasTrace 3 (pair "a" "b")
        (Alternative First ∷ Gap 0 ∷ text_piece "a" 1 ∷ Gap 0 ∷ text_piece " " 2 ∷ Gap 0 ∷ text_piece "b" 3 ∷ []) }
    ensures group_breaks { HasTrace 2 (pair "a" "b")
        (Alternative Second ∷ Gap 0 ∷ text_piece "a" 1 ∷ Ending ∷ Indent 0 true ∷ Gap 0 ∷ text_piece "b" 1 ∷ []) }
    ensures flattened { HasTrace 1 (Flatten (pair "a" "b"))
        (Gap 0 ∷ text_piece "a" 1 ∷ Gap 0 ∷ text_piece " " 2 ∷ Gap 0 ∷ text_piece "b" 3 ∷ []) }
    ensures kept { HasTrace 5 (Union (row_text "short") (row_text "much longer text"))
        (Alternative First ∷ Gap 0 ∷ text_piece "short" 5 ∷ []) }
    ensures not_kept { HasTrace 1 (Union (row_text "short") (row_text "x")) (Alternative Second ∷ Gap 0 ∷ text_piece "x" 1 ∷ []) }
    ensures by_first_line { HasTrace 10 (PartialUnion (two_lines "a" "long long long") (row_text "x"))
        (Alternative First ∷ Gap 0 ∷ text_piece "a" 1 ∷ Ending ∷ Indent 0 true ∷ Gap 0 ∷ text_piece "long long long" 14 ∷ []) }
    ensures too_long { HasTrace 1 (PartialUnion (row_text "long") (row_text "x")) (Alternative Second ∷ Gap 0 ∷ text_piece "x" 1 ∷ []) }
    ensures failed_branch { HasTrace 80 (Union (Append (row_text "a") Fail) (pair "a" "b"))
        (Alternative Second ∷ Alternative First ∷ Gap 0 ∷ text_piece "a" 1 ∷ Gap 0 ∷ text_piece " " 2 ∷ Gap 0 ∷ text_piece "b" 3 ∷ []) }

    // A choice by column or nesting is noted in both modes.
    ensures first_flat { HasTrace 80 letter_in_group
        (Alternative First ∷ Alternative First ∷ Gap 0 ∷ text_piece "a" 1 ∷ Gap 0 ∷ text_piece " " 2 ∷ Gap 0 ∷ text_piece "c" 3 ∷ []) }
    ensures second { HasTrace 80 (Append (row_text "prefix ") (letter (by_column.AtMost 6) "a" "b"))
        (Gap 0 ∷ text_piece "prefix " 7 ∷ Alternative Second ∷ Gap 0 ∷ text_piece "b" 8 ∷ []) }
    ensures at_indent { HasTrace 80 at_indent (Ending ∷ Indent 2 true ∷ Alternative First ∷ Gap 0 ∷ text_piece "x" 3 ∷ []) }

    // A payload uses an indent by its first part, where that is not empty.
    ensures payload { HasTrace 80 (Nest (pos 2) (Append HardLine (MultilineText (codes "a\nb"))))
        (Ending ∷ Indent 2 true ∷ Gap 0 ∷ Source (codes "a\nb") ∷ []) }
    ensures empty_part { HasTrace 80 (Nest (pos 2) (Append HardLine (MultilineText (codes "\nb"))))
        (Ending ∷ Indent 2 false ∷ Source (codes "\nb") ∷ []) }

    // A pending suffix uses the indent as it begins, also where it is nothing.
    ensures suffix { HasTrace 80 (in_turn noted (HardLine ∷ []))
        (Gap 0 ∷ text_piece "a" 1 ∷ Gap 1 ∷ Gap 0 ∷ text_piece "//" 4 ∷ Ending ∷ Indent 0 false ∷ []) }
    ensures empty_suffix { HasTrace 80 (Nest (pos 2) (in_turn HardLine (LineSuffix Nil ∷ HardLine ∷ row_text "b" ∷ [])))
        (Ending ∷ Indent 2 true ∷ Gap 0 ∷ Ending ∷ Indent 2 true ∷ Gap 0 ∷ text_piece "b" 3 ∷ []) }
    ensures failure { FailsAfter 80 (in_turn (row_text "a") (HardLine ∷ Fail ∷ []))
        (Gap 0 ∷ text_piece "a" 1 ∷ Ending ∷ Indent 0 false ∷ []) }
{}

/// What is around the texts of small documents. Those past the width are what `law_width` leaves out.
pub fn enclosures()
    ensures fills { HasTextsIn 3 (pair "a" "b")
        (text_in (FlatGroup ∷ []) "a" 1 ∷ text_in (FlatGroup ∷ []) " " 2 ∷ text_in (FlatGroup ∷ []) "b" 3 ∷ []) }
    ensures broken { HasTextsIn 3 (Group (in_turn (pair "a" "b") (HardLine ∷ row_text "long" ∷ [])))
        (text_in (BrokenGroup ∷ FlatGroup ∷ []) "a" 1 ∷ text_in (BrokenGroup ∷ FlatGroup ∷ []) " " 2
        ∷ text_in (BrokenGroup ∷ FlatGroup ∷ []) "b" 3 ∷ text_in (BrokenGroup ∷ []) "long" 4 ∷ []) }

    // A group in a `Flatten` may end past the width.
    ensures flattened { HasTextsIn 1 (Flatten (Group (row_text "long"))) (text_in (Flattened ∷ FlatGroup ∷ []) "long" 4 ∷ []) }

    // A line suffix of a flat group may, since it is laid at the end of the line. A group of its own may not.
    ensures late { HasTextsIn 1 late_in_group (text_in (FlatGroup ∷ []) "a" 1 ∷ text_in [] " # c" 5 ∷ []) }
    ensures late_groups { HasTextsIn 3 (Group (in_turn (row_text "a") (LineSuffix (Group (row_text "b")) ∷ HardLine ∷ [])))
        (text_in (BrokenGroup ∷ []) "a" 1 ∷ text_in (BrokenGroup ∷ FlatGroup ∷ []) "b" 2 ∷ []) }
    ensures late_flattened { HasTextsIn 1 (Flatten (in_turn (row_text "a") (LineSuffix (row_text " # c") ∷ WeakLine ∷ [])))
        (text_in (Flattened ∷ []) "a" 1 ∷ text_in (Flattened ∷ []) " # c" 5 ∷ []) }

    // So may the later lines of a partial union's first branch, but no line of a union's.
    ensures kept { HasTextsIn 5 (Union (row_text "short") (row_text "x")) (text_in (KeptBranch ∷ []) "short" 5 ∷ []) }
    ensures by_first_line { HasTextsIn 1 (PartialUnion (two_lines "a" "long") (row_text "x"))
        (text_in [] "a" 1 ∷ text_in [] "long" 4 ∷ []) }
{}

/// On a flat line a document is one text. Lists that are wider than the width are laid by their members, each on lines of its own.
pub fn parts()
    ensures flat_list { IsFlatText numbers (codes "(1 2 3)") 7 }
    ensures flat_nothing { IsFlatText Nil [] 0 }
    ensures flat_accent { IsFlatText accented (codes "e" ++ accent) 1 }
    ensures flat_alternative { IsFlatText either_number (codes "12") 2 }
    ensures list { WideListsAreLaidByTheirMembers }
    ensures texts { WideTextsAreOnLines }
{}

/// Each text is shown whole, with the gap between two texts that each of the alternatives has.
pub fn texts()
    ensures fits { ShowsItems 80 numbers numbers_items (codes "(1 2 3)") }
    ensures breaks { ShowsItems 5 numbers numbers_items (codes "(1\n 2\n 3)") }
    ensures joined { ShowsItems 80 (tight_pair "1" "2") (numbers_with (loose ∷ [])) (codes "12") }
    ensures on_two_lines { ShowsItems 1 (tight_pair "1" "2") (numbers_with (loose ∷ [])) (codes "1\n2") }
    ensures side_by_side { ShowsItems 80 (Append (row_text "1") (row_text "2")) (numbers_with []) (codes "12") }
    ensures weak_space { ShowsItems 80 (in_turn (row_text "1") (WeakSpace ∷ row_text "2" ∷ [])) (numbers_with (spaced ∷ [])) (codes "1 2") }
    ensures padding { ShowsItems 80 padded (numbers_with (spaced ∷ ended ∷ spaced ∷ [])) (codes "1\n2") }
    ensures spaces { ShowsItems 80 widely_spaced (numbers_with (spaced ∷ [])) (codes "1  2") }
    ensures spaces_as_text { ShowsItems 80 widely_spaced (numbers_with (text_item "  " ∷ [])) (codes "1  2") }
    ensures spaces_within { ShowsItems 80 (row_text "x = 1") (text_item "x = 1" ∷ []) (codes "x = 1") }
    ensures payload { ShowsItems 80 (in_turn (row_text "a") (WeakSpace ∷ MultilineText (codes "b\nc") ∷ []))
        (text_item "a" ∷ spaced ∷ text_item "b\nc" ∷ []) (codes "a b\nc") }
    ensures list { LinedTextsStandApart }
    ensures failed_alternative { ShowsItems 80 flat_or_failed (text_item "12345" ∷ []) (codes "12345") }

    // A comment goes on to the end of its line, and the line end is shown.
    ensures comment { ShowsItems 80 (two_lines "# c" "x") (comment_with (ended ∷ [])) (codes "# c\nx") }
    ensures comment_weakly_ended { ShowsItems 80 (in_turn (row_text "# c") (WeakLine ∷ row_text "x" ∷ []))
        (comment_with (ended ∷ [])) (codes "# c\nx") }
    ensures comment_ended_twice { ShowsItems 80 (in_turn (row_text "# c") (HardLine ∷ WeakLine ∷ row_text "x" ∷ []))
        (comment_with (ended ∷ ended ∷ [])) (codes "# c\nx") }
    ensures space_is_no_end { DoesNotHave (in_turn (row_text "# c") (WeakSpace ∷ row_text "x" ∷ [])) (comment_with (ended ∷ [])) }
    ensures line_is_no_end { DoesNotHave (pair "# c" "x") (comment_with (ended ∷ [])) }

    // What is late comes at the end of its line, after what is on the line and before the line end.
    ensures late_before_end { ShowsItems 2 late_comment (late_with apart) (codes "a # c\nb") }
    ensures late_after_group { ShowsItems 80 late_comment (late_with apart) (codes "a b # c") }
    ensures late_in_turn { ShowsItems 80 two_late two_late_items (codes "ab #1 #2\nc") }
    ensures late_at_the_end { ShowsItems 80 (Append (row_text "a") (LineSuffix (row_text " # c")))
        (text_item "a" ∷ late_item " # c" ∷ []) (codes "a # c") }
    ensures late_after_space { ShowsItems 80 noted (text_item "a" ∷ spaced ∷ late_item "//" ∷ []) (codes "a //") }
    ensures late_in_late { ShowsNothing (LineSuffix (LineSuffix (row_text "x"))) }

    // What is there by some alternatives alone is an optional text.
    ensures mark_left_out { ShowsItems 80 one_number one_number_items (codes "(1)") }
    ensures mark_set { ShowsItems 1 one_number one_number_items (codes "(\n1,\n)") }
    ensures first_of_two { ShowsItems 80 either_number (Mark (codes "12") ∷ Mark (codes "1") ∷ []) (codes "12") }
    ensures second_of_two { ShowsItems 1 either_number (Mark (codes "12") ∷ Mark (codes "1") ∷ []) (codes "1") }
    ensures none_of_two { HasNoTexts either_number }

    // What bytes show, and what they do not show.
    ensures shown_joined { AreShown (codes "12") (numbers_with []) }
    ensures not_joined { DoesNotShow (codes "1 2") (numbers_with []) }
    ensures not_apart { DoesNotShow (codes "12") (numbers_with (apart ∷ [])) }
    ensures not_on_one_line { DoesNotShow (codes "1\n2") (numbers_with (spaced ∷ [])) }
    ensures not_ended { DoesNotShow (codes "# c x") (comment_with (ended ∷ [])) }
    ensures not_after_late { DoesNotShow (codes "a # c b") (late_with apart) }
    ensures not_beside_late { DoesNotShow (codes "a # cb") (late_with apart) }
    ensures not_late_enough { DoesNotShow (codes "a\n # c\nb") (late_with ended) }
    ensures not_marked_twice { DoesNotShow (codes "1,,") (text_item "1" ∷ Mark (codes ",") ∷ []) }
    ensures not_late_before_a_gap { DoesNotShow (codes "1#\n2") (text_item "1" ∷ apart ∷ late_item "#" ∷ text_item "2" ∷ []) }
    ensures not_late_after_a_space { DoesNotShow (codes "a #") (text_item "a" ∷ late_item "#" ∷ []) }
    ensures not_on_the_next_line { DoesNotShow (codes "\n1") (text_item "1" ∷ []) }
    ensures not_before_a_line_end { DoesNotShow (codes "1\n") (text_item "1" ∷ []) }
{}
