//! Layouts of small documents, as the definitions alone compute them. The functions do nothing: their contracts speak.

ghost use Rattle.std.specs.Prelude.{◌≡◌, ◌^◌, ◌-◌, ◌++◌, List, ◌∷◌, [], ℕ, pos, negsuc, codes};
ghost use Rattle.prettyless_model.specs.declared.choice.ColumnTest.TheVariants as by_column;
ghost use Rattle.prettyless_model.specs.declared.choice.NestingTest.TheVariants as by_nesting;
ghost use Rattle.prettyless_model.specs.Tree.{Nil, Fail, Text, TextWithLen, MultilineText, WeakSpace, HardLine, WeakLine, Append};
ghost use Rattle.prettyless_model.specs.Tree.{LineSuffix, Nest, DedentToRoot, Align, ExpandParent, Flatten, BreakOrFlat, Group, Union};
ghost use Rattle.prettyless_model.specs.Tree.{PartialUnion, OnNesting, probed, size};
ghost use Rattle.prettyless_model.specs.Layout.{layout, Whole};
ghost use Rattle.prettyless_model.specs.Spelling.{ink, spelled_parts, spells};
ghost use Rattle.prettyless_model.specs.Rows.{Counts, Fails, IsLaidAs, accent, at_indent, after_two, below, binding, crlf_at};
ghost use Rattle.prettyless_model.specs.Rows.{deferred_at, flat_or_failed, in_turn, letter, letter_in_group, row_line, not_at_indent};
ghost use Rattle.prettyless_model.specs.Rows.{noted, numbers, pair, commented_rows, tail, row_text, tight_pair, two_lines};

/// A group is laid on one line where it fits, and is broken where it does not.
pub fn groups()
    ensures numbers_fit { IsLaidAs 10 numbers (codes "(1 2 3)") }
    ensures numbers_break { IsLaidAs 5 numbers (codes "(1\n 2\n 3)") }
    ensures pair_fits { IsLaidAs 80 (pair "a" "b") (codes "a b") }
    ensures pair_breaks { IsLaidAs 2 (pair "a" "b") (codes "a\nb") }
    ensures tight_pair_fits { IsLaidAs 80 (tight_pair "a" "b") (codes "ab") }
    ensures tight_pair_breaks { IsLaidAs 1 (tight_pair "a" "b") (codes "a\nb") }
    ensures greatest_width { IsLaidAs (2 ^ 64 - 1) (pair "test" "test") (codes "test test") }
    ensures flattened { IsLaidAs 1 (Flatten (in_turn (row_text "a") (row_line ∷ row_text "b" ∷ []))) (codes "a b") }
    ensures expanded { IsLaidAs 80 (Group (Append row_line ExpandParent)) (codes "\n") }
{}

/// The indent of a line.
pub fn indents()
    // The next line has the indent of what follows the break, and the break's own only where nothing does.
    ensures indent_of_next { IsLaidAs 80 (Append (Nest (pos 2) HardLine) Nil) (codes "\n") }
    ensures own_indent { IsLaidAs 0 (Nest (pos 2) HardLine) (codes "\n  ") }
    ensures own_indent_deferred { layout (deferred_at 0) (Nest (pos 2) HardLine) ≡ Whole (codes "\n") }
    ensures nested_text { IsLaidAs 80 (in_turn (row_text "a") (HardLine ∷ Nest (pos 4) (row_text "x") ∷ [])) (codes "a\nx") }
    ensures nested_break { IsLaidAs 80 (Nest (pos 4) below) (codes "\n    x") }

    // An indent stops at 0, and a nesting inside counts from there.
    ensures nested_below_zero { IsLaidAs 80 (Nest (negsuc 1) (Nest (pos 2) below)) (codes "\n  x") }
    ensures nested_and_back { IsLaidAs 80 (Nest (pos 2) (Nest (negsuc 1) below)) (codes "\nx") }

    // An indent is written at once, also on an empty line, or with the first content.
    ensures empty_line { IsLaidAs 80 (Nest (pos 2) (in_turn (row_text "aaa") (HardLine ∷ HardLine ∷ row_text "bbb" ∷ [])))
        (codes "aaa\n  \n  bbb") }
    ensures empty_line_deferred { layout (deferred_at 80)
        (Nest (pos 2) (in_turn (row_text "aaa") (HardLine ∷ HardLine ∷ row_text "bbb" ∷ [])))
        ≡ Whole (codes "aaa\n\n  bbb") }

    // An alignment counts a space that is not written yet, and the root is column 0.
    ensures aligned { IsLaidAs 80 (in_turn (row_text "a") (WeakSpace ∷ Align (Append HardLine (row_text "b")) ∷ [])) (codes "a\n  b") }
    ensures to_root { IsLaidAs 10 (Nest (pos 4)
        (in_turn (row_text "a") (DedentToRoot (two_lines "b" "c") ∷ HardLine ∷ row_text "e" ∷ []))) (codes "ab\nc\n    e") }
    ensures crlf { layout (crlf_at 80) (in_turn (Nest (pos 2) (two_lines "x" "y")) (HardLine ∷ row_text "z" ∷ []))
        ≡ Whole (codes "x\r\n  y\r\nz") }
{}

/// A weak line breaks also where it is laid flat, and is nothing at the beginning of a line, as a weak space is.
pub fn weak_lines()
    ensures in_group { IsLaidAs 80 (Group (in_turn (row_text "a") (WeakLine ∷ row_text "b" ∷ []))) (codes "a\nb") }
    ensures flattened { IsLaidAs 80 (Flatten (in_turn (row_text "a") (WeakLine ∷ row_text "b" ∷ []))) (codes "a\nb") }
    ensures at_the_beginning { IsLaidAs 1 (Group (Append WeakLine (row_text "long"))) (codes "long") }
    ensures after_empty_text { IsLaidAs 1 (Group (in_turn (TextWithLen 0 []) (WeakLine ∷ row_text "x" ∷ []))) (codes "x") }
    ensures after_no_width { IsLaidAs 1 (in_turn (TextWithLen 0 accent) (WeakLine ∷ row_text "x" ∷ [])) (accent ++ codes "\nx") }
    ensures still_at_the_beginning { IsLaidAs 3
        (Nest (pos 2) (in_turn (row_text "a") (HardLine ∷ WeakLine ∷ WeakSpace ∷ Text [] ∷ WeakLine ∷ row_text "b" ∷ [])))
        (codes "a\n  b") }
    ensures spaces { IsLaidAs 80 (in_turn (row_text "a") (WeakSpace ∷ WeakSpace ∷ row_text "b" ∷ [])) (codes "a  b") }
    ensures spaces_at_both_ends { IsLaidAs 80 (in_turn WeakSpace (row_text "a" ∷ WeakSpace ∷ [])) (codes "a") }
{}

/// A payload goes out byte for byte. It breaks the group that it is in, and its first line counts for what is
/// before it.
pub fn payloads()
    ensures as_it_is { IsLaidAs 80 (MultilineText (codes "a\r\n\nb\n")) (codes "a\r\n\nb\n") }
    ensures under_crlf { layout (crlf_at 80) (MultilineText (codes "a\r\n\nb\n")) ≡ Whole (codes "a\r\n\nb\n") }
    ensures indented { IsLaidAs 80 (Nest (pos 2) (Append HardLine (MultilineText (codes "a\nb")))) (codes "\n  a\nb") }
    ensures in_group { IsLaidAs 80 (Group (in_turn (row_text "a") (row_line ∷ MultilineText (codes "b\nc") ∷ []))) (codes "a\nb\nc") }
    ensures first_line_fits { IsLaidAs 8
        (in_turn (row_text "aaaa") (Group (Append row_line (row_text "b")) ∷ MultilineText (codes "cc\nd") ∷ []))
        (codes "aaaa bcc\nd") }
    ensures first_line_is_too_long { IsLaidAs 7
        (in_turn (row_text "aaaa") (Group (Append row_line (row_text "b")) ∷ MultilineText (codes "cc\nd") ∷ []))
        (codes "aaaa\nbcc\nd") }
{}

/// A line suffix waits for the next break, or for the end.
pub fn line_suffixes()
    ensures before_break { IsLaidAs 5 commented_rows (codes "a // 1\nb // 2") }
    ensures in_group { IsLaidAs 5
        (Group (in_turn (row_text "a") (LineSuffix (row_text " // 1") ∷ row_line ∷ LineSuffix (row_text " // 2") ∷ row_text "b" ∷ [])))
        (codes "a b // 1 // 2") }
    ensures after_payload { IsLaidAs 80 (Append (LineSuffix (row_text " // 1")) (MultilineText (codes "\"b\nc\"")))
        (codes "\"b\nc\" // 1") }
    ensures on_fresh_line { IsLaidAs 80 (Group (in_turn (LineSuffix Nil) (WeakLine ∷ row_text "a" ∷ row_line ∷ row_text "b" ∷ [])))
        (codes "\na\nb") }
    ensures from_a_suffix { IsLaidAs 80
        (in_turn (row_text "a") (LineSuffix (Append (row_text "x") (LineSuffix (row_text "y"))) ∷ HardLine ∷ row_text "b" ∷ []))
        (codes "axy\nb") }
    ensures padded { IsLaidAs 2 (in_turn (row_text "a") (WeakSpace ∷ LineSuffix Nil ∷ [])) (codes "a ") }

    // It is laid at the break's indent and in its mode, with the break and later ones following it; at the end with these.
    ensures at_indent { IsLaidAs 80
        (Append (row_text "a") (Nest (pos 2) (Append (LineSuffix (Append WeakLine (row_text "km"))) (Append WeakLine WeakLine))))
        (codes "a\n  km\n  ") }
    ensures flat_under_crlf { layout (crlf_at 15) (Flatten (Append (LineSuffix (BreakOrFlat (row_text "k") (row_text "gcg"))) WeakLine))
        ≡ Whole (codes "gcg\r\n") }
    ensures last { IsLaidAs 80 (LineSuffix (Nest (pos 2) HardLine)) (codes "\n  ") }
    ensures last_but_one { IsLaidAs 80 (Append (LineSuffix (Nest (pos 2) HardLine)) (LineSuffix (row_text "x"))) (codes "\nx") }
{}

/// The first branch of a union is kept where its own output fits. That of a partial union is where it fits together with
/// what follows, up to the first break.
pub fn alternatives()
    ensures kept { IsLaidAs 5 (Union (row_text "short") (row_text "much longer text")) (codes "short") }
    ensures not_kept { IsLaidAs 1 (Union (row_text "short") (row_text "much longer text")) (codes "much longer text") }
    ensures by_every_line { IsLaidAs 10 (Union (two_lines "short" "long long long") (two_lines "short" "short")) (codes "short\nshort") }
    ensures by_first_line { IsLaidAs 10
        (PartialUnion (two_lines "short" "long long long") (two_lines "short" "short"))
        (codes "short\nlong long long") }
    ensures together_too_long { IsLaidAs 4 (Append (PartialUnion (row_text "ab") (row_text "c")) (row_text "dddd")) (codes "cdddd") }
    ensures together { IsLaidAs 6 (Append (PartialUnion (row_text "ab") (row_text "c")) (row_text "dddd")) (codes "abdddd") }

    // A payload is judged by all its lines, and padding that a suffix would commit counts.
    ensures payload { IsLaidAs 3 (Union (MultilineText (codes "bc\nghij")) (LineSuffix ExpandParent)) [] }
    ensures padding { IsLaidAs 2 (Union noted (row_text "x")) (codes "a //") }
    ensures padding_is_too_long { IsLaidAs 1 (Union noted (row_text "x")) (codes "x") }
    ensures padding_in_partial { IsLaidAs 1 (PartialUnion noted (row_text "x")) (codes "x") }

    // What went past the width before a branch does not count, and what follows it is known to it.
    ensures after_long_line { IsLaidAs 3 (in_turn (row_text "long") (HardLine ∷ Union (row_text "a b") (two_lines "a" "b") ∷ []))
        (codes "long\na b") }
    ensures follower_known { IsLaidAs 1
        (Nest (pos 2) (Append (Union (Append (row_text "a") HardLine) (row_text "x")) (row_text "b"))) (codes "a\n  b") }

    // A probe reads a union broken by its second branch.
    ensures read_by_second { IsLaidAs 5 tail (codes "aa\nbb") }
    ensures read_by_second_and_fits { IsLaidAs 13 tail (codes "aa bb") }

    // What a branch left waiting is gone with it, and waits on where it is kept.
    ensures rejected_suffix { IsLaidAs 10
        (Append (LineSuffix (row_text " // caller"))
        (Union (Append (Union (Append (row_text "inner") (LineSuffix (row_text " // s"))) (row_text "inner fallback"))
        (row_text " long overflow"))
        (row_text "outer fallback")))
        (codes "outer fallback // caller") }
    ensures kept_suffix { IsLaidAs 80
        (Union (Append (row_text "p") (Union (Append (row_text "inner") (LineSuffix (row_text " // s"))) (row_text "q"))) (row_text "r"))
        (codes "pinner // s") }
    ensures rejected_under_crlf { layout (crlf_at 1) (in_turn (Union (two_lines "ab" "cd") (row_text "z")) (HardLine ∷ row_text "w" ∷ []))
        ≡ Whole (codes "z\r\nw") }
{}

/// A choice by column tests where the next content would begin, one by nesting the indent, in both modes. A probe
/// takes the document that the layout takes.
pub fn choices()
    ensures hung_on_one_line { IsLaidAs 70 binding (codes "let x = \\y -> y") }
    ensures hung_on_two_lines { IsLaidAs 14 binding (codes "let x = \\y ->\n  y") }
    ensures hung_on_three_lines { IsLaidAs 8 binding (codes "let x =\n  \\y ->\n    y") }
    ensures nested { IsLaidAs 5 after_two (codes "abc d") }
    ensures nested_in_break { IsLaidAs 4 after_two (codes "abc\n  d") }
    ensures at_most { IsLaidAs 80 (Append (row_text "prefix ") (letter (by_column.AtMost 7) "a" "b")) (codes "prefix a") }
    ensures past { IsLaidAs 80 (Append (row_text "prefix ") (letter (by_column.AtMost 6) "a" "b")) (codes "prefix b") }
    ensures after_space { IsLaidAs 80 (in_turn (row_text "a") (WeakSpace ∷ letter (by_column.AtLeast 2) "b" "c" ∷ [])) (codes "a b") }
    ensures not_taken { IsLaidAs 80 not_at_indent (codes "ab") }
    ensures taken { Fails 80 (Nest (pos 1) not_at_indent) (codes "a") }
    ensures indented { IsLaidAs 80 at_indent (codes "\n  x") }
    ensures indented_later { layout (deferred_at 80) at_indent ≡ Whole (codes "\n  x") }
    ensures in_group { IsLaidAs 80 letter_in_group (codes "a c") }
{}

/// A document fails after what is before the node that fails. A branch that fails is rejected, and what is not laid does
/// not fail.
pub fn failures()
    ensures at_once { Fails 80 (Group Fail) [] }
    ensures flat_line { Fails 80 (Flatten (two_lines "a" "b")) (codes "a") }
    ensures at_the_end { Fails 80 (Append (LineSuffix Fail) (row_text "a")) (codes "a") }
    ensures after_kept_branch { Fails 2 (Append (Union (Append (row_text "a") (LineSuffix Fail)) (row_text "x")) (row_text "b"))
        (codes "ab") }
    ensures in_branch { IsLaidAs 3 (in_turn (row_text "p")
        (WeakSpace ∷ Union (in_turn (row_text "long") (HardLine ∷ Fail ∷ [])) (row_text "x") ∷ [])) (codes "p x") }
    ensures in_group_of_branch { IsLaidAs 4 (Union flat_or_failed (row_text "abc")) (codes "abc") }
    ensures not_laid { IsLaidAs 5 (Union flat_or_failed (row_text "abc")) (codes "12345") }
    ensures nothing_laid { IsLaidAs 0 (Group (BreakOrFlat Fail Nil)) [] }
{}

/// What documents spell, with line suffixes and by every choice, and what bytes have of it.
pub fn contents()
    ensures spelled { spells commented_rows (codes "a//1//2b") }
    ensures parted { spelled_parts commented_rows (codes "ab") (codes "//1//2") }
    ensures written { ink (codes "a // 1\nb // 2") ≡ codes "a//1b//2" }
    ensures by_every_choice { spells (Union (row_text "a b") (row_text "ab")) (codes "ab") }
    ensures by_every_test { spells (letter by_column.IsNesting "a b" "ab") (codes "ab") }
    ensures by_one_test { (w : List ℕ) → spells (OnNesting (by_nesting.AtMost 0) (row_text "a") (row_text "b")) w → ⊥ }
    ensures by_no_word { (w : List ℕ) → spells (Union (row_text "a") (row_text "b")) w → ⊥ }
{}

/// What layouts count: the nodes that they lay, and the probes that they need. A tree has so many nodes, of which so many
/// need a probe.
pub fn counts()
    ensures pair_nodes { size (pair "a" "b") ≡ 8 }
    ensures pair_probed { probed (pair "a" "b") ≡ 1 }
    ensures lines_nodes { size (Union (two_lines "short" "long long long") (two_lines "short" "short")) ≡ 11 }
    ensures group_fits { Counts 80 (pair "a" "b") 7 1 }
    ensures group_breaks { Counts 2 (pair "a" "b") 7 1 }
    ensures flat_group { Counts 80 (Flatten (pair "a" "b")) 8 0 }
    ensures partial { Counts 80 (PartialUnion (row_text "a") Nil) 2 1 }

    ensures letter_nodes { size letter_in_group ≡ 10 }
    ensures letter { Counts 80 letter_in_group 8 1 }

    // A kept branch counts, and a rejected one does not.
    ensures kept { Counts 80 (Union (Group (two_lines "a" "b")) Nil) 7 1 }
    ensures rejected { Counts 0 (Union (Group (two_lines "a" "b")) Nil) 2 0 }

    // What waits for the end of its line does not count.
    ensures put_off { Counts 80 (Append (LineSuffix (Append Nil Nil)) HardLine) 3 0 }
{}
