//! The statements of small texts, as the definitions alone compute them. The functions do nothing: their contracts speak.

ghost use Rattle.std.specs.Prelude.{◌∷◌, []};
ghost use Rattle.prettyless_model.specs.Shows.{apart, ended, loose, spaced};
ghost use Rattle.toml_lexemes.specs.Rows.{AreNotRead, AreReadAs, SaysStatements, SaysOther, SaysTheSame, mark, shown, statement};

/// A statement goes on to the end of its line, and in brackets over line ends.
#[tactic(auto, unfolding(crate::specs::Statements::statements, text_lexemes::specs::Languages::cut))]
pub fn lines()
    ensures key_and_value { SaysStatements "a = 1\n" (statement ("a" ∷ "=" ∷ "1" ∷ []) ∷ []) }
    ensures two { SaysStatements "a=1\nb = 'x'" (statement ("a" ∷ "=" ∷ "1" ∷ []) ∷ statement ("b" ∷ "=" ∷ "'x'" ∷ []) ∷ []) }
    ensures dots { SaysStatements "b.c.'d.e' = 1" (statement ("b" ∷ "." ∷ "c" ∷ "." ∷ "'d.e'" ∷ "=" ∷ "1" ∷ []) ∷ []) }
    ensures header { SaysStatements "[a.b]\nc = 1\n"
        (statement ("[" ∷ "a" ∷ "." ∷ "b" ∷ "]" ∷ []) ∷ statement ("c" ∷ "=" ∷ "1" ∷ []) ∷ []) }
    ensures header_of_array { SaysStatements "[[a]]" (statement ("[" ∷ "[" ∷ "a" ∷ "]" ∷ "]" ∷ []) ∷ []) }
    ensures table { SaysStatements "a = { b = 1, c = 2 }"
        (statement ("a" ∷ "=" ∷ "{" ∷ "b" ∷ "=" ∷ "1" ∷ "," ∷ "c" ∷ "=" ∷ "2" ∷ "}" ∷ []) ∷ []) }
    ensures date { SaysStatements "a = 1979-05-27 07:32:00" (statement ("a" ∷ "=" ∷ "1979-05-27" ∷ "07:32:00" ∷ []) ∷ []) }
    ensures string_over_lines { SaysStatements "a = '''\n[ # \n'''\n" (statement ("a" ∷ "=" ∷ "'''\n[ # \n'''" ∷ []) ∷ []) }
    ensures array_over_lines { SaysStatements "a = [\n  1,\n  [2, 3],\n]\n"
        (statement ("a" ∷ "=" ∷ "[" ∷ "1" ∷ "," ∷ "[" ∷ "2" ∷ "," ∷ "3" ∷ "]" ∷ "]" ∷ []) ∷ []) }
    ensures not_closed { SaysStatements "a = [1\n" (statement ("a" ∷ "=" ∷ "[" ∷ "1" ∷ []) ∷ []) }
{}

/// What does not matter: gaps, also those around the dots of keys, empty lines, how lines end, and a comma before a closing
/// bracket.
#[tactic(auto, unfolding(crate::specs::Statements::statements, text_lexemes::specs::Languages::cut))]
pub fn layouts()
    ensures gaps { SaysTheSame "\t a=1 " "a = 1" }
    ensures dots { SaysTheSame "a . b .c. d = 1" "a.b.c.d = 1" }
    ensures strings_and_dots { SaysTheSame "[ 'a' .b . \"c\" ]" "['a'.b.\"c\"]" }
    ensures empty_lines { SaysTheSame "\n\na = 1\n \n\nb = 2\n" "a = 1\nb = 2" }
    ensures crlf { SaysTheSame "a = 1\r\nb = [\r\n]\r\n" "a = 1\nb = []\n" }
    ensures nothing { SaysStatements " \n\r\n" [] }
    ensures last_comma { SaysTheSame "a = [1, 2,]" "a = [\n  1,\n  2\n]\n" }
    ensures array_with_comments { SaysTheSame "a = [ # x\n  1, # one\n\n  2 # two\n  , # y\n]\n" "a=[# x\n1,# one\n2# two\n# y\n]" }
{}

/// What matters: each lexeme, their order, and which are on a line of their own.
#[tactic(auto, unfolding(crate::specs::Statements::statements, text_lexemes::specs::Languages::cut))]
pub fn differences()
    ensures value { SaysOther "a = 1" "a = 2" }
    ensures order { SaysOther "a = 1\nb = 2" "b = 2\na = 1" }
    ensures line_end { SaysOther "a = 1\nb = 2" "a = 1 b = 2" }
    ensures brackets { SaysOther "a = [1, 2, 3]" "a = [1, [2, 3]]" }
    ensures comma { SaysOther "a = [1, 2]" "a = [1 2]" }
    ensures words { SaysOther "a b = 1" "ab = 1" }
    ensures dot_in_a_string { SaysOther "'a.b' = 1" "'a'.'b' = 1" }
    ensures two_commas { SaysOther "a = [1,,]" "a = [1,]" }
    ensures comment { SaysOther "a = 1 # one" "a = 1" }
    ensures comment_on_its_line { SaysOther "a = 1 # one" "a = 1\n# one" }
    ensures string { SaysOther "a = 'x'" "a = 'x '" }
{}

/// A comment is read without the blanks at its end, and after the comma that it stands before.
#[tactic(auto, unfolding(crate::specs::Statements::statements, text_lexemes::specs::Languages::cut))]
pub fn comments()
    ensures with_value { SaysStatements "a = 1 # one \t\r\n" (statement ("a" ∷ "=" ∷ "1" ∷ "# one" ∷ []) ∷ []) }
    ensures alone { SaysStatements "# one\n# two" (statement ("# one" ∷ []) ∷ statement ("# two" ∷ []) ∷ []) }
    ensures before_comma { SaysTheSame "a = [1 # one\n, 2]" "a = [1, # one\n2]" }
    ensures around_comma { SaysStatements "a = [1 # x\n, # y\n2]"
        (statement ("a" ∷ "=" ∷ "[" ∷ "1" ∷ "," ∷ "# x" ∷ "# y" ∷ "2" ∷ "]" ∷ []) ∷ []) }
{}

/// Items that are read as statements, and items that are not.
pub fn items()
    ensures key_and_value { AreReadAs
        (shown "a" ∷ spaced ∷ shown "=" ∷ spaced ∷ shown "1" ∷ spaced ∷ shown "# one" ∷ ended ∷ shown "b" ∷ [])
        (statement ("a" ∷ "=" ∷ "1" ∷ "# one" ∷ []) ∷ statement ("b" ∷ []) ∷ []) }
    ensures array { AreReadAs
        (shown "[" ∷ loose ∷ shown "1" ∷ shown "," ∷ apart ∷ shown "2" ∷ mark "," ∷ loose ∷ shown "]" ∷ [])
        (statement ("[" ∷ "1" ∷ "," ∷ "2" ∷ "]" ∷ []) ∷ []) }
    ensures key { AreReadAs (shown "a" ∷ shown "." ∷ shown "b.c" ∷ [])
        (statement ("a" ∷ "." ∷ "b" ∷ "." ∷ "c" ∷ []) ∷ []) }
    ensures words_together { AreNotRead (shown "a" ∷ loose ∷ shown "b" ∷ []) }
    ensures words_on_lines_or_not { AreNotRead (shown "a" ∷ apart ∷ shown "b" ∷ []) }
    ensures comment_not_ended { AreNotRead (shown "# a" ∷ spaced ∷ shown "b" ∷ []) }
    ensures mark_before_a_word { AreNotRead (shown "[" ∷ shown "1" ∷ mark "," ∷ spaced ∷ shown "2" ∷ []) }
    ensures mark_outside { AreNotRead (shown "a" ∷ mark "," ∷ []) }
    ensures two_lexemes { AreNotRead (shown "a b" ∷ []) }
{}
