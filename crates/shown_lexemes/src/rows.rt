//! Lexemes that small items show, in a small language with a table of neighbours. The function does nothing: its contract speaks.

ghost use Rattle.std.specs.Prelude.{◌∷◌, []};
ghost use Rattle.prettyless_model.specs.Shows.{ended, loose, spaced};
ghost use Rattle.shown_lexemes.specs.Rows.{ShowLexemes, shown_ascii};

/// Two names stand apart, a note ends its line, and a sign stands anywhere.
pub fn items()
    ensures names { ShowLexemes (shown_ascii "a" ∷ spaced ∷ shown_ascii "b" ∷ []) ("a" ∷ "b" ∷ []) }
    ensures signs { ShowLexemes (shown_ascii "a" ∷ loose ∷ shown_ascii ";" ∷ shown_ascii "b" ∷ []) ("a" ∷ ";" ∷ "b" ∷ []) }
    ensures note { ShowLexemes (shown_ascii "a" ∷ loose ∷ shown_ascii "# b" ∷ ended ∷ shown_ascii "c" ∷ loose ∷ [])
        ("a" ∷ "# b" ∷ "c" ∷ []) }
{}
