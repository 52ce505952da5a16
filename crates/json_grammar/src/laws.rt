ghost use Rattle.json_grammar.specs.Laws.{EndsTooSoon, FrontsBeginJson, LexemesSpellValues, NoneGoesOn, StringsStopOnce};
ghost use Rattle.json_grammar.specs.Laws.{StringsBeginJson, TextsBeginJson, WholeTextsAreJson};

/// The lexemes of a text that is a JSON value spell a value: a string, a number or a literal alone; or brackets with
/// values in them and a comma between each two, where in braces a key and a colon come before each. Brackets nest no
/// deeper than 100,000.
pub fn law_grammar()
    ensures { LexemesSpellValues }
{}

/// A text is JSON exactly where each of its lexemes may stand where it does, and its end comes after its value. So it is
/// none where it stops at a lexeme or at its end, as `fault_of` has it, and neither is any other text with the same lexemes
/// up to that one. The bytes before that lexeme begin a text that is JSON, or all bytes do where it stops at its end. In a
/// string it stops at one place, and one thing was expected there. The bytes before that place begin a text that is JSON
/// too.
pub fn law_stops()
    ensures whole { WholeTextsAreJson }
    ensures lexeme { NoneGoesOn }
    ensures end { EndsTooSoon }
    ensures front { FrontsBeginJson }
    ensures all { TextsBeginJson }
    ensures string { StringsStopOnce }
    ensures inside { StringsBeginJson }
{}
