//! Where brackets are too deep in one another.
ghost use Rattle.std.specs.Prelude.{◌≡◌, ◌≤◌, length, true};
ghost use Rattle.toml_grammar.specs.Nesting.{depth_after, max_brackets, is_too_deep, IsTooDeepAt};
ghost use Rattle.toml_grammar.specs.Sorts.{sort_of};
ghost use Rattle.toml_lexemes.specs.SpacedLexer.{text_if, IsNamedIf};

use toml_lexemes::{Lexeme, SpacedLexer};

/// How many brackets may be in one another where a text is laid out: a function calls itself for a list.
pub const MAX_DEPTH: usize = 128;

/// How many brackets are open after the lexeme, or after the end of the text.
fn depth_after(depth: usize, lexeme: Option<Lexeme<'_>>) -> usize
    requires named { IsNamedIf lexeme }
    requires shallow { depth ≤ max_brackets }
    ensures { result ≡ depth_after (sort_of (text_if lexeme.entry)) depth }
{
    match lexeme {
        Some(Lexeme::OpenArray | Lexeme::OpenTable) => depth + 1,
        Some(Lexeme::CloseArray | Lexeme::CloseTable) => depth.saturating_sub(1),
        _ => depth,
    }
}

/// The offset of the first bracket within so many others that it is too deep, with the bracket, or the end of the text.
pub fn too_deep(text: &str) -> (usize, Option<Lexeme<'_>>)
    ensures within { result.0 ≤ length text.now }
    ensures first { is_too_deep text.now ≡ true → IsTooDeepAt text.now result.0 result.1 }
{
    let length = text.len();
    let mut left = length;
    let mut depth = 0usize;
    for found in SpacedLexer::new(text) {
        left -= found.gap.len();
        depth = depth_after(depth, found.lexeme);
        if depth > MAX_DEPTH {
            return (length - left, found.lexeme);
        }
        left -= found.text().len();
    }
    (length, None)
}
