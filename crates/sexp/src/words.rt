ghost use Rattle.std.specs.Prelude.{◌≡◌, IfSome, IfNone, List, ℕ, ◌∷◌, map};
ghost use Rattle.std.specs.String.{string_bytes};
ghost use Rattle.prettyless_model.specs.declared.options.RenderOptions.{RenderOptions as Options};
ghost use Rattle.sexp.specs.Words.{AskFor};

use crate::decimals::number;
use prettyless::{IndentationPolicy, LineEnding, RenderOptions};

/// The words after this one, where they begin with it.
fn after<'w>(words: &'w [String], word: &str) -> Option<&'w [String]>
    ensures some { IfSome result (λ rest. map string_bytes words.now
        ≡ word.now ∷ map string_bytes rest.now) }
    ensures none { IfNone result ((rest : List (List ℕ)) → map string_bytes words.now
        ≡ word.now ∷ rest → ⊥) }
{
    let (first, rest) = words.split_first()?;
    (first.as_str() == word).then_some(rest)
}

/// The options that the program's words ask for: a width in columns, as decimal digits of a value below 2^64; after it
/// `crlf`, for lines that end in CR LF; and after that `deferred`, for indents that are written late. Either may be
/// missing, and nothing else may follow.
pub fn options(words: &[String]) -> Option<RenderOptions>
    ensures some { IfSome result (AskFor words.now) }
    ensures none { IfNone result ((options : Options) → AskFor words.now options → ⊥) }
{
    let (width, words) = words.split_first()?;
    let width = number(width.as_bytes())?;
    let (line_ending, words) = match after(words, "crlf") {
        Some(rest) => (LineEnding::Crlf, rest),
        None => (LineEnding::Lf, words),
    };
    let (indentation_policy, words) = match after(words, "deferred") {
        Some(rest) => (IndentationPolicy::Deferred, rest),
        None => (IndentationPolicy::Eager, words),
    };
    words.is_empty().then_some(RenderOptions {
        width,
        line_ending,
        indentation_policy,
    })
}
