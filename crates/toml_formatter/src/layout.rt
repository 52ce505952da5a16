//! The layout of a text.
ghost use Rattle.std.specs.Prelude.{◌≡◌, false, IfOk, IfErr, OnOk};
ghost use Rattle.std.specs.String.{string_bytes};
ghost use Rattle.toml_lexemes.specs.Lexemes.{toml_lexemes_of};
ghost use Rattle.toml_grammar.specs.Nesting.{is_too_deep};
ghost use Rattle.toml_formatter.specs.Errors.{IsRefusalOf};
ghost use Rattle.toml_documents.specs.Laid.{HasTomlOptions, IsLaidToml};
ghost use Rattle.toml_formatter.specs.Formats.{IsFormattedToml, IsRefusedToml, IsTomlLayout};
ghost use Rattle.toml_lexemes.specs.Sound.{AreSound};

use crate::document::{Press, lay_text};
use crate::error::FormatError;
use prettyless_model::options::{IndentationPolicy, LineEnding, RenderOptions};
use std::alloc::Global;
use toml_documents::Style;
use toml_grammar::{fault_of, law_closed_strings};
use toml_lexemes::{Lexeme, SpacedLexer};

/// How the first line of the text ends, by its first line end outside of strings.
fn line_ending(text: &str) -> LineEnding {
    for spaced in SpacedLexer::new(text) {
        if let Some(Lexeme::LineEnd) = spaced.lexeme {
            return if spaced.gap.ends_with('\r') {
                LineEnding::Crlf
            } else {
                LineEnding::Lf
            };
        }
    }
    LineEnding::Lf
}

/// What a text is laid out with.
fn options(text: &str, style: Style) -> RenderOptions
    ensures { HasTomlOptions style result }
{
    RenderOptions::new(style.width)
        .with_line_ending(line_ending(text))
        .with_indentation_policy(IndentationPolicy::Deferred)
}

/// The layout of a text in this style.
fn laid_out(alloc: Global, text: &str, style: Style) -> Result<String, FormatError>
    requires { AreSound (toml_lexemes_of text.now) }
    ensures ok { IfOk result (λ layout. IsTomlLayout text.now (string_bytes layout)) }
    ensures laid { IfOk result (λ layout. IsLaidToml style text.now (string_bytes layout)) }
    ensures shallow { OnOk result (is_too_deep text.now ≡ false) }
    ensures err { IfErr result (IsRefusalOf text.now) }
{
    lay_text(&Press {
        text,
        alloc,
        style,
        options: options(text, style),
    })
}

/// The layout of a TOML text in this style. It is TOML too, and has the same statements: the same lexemes in the same
/// order, comments among them. Four things may differ: line ends in brackets, commas before closing brackets, comments
/// before a comma, which stand after it, and the blanks around the dots of keys, which go. How it is laid out, its document
/// says (`toml_document`), and comments are aligned where the style says so (`with_aligned_comments`). Its lines end as the
/// first line of the text does that ends outside of strings. It ends with a line end, unless it is empty.
///
/// `NotToml` only where the text is not TOML, and `TooDeep` only where it is TOML and more than 128 brackets are in one
/// another. `Memory` where memory is refused, whatever the text is. The layout is not judged again: that it is TOML is proved
/// (`law_toml`).
///
/// ```
/// formatted(alloc, "a=1", Style::default())? // "a = 1\n"
/// ```
pub fn formatted(alloc: Global, text: &str, style: Style) -> Result<String, FormatError>
    ensures ok { IfOk result (λ layout. IsFormattedToml text.now (string_bytes layout)) }
    ensures laid { IfOk result (λ layout. IsLaidToml style text.now (string_bytes layout)) }
    ensures err { IfErr result (IsRefusedToml text.now) }
{
    match fault_of(alloc, text)? {
        Some(_) => Err(FormatError::NotToml),
        None => {
            law_closed_strings();
            laid_out(alloc, text, style)
        }
    }
}
