//! Which bracket is open at a place of a text.
ghost use Rattle.std.specs.Prelude.{◌≡◌, IfOk, OnOk};
ghost use Rattle.toml_grammar.specs.Faults.{IsFault};
ghost use Rattle.toml_grammar.specs.Opened.{innermost_opened, opened_by, opened_in};
ghost use Rattle.toml_grammar.specs.Sorts.{sort_of};
ghost use Rattle.toml_lexemes.specs.SpacedLexer.{text_if, IsNamedIf};

use crate::fault::Fault;
use crate::next::Bracket;
use std::alloc::{AllocError, Global};
use toml_lexemes::{Lexeme, SpacedLexer};

/// A bracket that is open.
#[derive(Clone, Copy)]
pub(crate) struct Opened {
    /// So many bytes are before it.
    pub offset: usize,
    pub bracket: Bracket,
}

/// Goes past a lexeme, before which are so many bytes.
///
/// `AllocError` where memory is refused.
fn pass(
    opened: &mut Vec<Opened>,
    offset: usize,
    lexeme: Option<Lexeme<'_>>,
) -> Result<(), AllocError>
    requires { IsNamedIf lexeme }
    ensures { OnOk result (opened.new.items ≡ opened_by (sort_of (text_if lexeme.entry)) offset opened.old.items) }
{
    match lexeme {
        Some(Lexeme::OpenArray) => {
            let bracket = Bracket::Array;
            opened.push(Opened { offset, bracket })?;
        }
        Some(Lexeme::OpenTable) => {
            let bracket = Bracket::Table;
            opened.push(Opened { offset, bracket })?;
        }
        Some(Lexeme::CloseArray | Lexeme::CloseTable) => {
            let _ = opened.pop();
        }
        _ => {}
    }
    Ok(())
}

/// The innermost of the brackets that are open where the text has this fault.
///
/// `AllocError` where memory is refused.
pub(crate) fn opened_at(
    alloc: Global,
    text: &str,
    fault: Fault<'_>,
) -> Result<Option<Opened>, AllocError>
    ensures { IfOk result (λ opened. (is : IsFault text.now fault.entry) → opened ≡ innermost_opened (opened_in is.before)) }
{
    let mut opened = Vec::new(alloc);
    let length = text.len();
    let mut left = length;
    for found in SpacedLexer::new(text) {
        left -= found.gap.len();
        let offset = length - left;
        if fault.offset <= offset {
            return Ok(opened.last().copied());
        }
        pass(&mut opened, offset, found.lexeme)?;
        left -= found.text().len();
    }
    Ok(opened.last().copied())
}
