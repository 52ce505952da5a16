//! Comments at the ends of lines that follow each other, one below the other, in a finished layout: nothing before shows how
//! wide a line is.
ghost use Rattle.std.specs.Prelude.{◌≡◌, ◌++◌, OnOk};
ghost use Rattle.std.specs.String.{string_bytes};
ghost use Rattle.prettyless_model.specs.Spaces.{spaces};
ghost use Rattle.toml_documents.specs.Alignment.{moved_gap, with_aligned_comments};

use crate::standing::START;
use prettyless_model::spaces::some_spaces;
use std::alloc::AllocError;
use toml_lexemes::SpacedLexer;

/// Adds so many spaces to a text.
fn push_spaces(text: &mut String, count: usize) -> Result<(), AllocError>
    ensures { OnOk result (string_bytes text.new ≡ string_bytes text.old ++ spaces count) }
{
    let mut left = count;
    while left > 0 {
        let piece = left.min(100);
        text.push_str(some_spaces(piece))?;
        left -= piece;
    }
    Ok(())
}

/// Adds a gap to a text, or where its lexeme is moved by so many columns, as many spaces after one.
fn push_gap(text: &mut String, gap: &str, moved: Option<usize>) -> Result<(), AllocError>
    ensures { OnOk result (string_bytes text.new ≡ string_bytes text.old ++ moved_gap moved gap.now) }
{
    match moved {
        Some(columns) => {
            text.push_str(" ")?;
            push_spaces(text, columns)
        }
        None => text.push_str(gap),
    }
}

/// Adds a layout to a text, with comments at the ends of lines that follow each other one below the other.
///
/// `AllocError` where memory is refused.
pub(crate) fn push_aligned(text: &mut String, layout: &str) -> Result<(), AllocError>
    ensures { OnOk result (string_bytes text.new ≡ string_bytes text.old ++ with_aligned_comments layout.now) }
{
    let mut lexemes = SpacedLexer::new(layout);
    let mut standing = START;
    while let Some(found) = lexemes.next() {
        let step = standing.past(found, &lexemes);
        push_gap(text, found.gap, step.1)?;
        text.push_str(found.text())?;
        standing = step.0;
    }
    Ok(())
}
