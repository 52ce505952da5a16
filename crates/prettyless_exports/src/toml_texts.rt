//! The layout of a TOML text, into an area of bytes.
ghost use Rattle.prettyless_exports.specs.Overlay.{limit_of};
ghost use Rattle.prettyless_exports.specs.TomlAnswers.{AnswersToml};
ghost use Rattle.prettyless_exports.specs.TomlStatuses.{IsTooDeepIfToml, RefusesToml, TomlStatusHolds};

use crate::area::limit_from;
use crate::status::Status;
use crate::text::{put_fault, put_text};
use std::alloc::Global;
use std::str::from_utf8;
use toml_formatter::{FormatError, Style, formatted};
use toml_grammar::refusal_of;

/// Lays out bytes, if they are a TOML text.
fn laid_out(
    alloc: Global,
    text: &[u8],
    style: Style,
    limit: usize,
    out: &mut [u8],
    written: &mut usize,
) -> Status
    ensures { TomlStatusHolds limit text.now out.old out.new written.new result }
{
    let Ok(text) = from_utf8(text) else {
        return Status::NotToml;
    };
    match formatted(alloc, text, style) {
        Ok(layout) => Status::LaidOut(put_text(layout.as_str(), limit, out, written)),
        Err(FormatError::NotToml | FormatError::TooDeep) => Status::NotToml,
        Err(FormatError::Memory(_)) => {
            *written = 0;
            Status::Memory
        }
    }
}

/// Says where bytes stop being a TOML text, or brackets are too deep in one another, and puts the name of what was expected
/// there into an area.
fn refused(
    alloc: Global,
    text: &[u8],
    out: &mut [u8],
    written: &mut usize,
    line: &mut usize,
    column: &mut usize,
) -> Status
    requires { IsTooDeepIfToml text.now }
    ensures { RefusesToml text.now out.old out.new written.new line.new column.new result }
{
    match refusal_of(alloc, text) {
        Ok(refusal) => {
            put_fault(refusal.expected, refusal.place, out, written, line, column);
            Status::NotToml
        }
        Err(_) => {
            *written = 0;
            *line = 0;
            *column = 0;
            Status::Memory
        }
    }
}

/// Lays out a TOML text into an area of bytes, at a width in columns, with an indent in columns for the members of a broken
/// array.
///
/// `limit` is the greatest length of the layout in bytes, or 0 for none. The answer is the number of a status, which says
/// what `out` and `written` are, and of bytes that are not a TOML text where that is seen: `line` and `column` are from 1, and
/// a column is a character.
pub fn toml_layout(
    alloc: Global,
    text: &[u8],
    width: usize,
    indent: u32,
    limit: usize,
    out: &mut [u8],
    written: &mut usize,
    line: &mut usize,
    column: &mut usize,
) -> u32
    ensures { AnswersToml (limit_of limit) text.now out.old out.new written.new line.new column.new result }
{
    let style = Style {
        width,
        indent,
        align: true,
    };
    match laid_out(alloc, text, style, limit_from(limit), out, written) {
        Status::NotToml => refused(alloc, text, out, written, line, column).number(),
        status => {
            *line = 0;
            *column = 0;
            status.number()
        }
    }
}
