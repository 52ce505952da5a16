//! The layout of a JSON text, into an area of bytes.
ghost use Rattle.prettyless_exports.specs.Overlay.{limit_of};
ghost use Rattle.prettyless_exports.specs.JsonAnswers.{AnswersJson, style_of};
ghost use Rattle.prettyless_exports.specs.JsonStatuses.{JsonStatusHolds, RefusesJson};

use crate::area::{Area, limit_from};
use crate::status::Status;
use crate::text::put_fault;
use json_formatter::{Fill, FormatError, LineEnd, Style, render};
use json_grammar::fault_of;
use json_validity::MAX_DEPTH;
use std::alloc::Global;
use std::str::from_utf8;

/// Lays out bytes, if they are a JSON text. The layout is put into the area while it is made.
fn laid_out(
    alloc: Global,
    text: &[u8],
    style: Style,
    limit: usize,
    out: &mut [u8],
    written: &mut usize,
) -> Status
    ensures { JsonStatusHolds style limit text.now out.old out.new written.new result }
{
    let Ok(text) = from_utf8(text) else {
        return Status::NotJson;
    };
    let mut area = Area::new(out, limit);
    match render(alloc, text, style, &mut area) {
        Ok(_) => Status::LaidOut(area.put(written)),
        Err(FormatError::NotJson) => Status::NotJson,
        Err(_) => {
            *written = 0;
            Status::Memory
        }
    }
}

/// Says where bytes stop being a JSON text, and puts the name of what was expected there into an area.
fn refused(
    alloc: Global,
    text: &[u8],
    out: &mut [u8],
    written: &mut usize,
    line: &mut usize,
    column: &mut usize,
) -> Status
    ensures { RefusesJson text.now out.old out.new written.new line.new column.new result }
{
    match fault_of(alloc, text) {
        Ok(fault) => {
            let name = fault.expected.name();
            put_fault(name, fault.place, out, written, line, column);
            Status::NotJson
        }
        Err(_) => {
            *written = 0;
            *line = 0;
            *column = 0;
            Status::Memory
        }
    }
}

/// Lays out a JSON text into an area of bytes, at a width in columns, with an indent in columns for each level; where
/// `fill` says so, arrays of numbers fill their lines, and where `keep_blank_lines` does, blank lines between members stay,
/// of several one. The style is compact.
///
/// `limit` is the greatest length of the layout in bytes, or 0 for none. The answer is the number of a status, which says
/// what `out` and `written` are, and of bytes that are not a JSON text where that is seen: `line` and `column` are from 1, and
/// a column is a character.
pub fn json_layout(
    alloc: Global,
    text: &[u8],
    width: usize,
    indent: u32,
    fill: bool,
    keep_blank_lines: bool,
    limit: usize,
    out: &mut [u8],
    written: &mut usize,
    line: &mut usize,
    column: &mut usize,
) -> u32
    ensures { AnswersJson (style_of width indent fill keep_blank_lines) (limit_of limit) text.now out.old out.new written.new
        line.new column.new result }
{
    let style = Style {
        width,
        indent,
        tabs: false,
        line_end: LineEnd::Lf,
        fill: if fill { Fill::Numbers } else { Fill::Nothing },
        blank_lines: keep_blank_lines,
        compact: true,
        depth: MAX_DEPTH,
    };
    match laid_out(alloc, text, style, limit_from(limit), out, written) {
        Status::NotJson => refused(alloc, text, out, written, line, column).number(),
        status => {
            *line = 0;
            *column = 0;
            status.number()
        }
    }
}
