//! The calls for other languages, under the names that the header `bindings/c/prettyless.h` declares.
#![tactic(auto)]

ghost use Rattle.prettyless_exports.specs.JsonAnswers.{AnswersJson, style_of};
ghost use Rattle.prettyless_exports.specs.Overlay.{limit_of};
ghost use Rattle.prettyless_exports.specs.ProgramAnswers.{Answers, options_of};
ghost use Rattle.prettyless_exports.specs.TomlAnswers.{AnswersToml};

use prettyless_exports::json_texts::json_layout;
use prettyless_exports::programs::program_layout;
use prettyless_exports::toml_texts::toml_layout;
use std::alloc::Global;

/// Lays out the document that a program writes into `out`, at a width in columns.
///
/// The answer is the number of a status, which says what `out` and `written` are. `limit` is the greatest length of the
/// layout in bytes, or 0 for none.
#[unsafe(no_mangle)]
pub extern "C" fn prettyless_layout(
    alloc: Global,
    program: &[u8],
    width: usize,
    crlf: bool,
    deferred: bool,
    limit: usize,
    out: &mut [u8],
    written: &mut usize,
) -> u32
    ensures { Answers (options_of width crlf deferred) (limit_of limit) program.now out.old out.new written.new result }
{
    program_layout(alloc, program, width, crlf, deferred, limit, out, written)
}

/// Lays out a JSON text into `out`, at a width and with an indent for each level, both in columns.
///
/// The answer is the number of a status, which says what `out` and `written` are, and of bytes that are not a JSON text where
/// that is seen. `limit` is the greatest length of the layout in bytes, or 0 for none.
#[unsafe(no_mangle)]
pub extern "C" fn prettyless_layout_json(
    alloc: Global,
    text: &[u8],
    width: usize,
    indent: u32,
    fill: bool,
    keep_blank_lines: bool,
    limit: usize,
    out: &mut [u8],
    written: &mut usize,
    line: &mut usize,
    column: &mut usize,
) -> u32
    ensures { AnswersJson (style_of width indent fill keep_blank_lines) (limit_of limit) text.now out.old out.new
        written.new line.new column.new result }
{
    json_layout(
        alloc,
        text,
        width,
        indent,
        fill,
        keep_blank_lines,
        limit,
        out,
        written,
        line,
        column,
    )
}

/// Lays out a TOML text into `out`, at a width and with an indent for the members of a broken array, both in columns.
///
/// The answer is the number of a status, which says what `out` and `written` are, and of bytes that are not a TOML text where
/// that is seen. `limit` is the greatest length of the layout in bytes, or 0 for none.
#[unsafe(no_mangle)]
pub extern "C" fn prettyless_layout_toml(
    alloc: Global,
    text: &[u8],
    width: usize,
    indent: u32,
    limit: usize,
    out: &mut [u8],
    written: &mut usize,
    line: &mut usize,
    column: &mut usize,
) -> u32
    ensures { AnswersToml (limit_of limit) text.now out.old out.new written.new line.new column.new result }
{
    toml_layout(
        alloc, text, width, indent, limit, out, written, line, column,
    )
}
