ghost use Rattle.std.specs.Prelude.{◌≡◌, IfOk, IfErr, OnErr, OnOk};
ghost use Rattle.json_validity.specs.Document.{IsJsonWithin};
ghost use Rattle.std.specs.String.{string_bytes};
ghost use Rattle.json_formatter.specs.BlankLines.{layout_of};
ghost use Rattle.json_formatter.specs.Documents.{bounded};
ghost use Rattle.json_formatter.specs.Formats.{depth_of, IsFormatted, IsRefused, Formats};
ghost use Rattle.prettyless_sink.specs.Sink.{Accepts, Refuses};

use crate::error::FormatError;
use crate::gaps::Layout;
use crate::output::{push_layout, write_layout};
use crate::sink::render_layout;
use crate::spelling::Spelling;
use crate::style::Style;
use json_validity::{MAX_DEPTH, is_json, is_json_within};
use prettyless_sink::render::Render;
use std::alloc::Global;
use std::io::Write;

// How deep lists may be in one another in a style.
fn depth_of(style: Style) -> usize
    ensures { result ≡ depth_of style }
{
    style.depth.min(MAX_DEPTH)
}

// The style whose lines are narrower than the greatest number of columns that is counted.
fn bounded(style: Style) -> Style
    ensures { result ≡ bounded style }
{
    Style {
        width: style.width.min(usize::MAX - 1),
        ..style
    }
}

// Makes sure that a text is JSON, and no deeper than the style allows.
fn check_json(alloc: Global, text: &str, style: Style) -> Result<(), FormatError>
    ensures ok { OnOk result (IsJsonWithin (depth_of style) text.now) }
    ensures err { IfErr result (IsRefused style text.now) }
{
    if is_json_within(alloc, text, depth_of(style))? {
        Ok(())
    } else if is_json(alloc, text)? {
        Err(FormatError::TooDeep)
    } else {
        Err(FormatError::NotJson)
    }
}

/// The layout of a JSON text in this style, and a line end. It is the same value, and has the same lexemes. Laid out again
/// in this style, it stays as it is.
///
/// `NotJson` only where the text is not JSON, and `TooDeep` only where it is JSON and deeper than the style allows. `Memory` where
/// memory is refused, whatever the text is.
///
/// ```
/// formatted(alloc, "[1,2]", Style::default())? // "[1, 2]\n"
/// ```
pub fn formatted(alloc: Global, text: &str, style: Style) -> Result<String, FormatError>
    ensures ok { IfOk result (λ layout. IsFormatted style text.now (string_bytes layout)) }
    ensures err { IfErr result (IsRefused style text.now) }
{
    check_json(alloc, text, style)?;
    let mut layout = String::new(alloc);
    let spelling = Spelling::of(style, text);
    let mut lexemes = Layout::new(alloc, text, bounded(style), spelling);
    push_layout(&mut layout, &mut lexemes, spelling.line_end())?;
    Ok(layout)
}

/// Writes the layout of a JSON text in this style, and a line end, while the text is laid out.
///
/// `NotJson` only where the text is not JSON, `TooDeep` only where it is JSON and deeper than the style allows, and `Memory` where
/// memory is refused, whatever the text is: then nothing was written. `Write` where the writer fails: then a beginning was
/// written, and not all.
///
/// ```
/// format(alloc, "[1,2]", Style::default(), &mut bytes)?; // appends "[1, 2]\n" to `bytes`, a `Vec<u8>`
/// ```
pub fn format<W: Write>(
    alloc: Global,
    text: &str,
    style: Style,
    writer: &mut W,
) -> Result<(), FormatError>
    ensures { Formats style text.now (W.contents writer.old) (W.contents writer.new) result }
{
    check_json(alloc, text, style)?;
    let spelling = Spelling::of(style, text);
    let mut lexemes = Layout::new(alloc, text, bounded(style), spelling);
    write_layout(writer, &mut lexemes, spelling.line_end())
}

/// Puts the layout of a JSON text in this style, and a line end, into a sink, while the text is laid out.
///
/// `NotJson` only where the text is not JSON, `TooDeep` only where it is JSON and deeper than the style allows, and `Memory` where
/// memory is refused, whatever the text is: then the sink is as it was. Where the sink fails it got a beginning and no piece
/// after that, and the inner answer is its error.
///
/// ```
/// render(alloc, "[1,2]", Style::default(), &mut Area::new(&mut out, 1000))? // `Ok`: `out` begins with "[1, 2]\n"
/// ```
pub fn render<S: Render>(
    alloc: Global,
    text: &str,
    style: Style,
    sink: &mut S,
) -> Result<Result<(), S::Error>, FormatError>
    ensures same_lender { S.lender sink.new ≡ S.lender sink.old }
    ensures formatted { OnOk result (IsFormatted style text.now (layout_of style text.now)) }
    ensures ok { IfOk result (λ answer. OnOk answer
        (Accepts (S.bytes sink.old) (S.bytes sink.new) (layout_of style text.now) (S.failures sink.old) (S.failures sink.new))) }
    ensures err { IfOk result (λ answer. OnErr answer
        (Refuses (S.bytes sink.old) (S.bytes sink.new) (layout_of style text.now) (S.failures sink.old) (S.failures sink.new))) }
    ensures refused { IfErr result (IsRefused style text.now) }
    ensures untouched { OnErr result (sink.new ≡ sink.old) }
{
    check_json(alloc, text, style)?;
    let spelling = Spelling::of(style, text);
    let mut lexemes = Layout::new(alloc, text, bounded(style), spelling);
    Ok(render_layout(sink, &mut lexemes, spelling.line_end()))
}
