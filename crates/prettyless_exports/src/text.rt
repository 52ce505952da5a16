//! Texts that are put into areas of bytes.
ghost use Rattle.std.specs.Prelude.{◌≡◌};
ghost use Rattle.prettyless_exports.specs.Overlay.{Holds};
ghost use Rattle.prettyless_exports.specs.Texts.{IsPut};

use crate::area::Area;
use prettyless_sink::render::Render;
use text_lexemes::Place;

/// How much of a text was put into an area.
#[derive(Clone, Copy, Debug, PartialEq, Eq)]
pub enum Put {
    /// All of it.
    Whole,
    /// The beginning that the area has room for.
    Beginning,
    /// What is within the limit, as far as there is room: the text is longer than the limit.
    PastLimit,
}

/// Puts a text into an area of bytes from its start, as far as there is room and within a limit in bytes. Past that the area
/// stays as it was.
///
/// `written` is how many bytes were put; after `Beginning` it is the length of the text.
pub fn put_text(text: &str, limit: usize, out: &mut [u8], written: &mut usize) -> Put
    ensures { IsPut limit text.now out.old out.new written.new result }
{
    let mut area = Area::new(out, limit);
    let _ = area.write_str_all(text);
    area.put(written)
}

/// Puts a name into an area of bytes from its start, as far as there is room. Past that the area stays as it was.
///
/// `written` is how many bytes were put.
pub fn put_name(name: &str, out: &mut [u8], written: &mut usize)
    ensures { Holds name.now out.old out.new written.new }
{
    let capacity = out.len();
    let _ = put_text(name, name.len(), out, written);
    *written = (*written).min(capacity);
}

/// Says what a text lacks at a place: the name of what was expected there goes into an area, as `put_name` puts it.
pub(crate) fn put_fault(
    expected: &str,
    place: Place,
    out: &mut [u8],
    written: &mut usize,
    line: &mut usize,
    column: &mut usize,
)
    ensures name { Holds expected.now out.old out.new written.new }
    ensures line { line.new ≡ place.line }
    ensures column { column.new ≡ place.column }
{
    put_name(expected, out, written);
    *line = place.line;
    *column = place.column;
}
