//! A layout into a sink.
ghost use Rattle.std.specs.Prelude.{◌≡◌, ◌++◌, OnOk, OnErr};
ghost use Rattle.prettyless_model.specs.Spaces.{spaces};
ghost use Rattle.prettyless_sink.specs.Sink.{Accepts, Refuses};
ghost use Rattle.json_formatter.specs.Gaps.{gap_bytes};
ghost use Rattle.json_formatter.specs.Kept.{spelled_bytes};
ghost use Rattle.json_formatter.specs.Spelling.{tabs};

use crate::blanks::{MOST, some_tabs};
use crate::gaps::{Gap, Layout};
use crate::spelling::Spelled;
use prettyless_sink::pieces::write_gap_and_text;
use prettyless_sink::render::Render;

// The line ends of a gap, and how many spaces come after them.
fn plain_parts(gap: Gap) -> (&'static str, usize)
    ensures { gap_bytes gap ≡ result.0.now ++ spaces result.1 }
{
    match gap {
        Gap::Nothing => ("", 0),
        Gap::Space => ("", 1),
        Gap::Line(indent) => ("\n", indent),
        Gap::BlankLine(indent) => ("\n\n", indent),
    }
}

// The line ends of a gap as it is spelled, and how many tabs and spaces come after them.
fn parts(gap: Spelled) -> (&'static str, usize, usize)
    ensures { spelled_bytes gap ≡ result.0.now ++ (tabs result.1 ++ spaces result.2) }
{
    match gap {
        Spelled::Plain(gap) => {
            let (ends, indent) = plain_parts(gap);
            (ends, 0, indent)
        }
        Spelled::Line(ends, tabs, spaces) => (ends, tabs, spaces),
    }
}

// Puts so many tabs.
fn render_tabs<S: Render>(sink: &mut S, count: usize) -> Result<(), S::Error>
    ensures same_lender { S.lender sink.new ≡ S.lender sink.old }
    ensures ok { OnOk result (Accepts (S.bytes sink.old) (S.bytes sink.new) (tabs count) (S.failures sink.old) (S.failures sink.new)) }
    ensures err { OnErr result (Refuses (S.bytes sink.old) (S.bytes sink.new) (tabs count) (S.failures sink.old) (S.failures sink.new)) }
{
    let mut left = count;
    while left > 0 {
        let piece = left.min(MOST);
        sink.write_str_all(some_tabs(piece))?;
        left -= piece;
    }
    Ok(())
}

// Puts a gap and the text after it.
fn render_lexeme<S: Render>(sink: &mut S, gap: Spelled, text: &str) -> Result<(), S::Error>
    ensures same_lender { S.lender sink.new ≡ S.lender sink.old }
    ensures ok { OnOk result (Accepts (S.bytes sink.old) (S.bytes sink.new) (spelled_bytes gap ++ text.now) (S.failures sink.old)
        (S.failures sink.new)) }
    ensures err { OnErr result (Refuses (S.bytes sink.old) (S.bytes sink.new) (spelled_bytes gap ++ text.now) (S.failures sink.old)
        (S.failures sink.new)) }
{
    let (ends, tabs, spaces) = parts(gap);
    write_gap_and_text(sink, 0, ends)?;
    render_tabs(sink, tabs)?;
    write_gap_and_text(sink, spaces, text)
}

/// Puts a layout and what ends it, or fails after a beginning of them. The error is the sink's, which gets no piece after that.
pub(crate) fn render_layout<S: Render>(
    sink: &mut S,
    layout: &mut Layout<'_>,
    end: &str,
) -> Result<(), S::Error>
    ensures same_lender { S.lender sink.new ≡ S.lender sink.old }
    ensures ok { OnOk result (Accepts (S.bytes sink.old) (S.bytes sink.new) (layout.old ++ end.now) (S.failures sink.old)
        (S.failures sink.new)) }
    ensures err { OnErr result (Refuses (S.bytes sink.old) (S.bytes sink.new) (layout.old ++ end.now) (S.failures sink.old)
        (S.failures sink.new)) }
{
    while let Some((gap, lexeme)) = layout.next() {
        render_lexeme(sink, gap, lexeme.text())?;
    }
    sink.write_str_all(end)
}
