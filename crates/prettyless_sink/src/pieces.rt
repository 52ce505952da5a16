//! Gaps and texts, written in pieces. This file knows sinks by `Render` alone, and no documents.
ghost use Rattle.std.specs.Prelude.{◌≡◌, ◌++◌, OnOk, OnErr};
ghost use Rattle.prettyless_sink.specs.Sink.{Accepts, Refuses};
ghost use Rattle.prettyless_model.specs.Spaces.{spaces};

use crate::render::Render;
use prettyless_model::spaces::some_spaces;

/// Writes `gap` spaces and then the text.
///
/// The spaces go out in pieces of at most 100 bytes and the text in a piece of its own; no piece is empty.
/// An error is the sink's: it then has a beginning of the spaces and the text, and got no piece after that.
#[inline(always)]
pub fn write_gap_and_text<W: Render>(out: &mut W, gap: usize, text: &str) -> Result<(), W::Error>
    ensures same_lender { W.lender out.new ≡ W.lender out.old }
    ensures ok { OnOk result (Accepts (W.bytes out.old) (W.bytes out.new) (spaces gap ++ text.now) (W.failures out.old)
        (W.failures out.new)) }
    ensures err { OnErr result (Refuses (W.bytes out.old) (W.bytes out.new) (spaces gap ++ text.now) (W.failures out.old)
        (W.failures out.new)) }
{
    if gap > 0 {
        write_spaces(out, gap)?;
    }
    if text.is_empty() {
        return Ok(());
    }
    out.write_str_all(text)
}

// Writes so many spaces, or fails after a beginning of them.
#[inline(always)]
fn write_spaces<W: Render>(out: &mut W, count: usize) -> Result<(), W::Error>
    ensures same_lender { W.lender out.new ≡ W.lender out.old }
    ensures ok { OnOk result (Accepts (W.bytes out.old) (W.bytes out.new) (spaces count) (W.failures out.old) (W.failures out.new)) }
    ensures err { OnErr result (Refuses (W.bytes out.old) (W.bytes out.new) (spaces count) (W.failures out.old) (W.failures out.new)) }
{
    let mut left = count;
    while left > 0 {
        let piece = left.min(100);
        out.write_str_all(some_spaces(piece))?;
        left -= piece;
    }
    Ok(())
}
