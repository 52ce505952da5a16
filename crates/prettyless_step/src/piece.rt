//! What one node writes. It knows sinks, and no nodes.
ghost use Rattle.std.specs.Prelude.{◌≡◌, [], OnOk, OnErr};
ghost use Rattle.prettyless_sink.specs.Sink.{Accepts, Refuses};
ghost use Rattle.prettyless_step.specs.Piece.{piece_bytes};

use prettyless_sink::pieces::write_gap_and_text;
use prettyless_sink::render::Render;

/// What one node writes.
#[derive(Clone, Copy)]
pub enum Piece<'v> {
    Nothing,
    /// A gap of so many spaces, and a text.
    Text(usize, &'v str),
    /// A line ending, and the indent of the new line, in spaces.
    Line(&'static str, usize),
}

/// Writes a piece to a sink, or fails after a beginning of it.
#[inline(always)]
pub fn write_piece<W: Render>(out: &mut W, piece: Piece<'_>) -> Result<(), W::Error>
    ensures same_lender { W.lender out.new ≡ W.lender out.old }
    ensures ok { OnOk result (Accepts (W.bytes out.old) (W.bytes out.new) (piece_bytes piece.entry) (W.failures out.old)
        (W.failures out.new)) }
    ensures err { OnErr result (Refuses (W.bytes out.old) (W.bytes out.new) (piece_bytes piece.entry) (W.failures out.old)
        (W.failures out.new)) }
{
    match piece {
        Piece::Nothing => Ok(()),
        Piece::Text(gap, text) => write_gap_and_text(out, gap, text),
        Piece::Line(ending, indent) => {
            write_gap_and_text(out, 0, ending)?;
            write_gap_and_text(out, indent, "")
        }
    }
}
