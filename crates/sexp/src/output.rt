//! Where a layout goes.
ghost use Rattle.std.specs.Prelude.{OnOk, OnErr, IfErr};
ghost use Rattle.std.specs.Io.KnownBytes.{Appends};
ghost use Rattle.prettyless_sink.specs.Sink.{AppendsProperBeginning};
ghost use Rattle.sexp.specs.Transfer.{IsWriterFailure};

use crate::error::RunError;
use prettyless_sink::io_write::write_whole;
use std::io::Write;

/// Writes the whole text, or fails as `Write` after a beginning of it that is not all.
pub fn write_text<W: Write>(writer: &mut W, text: &[u8]) -> Result<(), RunError>
    ensures ok { OnOk result (Appends (W.contents writer.old) (W.contents writer.new) text.now) }
    ensures beginning { OnErr result (AppendsProperBeginning (W.contents writer.old) (W.contents writer.new) text.now) }
    ensures err { IfErr result IsWriterFailure }
{
    write_whole(writer, text).map_err(RunError::Write)
}
