ghost use Rattle.std.specs.Prelude.{◌<◌, ◌⊎◌, IfOk, IfErr, length};
ghost use Rattle.std.specs.Io.KnownBytes.{Consumes, IsAtEnd};
ghost use Rattle.sexp.specs.Transfer.{IsReading};

use crate::error::RunError;
use crate::parse::MOST_BYTES;
use std::alloc::Global;
use std::io::Read;

/// How many bytes are asked for at once.
const CHUNK: usize = 8192;

/// Reads to the end, or until more bytes have come than an input may have.
///
/// An error of the reader, an interruption too, is answered as `Read`, and a refusal of memory as `Memory`.
pub fn read_input<R: Read>(alloc: Global, reader: &mut R) -> Result<Vec<u8>, RunError>
    ensures taken { IfOk result (λ input. Consumes (R.remaining reader.old) (R.remaining reader.new) input.items) }
    ensures all { IfOk result (λ input. IsAtEnd (R.remaining reader.new) ⊎ (MOST_BYTES < length input.items)) }
    ensures err { IfErr result IsReading }
{
    let mut input = Vec::new(alloc);
    let mut chunk = [0; CHUNK];
    while input.len() <= MOST_BYTES {
        match reader.read(&mut chunk) {
            Ok(0) => break,
            Ok(count) => input.extend_from_slice(&chunk[..count])?,
            Err(error) => return Err(RunError::Read(error)),
        }
    }
    Ok(input)
}
