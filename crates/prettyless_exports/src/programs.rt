//! The layout of a document that a program writes, into an area of bytes.
ghost use Rattle.std.specs.Prelude.{◌≡◌};
ghost use Rattle.prettyless_exports.specs.Overlay.{limit_of};
ghost use Rattle.prettyless_exports.specs.ProgramAnswers.{Answers, options_of};
ghost use Rattle.prettyless_exports.specs.ProgramStatuses.{StatusHolds, StatusHoldsOf};

use crate::area::limit_from;
use crate::lay::lay_into;
use crate::status::Status;
use crate::text::Put;
use bumpalo::Bump;
use prettyless_doc::{DocPlace, DocPtr};
use prettyless_model::options::{IndentationPolicy, LineEnding, RenderOptions};
use prettyless_pointers::Arena;
use prettyless_program::decode;
use prettyless_sink::error::RenderError;
use std::alloc::Global;

/// Lays out a document.
fn laid<'a, T: DocPtr<'a>>(
    document: &T,
    alloc: Global,
    options: RenderOptions,
    limit: usize,
    out: &mut [u8],
    written: &mut usize,
) -> Status
    ensures { StatusHoldsOf options limit (T.tree document.now) out.old out.new written.new result }
{
    let capacity = out.len();
    let mut count = 0;
    let answer = lay_into(document.doc(), alloc, options, limit, out, &mut count);
    *written = count.min(capacity);
    match answer {
        Ok(()) if count <= capacity => Status::LaidOut(Put::Whole),
        Ok(()) => {
            *written = count;
            Status::LaidOut(Put::Beginning)
        }
        Err(RenderError::Document(_)) => Status::Fails,
        Err(RenderError::Sink(_)) => Status::LaidOut(Put::PastLimit),
        Err(RenderError::Memory(_)) => Status::Memory,
    }
}

/// Lays out the document of a program, with its nodes in this allocator.
fn laid_in<'a, D: DocPlace<'a>>(
    place: &'a D,
    program: &'a [u8],
    options: RenderOptions,
    limit: usize,
    out: &mut [u8],
    written: &mut usize,
) -> Status
    ensures { StatusHolds options limit program.now out.old out.new written.new result }
{
    match decode(place, program) {
        Ok(document) => laid(&document, place.memory(), options, limit, out, written),
        Err(fault) => {
            *written = 0;
            Status::Refused(fault)
        }
    }
}

/// The same. The memory of its nodes is given back.
fn laid_out(
    alloc: Global,
    program: &[u8],
    options: RenderOptions,
    limit: usize,
    out: &mut [u8],
    written: &mut usize,
) -> Status
    ensures { StatusHolds options limit program.now out.old out.new written.new result }
{
    let bump = Bump::new(alloc);
    let place = Arena::new(alloc, &bump);
    laid_in(&place, program, options, limit, out, written)
}

/// How a caller in another language writes options.
fn options_from(width: usize, crlf: bool, deferred: bool) -> RenderOptions
    ensures { result ≡ options_of width crlf deferred }
{
    let line_ending = if crlf {
        LineEnding::Crlf
    } else {
        LineEnding::Lf
    };
    let indentation_policy = if deferred {
        IndentationPolicy::Deferred
    } else {
        IndentationPolicy::Eager
    };
    RenderOptions {
        width,
        line_ending,
        indentation_policy,
    }
}

/// Lays out the document that a program writes into an area of bytes, at a width in columns.
///
/// The layout is made once, and straight into the area. `limit` is the greatest length of the layout in bytes, or 0 for
/// none. The answer is the number of a [`Status`], which says what `out` and `written` are then.
///
/// ```
/// program_layout(alloc, &[3], 80, false, false, 0, &mut out, &mut written) // 0: `out` begins with "\n", `written` is 1
/// ```
pub fn program_layout(
    alloc: Global,
    program: &[u8],
    width: usize,
    crlf: bool,
    deferred: bool,
    limit: usize,
    out: &mut [u8],
    written: &mut usize,
) -> u32
    ensures { Answers (options_of width crlf deferred) (limit_of limit) program.now out.old out.new written.new result }
{
    let options = options_from(width, crlf, deferred);
    laid_out(alloc, program, options, limit_from(limit), out, written).number()
}
