//! What a call leaves in the area that it is lent.
use prettyless_exports::area::{Area, Full};
use prettyless_sink::render::Render;
use std::process::Abort;

/// What a call answers: the number of its status, how many bytes are written, what the area holds, and a line and a column.
#[derive(Clone, Copy)]
pub struct CallOutcome<'a> {
    pub status: u32,
    pub written: usize,
    pub held: &'a [u8],
    pub place: (usize, usize),
}

impl<'a> CallOutcome<'a> {
    pub fn new(status: u32, written: usize, held: &'a [u8], place: (usize, usize)) -> Self {
        CallOutcome {
            status,
            written,
            held,
            place,
        }
    }
}

// Ends the test where this is wrong of an input.
fn check(rt: &impl Abort, holds: bool, what: &str, input: &[u8]) {
    assert!(rt; holds, "{what} of {input:?}");
}

/// Ends the test where the answer to an input is not the one that is wanted.
pub fn compare_outcomes(
    rt: &impl Abort,
    input: &[u8],
    answer: CallOutcome<'_>,
    wanted: CallOutcome<'_>,
) {
    check(rt, answer.status == wanted.status, "the status", input);
    check(rt, answer.written == wanted.written, "the count", input);
    check(rt, answer.held == wanted.held, "the area", input);
    check(rt, answer.place == wanted.place, "the place", input);
}

// An area that was given more than its limit takes nothing more.
#[test]
fn areas_stay_at_their_limit(rt: HostRuntime) {
    let mut out = *b"....";
    let mut area = Area::new(&mut out, 1);
    assert!(rt; area.write_str_all("ab") == Err(Full::Limit));
    assert!(rt; area.write_str_all("c") == Err(Full::Limit));
    assert!(rt; area.write_str("") == Ok(0));
    assert!(rt; area.count() == 1 && area.capacity() == 4);
    assert!(rt; area.fail_doc() == Full::Document);
    assert!(rt; out.as_slice() == b"a...".as_slice());
}
