//! What ends a test.
use std::process::Abort;

// Ends the test where this is wrong. The message is formatted here alone, since the proof of one costs more than a comparison's.
pub(crate) fn check(rt: &impl Abort, holds: bool, what: &str) {
    assert!(rt; holds, "{what}");
}
