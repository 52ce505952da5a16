//! What ends a test.
use prettyless::DocBuilder;
use prettyless::prelude::*;
use prettyless::text::BuildError;
use std::process::Abort;

// Ends the test where this is wrong. The message is formatted here alone, since the proof of one costs more than a comparison's.
pub(crate) fn check(rt: &impl Abort, holds: bool, what: &str) {
    assert!(rt; holds, "{what}");
}

// The document that a call answers.
pub(crate) fn built<'a, D: DocPlace<'a>>(
    rt: &impl Abort,
    built: Result<DocBuilder<'a, D>, BuildError>,
) -> DocBuilder<'a, D> {
    built.expect(rt, "a document was not built")
}
