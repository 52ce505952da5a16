//! What the documents are made of.
use prettyless::prelude::*;
use prettyless::text::BuildError;
use prettyless::{BuildDoc, DocBuilder};

/// A text. It has a function of its own, since the proof of each function that makes one of a `&str` takes longer.
pub fn text<'a, D: DocPlace<'a>>(
    place: &'a D,
    text: &'a str,
) -> Result<DocBuilder<'a, D>, BuildError> {
    place.pretty(text)
}

/// A text that waits for the end of its line.
pub fn put_off<'a, D: DocPlace<'a>>(
    place: &'a D,
    comment: &'a str,
) -> Result<DocBuilder<'a, D>, BuildError> {
    text(place, comment)?.as_line_suffix()
}

/// One after the other.
pub fn joined<'a, D: DocPlace<'a>>(
    front: Result<DocBuilder<'a, D>, BuildError>,
    back: Result<DocBuilder<'a, D>, BuildError>,
) -> Result<DocBuilder<'a, D>, BuildError> {
    front?.join(back?)
}

/// The first if it fits, else the second.
pub fn either<'a, D: DocPlace<'a>>(
    first: Result<DocBuilder<'a, D>, BuildError>,
    second: Result<DocBuilder<'a, D>, BuildError>,
) -> Result<DocBuilder<'a, D>, BuildError> {
    let second = second?.into_doc()?;
    first?.union(BuildDoc::DocPtr(second))
}
