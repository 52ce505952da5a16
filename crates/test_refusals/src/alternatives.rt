//! The documents of two branches, of which the first is laid out on trial.
use crate::parts::{either, joined, put_off, text};
use prettyless::DocBuilder;
use prettyless::prelude::*;
use prettyless::text::BuildError;

// Two lines.
fn lines<'a, D: DocPlace<'a>>(
    place: &'a D,
    second: &'a str,
) -> Result<DocBuilder<'a, D>, BuildError> {
    joined(
        joined(text(place, "short"), place.hard_line()),
        text(place, second),
    )
}

// A word and a comment.
fn commented<'a, D: DocPlace<'a>>(place: &'a D) -> Result<DocBuilder<'a, D>, BuildError> {
    joined(text(place, "inner"), put_off(place, " // s"))
}

/// The second line of the first branch is too wide for 10 columns.
pub fn too_wide<'a, D: DocPlace<'a>>(place: &'a D) -> Result<D::Doc, BuildError> {
    either(lines(place, "long long long"), lines(place, "short"))?.into_doc()
}

/// A comment stands before the branches, and one in each. The first is too wide for 5 columns.
pub fn comments<'a, D: DocPlace<'a>>(place: &'a D) -> Result<D::Doc, BuildError> {
    let front = joined(text(place, "a"), put_off(place, " // 1"));
    let first = joined(put_off(place, " // 3"), text(place, "6666666"));
    let second = joined(put_off(place, " // 4"), text(place, "77"));
    joined(joined(front, text(place, "a")), either(first, second))?.into_doc()
}

/// The first branch ends its line, and fits 1 column.
pub fn ending_line<'a, D: DocPlace<'a>>(place: &'a D) -> Result<D::Doc, BuildError> {
    let first = joined(text(place, "a"), place.hard_line());
    let branches = either(first, text(place, "x"));
    joined(branches, text(place, "b"))?.nest(2)?.into_doc()
}

/// A branch with a comment fits 10 columns, and stands in one that does not.
pub fn rejected_after<'a, D: DocPlace<'a>>(place: &'a D) -> Result<D::Doc, BuildError> {
    let inner = either(commented(place), text(place, "inner fallback"));
    let outer = joined(inner, text(place, " long overflow"));
    let branches = either(outer, text(place, "outer fallback"));
    joined(put_off(place, " // caller"), branches)?.into_doc()
}

/// A branch with a comment stands in one, and both fit.
pub fn both_kept<'a, D: DocPlace<'a>>(place: &'a D) -> Result<D::Doc, BuildError> {
    let inner = either(commented(place), text(place, "q"));
    either(joined(text(place, "p"), inner), text(place, "r"))?.into_doc()
}
