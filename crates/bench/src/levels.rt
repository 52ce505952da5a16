//! Groups in groups, each with a line and more than a text, and lines of short groups.

use crate::parts::{
    Built, grouped, joined, line_break, line_group, node, or_text, or_text_partly, put_off, text,
};
use prettyless::{Doc, DocPlace};

/// How many groups a line of short ones has.
const CELLS: usize = 30;

/// A sum with so many operators, and a group for each.
pub(crate) fn sums<'a, D: DocPlace<'a>>(place: &'a D, depth: usize) -> Built<'a, D> {
    let mut all = text(place, "a");
    for _ in 0..depth {
        all = line_group(place, all, text(place, "+ b"));
    }
    all
}

// A text, a weak space, a line and a document, in a group.
fn spaced_group<'a, D: DocPlace<'a>>(place: &'a D, inner: Built<'a, D>) -> Built<'a, D> {
    let front = joined(place, text(place, "a"), node(place, Doc::WeakSpace));
    line_group(place, front, inner)
}

/// Groups nested so deep, with a weak space before the line of each.
pub(crate) fn spaced_groups<'a, D: DocPlace<'a>>(place: &'a D, depth: usize) -> Built<'a, D> {
    let mut all = text(place, "a");
    for _ in 0..depth {
        all = spaced_group(place, all);
    }
    all
}

// A text, a comment put off to the end of the line, a line and a document, in a group.
fn comment_group<'a, D: DocPlace<'a>>(place: &'a D, inner: Built<'a, D>) -> Built<'a, D> {
    let front = joined(place, text(place, "a"), put_off(place, "  # why"));
    line_group(place, front, inner)
}

/// Groups nested so deep, with a comment in each.
pub(crate) fn comment_groups<'a, D: DocPlace<'a>>(place: &'a D, depth: usize) -> Built<'a, D> {
    let mut all = text(place, "a");
    for _ in 0..depth {
        all = comment_group(place, all);
    }
    all
}

// A text, a line, and a document or else another text, in a group.
fn union_group<'a, D: DocPlace<'a>>(place: &'a D, inner: Built<'a, D>) -> Built<'a, D> {
    line_group(place, text(place, "a"), or_text(place, inner, "b"))
}

/// Groups nested so deep, each the first of two alternatives in the next. All first ones are kept.
pub(crate) fn union_groups<'a, D: DocPlace<'a>>(place: &'a D, depth: usize) -> Built<'a, D> {
    let mut all = text(place, "a");
    for _ in 0..depth {
        all = union_group(place, all);
    }
    all
}

// A text, a line, and a document whose first line fits or else another text, in a group.
fn partial_group<'a, D: DocPlace<'a>>(place: &'a D, inner: Built<'a, D>) -> Built<'a, D> {
    line_group(place, text(place, "a"), or_text_partly(place, inner, "b"))
}

/// The same of alternatives of which only the first lines have to fit.
pub(crate) fn partial_groups<'a, D: DocPlace<'a>>(place: &'a D, depth: usize) -> Built<'a, D> {
    let mut all = text(place, "a");
    for _ in 0..depth {
        all = partial_group(place, all);
    }
    all
}

// Two texts in a group.
fn cell<'a, D: DocPlace<'a>>(place: &'a D) -> Built<'a, D> {
    grouped(place, joined(place, text(place, "a"), text(place, "b")))
}

// So many of these groups, and the end of their line.
fn cell_line<'a, D: DocPlace<'a>>(place: &'a D, cells: usize) -> Built<'a, D> {
    let mut all = node(place, Doc::Nil);
    for _ in 0..cells {
        all = joined(place, all, cell(place));
    }
    joined(place, all, line_break(place))
}

/// So many lines of thirty short groups.
pub(crate) fn cell_lines<'a, D: DocPlace<'a>>(place: &'a D, lines: usize) -> Built<'a, D> {
    let mut all = node(place, Doc::Nil);
    for _ in 0..lines {
        all = joined(place, all, cell_line(place, CELLS));
    }
    all
}
