//! Groups in groups.

use crate::parts::{
    Built, by_column, grouped, joined, line_group, node, on_own_line, text, text_line,
};
use prettyless::{Doc, DocPlace};

// Groups nested so deep around a document, with a text and a line in each in front of the next.
fn text_groups_around<'a, D: DocPlace<'a>>(
    place: &'a D,
    inner: Built<'a, D>,
    depth: usize,
) -> Built<'a, D> {
    let mut all = inner;
    for _ in 0..depth {
        all = grouped(place, joined(place, text_line(place, "a"), all));
    }
    all
}

/// Groups nested so deep, with a text and a line in each in front of the next.
pub(crate) fn text_groups<'a, D: DocPlace<'a>>(place: &'a D, depth: usize) -> Built<'a, D> {
    text_groups_around(place, text(place, "a"), depth)
}

/// The same around one choice by the column.
pub(crate) fn choice_groups<'a, D: DocPlace<'a>>(place: &'a D, depth: usize) -> Built<'a, D> {
    text_groups_around(place, by_column(place, "b", "c"), depth)
}

// A text, a choice by the column, a line and a document, in a group.
fn chosen_group<'a, D: DocPlace<'a>>(place: &'a D, inner: Built<'a, D>) -> Built<'a, D> {
    let front = joined(place, text(place, "a"), by_column(place, "b", "c"));
    line_group(place, front, inner)
}

/// Groups nested so deep, with a choice by the column in each.
pub(crate) fn chosen_groups<'a, D: DocPlace<'a>>(place: &'a D, depth: usize) -> Built<'a, D> {
    let mut all = text(place, "a");
    for _ in 0..depth {
        all = chosen_group(place, all);
    }
    all
}

// Two texts that don't fit a line of 80 columns together, and a line between them.
fn wide<'a, D: DocPlace<'a>>(place: &'a D) -> Built<'a, D> {
    let half = "a text of fifty columns, of which two fill a line.";
    joined(place, text_line(place, half), text(place, half))
}

/// Groups nested so deep, around two texts that don't fit a line.
pub(crate) fn bare_groups<'a, D: DocPlace<'a>>(place: &'a D, depth: usize) -> Built<'a, D> {
    let mut all = wide(place);
    for _ in 0..depth {
        // A builder makes no group of a group.
        all = node(place, Doc::Group(all?));
    }
    all
}

// A document on a line of its own where it does not fit, in a group, and a text after that.
fn tail_group<'a, D: DocPlace<'a>>(place: &'a D, inner: Built<'a, D>) -> Built<'a, D> {
    let front = grouped(place, on_own_line(place, inner));
    joined(
        place,
        front,
        text(place, "a text of forty columns, behind a group."),
    )
}

/// Groups nested so deep, with a text after each.
pub(crate) fn tail_groups<'a, D: DocPlace<'a>>(place: &'a D, depth: usize) -> Built<'a, D> {
    let mut all = text(place, "a");
    for _ in 0..depth {
        all = tail_group(place, all);
    }
    all
}
