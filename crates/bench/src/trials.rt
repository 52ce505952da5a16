//! Alternatives in alternatives.

use crate::parts::{Built, joined, line_break, or_text, text};
use prettyless::DocPlace;

// A text and a line break in front of a document, or else another text.
#[inline(always)]
fn kept_trial<'a, D: DocPlace<'a>>(place: &'a D, inner: Built<'a, D>) -> Built<'a, D> {
    let front = joined(place, text(place, "a"), line_break(place));
    or_text(place, joined(place, front, inner), "b")
}

/// Alternatives nested so deep. Each first one, a text and a line in front of the next, is kept.
pub(crate) fn kept_trials<'a, D: DocPlace<'a>>(place: &'a D, depth: usize) -> Built<'a, D> {
    let mut all = text(place, "a");
    for _ in 0..depth {
        all = kept_trial(place, all);
    }
    all
}

// A line break in front of a document and a text, or else another text.
#[inline(always)]
fn rejected_trial<'a, D: DocPlace<'a>>(place: &'a D, inner: Built<'a, D>) -> Built<'a, D> {
    let front = joined(place, line_break(place), inner);
    or_text(place, joined(place, front, text(place, "toolong")), "x")
}

/// Alternatives nested so deep, after a text. Each first one, which ends in a text that does not fit a line of 4 columns,
/// is rejected.
pub(crate) fn rejected_trials<'a, D: DocPlace<'a>>(place: &'a D, depth: usize) -> Built<'a, D> {
    let mut all = text(place, "x");
    for _ in 0..depth {
        all = rejected_trial(place, all);
    }
    joined(place, text(place, "p"), all)
}
