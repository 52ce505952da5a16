//! What is known of a document's summary. This file knows no nodes.
ghost use Rattle.prettyless_model.specs.Tree.{Append, Tree};
ghost use Rattle.prettyless_model.specs.declared.mode.Mode.{Mode};
ghost use Rattle.prettyless_summary.specs.Known.{KnownHolds, IsKnown};

use crate::summary::Summary;

/// What is known of a document: its summary, or that of what it begins with.
#[derive(Clone, Copy)]
pub enum Known {
    /// The summary of the document.
    Whole(Summary),
    /// The summary of what comes before its first choice by column or nesting. Where that answers a probe, so does the document.
    Begins(Summary),
}

impl Known {
    /// Nothing is known.
    #[inline(always)]
    pub fn nothing() -> Self
        ensures { (d : Tree) (m : Mode) → KnownHolds result d m }
    {
        Known::Begins(Summary::nothing())
    }
}

/// What is known of two documents one after the other. What comes after a choice is not, nor what comes after more weak spaces than can
/// be counted.
#[inline]
pub fn appended(first: Known, second: Known) -> Known
    ensures { (d e : Tree) (m : Mode) → IsKnown first d m → IsKnown second e m → IsKnown result (Append d e) m }
{
    match (first, second) {
        (Known::Begins(_), _) => first,
        (Known::Whole(start), Known::Whole(next)) => match start.then(next) {
            Some(sum) => Known::Whole(sum),
            None => Known::Begins(start),
        },
        (Known::Whole(start), Known::Begins(next)) => Known::Begins(
            start.then(next).unwrap_or(start),
        ),
    }
}
