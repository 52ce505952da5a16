//! Lists in parentheses.

use crate::parts::{Built, grouped, joined, line, nested, placed, text};
use prettyless::combinators::line_or_space;
use prettyless::text::BuildError;
use prettyless::{DocAllocatorBetween, DocPlace};
use std::iter;

const ATOM: &str = "atom";

/// How many trees a list of a tree has.
const CHILDREN: usize = 10;

// Items in parentheses.
fn parenthesised<'a, D: DocPlace<'a>>(place: &'a D, items: Built<'a, D>) -> Built<'a, D> {
    let inner = grouped(place, nested(place, items, 1));
    joined(
        place,
        joined(place, text(place, "("), inner),
        text(place, ")"),
    )
}

/// So many atoms in one list.
pub(crate) fn list<'a, D: DocPlace<'a>>(place: &'a D, atoms: usize) -> Built<'a, D> {
    let atom: &'a str = ATOM;
    let items = placed(place.intersperse(iter::repeat_n(atom, atoms), line_or_space()));
    parenthesised(place, items)
}

// An atom and a line in front of a document.
fn in_front<'a, D: DocPlace<'a>>(place: &'a D, inner: Built<'a, D>) -> Built<'a, D> {
    joined(place, text(place, ATOM), joined(place, line(place), inner))
}

/// So many atoms in front of a last one, in a group.
pub(crate) fn right_list<'a, D: DocPlace<'a>>(place: &'a D, atoms: usize) -> Built<'a, D> {
    let mut all = text(place, ATOM);
    for _ in 0..atoms {
        all = in_front(place, all);
    }
    grouped(place, nested(place, all, 1))
}

/// Where trees are built. It knows no lifetime, so that a function that calls itself may have it as a bound.
trait TreePlace: Copy {
    /// The pointer to a tree.
    type Doc: Drop;
    /// An atom.
    fn atom(self) -> Result<Self::Doc, BuildError>;
    /// A document after another, with a line between them.
    fn next_line(self, front: Self::Doc, next: Self::Doc) -> Result<Self::Doc, BuildError>;
    /// A list of these.
    fn listed(self, items: Self::Doc) -> Result<Self::Doc, BuildError>;
}

impl<'a, D: DocPlace<'a>> TreePlace for &'a D {
    type Doc = D::Doc;

    fn atom(self) -> Result<D::Doc, BuildError> {
        text(self, ATOM)
    }

    fn next_line(self, front: D::Doc, next: D::Doc) -> Result<D::Doc, BuildError> {
        let with_line = joined(self, Ok(front), line(self));
        joined(self, with_line, Ok(next))
    }

    fn listed(self, items: D::Doc) -> Result<D::Doc, BuildError> {
        parenthesised(self, Ok(items))
    }
}

// An atom, or a list of ten trees that have one level less.
fn levels<P: TreePlace>(place: P, height: u32) -> Result<P::Doc, BuildError> {
    if height == 0 {
        return place.atom();
    }
    let mut items = levels(place, height - 1)?;
    for _ in 1..CHILDREN {
        items = place.next_line(items, levels(place, height - 1)?)?;
    }
    place.listed(items)
}

/// Lists of ten, in lists of ten, and so on, with as many atoms as the greatest power of ten up to this number has, and
/// with one at least.
pub(crate) fn tree<'a, D: DocPlace<'a>>(place: &'a D, atoms: usize) -> Built<'a, D> {
    levels(place, atoms.max(1).ilog10())
}
