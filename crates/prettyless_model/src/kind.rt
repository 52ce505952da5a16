//! How a node holds others: one document, or two. This file knows no nodes.
ghost use Rattle.std.specs.Prelude.{◌≡◌};
ghost use Rattle.prettyless_model.specs.Indent.{indent_by};

use crate::choice::ChoiceTest;
use crate::column::Column;

/// How a node sets the indent of the document in it.
#[derive(Clone, Copy)]
pub enum Indenting {
    /// By so many columns further.
    Nest(isize),
    DedentToRoot,
    Align,
}

impl Indenting {
    /// The indent that it sets, from the one around the node and the column at which the node stands.
    #[inline(always)]
    pub fn indent(self, indent: usize, column: Column) -> usize
        ensures { result ≡ indent_by self indent column }
    {
        match self {
            Indenting::Nest(offset) => indent.saturating_add_signed(offset),
            Indenting::DedentToRoot => 0,
            Indenting::Align => column.prospective(),
        }
    }
}

/// How a node holds one document.
#[derive(Clone, Copy)]
pub enum Single {
    LineSuffix,
    /// With what it does to the indent.
    Indented(Indenting),
    Flatten,
    Group,
}

/// How a node holds two.
#[derive(Clone, Copy)]
pub enum Pair {
    Append,
    BreakOrFlat,
    Union,
    PartialUnion,
    /// With the test by which it chooses.
    Chosen(ChoiceTest),
}
