//! A node of a table, as a printer walks it. It knows the table, and the document's nodes by `Walk` alone.
ghost use Rattle.std.specs.Prelude.{◌≡◌, ◌-◌, ◌<◌, true, ⊤};
ghost use Rattle.prettyless_table.specs.Cells.{In, In-prop, IsRoot, CellsAreSound, part_at, tree_at, second_at};
ghost use Rattle.prettyless_table.specs.Parts.{shares};

use crate::table::Table;
use prettyless_model::kind::{Pair, Single};
use prettyless_model::mode::Mode;
use prettyless_probe::walk::{View, Walk};
use prettyless_summary::known::Known;
use std::alloc::AllocError;

/// A node of a document that is stored in a table, with its place there.
pub struct Placed<'t, N: Walk> {
    table: &'t Table<N>,
    node: N,
    at: u32,
    pub ghost stands: { In table.now.cells.items (N.tree node) at } by { In-prop table.now.cells.items (N.tree node) at },
}

impl<'t, N: Walk> Clone for Placed<'t, N> {
    ghost is_clone = { λ c d. d ≡ c };

    ghost is_infallible = { λ _. ⊤ };

    fn clone(&self) -> Result<Self, AllocError> {
        Ok(Placed {
            table: self.table,
            node: self.node,
            at: self.at,
        })
    }
}

impl<'t, N: Walk> Copy for Placed<'t, N> {}

impl<N: Walk> Table<N> {
    /// The document at a place.
    #[inline(always)]
    pub fn node(&self, at: u32) -> Placed<'_, N>
        requires within { IsRoot self.now.cells.items at }
        requires sound { CellsAreSound N.tree self.now.cells.items }
        ensures { N.tree result.node ≡ tree_at N.tree self.now.cells.items at }
    {
        let (node, place) = self.root(at);
        Placed {
            table: self,
            node,
            at: place,
        }
    }
}

impl<'t, N: Walk> Placed<'t, N> {
    // A part that has the same place.
    #[inline(always)]
    fn inner(&self, node: N) -> Self
        requires { In self.now.table.now.cells.items (N.tree node) self.now.at }
        ensures { result.node ≡ node }
    {
        Placed {
            table: self.table,
            node,
            at: self.at,
        }
    }

    // The first part, or the only one.
    #[inline(always)]
    fn first(&self, node: N) -> Self
        requires { In self.now.table.now.cells.items (N.tree node) (self.now.at - 1) }
        ensures { result.node ≡ node }
    {
        Placed {
            table: self.table,
            node,
            at: self.at.saturating_sub(1),
        }
    }

    // The part of a node that has one.
    #[inline(always)]
    fn part(&self, kind: Single, node: N) -> Self
        requires { In self.now.table.now.cells.items (N.tree node) (part_at (shares kind) self.now.at) }
        ensures { result.node ≡ node }
    {
        match kind {
            Single::Indented(_) | Single::Group => self.inner(node),
            Single::LineSuffix | Single::Flatten => self.first(node),
        }
    }

    // The second part.
    #[inline(always)]
    fn second(&self, node: N) -> Self
        requires { In self.now.table.now.cells.items (N.tree node) (second_at self.now.table.now.cells.items self.now.at) }
        ensures { result.node ≡ node }
    {
        Placed {
            table: self.table,
            node,
            at: self.table.second(self.at),
        }
    }
}

/// A node of a document as the printer walks it. Its summary is known, unless a choice by column or nesting stands in it.
impl<'t, N: Walk> Walk for Placed<'t, N> {
    ghost tree = { λ p. N.tree p.node };

    ghost HAS_SUMMARIES = { true };

    #[inline(always)]
    fn has_summaries() -> bool {
        true
    }

    #[inline(always)]
    fn known(&self, mode: Mode) -> Known {
        self.table.known(&self.node, self.at, mode)
    }

    #[inline(always)]
    fn touch(&self) -> bool {
        false
    }

    #[inline(always)]
    fn view(&self) -> View<'_, Self> {
        match self.node.view() {
            View::Nil => View::Nil,
            View::Fail => View::Fail,
            View::Text(text) => View::Text(text),
            View::TextWithLen(counted, text) => View::TextWithLen(counted, text),
            View::MultilineText(text, metrics) => View::MultilineText(text, metrics),
            View::WeakSpace => View::WeakSpace,
            View::HardLine => View::HardLine,
            View::WeakLine => View::WeakLine,
            View::ExpandParent => View::ExpandParent,
            View::One(kind, inner) => View::One(kind, self.part(kind, inner)),
            // An arm of its own, and of its own code: most nodes with two parts are this.
            View::Two(Pair::Append, first, second) => {
                View::Two(Pair::Append, self.first(first), self.second(second))
            }
            View::Two(kind, first, second) => View::Two(
                kind,
                self.first(first),
                self.second(second),
            ),
        }
    }
}
