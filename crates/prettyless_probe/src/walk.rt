//! The interface to documents: a node as the printer sees it. It does not know how documents are stored.
ghost use Rattle.std.specs.Prelude.{◌≡◌, Bool, IsTrue};
ghost use Rattle.prettyless_model.specs.Tree.{Tree};
ghost use Rattle.prettyless_probe.specs.View.{IsMeasured, view_tree};
ghost use Rattle.prettyless_summary.specs.Known.{KnownHolds, IsFound};

use prettyless_model::kind::{Pair, Single};
use prettyless_model::metrics::Metrics;
use prettyless_model::mode::Mode;
use prettyless_summary::known::Known;

/// One node, as the printer sees it: its variant with its text, or how it holds other nodes, and these. Widths are columns.
#[derive(Drop)]
pub enum View<'v, N> {
    Nil,
    Fail,
    Text(&'v str),
    TextWithLen(usize, &'v str),
    /// A payload, with what is measured of it.
    MultilineText(&'v str, Metrics),
    WeakSpace,
    HardLine,
    WeakLine,
    ExpandParent,
    One(Single, N),
    Two(Pair, N, N),
}

/// A node that the printer can walk.
///
/// It knows no lifetime of a document, so that functions that call themselves may have it as a bound.
pub trait Walk: Copy {
    // the tree below the node
    ghost tree: { Self → Tree };

    // whether nodes have summaries
    ghost HAS_SUMMARIES: { Bool };

    /// Whether nodes have summaries. A stack of such nodes keeps their sums, by which a probe reads what it would visit else.
    fn has_summaries() -> bool
        ensures { result ≡ HAS_SUMMARIES };

    /// Reads the node in advance, so that it is near when it is looked at.
    fn touch(&self) -> bool;

    /// What the node is.
    fn view(&self) -> View<'_, Self>
        ensures tree { view_tree tree result ≡ tree self.now }
        ensures metrics { IsMeasured result };

    /// What is known of the node's summary in a mode. Where nodes have summaries, all of it is, if the node has one, and else that of
    /// what comes before its first choice, unless the node is too large.
    fn known(&self, mode: Mode) -> Known
        ensures known { KnownHolds result (tree self.now) mode }
        ensures found { IsTrue HAS_SUMMARIES → IsFound result (tree self.now) mode };
}
