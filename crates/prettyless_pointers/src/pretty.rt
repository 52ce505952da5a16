//! A document that has its place already is itself.
ghost use Rattle.std.specs.Prelude.{◌≡◌};
ghost use Rattle.prettyless_pointers.specs.Trees.{box_tree, rc_tree};

use crate::boxes::{BoxAllocator, BoxDoc};
use crate::rc::{RcAllocator, RcDoc};
use prettyless_build::{DocBuilder, Pretty};
use prettyless_doc::BuildError;

/// Itself. It takes no memory.
impl<'a> Pretty<'a, BoxAllocator> for BoxDoc<'a> {
    ghost becomes = { λ d y. y ≡ box_tree d };

    ghost refuses = { λ _ _. ⊥ };

    fn pretty(self, place: &'a BoxAllocator) -> Result<DocBuilder<'a, BoxAllocator>, BuildError> {
        Ok(DocBuilder::from_doc(place, self))
    }
}

/// Itself. It takes no memory.
impl<'a> Pretty<'a, RcAllocator> for RcDoc<'a> {
    ghost becomes = { λ d y. y ≡ rc_tree d };

    ghost refuses = { λ _ _. ⊥ };

    fn pretty(self, nodes: &'a RcAllocator) -> Result<DocBuilder<'a, RcAllocator>, BuildError> {
        Ok(DocBuilder::from_doc(nodes, self))
    }
}
