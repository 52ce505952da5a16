//! The tokens: small values that become the same document each time.
ghost use Rattle.std.specs.Prelude.{◌≡◌, ◌<◌};
ghost use Rattle.prettyless_model.specs.Tree as tree;
ghost use Rattle.prettyless_doc.specs.BuildErrors.{IsMemory};
ghost use Rattle.prettyless_trees.specs.Built as to;
ghost use Rattle.prettyless_trees.specs.Lines as lines;

use prettyless_alloc::DocAllocator;
use prettyless_build::{DocBuilder, Pretty};
use prettyless_doc::{BuildError, DocPlace};

/// The empty document. It takes no memory.
#[derive(Clone, Copy, Debug)]
pub struct Nil;

impl<'a, D: DocPlace<'a>> Pretty<'a, D> for Nil {
    ghost becomes = { λ _ y. y ≡ tree.Nil };

    ghost refuses = { λ _ _. ⊥ };

    fn pretty(self, place: &'a D) -> Result<DocBuilder<'a, D>, BuildError> {
        place.nil()
    }
}

/// A document that cannot be printed: a render that reaches it fails. It takes no memory.
#[derive(Clone, Copy, Debug)]
pub struct Fail;

impl<'a, D: DocPlace<'a>> Pretty<'a, D> for Fail {
    ghost becomes = { λ _ y. y ≡ tree.Fail };

    ghost refuses = { λ _ _. ⊥ };

    fn pretty(self, place: &'a D) -> Result<DocBuilder<'a, D>, BuildError> {
        place.fail()
    }
}

/// A line break. It keeps the groups around it from being flat, and fails under `flatten`. It takes no memory.
#[derive(Clone, Copy, Debug)]
pub struct HardLine;

impl<'a, D: DocPlace<'a>> Pretty<'a, D> for HardLine {
    ghost becomes = { λ _ y. y ≡ tree.HardLine };

    ghost refuses = { λ _ _. ⊥ };

    fn pretty(self, place: &'a D) -> Result<DocBuilder<'a, D>, BuildError> {
        place.hard_line()
    }
}

/// A line break, or nothing where lines are flat. It fails if memory runs out.
#[derive(Clone, Copy, Debug)]
pub struct LineOrNil;

impl<'a, D: DocPlace<'a>> Pretty<'a, D> for LineOrNil {
    ghost becomes = { λ _ y. y ≡ lines.line_ };

    ghost refuses = { λ _. IsMemory };

    fn pretty(self, place: &'a D) -> Result<DocBuilder<'a, D>, BuildError> {
        place.line_()
    }
}

/// A line break, or one space where lines are flat. It fails if memory runs out.
#[derive(Clone, Copy, Debug)]
pub struct LineOrSpace;

impl<'a, D: DocPlace<'a>> Pretty<'a, D> for LineOrSpace {
    ghost becomes = { λ _ y. y ≡ lines.line };

    ghost refuses = { λ _. IsMemory };

    fn pretty(self, place: &'a D) -> Result<DocBuilder<'a, D>, BuildError> {
        place.line()
    }
}

/// Nothing, or a line break where what follows, up to the next possible break, would go past the width. It fails if
/// memory runs out.
#[derive(Clone, Copy, Debug)]
pub struct SoftLineOrNil;

impl<'a, D: DocPlace<'a>> Pretty<'a, D> for SoftLineOrNil {
    ghost becomes = { λ _ y. y ≡ to.softline_ };

    ghost refuses = { λ _. IsMemory };

    fn pretty(self, place: &'a D) -> Result<DocBuilder<'a, D>, BuildError> {
        place.softline_()
    }
}

/// One space, or a line break where what follows, up to the next possible break, would go past the width. It fails if
/// memory runs out.
#[derive(Clone, Copy, Debug)]
pub struct SoftLineOrSpace;

impl<'a, D: DocPlace<'a>> Pretty<'a, D> for SoftLineOrSpace {
    ghost becomes = { λ _ y. y ≡ to.softline };

    ghost refuses = { λ _. IsMemory };

    fn pretty(self, place: &'a D) -> Result<DocBuilder<'a, D>, BuildError> {
        place.softline()
    }
}

/// A line break, left out on a fresh line where no suffix is pending. It breaks under `flatten` too, and keeps the
/// groups around it from being flat. It takes no memory.
#[derive(Clone, Copy, Debug)]
pub struct WeakLine;

impl<'a, D: DocPlace<'a>> Pretty<'a, D> for WeakLine {
    ghost becomes = { λ _ y. y ≡ tree.WeakLine };

    ghost refuses = { λ _ _. ⊥ };

    fn pretty(self, place: &'a D) -> Result<DocBuilder<'a, D>, BuildError> {
        place.weak_line()
    }
}

/// A text of one space. It takes no memory.
#[derive(Clone, Copy, Debug)]
pub struct Space;

impl<'a, D: DocPlace<'a>> Pretty<'a, D> for Space {
    ghost becomes = { λ _ y. y ≡ lines.space };

    ghost refuses = { λ _ _. ⊥ };

    fn pretty(self, place: &'a D) -> Result<DocBuilder<'a, D>, BuildError> {
        place.space()
    }
}

/// A space, left out at the start of a line, and at the end of a line unless a suffix is pending there. It takes no
/// memory.
#[derive(Clone, Copy, Debug)]
pub struct WeakSpace;

impl<'a, D: DocPlace<'a>> Pretty<'a, D> for WeakSpace {
    ghost becomes = { λ _ y. y ≡ tree.WeakSpace };

    ghost refuses = { λ _ _. ⊥ };

    fn pretty(self, place: &'a D) -> Result<DocBuilder<'a, D>, BuildError> {
        place.weak_space()
    }
}

/// An empty document that keeps the groups around it from being flat. It takes no memory.
#[derive(Clone, Copy, Debug)]
pub struct ExpandParent;

impl<'a, D: DocPlace<'a>> Pretty<'a, D> for ExpandParent {
    ghost becomes = { λ _ y. y ≡ tree.ExpandParent };

    ghost refuses = { λ _ _. ⊥ };

    fn pretty(self, place: &'a D) -> Result<DocBuilder<'a, D>, BuildError> {
        place.expand_parent()
    }
}

/// A number of spaces, in texts of at most 100. Up to 100 it takes no memory; beyond that memory may run out.
#[derive(Clone, Copy, Debug)]
pub struct Spaces(pub(crate) usize);

impl<'a, D: DocPlace<'a>> Pretty<'a, D> for Spaces {
    ghost becomes = { λ n y. y ≡ to.spaces_tree n.0 };

    ghost refuses = { λ n e. IsMemory e × (100 < n.0) };

    fn pretty(self, place: &'a D) -> Result<DocBuilder<'a, D>, BuildError> {
        place.spaces(self.0)
    }
}
