//! Values that become what a builder's call makes of one document. Making that document can fail, and memory may be
//! refused.
ghost use Rattle.std.specs.Prelude.{◌≡◌, ◌⊎◌};
ghost use Rattle.prettyless_model.specs.Tree as tree;
ghost use Rattle.prettyless_model.specs.Tree.{Tree};
ghost use Rattle.prettyless_doc.specs.BuildErrors.{IsMemory};
ghost use Rattle.prettyless_trees.specs.Built as to;

use prettyless_alloc::DocAllocatorOf;
use prettyless_build::{DocBuilder, Pretty};
use prettyless_doc::{BuildError, DocPlace};

/// A document, and the number of columns by which its indent is moved.
#[derive(Clone, Debug, Drop)]
pub struct Nest<T>(pub(crate) isize, pub(crate) T);

impl<'a, D: DocPlace<'a>, T: Pretty<'a, D>> Pretty<'a, D> for Nest<T> {
    ghost becomes = { λ n y. (x : Tree) × T.becomes n.1 x × (y ≡ to.nest n.0 x) };

    ghost refuses = { λ n e. T.refuses n.1 e ⊎ IsMemory e };

    fn pretty(self, place: &'a D) -> Result<DocBuilder<'a, D>, BuildError> {
        let Nest(offset, doc) = self;
        doc.pretty(place)?.nest(offset)
    }
}

/// A document to be repeated, and how often.
#[derive(Clone, Debug, Drop)]
pub struct Repeat<T>(pub(crate) usize, pub(crate) T);

impl<'a, D: DocPlace<'a>, T: Pretty<'a, D>> Pretty<'a, D> for Repeat<T> {
    ghost becomes = { λ r y. (x : Tree) × T.becomes r.1 x × (y ≡ to.repeat r.0 x) };

    ghost refuses = { λ r e. T.refuses r.1 e ⊎ IsMemory e };

    fn pretty(self, place: &'a D) -> Result<DocBuilder<'a, D>, BuildError> {
        let Repeat(count, doc) = self;
        doc.pretty(place)?.repeat(count)
    }
}

/// A document that is flat if it fits the line together with what follows up to the next line break, and else broken.
#[derive(Clone, Debug, Drop)]
pub struct Group<T>(pub(crate) T);

impl<'a, D: DocPlace<'a>, T: Pretty<'a, D>> Pretty<'a, D> for Group<T> {
    ghost becomes = { λ d y. (x : Tree) × T.becomes d.0 x × (y ≡ to.group x) };

    ghost refuses = { λ d e. T.refuses d.0 e ⊎ IsMemory e };

    fn pretty(self, place: &'a D) -> Result<DocBuilder<'a, D>, BuildError> {
        let Group(doc) = self;
        doc.pretty(place)?.group()
    }
}

/// A document with its indent at the column where it starts.
#[derive(Clone, Debug, Drop)]
pub struct Align<T>(pub(crate) T);

impl<'a, D: DocPlace<'a>, T: Pretty<'a, D>> Pretty<'a, D> for Align<T> {
    ghost becomes = { λ d y. (x : Tree) × T.becomes d.0 x × (y ≡ to.align x) };

    ghost refuses = { λ d e. T.refuses d.0 e ⊎ IsMemory e };

    fn pretty(self, place: &'a D) -> Result<DocBuilder<'a, D>, BuildError> {
        let Align(doc) = self;
        doc.pretty(place)?.align()
    }
}

/// A document with indent 0.
#[derive(Clone, Debug, Drop)]
pub struct DedentToRoot<T>(pub(crate) T);

impl<'a, D: DocPlace<'a>, T: Pretty<'a, D>> Pretty<'a, D> for DedentToRoot<T> {
    ghost becomes = { λ d y. (x : Tree) × T.becomes d.0 x × (y ≡ to.dedent_to_root x) };

    ghost refuses = { λ d e. T.refuses d.0 e ⊎ IsMemory e };

    fn pretty(self, place: &'a D) -> Result<DocBuilder<'a, D>, BuildError> {
        let DedentToRoot(doc) = self;
        doc.pretty(place)?.dedent_to_root()
    }
}

/// A document that is flat whether it fits or not. A hard line or a payload shown in it fails; a weak line still
/// breaks.
#[derive(Clone, Debug, Drop)]
pub struct Flatten<T>(pub(crate) T);

impl<'a, D: DocPlace<'a>, T: Pretty<'a, D>> Pretty<'a, D> for Flatten<T> {
    ghost becomes = { λ d y. (x : Tree) × T.becomes d.0 x × (y ≡ to.flatten x) };

    ghost refuses = { λ d e. T.refuses d.0 e ⊎ IsMemory e };

    fn pretty(self, place: &'a D) -> Result<DocBuilder<'a, D>, BuildError> {
        let Flatten(doc) = self;
        doc.pretty(place)?.flatten()
    }
}

/// A document as a line suffix, pending until its line ends.
#[derive(Clone, Debug, Drop)]
pub struct LineSuffix<T>(pub(crate) T);

impl<'a, D: DocPlace<'a>, T: Pretty<'a, D>> Pretty<'a, D> for LineSuffix<T> {
    ghost becomes = { λ d y. (x : Tree) × T.becomes d.0 x × (y ≡ tree.LineSuffix x) };

    ghost refuses = { λ d e. T.refuses d.0 e ⊎ IsMemory e };

    fn pretty(self, place: &'a D) -> Result<DocBuilder<'a, D>, BuildError> {
        let LineSuffix(doc) = self;
        place.line_suffix(doc)
    }
}
