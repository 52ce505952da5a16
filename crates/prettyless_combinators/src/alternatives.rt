//! Values that become one of two documents, by the mode, by what fits the line, by the column or by the indent. Making each
//! of the two can fail, and memory may be refused. Both are made, also where the first failed, since a value that is not consumed cannot be
//! dropped.
ghost use Rattle.std.specs.Prelude.{◌≡◌};
ghost use Rattle.prettyless_model.specs.Tree as tree;
ghost use Rattle.prettyless_model.specs.Tree.{Tree};
ghost use Rattle.prettyless_build.specs.Builds.{refused};

use prettyless_alloc::DocAllocatorOfTwo;
use prettyless_build::{DocBuilder, Pretty};
use prettyless_doc::{BuildDoc, BuildError, DocPlace};
use prettyless_model::choice::{ColumnTest, NestingTest};

/// The first document if it can be printed with each text, or each line of a multiline text, within the width, and else
/// the second; where lines are flat, the first.
#[derive(Clone, Debug, Drop)]
pub struct Union<T, U>(pub(crate) T, pub(crate) U);

impl<'a, D: DocPlace<'a>, T: Pretty<'a, D>, U: Pretty<'a, D>> Pretty<'a, D> for Union<T, U> {
    ghost becomes = { λ d z. (x : Tree) × (y : Tree) × T.becomes d.0 x × U.becomes d.1 y
        × (z ≡ tree.Union x y) };

    ghost refuses = { λ d. refused (T.refuses d.0) (U.refuses d.1) };

    fn pretty(self, place: &'a D) -> Result<DocBuilder<'a, D>, BuildError> {
        let Union(first, second) = self;
        let first = first.pretty(place);
        let second = second.pretty(place);
        first?.union(BuildDoc::from(second?))
    }
}

/// The first document if its first line fits, whatever comes after that line, and else the second; where lines are
/// flat, the first.
#[derive(Clone, Debug, Drop)]
pub struct PartialUnion<T, U>(pub(crate) T, pub(crate) U);

impl<'a, D: DocPlace<'a>, T: Pretty<'a, D>, U: Pretty<'a, D>> Pretty<'a, D> for PartialUnion<T, U> {
    ghost becomes = { λ d z. (x : Tree) × (y : Tree) × T.becomes d.0 x × U.becomes d.1 y
        × (z ≡ tree.PartialUnion x y) };

    ghost refuses = { λ d. refused (T.refuses d.0) (U.refuses d.1) };

    fn pretty(self, place: &'a D) -> Result<DocBuilder<'a, D>, BuildError> {
        let PartialUnion(first, second) = self;
        let first = first.pretty(place);
        let second = second.pretty(place);
        first?.partial_union(BuildDoc::from(second?))
    }
}

/// The first document where lines are broken, and the second where they are flat.
#[derive(Clone, Debug, Drop)]
pub struct FlatAlt<T, U>(pub(crate) T, pub(crate) U);

impl<'a, D: DocPlace<'a>, T: Pretty<'a, D>, U: Pretty<'a, D>> Pretty<'a, D> for FlatAlt<T, U> {
    ghost becomes = { λ d z. (x : Tree) × (y : Tree) × T.becomes d.0 x × U.becomes d.1 y
        × (z ≡ tree.BreakOrFlat x y) };

    ghost refuses = { λ d. refused (T.refuses d.0) (U.refuses d.1) };

    fn pretty(self, place: &'a D) -> Result<DocBuilder<'a, D>, BuildError> {
        let FlatAlt(broken, flat) = self;
        match broken.pretty(place) {
            Ok(broken) => broken.flat_alt(flat),
            Err(error) => {
                let _ = flat.pretty(place);
                Err(error)
            }
        }
    }
}

/// The first document if the test holds at the column where it would start, and else the second, in flat lines too.
#[derive(Clone, Debug, Drop)]
pub struct IfColumn<T, U>(pub(crate) ColumnTest, pub(crate) T, pub(crate) U);

impl<'a, D: DocPlace<'a>, T: Pretty<'a, D>, U: Pretty<'a, D>> Pretty<'a, D> for IfColumn<T, U> {
    ghost becomes = { λ d z. (x : Tree) × (y : Tree) × T.becomes d.1 x × U.becomes d.2 y
        × (z ≡ tree.OnColumn d.0 x y) };

    ghost refuses = { λ d. refused (T.refuses d.1) (U.refuses d.2) };

    fn pretty(self, place: &'a D) -> Result<DocBuilder<'a, D>, BuildError> {
        let IfColumn(test, first, second) = self;
        place.if_column(test, first, second)
    }
}

/// The first document if the test holds for the indent, and else the second, in flat lines too.
#[derive(Clone, Debug, Drop)]
pub struct IfNesting<T, U>(pub(crate) NestingTest, pub(crate) T, pub(crate) U);

impl<'a, D: DocPlace<'a>, T: Pretty<'a, D>, U: Pretty<'a, D>> Pretty<'a, D> for IfNesting<T, U> {
    ghost becomes = { λ d z. (x : Tree) × (y : Tree) × T.becomes d.1 x × U.becomes d.2 y
        × (z ≡ tree.OnNesting d.0 x y) };

    ghost refuses = { λ d. refused (T.refuses d.1) (U.refuses d.2) };

    fn pretty(self, place: &'a D) -> Result<DocBuilder<'a, D>, BuildError> {
        let IfNesting(test, first, second) = self;
        place.if_nesting(test, first, second)
    }
}
