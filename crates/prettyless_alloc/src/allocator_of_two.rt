//! The calls of a place of nodes that take two documents.
ghost use Rattle.prettyless_model.specs.Tree.{OnColumn, OnNesting, Two};
ghost use Rattle.prettyless_doc.specs.DocTree.{built};
ghost use Rattle.prettyless_build.specs.Builds.{BuildsOfTwo};

use prettyless_build::nodes::of_two;
use prettyless_build::{DocBuilder, Pretty};
use prettyless_doc::{BuildError, DocPlace};
use prettyless_model::choice::{ChoiceTest, ColumnTest, NestingTest};
use prettyless_model::kind::Pair;

/// The calls of every allocator that make a document of two operands, of types `P` and `Q`. Each call fails as making
/// one of the two documents does, or if memory runs out. The first operand becomes a document before the second, and
/// both do, also where making the first fails.
///
/// `P` and `Q` are parameters of the trait and not of its calls, as for `DocAllocatorOf`.
pub trait DocAllocatorOfTwo<'a, P: Pretty<'a, Self>, Q: Pretty<'a, Self>>: DocPlace<'a> {
    /// The first document if the test holds at the column where it would start, and else the second, in flat lines too.
    /// It fails as the making of one of the two does, and if memory runs out.
    ///
    /// ```
    /// docs![place, "ab", place.if_column(ColumnTest::AtMost(1), "c", "d")?]? // "abd"
    /// ```
    fn if_column(
        &'a self,
        test: ColumnTest,
        first: P,
        second: Q,
    ) -> Result<DocBuilder<'a, Self>, BuildError>
        ensures { BuildsOfTwo result (λ b. built Self.Doc.tree b.1) (P.becomes first) (Q.becomes second) (P.refuses first)
            (Q.refuses second) (OnColumn test) };

    /// The first document if the test holds for the indent, and else the second, in flat lines too. It fails as the
    /// making of one of the two does, and if memory runs out.
    ///
    /// ```
    /// place.if_nesting(NestingTest::AtLeast(2), "c", "d")?.nest(2)? // "c"
    /// ```
    fn if_nesting(
        &'a self,
        test: NestingTest,
        first: P,
        second: Q,
    ) -> Result<DocBuilder<'a, Self>, BuildError>
        ensures { BuildsOfTwo result (λ b. built Self.Doc.tree b.1) (P.becomes first) (Q.becomes second) (P.refuses first)
            (Q.refuses second) (OnNesting test) };
}

impl<'a, D: DocPlace<'a>, P: Pretty<'a, D>, Q: Pretty<'a, D>> DocAllocatorOfTwo<'a, P, Q> for D {
    fn if_column(
        &'a self,
        test: ColumnTest,
        first: P,
        second: Q,
    ) -> Result<DocBuilder<'a, D>, BuildError> {
        choice(
            self,
            Pair::Chosen(ChoiceTest::OnColumn(test)),
            first,
            second,
        )
    }

    fn if_nesting(
        &'a self,
        test: NestingTest,
        first: P,
        second: Q,
    ) -> Result<DocBuilder<'a, D>, BuildError> {
        choice(
            self,
            Pair::Chosen(ChoiceTest::OnNesting(test)),
            first,
            second,
        )
    }
}

// The choice of this kind. Both documents are made, also where the first is refused.
fn choice<'a, D: DocPlace<'a>, P: Pretty<'a, D>, Q: Pretty<'a, D>>(
    place: &'a D,
    kind: Pair,
    first: P,
    second: Q,
) -> Result<DocBuilder<'a, D>, BuildError>
    ensures { BuildsOfTwo result (λ b. built D.Doc.tree b.1) (P.becomes first) (Q.becomes second) (P.refuses first) (Q.refuses second)
        (Two kind) }
{
    let first = first.pretty(place);
    let second = second.pretty(place);
    of_two(kind, first?, second?)
}
