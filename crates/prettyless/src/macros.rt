ghost use Rattle.std.specs.Prelude.{IfOk, IfErr};
ghost use Rattle.prettyless_doc.specs.DocTree.{built};
ghost use Rattle.prettyless_trees.specs.Built.{joined};
ghost use Rattle.prettyless_build.specs.Builds.{refused};

use prettyless_build::{DocBuilder, Pretty};
use prettyless_doc::{BuildError, DocPlace};

/// The documents, appended in order, as a `Result` of a builder: `docs![place, first, rest..]`.
///
/// An operand is evaluated and becomes a document after those before it, and not where one of them was
/// refused. An error is one that an operand answers, or memory was refused. `Pretty` need not be in scope.
///
/// ```
/// docs![place, "a", hard_line(), "b"]? // "a\nb"
/// ```
#[macro_export]
macro_rules! docs {
    ($place:expr, $first:expr $(,)?) => {
        $crate::Pretty::pretty($first, $place)
    };
    ($place:expr, $first:expr, $($rest:expr),+ $(,)?) => {
        match $crate::Pretty::pretty($first, $place) {
            Ok(doc) => $crate::docs_onto!(doc, $($rest),+),
            Err(error) => Err(error),
        }
    };
}

/// Part of `docs!`: the documents, appended in order to a builder.
#[macro_export]
macro_rules! docs_onto {
    ($doc:expr, $next:expr) => {
        $crate::DocBuilder::append($doc, $next)
    };
    ($doc:expr, $next:expr, $($rest:expr),+) => {
        match $crate::DocBuilder::append($doc, $next) {
            Ok(doc) => $crate::docs_onto!(doc, $($rest),+),
            Err(error) => Err(error),
        }
    };
}

/// Four documents, appended in order by `docs!`: what the macro writes, with its contract.
///
/// The tree is that of the first three with the fourth appended, and so on down to the first. An error is one
/// that an operand may answer, or memory was refused.
///
/// ```
/// four_in_order(place, "a", hard_line(), "b", ";")? // "a\nb;"
/// ```
pub fn four_in_order<
    'a,
    D: DocPlace<'a>,
    A: Pretty<'a, D> + Drop,
    B: Pretty<'a, D> + Drop,
    C: Pretty<'a, D> + Drop,
    E: Pretty<'a, D> + Drop,
>(place: &'a D, first: A, second: B, third: C, fourth: E) -> Result<DocBuilder<'a, D>, BuildError>
    ensures ok { IfOk result (λ b. joined
        (joined (joined (A.becomes first) (B.becomes second)) (C.becomes third))
        (E.becomes fourth) (built D.Doc.tree b.1)) }
    ensures err { IfErr result (refused
        (refused (refused (A.refuses first) (B.refuses second)) (C.refuses third))
        (E.refuses fourth)) }
{
    docs![place, first, second, third, fourth]
}
