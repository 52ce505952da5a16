ghost use Rattle.std.specs.Prelude.{◌≡◌, pos, IfOk, IfErr};
ghost use Rattle.std.specs.Fmt.{decimal};
ghost use Rattle.prettyless.specs.Built.{append, between, group, nest};
ghost use Rattle.prettyless.specs.Lines.{line};
ghost use Rattle.prettyless.specs.Tree.{Tree, Nil, Text};
ghost use Rattle.prettyless.specs.Trees.{ref_tree};
ghost use Rattle.sexp.specs.Transfer.{IsWantOfMemory};
ghost use Rattle.sexp.specs.Value.{values_of};
ghost use Rattle.sexp.specs.View.{value_of, values_in};
ghost use Rattle.sexp.specs.Documents.{sexp_document, interspersed};

use crate::error::RunError;
use crate::expression::SExp;
use prettyless::text::BuildError;
use prettyless::{Arena, Doc, DocAllocator, DocBuilder, DocPlace, RefDoc};

/// Where S-expressions are built. It knows no lifetime, so that functions that call each other may have it as a bound.
trait SexpPlace: Copy {
    /// The pointer to a document.
    type Doc: Drop;

    ghost tree: { Self.Doc → Tree };

    /// A number, in decimal.
    fn atom(self, number: u32) -> Result<Self::Doc, BuildError>
        ensures { IfOk result (λ p. tree p ≡ Text (decimal number)) };

    /// Nothing.
    fn nothing(self) -> Result<Self::Doc, BuildError>
        ensures { IfOk result (λ p. tree p ≡ Nil) };

    /// A line break, or one space where lines are flat.
    fn gap(self) -> Result<Self::Doc, BuildError>
        ensures { IfOk result (λ p. tree p ≡ line) };

    /// A list, from what is between its parentheses.
    fn list(self, inside: Self::Doc) -> Result<Self::Doc, BuildError>
        ensures { IfOk result (λ p. tree p ≡ between 40 41 (group (nest (pos 1) (tree inside)))) };

    /// A document, the gap after it and the next one.
    fn join_after(
        self,
        all: Self::Doc,
        gap: &Self::Doc,
        next: Self::Doc,
    ) -> Result<Self::Doc, BuildError>
        ensures { IfOk result (λ p. tree p ≡ append (append (tree all) (tree gap.now)) (tree next)) };
}

impl<'a, D: DocPlace<'a>> SexpPlace for &'a D {
    type Doc = D::Doc;

    ghost tree = { D.Doc.tree };

    fn atom(self, number: u32) -> Result<D::Doc, BuildError> {
        atom(self, number)
    }

    fn nothing(self) -> Result<D::Doc, BuildError> {
        self.alloc(Doc::Nil)
    }

    fn gap(self) -> Result<D::Doc, BuildError> {
        self.line()?.into_doc()
    }

    fn list(self, inside: D::Doc) -> Result<D::Doc, BuildError> {
        let inside = DocBuilder::from_doc(self, inside);
        inside.nest(1)?.group()?.parens()?.into_doc()
    }

    fn join_after(self, all: D::Doc, gap: &D::Doc, next: D::Doc) -> Result<D::Doc, BuildError> {
        let gap = self.clone_ptr(gap)?;
        joined(self, joined(self, all, gap)?, next)
    }
}

/// The document of a number, in decimal.
fn atom<'a, D: DocPlace<'a>>(place: &'a D, number: u32) -> Result<D::Doc, BuildError>
    ensures { IfOk result (λ p. D.Doc.tree p ≡ Text (decimal number)) }
{
    Ok(place.as_string(number)?.into_doc()?)
}

/// Two documents, one after the other.
fn joined<'a, D: DocPlace<'a>>(
    place: &'a D,
    front: D::Doc,
    next: D::Doc,
) -> Result<D::Doc, BuildError>
    ensures { IfOk result (λ p. D.Doc.tree p ≡ append (D.Doc.tree front) (D.Doc.tree next)) }
{
    let next = DocBuilder::from_doc(place, next);
    DocBuilder::from_doc(place, front).join(next)?.into_doc()
}

/// The document of an S-expression.
#[cycle(built)]
fn built<P: SexpPlace>(place: P, expression: &SExp) -> Result<P::Doc, BuildError>
    ensures { IfOk result (λ p. P.tree p ≡ sexp_document (value_of expression.now)) }
{
    match expression {
        SExp::Atom(number) => place.atom(*number),
        SExp::List(items) => place.list(lines(place, items)?),
    }
}

/// The documents of the expressions, with a line between two, which is made once.
#[cycle(built)]
fn lines<P: SexpPlace>(place: P, expressions: &[SExp]) -> Result<P::Doc, BuildError>
    ensures { IfOk result (λ p. P.tree p ≡ interspersed (values_of (values_in expressions.now))) }
{
    let [first, rest @ ..] = expressions else {
        return place.nothing();
    };
    let mut all = built(place, first)?;
    if rest.is_empty() {
        return Ok(all);
    }
    let gap = place.gap()?;
    for expression in rest {
        let next = built(place, expression)?;
        all = place.join_after(all, &gap, next)?;
    }
    Ok(all)
}

/// The document of an S-expression, in any place.
fn document_in<'a, D: DocPlace<'a>>(place: &'a D, expression: &SExp) -> Result<D::Doc, BuildError>
    ensures { IfOk result (λ p. D.Doc.tree p ≡ sexp_document (value_of expression.now)) }
{
    built(place, expression)
}

/// The document of an S-expression, with its nodes in this arena. It answers `RunError::Memory` where memory was
/// refused, and no other error.
pub fn document<'a>(arena: &'a Arena<'a>, expression: &SExp) -> Result<RefDoc<'a>, RunError>
    ensures ok { IfOk result (λ p. ref_tree p ≡ sexp_document (value_of expression.now)) }
    ensures err { IfErr result IsWantOfMemory }
{
    Ok(document_in(arena, expression)?)
}
