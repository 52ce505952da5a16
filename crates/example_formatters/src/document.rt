//! The document of a term, by recursion.
ghost use Rattle.std.specs.Fmt.{decimal};
ghost use Rattle.std.specs.Prelude.{◌≡◌, IfOk, pos};
ghost use Rattle.prettyless.specs.Built as to;
ghost use Rattle.prettyless.specs.Counted.{as_string, text};
ghost use Rattle.prettyless.specs.DocTree.{built};
ghost use Rattle.prettyless.specs.Lines as of;
ghost use Rattle.prettyless.specs.Trees.{box_tree};
ghost use Rattle.example_formatters.specs.Documents.{document_of, operation_of};
ghost use Rattle.example_formatters.specs.Expression.{HasSmallNumbers};
ghost use Rattle.example_formatters.specs.Tokens.{minus};
ghost use Rattle.example_formatters.specs.View.{expression_of};

use crate::term::Term;
use prettyless::prelude::*;
use prettyless::text::BuildError;
use prettyless::{BoxAllocator, BoxDoc};

/// A number.
fn number<'a, D: DocPlace<'a>>(place: &'a D, number: u32) -> Result<D::Doc, BuildError>
    ensures { IfOk result (λ p. D.Doc.tree p ≡ as_string (decimal number)) }
{
    place.as_string(number)?.into_doc()
}

/// An operand with a minus before it.
fn negation<'a, D: DocPlace<'a>>(place: &'a D, operand: D::Doc) -> Result<D::Doc, BuildError>
    ensures { IfOk result (λ p. D.Doc.tree p ≡ to.append (text minus) (D.Doc.tree operand)) }
{
    let sign: &'a str = "-";
    let operand = DocBuilder::from_doc(place, operand);
    place.pretty(sign)?.join(operand)?.into_doc()
}

/// A document on the next line, nested by 2.
fn below<'a, D: DocPlace<'a>>(
    place: &'a D,
    document: D::Doc,
) -> Result<DocBuilder<'a, D>, BuildError>
    ensures { IfOk result (λ b. built D.Doc.tree b.1
        ≡ to.nest (pos 2) (to.append of.line (D.Doc.tree document))) }
{
    let document = DocBuilder::from_doc(place, document);
    place.line()?.join(document)?.nest(2)
}

/// A group of a document in parentheses.
fn in_parentheses<'a, D: DocPlace<'a>>(document: DocBuilder<'a, D>) -> Result<D::Doc, BuildError>
    ensures { IfOk result (λ p. D.Doc.tree p
        ≡ to.group (to.between 40 41 (built D.Doc.tree document.entry.1))) }
{
    document.parens()?.group()?.into_doc()
}

/// Two operands in parentheses: on one line where they fit, and else broken after the operator.
fn operation<'a, D: DocPlace<'a>>(
    place: &'a D,
    left: D::Doc,
    operator: &'a str,
    right: D::Doc,
) -> Result<D::Doc, BuildError>
    ensures { IfOk result (λ p. D.Doc.tree p
        ≡ operation_of (D.Doc.tree left) operator.now (D.Doc.tree right)) }
{
    let left = DocBuilder::from_doc(place, left).join(place.space()?)?;
    let start = left.join(place.pretty(operator)?)?;
    in_parentheses(start.join(below(place, right)?)?)
}

/// The document of a term, with its nodes in boxes, or an error.
pub fn document<'a>(boxes: &'a BoxAllocator, term: &Term) -> Result<BoxDoc<'a>, BuildError>
    ensures tree { IfOk result (λ p. box_tree p ≡ document_of (expression_of term.now)) }
    ensures numbers { IfOk result (λ _. HasSmallNumbers (expression_of term.now)) }
{
    match term {
        Term::Number(n) => number(boxes, *n),
        Term::Negate(operand) => negation(boxes, document(boxes, operand)?),
        Term::Sum(left, right) => {
            let left = document(boxes, left)?;
            operation(boxes, left, "+", document(boxes, right)?)
        }
        Term::Product(left, right) => {
            let left = document(boxes, left)?;
            operation(boxes, left, "*", document(boxes, right)?)
        }
    }
}
