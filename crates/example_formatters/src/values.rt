//! A small formatter: the document of a value that holds values is made by recursion.
ghost use Rattle.std.specs.Prelude.{◌≡◌, IfOk, map};
ghost use Rattle.std.specs.Fmt.{decimal};
ghost use Rattle.prettyless.specs.Counted.{as_string};
ghost use Rattle.prettyless.specs.Trees.{box_tree};
ghost use Rattle.example_formatters.specs.Values.{value_document, list_of};

use prettyless::prelude::*;
use prettyless::text::BuildError;
use prettyless::{BoxAllocator, BoxDoc};

/// A number, or a list of values.
#[derive(Drop)]
pub enum Value {
    Number(u32),
    List(Vec<Value>),
}

/// A list of these documents: on one line where it fits, and else each of them on its own.
fn list<'a, D: DocPlace<'a>>(place: &'a D, docs: Vec<D::Doc>) -> Result<D::Doc, BuildError>
    ensures { IfOk result (λ p. D.Doc.tree p ≡ list_of (map D.Doc.tree docs.items)) }
{
    let comma: &'a str = ",";
    let commas = place.punctuated(docs, place.pretty(comma)?)?;
    place.bracketed("[", commas, "]", 2)?.into_doc()
}

/// A number.
fn number<'a, D: DocPlace<'a>>(place: &'a D, number: u32) -> Result<D::Doc, BuildError>
    ensures { IfOk result (λ p. D.Doc.tree p ≡ as_string (decimal number)) }
{
    place.as_string(number)?.into_doc()
}

/// The document of a value. It answers `BuildError::Memory` where memory was refused. No clause says which error comes.
pub fn document<'a>(boxes: &'a BoxAllocator, value: &Value) -> Result<BoxDoc<'a>, BuildError>
    ensures { IfOk result (λ p. box_tree p ≡ value_document value.now) }
{
    match value {
        Value::Number(n) => number(boxes, *n),
        Value::List(values) => {
            let mut docs = Vec::new(boxes.memory());
            for value in values {
                docs.push(document(boxes, value)?)?;
            }
            list(boxes, docs)
        }
    }
}
