//! Documents of all the items of an iterator.
ghost use Rattle.std.specs.Prelude.{◌⊎◌, IfOk, IfErr, List};
ghost use Rattle.std.specs.Iterator.{IsFinite, IsFiniteIterable, Drains};
ghost use Rattle.std.specs.List.{FoldsTo};
ghost use Rattle.prettyless_doc.specs.BuildErrors.{IsMemory};
ghost use Rattle.prettyless_doc.specs.DocTree.{built};
ghost use Rattle.prettyless_trees.specs.Built.{appends};
ghost use Rattle.prettyless_build.specs.Iterated.{GivesAll, GivesSome, GivesNext, Concatenates};

use prettyless_build::{DocBuilder, Pretty};
use prettyless_doc::{BuildError, Doc, DocPlace};

/// The calls of every allocator that make a document of the items of an iterator, of type `I`. The making of an item
/// can fail, and memory may run out.
///
/// `I` is a parameter of the trait and not of its calls, as for `DocAllocatorOf`.
pub trait DocAllocatorOver<'a, I: IntoIterator>: DocPlace<'a>
where
    I::Item: Pretty<'a, Self>,
{
    /// The documents of the items, appended in order: nothing if there is no item. It fails as the making of an item
    /// does, and if memory runs out.
    ///
    /// `docs` has to be an iterator whose `next` may be called, and one that ends: the prover asks for both.
    ///
    /// ```
    /// place.concat(["a", "b"])? // "ab"
    /// ```
    fn concat(&'a self, docs: I) -> Result<DocBuilder<'a, Self>, BuildError>
        requires { IsFiniteIterable I.into_iter_gives I.IntoIter.can_next I.IntoIter.remaining docs }
        ensures ok { IfOk result (λ b. (xs : List I.Item)
            × GivesAll I.into_iter_gives I.IntoIter.next_gives docs xs
            × Concatenates I.Item.becomes xs (built Self.Doc.tree b.1)) }
        ensures err { IfErr result (λ e. IsMemory e
            ⊎ GivesSome I.into_iter_gives I.IntoIter.next_gives docs (λ x. I.Item.refuses x e)) };
}

impl<'a, D: DocPlace<'a>, I: IntoIterator> DocAllocatorOver<'a, I> for D
where
    I::Item: Pretty<'a, D>,
{
    fn concat(&'a self, docs: I) -> Result<DocBuilder<'a, D>, BuildError> {
        append_all(DocBuilder::new(self, Doc::Nil), docs.into_iter())
    }
}

// `all` with the items' documents appended in order.
pub(crate) fn append_all<'a, D: DocPlace<'a>, I: Iterator>(
    all: DocBuilder<'a, D>,
    items: I,
) -> Result<DocBuilder<'a, D>, BuildError>
where
    I::Item: Pretty<'a, D>,
    requires can { I.can_next items }
    requires ends { IsFinite (I.remaining items) }
    ensures ok { IfOk result (λ b. (xs : List I.Item) × Drains I.next_gives items xs
        × FoldsTo (appends I.Item.becomes) (built D.Doc.tree all.entry.1) xs (built D.Doc.tree b.1)) }
    ensures err { IfErr result (λ e. IsMemory e
        ⊎ GivesNext I.next_gives items (λ x. I.Item.refuses x e)) }
{
    let mut all = all;
    for item in items {
        all = all.append(item)?;
    }
    Ok(all)
}
