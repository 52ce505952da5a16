//! Documents of all the items of an iterator, with a separator in each gap.
ghost use Rattle.std.specs.Prelude.{◌≡◌, ◌⊎◌, IfOk, IfErr, List};
ghost use Rattle.std.specs.Iterator.{IsFinite, IsFiniteIterable, Drains};
ghost use Rattle.std.specs.List.{FoldsTo};
ghost use Rattle.prettyless_doc.specs.BuildErrors.{IsMemory};
ghost use Rattle.prettyless_doc.specs.DocTree.{built};
ghost use Rattle.prettyless_model.specs.Tree.{Tree};
ghost use Rattle.prettyless_build.specs.Builds.{Builds};
ghost use Rattle.prettyless_trees.specs.Built.{IsNotNil, append};
ghost use Rattle.prettyless_build.specs.Iterated.{GivesAll, GivesSome, GivesNext, HasGap, Intersperses, appends_after};

use crate::concat::append_all;
use prettyless_build::{DocBuilder, Pretty};
use prettyless_doc::{BuildError, Doc, DocPlace};

/// The calls of every allocator that make a document of the items of an iterator and a separator, of types `I` and `S`.
/// The making of an item or of the separator can fail, and memory may run out.
///
/// Both are parameters of the trait and not of its call, as for `DocAllocatorOf`.
pub trait DocAllocatorBetween<'a, I: IntoIterator, S: Pretty<'a, Self> + Drop>: DocPlace<'a>
where
    I::Item: Pretty<'a, Self>,
{
    /// The documents of the items in order, with the separator between each two: nothing if there is no item. The
    /// separator becomes a document once, and only if there are two items. It fails as the making of an item or of the
    /// separator does, and if memory runs out.
    ///
    /// `docs` has to be an iterator whose `next` may be called, and one that ends: the prover asks for both.
    ///
    /// ```
    /// place.intersperse(["a", "b"], ", ")? // "a, b"
    /// ```
    fn intersperse(&'a self, docs: I, separator: S) -> Result<DocBuilder<'a, Self>, BuildError>
        requires { IsFiniteIterable I.into_iter_gives I.IntoIter.can_next I.IntoIter.remaining docs }
        ensures ok { IfOk result (λ b. (xs : List I.Item)
            × GivesAll I.into_iter_gives I.IntoIter.next_gives docs xs
            × Intersperses I.Item.becomes (S.becomes separator) xs (built Self.Doc.tree b.1)) }
        ensures err { IfErr result (λ e. IsMemory e
            ⊎ (S.refuses separator e × HasGap I.into_iter_gives I.IntoIter.next_gives docs)
            ⊎ GivesSome I.into_iter_gives I.IntoIter.next_gives docs (λ x. I.Item.refuses x e)) };
}

impl<'a, D: DocPlace<'a>, I: IntoIterator, S: Pretty<'a, D> + Drop> DocAllocatorBetween<'a, I, S>
    for D
where
    I::Item: Pretty<'a, D>,
{
    fn intersperse(&'a self, docs: I, separator: S) -> Result<DocBuilder<'a, D>, BuildError> {
        let mut items = docs.into_iter();
        let Some(first) = items.next() else {
            return Ok(DocBuilder::new(self, Doc::Nil));
        };
        let first = first.pretty(self)?;
        let Some(second) = items.next() else {
            return Ok(first);
        };
        let second = second.pretty(self)?;
        with_gaps(first, separator, second, items)
    }
}

// `first`, the gap that the separator makes and `second`, and for each item the gap and its document.
fn with_gaps<'a, D: DocPlace<'a>, I: Iterator, S: Pretty<'a, D> + Drop>(
    first: DocBuilder<'a, D>,
    separator: S,
    second: DocBuilder<'a, D>,
    items: I,
) -> Result<DocBuilder<'a, D>, BuildError>
where
    I::Item: Pretty<'a, D>,
    requires can { I.can_next items }
    requires ends { IsFinite (I.remaining items) }
    ensures ok { IfOk result (λ b. (gap : Tree) × (xs : List I.Item) × S.becomes separator gap × Drains I.next_gives items xs
        × FoldsTo (appends_after gap I.Item.becomes)
        (append (append (built D.Doc.tree first.entry.1) gap) (built D.Doc.tree second.entry.1)) xs
        (built D.Doc.tree b.1)) }
    ensures err { IfErr result (λ e. IsMemory e ⊎ S.refuses separator e ⊎ GivesNext I.next_gives items (λ x. I.Item.refuses x e)) }
{
    let separator = separator.pretty(first.0)?;
    if separator.doc().is_nil() {
        return append_all(first.join(second)?, items);
    }
    let gap = separator.into_doc()?;
    append_between(first, gap, second, items)
}

// `all`, the gap and `last`, and for each item the gap and its document. The gap is something; it comes last, after its copies.
fn append_between<'a, D: DocPlace<'a>, I: Iterator>(
    all: DocBuilder<'a, D>,
    gap: D::Doc,
    last: DocBuilder<'a, D>,
    items: I,
) -> Result<DocBuilder<'a, D>, BuildError>
where
    I::Item: Pretty<'a, D>,
    requires can { I.can_next items }
    requires ends { IsFinite (I.remaining items) }
    requires some { IsNotNil (D.Doc.tree gap) }
    ensures ok { IfOk result (λ b. (xs : List I.Item) × Drains I.next_gives items xs
        × FoldsTo (appends_after (D.Doc.tree gap) I.Item.becomes)
        (append (append (built D.Doc.tree all.entry.1) (D.Doc.tree gap)) (built D.Doc.tree last.entry.1)) xs
        (built D.Doc.tree b.1)) }
    ensures err { IfErr result (λ e. IsMemory e ⊎ GivesNext I.next_gives items (λ x. I.Item.refuses x e)) }
{
    let place = all.0;
    let mut items = items;
    let Some(item) = items.next() else {
        return join_after(all, gap, last);
    };
    let next = item.pretty(place)?;
    let copy = place.clone_ptr(&gap)?;
    let begun = join_after(all, copy, last)?.into_doc()?;
    append_placed(place, begun, gap, next, items)
}

// The same where `all` is placed already, and is something.
fn append_placed<'a, D: DocPlace<'a>, I: Iterator>(
    place: &'a D,
    all: D::Doc,
    gap: D::Doc,
    last: DocBuilder<'a, D>,
    items: I,
) -> Result<DocBuilder<'a, D>, BuildError>
where
    I::Item: Pretty<'a, D>,
    requires can { I.can_next items }
    requires ends { IsFinite (I.remaining items) }
    requires some { IsNotNil (D.Doc.tree all) × IsNotNil (D.Doc.tree gap) }
    ensures ok { IfOk result (λ b. (xs : List I.Item) × Drains I.next_gives items xs
        × FoldsTo (appends_after (D.Doc.tree gap) I.Item.becomes)
        (append (append (D.Doc.tree all) (D.Doc.tree gap)) (built D.Doc.tree last.entry.1)) xs
        (built D.Doc.tree b.1)) }
    ensures err { IfErr result (λ e. IsMemory e ⊎ GivesNext I.next_gives items (λ x. I.Item.refuses x e)) }
{
    let mut all = all;
    let mut last = last;
    for item in items {
        let next = item.pretty(place)?;
        let copy = place.clone_ptr(&gap)?;
        all = place_after(place, all, copy, last)?;
        last = next;
    }
    join_after(DocBuilder::from_doc(place, all), gap, last)
}

// `all`, the gap and `doc`, one after the other; the first two are something.
#[inline(always)]
#[tactic(auto, using(crate::proofs::Walks::two_appended, crate::proofs::Walks::some_before))]
fn place_after<'a, D: DocPlace<'a>>(
    place: &'a D,
    all: D::Doc,
    gap: D::Doc,
    doc: DocBuilder<'a, D>,
) -> Result<D::Doc, BuildError>
    requires some { IsNotNil (D.Doc.tree all) × IsNotNil (D.Doc.tree gap) }
    ensures ok { IfOk result (λ p. D.Doc.tree p ≡ append (append (D.Doc.tree all) (D.Doc.tree gap)) (built D.Doc.tree doc.entry.1)) }
    ensures some { IfOk result (λ p. IsNotNil (D.Doc.tree p)) }
    ensures err { IfErr result IsMemory }
{
    let front = place.alloc(Doc::Append(all, gap))?;
    if doc.doc().is_nil() {
        return Ok(front);
    }
    place.alloc(Doc::Append(front, doc.into_doc()?))
}

// `all`, the gap and `doc`, one after the other.
#[inline(always)]
pub(crate) fn join_after<'a, D: DocPlace<'a>>(
    all: DocBuilder<'a, D>,
    gap: D::Doc,
    doc: DocBuilder<'a, D>,
) -> Result<DocBuilder<'a, D>, BuildError>
    ensures { Builds result (λ b. built D.Doc.tree b.1)
        (append (append (built D.Doc.tree all.entry.1) (D.Doc.tree gap)) (built D.Doc.tree doc.entry.1)) }
{
    let gap = DocBuilder::from_doc(all.0, gap);
    all.join(gap)?.join(doc)
}
