//! Values that become the documents of all the items of an iterator. Making the document of an item can fail, and memory
//! may be refused.
//!
//! Such a value is made only of an iterator that can be walked and ends, and its model keeps that. So it is `Clone` where
//! the iterator's clones are known to do so too.
ghost use Rattle.std.specs.Prelude.{◌⊎◌, List};
ghost use Rattle.std.specs.Iterator.{IsFinite, Drains};
ghost use Rattle.prettyless_doc.specs.BuildErrors.{IsMemory};
ghost use Rattle.prettyless_build.specs.Iterated.{GivesNext, GivesTwo, Concatenates, Intersperses};

use crate::clone_iterators::CloneIterator;
use prettyless_alloc::{DocAllocatorBetween, DocAllocatorOver};
use prettyless_build::{DocBuilder, Pretty};
use prettyless_doc::{BuildError, DocPlace};
use std::alloc::AllocError;
use std::marker::Model;

/// The documents of what an iterator has left, appended in order.
///
/// It is `Clone` where its iterator is a `CloneIterator`. A clone holds a clone of the iterator, and fails only where that
/// does.
#[derive(Debug, Drop)]
pub struct Concat<I: Iterator>(pub(crate) I);

impl<I: Iterator> Model for Concat<I> {
    ghost Value = { I };

    ghost view = { λ c. c.0 };

    ghost invariant = { λ c. I.can_next c.0 × IsFinite (I.remaining c.0) };
}

impl<I: CloneIterator> Clone for Concat<I> {
    ghost is_clone = { I.is_clone };

    ghost is_infallible = { I.is_infallible };

    fn clone(&self) -> Result<Concat<I>, AllocError> {
        Ok(Concat(self.0.clone()?))
    }
}

impl<'a, D: DocPlace<'a>, I: Iterator> Pretty<'a, D> for Concat<I>
where
    I::Item: Pretty<'a, D>,
{
    ghost becomes = { λ items y. (xs : List I.Item) × Drains I.next_gives items xs
        × Concatenates I.Item.becomes xs y };

    ghost refuses = { λ items e. IsMemory e
        ⊎ GivesNext I.next_gives items (λ x. I.Item.refuses x e) };

    fn pretty(self, place: &'a D) -> Result<DocBuilder<'a, D>, BuildError> {
        let Concat(items) = self;
        place.concat(items)
    }
}

/// The documents of what an iterator has left, in order, with a separator between each two.
///
/// It is `Clone` where its iterator is a `CloneIterator` and its separator is `Clone`. A clone holds clones of both, and fails
/// only where one of these does.
#[derive(Debug, Drop)]
pub struct Intersperse<I: Iterator, S>(pub(crate) I, pub(crate) S);

impl<I: Iterator, S> Model for Intersperse<I, S> {
    ghost Value = { I × S };

    ghost view = { λ c. (c.0, c.1) };

    ghost invariant = { λ c. I.can_next c.0 × IsFinite (I.remaining c.0) };
}

impl<I: CloneIterator, S: Clone> Clone for Intersperse<I, S> {
    ghost is_clone = { λ c copy. I.is_clone c.0 copy.0 × S.is_clone c.1 copy.1 };

    ghost is_infallible = { λ c. I.is_infallible c.0 × S.is_infallible c.1 };

    fn clone(&self) -> Result<Intersperse<I, S>, AllocError> {
        Ok(Intersperse(self.0.clone()?, self.1.clone()?))
    }
}

impl<'a, D: DocPlace<'a>, I: Iterator, S: Pretty<'a, D> + Drop> Pretty<'a, D> for Intersperse<I, S>
where
    I::Item: Pretty<'a, D>,
{
    ghost becomes = { λ c y. (xs : List I.Item) × Drains I.next_gives c.0 xs
        × Intersperses I.Item.becomes (S.becomes c.1) xs y };

    ghost refuses = { λ c e. IsMemory e ⊎ (S.refuses c.1 e × GivesTwo I.next_gives c.0)
        ⊎ GivesNext I.next_gives c.0 (λ x. I.Item.refuses x e) };

    fn pretty(self, place: &'a D) -> Result<DocBuilder<'a, D>, BuildError> {
        let Intersperse(items, separator) = self;
        place.intersperse(items, separator)
    }
}
