//! Iterators whose clones are known to end.
//!
//! `Clone` alone says nothing of a clone of an iterator, so a trait does, with an `impl` for iterators of `std` that give what
//! becomes documents. There is none for iterators that call a closure, nor for `Peekable`, of whose clone nothing is known.
ghost use Rattle.std.specs.Iterator.{IsFinite};
ghost use Rattle.std.proofs.Common.{rules};

use std::alloc::Allocator;
use std::collections::{btree_map, btree_set, hash_map, hash_set, vec_deque};
use std::iter::{
    Chain, Cloned, Copied, DoubleEndedIterator, Fuse, Once, Rev, Skip, StepBy, Take, Zip,
};
use std::{array, option, slice, str, vec};

/// An iterator of which a clone can be walked if the iterator can be, and ends if the iterator does. Of such iterators
/// `Concat` and `Intersperse` are `Clone`.
///
/// It has two laws and no call. For an iterator whose `Clone` is derived, the `impl` mostly is
///
/// ```
/// impl CloneIterator for Lines {
///     ghost clone_walks = { Prim.search rules };
///
///     ghost clone_ends = { Prim.search rules };
/// }
/// ```
pub trait CloneIterator: Iterator + Clone {
    // `next` of a clone may be called where `next` of the iterator may be.
    ghost clone_walks: { (it copy : Self) → Self.is_clone it copy → Self.can_next it → Self.can_next copy };

    // A clone ends where the iterator does.
    ghost clone_ends: { (it copy : Self) → Self.is_clone it copy → IsFinite (Self.remaining it) → IsFinite (Self.remaining copy) };
}

/// A `CloneIterator` of which a clone can also be walked from its end if the iterator can be.
pub trait CloneDoubleEndedIterator: CloneIterator + DoubleEndedIterator {
    // `next_back` of a clone may be called where `next_back` of the iterator may be.
    ghost clone_walks_back: { (it copy : Self) → Self.is_clone it copy → Self.can_next_back it → Self.can_next_back copy };
}

impl<'a, T> CloneIterator for slice::Iter<'a, T> {
    ghost clone_walks = { Prim.search rules };

    ghost clone_ends = { Prim.search rules };
}

impl<T: Clone, const N: usize> CloneIterator for array::IntoIter<T, N> {
    ghost clone_walks = { Prim.search rules };

    ghost clone_ends = { Prim.search rules };
}

impl<T: Clone, A: Allocator + Clone> CloneIterator for vec::IntoIter<T, A> {
    ghost clone_walks = { Prim.search rules };

    ghost clone_ends = { Prim.search rules };
}

impl<'a, T> CloneIterator for vec_deque::Iter<'a, T> {
    ghost clone_walks = { Prim.search rules };

    ghost clone_ends = { Prim.search rules };
}

impl<'a, K, V> CloneIterator for btree_map::Keys<'a, K, V> {
    ghost clone_walks = { Prim.search rules };

    ghost clone_ends = { Prim.search rules };
}

impl<'a, K, V> CloneIterator for btree_map::Values<'a, K, V> {
    ghost clone_walks = { Prim.search rules };

    ghost clone_ends = { Prim.search rules };
}

impl<'a, K> CloneIterator for btree_set::Iter<'a, K> {
    ghost clone_walks = { Prim.search rules };

    ghost clone_ends = { Prim.search rules };
}

impl<'a, K, V> CloneIterator for hash_map::Keys<'a, K, V> {
    ghost clone_walks = { Prim.search rules };

    ghost clone_ends = { Prim.search rules };
}

impl<'a, K, V> CloneIterator for hash_map::Values<'a, K, V> {
    ghost clone_walks = { Prim.search rules };

    ghost clone_ends = { Prim.search rules };
}

impl<'a, K> CloneIterator for hash_set::Iter<'a, K> {
    ghost clone_walks = { Prim.search rules };

    ghost clone_ends = { Prim.search rules };
}

impl<'a, T> CloneIterator for option::Iter<'a, T> {
    ghost clone_walks = { Prim.search rules };

    ghost clone_ends = { Prim.search rules };
}

impl<T: Clone> CloneIterator for Once<T> {
    ghost clone_walks = { Prim.search rules };

    ghost clone_ends = { Prim.search rules };
}

impl<'a> CloneIterator for str::Lines<'a> {
    ghost clone_walks = { Prim.search rules };

    ghost clone_ends = { Prim.search rules };
}

impl<'a> CloneIterator for str::SplitWhitespace<'a> {
    ghost clone_walks = { Prim.search rules };

    ghost clone_ends = { Prim.search rules };
}

impl<A: CloneIterator, B: CloneIterator<Item = A::Item>> CloneIterator for Chain<A, B> {
    ghost clone_walks = { Prim.search rules };

    ghost clone_ends = { Prim.search rules };
}

impl<A: CloneIterator, B: CloneIterator> CloneIterator for Zip<A, B>
where
    A::Item: Drop,
{
    ghost clone_walks = { Prim.search rules };

    ghost clone_ends = { Prim.search rules };
}

impl<I: CloneIterator> CloneIterator for Take<I> {
    ghost clone_walks = { Prim.search rules };

    ghost clone_ends = { Prim.search rules };
}

impl<I: CloneIterator> CloneIterator for Skip<I>
where
    I::Item: Drop,
{
    ghost clone_walks = { Prim.search rules };

    ghost clone_ends = { Prim.search rules };
}

impl<I: CloneIterator> CloneIterator for StepBy<I>
where
    I::Item: Drop,
{
    ghost clone_walks = { Prim.search rules };

    ghost clone_ends = { Prim.search rules };
}

impl<I: CloneIterator> CloneIterator for Fuse<I> {
    ghost clone_walks = { Prim.search rules };

    ghost clone_ends = { Prim.search rules };
}

impl<'a, T: Copy + 'a, I: CloneIterator<Item = &'a T>> CloneIterator for Copied<I> {
    ghost clone_walks = { Prim.search rules };

    ghost clone_ends = { Prim.search rules };
}

impl<'a, T: Clone + 'a, I: CloneIterator<Item = &'a T>> CloneIterator for Cloned<I> {
    ghost clone_walks = { Prim.search rules };

    ghost clone_ends = { Prim.search rules };
}

impl<I: CloneDoubleEndedIterator> CloneIterator for Rev<I> {
    ghost clone_walks = { Prim.search rules };

    ghost clone_ends = { Prim.search rules };
}

impl<'a, T> CloneDoubleEndedIterator for slice::Iter<'a, T> {
    ghost clone_walks_back = { Prim.search rules };
}

impl<T: Clone, const N: usize> CloneDoubleEndedIterator for array::IntoIter<T, N> {
    ghost clone_walks_back = { Prim.search rules };
}

impl<T: Clone, A: Allocator + Clone> CloneDoubleEndedIterator for vec::IntoIter<T, A> {
    ghost clone_walks_back = { Prim.search rules };
}

impl<'a, T> CloneDoubleEndedIterator for vec_deque::Iter<'a, T> {
    ghost clone_walks_back = { Prim.search rules };
}

impl<'a, K, V> CloneDoubleEndedIterator for btree_map::Keys<'a, K, V> {
    ghost clone_walks_back = { Prim.search rules };
}

impl<'a, K, V> CloneDoubleEndedIterator for btree_map::Values<'a, K, V> {
    ghost clone_walks_back = { Prim.search rules };
}

impl<'a, K> CloneDoubleEndedIterator for btree_set::Iter<'a, K> {
    ghost clone_walks_back = { Prim.search rules };
}

impl<
    A: CloneDoubleEndedIterator,
    B: CloneDoubleEndedIterator<Item = A::Item>,
> CloneDoubleEndedIterator for Chain<A, B> {
    ghost clone_walks_back = { Prim.search rules };
}

impl<'a, T: Copy + 'a, I: CloneDoubleEndedIterator<Item = &'a T>> CloneDoubleEndedIterator
    for Copied<I> {
    ghost clone_walks_back = { Prim.search rules };
}

impl<'a, T: Clone + 'a, I: CloneDoubleEndedIterator<Item = &'a T>> CloneDoubleEndedIterator
    for Cloned<I> {
    ghost clone_walks_back = { Prim.search rules };
}

impl<I: CloneDoubleEndedIterator> CloneDoubleEndedIterator for Rev<I> {
    ghost clone_walks_back = { Prim.search rules };
}
