//! Starting documents: the calls of every place of nodes.
//!
//! An example is a document in `place`, which is any place of nodes. Beside it is its layout, at any width where none is
//! named; `docs` are the documents "a" and "b".
#![tactic(auto)]

pub mod allocator;
pub mod allocator_of;
pub mod allocator_of_two;
mod bracketed;
pub mod concat;
pub mod intersperse;
mod punctuated;
mod separate;
mod spaces;
mod words;

pub use allocator::DocAllocator;
pub use allocator_of::DocAllocatorOf;
pub use allocator_of_two::DocAllocatorOfTwo;
pub use concat::DocAllocatorOver;
pub use intersperse::DocAllocatorBetween;
