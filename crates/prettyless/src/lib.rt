//! A pretty printer: documents are built as trees, and laid out within a line width.
//!
//! A document is a tree of [`Doc`] nodes; each child is reached by a pointer, a [`DocPtr`]. A [`DocPlace`] is where nodes
//! are put, which the Rust crate calls an allocator. Every place has the calls of [`DocAllocator`], which start documents,
//! and a [`DocBuilder`] makes larger ones of them. A parameter `alloc` is memory; `place` is a place of nodes. A document
//! is rendered with [`RenderOptions`] to a byte writer, to a [`TextWriter`], or to any sink that is [`Render`];
//! [`PrettyFmt`] prints it.
//!
//! A document is laid broken or flat: broken at first, flat in a group that fits and under `flatten`. A line is fresh
//! while it has nothing but its indent. A line suffix is pending until its line ends.
#![tactic(auto)]

pub mod laws;
pub mod macros;
pub mod prelude;

pub use bumpalo::Bump;
pub use prettyless_alloc::{
    DocAllocator, DocAllocatorBetween, DocAllocatorOf, DocAllocatorOfTwo, DocAllocatorOver,
};
pub use prettyless_build::{DocBuilder, Pretty};
pub use prettyless_combinators as combinators;
pub use prettyless_doc::{BuildDoc, Doc, DocPlace, DocPtr, PrettyError, PrettyFmt, text};
pub use prettyless_model::choice::{ColumnTest, NestingTest};
pub use prettyless_model::options::{IndentationPolicy, LineEnding, RenderOptions};
pub use prettyless_placed::{
    PlacedDoc, PlacedDocBetween, PlacedDocOf, PlacedDocOfTwo, PlacedDocOver,
};
pub use prettyless_pointers::{Arena, BoxAllocator, BoxDoc, IntoRef, RcAllocator, RcDoc, RefDoc};
pub use prettyless_sink::error::RenderError;
pub use prettyless_sink::fmt_write::FmtWrite;
pub use prettyless_sink::io_write::IoWrite;
pub use prettyless_sink::render::Render;
pub use prettyless_sink::text_writer::{OpaqueWriter, TextWriter};
pub use prettyless_sink::visits::{RenderCost, Visits};
