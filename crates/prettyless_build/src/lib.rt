//! Building documents: what becomes one, and the builder, which makes a larger one of it.
//!
//! An example is a document in `place`, which is any place of nodes. Beside it is its layout, at any width where none is
//! named.
#![tactic(auto)]

pub mod arrays;
pub mod builder;
pub mod choices;
pub mod conversions;
pub mod copies;
pub mod enclosed;
pub mod from_texts;
pub mod indents;
pub mod nodes;
pub mod pretty;
pub mod tuples;

pub use builder::DocBuilder;
pub use pretty::Pretty;
