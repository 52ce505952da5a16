//! Documents: nodes, the pointers between nodes, and the places of nodes.
//!
//! An example is a document in `place`, which is any place of nodes. Beside it is its layout, at any width where none is
//! named.
#![tactic(auto)]

mod clone;
mod constructors;
mod conversions;
mod debug;
pub mod doc;
pub mod error;
mod fact;
mod formatter_sink;
pub mod parts;
pub mod place;
pub mod print;
pub mod render;
mod texts;
pub mod walk;

pub use doc::{BuildDoc, Doc, DocPtr};
pub use error::PrettyError;
pub use place::DocPlace;
pub use prettyless_text::{BuildError, Text, measure, text};
pub use print::PrettyFmt;
