//! Texts and payloads, what they take in columns, and the error of building a document.
#![tactic(auto)]

mod cached;
mod display;
pub mod measure;
mod multiline;
mod small;
pub mod text;

pub use text::{BuildError, Text};
