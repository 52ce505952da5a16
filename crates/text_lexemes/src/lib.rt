//! Lexemes of a text, in any language whose lexer reads from the left, and places in a text, as people count: lines and columns.
#![tactic(auto)]

mod laws;
mod place;
pub mod rows;

pub use laws::{law_following, law_gaps, law_joined, law_spacing};
pub use place::{Place, place_at};
