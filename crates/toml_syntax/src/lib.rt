//! The syntax of TOML: statements as trees, how lexemes are read as statements, and how statements are spelled and laid out.
#![tactic(auto)]

mod laws;

pub use laws::{law_formatting, law_layout, law_reading, law_same_texts, law_words};
