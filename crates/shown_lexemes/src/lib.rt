//! Documents that show the lexemes of a language: which gaps keep them apart, so that each layout has these lexemes.
#![tactic(auto)]

mod laws;
pub mod rows;

pub use laws::law_shown;
