//! The lexemes of a TOML text, each as it is spelled: signs, line ends, comments, strings and words. Any text is cut into
//! lexemes, also one that is not TOML. And its statements, which are what it says apart from how it is laid out, with how what a
//! document shows is read as statements.
#![tactic(auto)]

mod cut;
mod laws;
mod lexeme;
mod lexer;
mod mode;
pub mod rows;
mod spaced;

pub use laws::{law_following, law_gaps, law_joined, law_shown, law_spacing, law_statements};
pub use lexeme::Lexeme;
pub use lexer::{Lexer, lexemes};
pub use spaced::{Spaced, SpacedLexer};
