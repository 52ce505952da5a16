//! The lexemes of a JSON text, each as it is spelled: brackets, commas, colons, strings and words. Any text is cut into
//! lexemes; whether it is JSON is for the crate `json_validity` to say, and for `json_grammar` where it stops being JSON.
#![tactic(auto)]

mod blank_lines;
mod cut;
mod laws;
mod lexeme;
mod lexer;
mod spaced_lexer;

pub use blank_lines::BlankLines;
pub use cut::spaces_end;
pub use laws::{law_joined, law_language, law_reading, law_spacing};
pub use lexeme::Lexeme;
pub use lexer::{Lexer, lexemes};
pub use spaced_lexer::{SpacedLexer, has_line_end};
