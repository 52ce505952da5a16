//! A formatter of TOML texts. The layout of a TOML text is TOML, and has the same statements.
#![tactic(auto)]

mod document;
mod error;
mod layout;
mod line;
mod list;
mod parts;
mod statement;

pub use error::FormatError;
pub use layout::formatted;
pub use toml_documents::{Style, law_again, law_alignment, law_layout, law_toml};
pub use toml_grammar::MAX_DEPTH;
