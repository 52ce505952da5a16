//! The pretty printer's documents of TOML statements, which are laid out as the statements are.
#![tactic(auto)]

mod laws;

pub use laws::law_layouts;
