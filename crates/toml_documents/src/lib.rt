//! The documents that TOML texts are laid out as, and comments that are aligned. Their laws: a layout is TOML, loses no
//! lexeme, and stays as it is when it is laid out again.
#![tactic(auto)]

pub mod ahead;
mod alignment;
pub mod breaks;
pub mod gaps;
pub mod kind;
mod laws;
pub mod numbers;
pub mod sheet;
mod standing;
mod style;
pub mod trim;
mod walk;

pub use laws::{law_again, law_alignment, law_layout, law_toml};
pub use style::Style;
