//! What `.editorconfig` files say of the layout of a file. <https://spec.editorconfig.org> has their form.
#![tactic(auto)]

mod config;
mod glob;
mod line;
mod part;
mod pattern;
mod settings;

pub use config::{Config, Section, settings_of};
pub use part::{PatternPart, Range};
pub use pattern::{Pattern, PatternPiece};
pub use settings::{EndOfLine, IndentSize, IndentStyle, Settings};
