//! A formatter of JSON texts. A text and its layout are the same value, and have the same lexemes in the same order.
#![tactic(auto)]

mod ahead;
mod blanks;
mod columns;
mod error;
mod gaps;
mod kept;
mod kind;
mod laws;
mod layout;
mod output;
mod piece;
mod scanner;
mod sink;
mod spelling;
mod style;
mod window;

pub use error::FormatError;
pub use laws::law_layout;
pub use layout::{format, formatted, render};
pub use spelling::line_style;
pub use style::{Fill, LineEnd, Style};
