//! The shift of a printer to a table: all that the printer has left is counted, and stored there, and a printer over the table goes on
//! from where the first one stands.
//!
//! A printer's state is of `prettyless_step`, a table of `prettyless_table`. What open trials hold is the caller's to store.
#![tactic(auto)]

mod counting;
pub mod refusal;
mod shift;

pub use counting::count_left;
pub use shift::{Places, placed_printer, store_all};
