//! Documents stored in one table, which a printer can walk as it walks the documents themselves.
//!
//! A document has a cell after those of its parts, with what it shows a probe in either mode; but a small one, as a text before a line,
//! takes no cell, and a group or an indent takes none beside that of its part. So a node is walked in the document itself, with its
//! place in the table.
#![tactic(auto)]

mod below;
mod cell;
mod counting;
mod placed;
pub mod refusal;
mod sums;
mod table;

pub use counting::{count, count_commands, count_roots};
pub use placed::Placed;
pub use table::{MOST_CELLS, Table};
