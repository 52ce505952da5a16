//! What probes: whether a document fits the line with what follows it.
//!
//! It is proved over any nodes that can show themselves (`walk`), against the definitions of `prettyless_model`. It has the
//! stack of nodes that are left, which the printer takes from and a probe reads downwards. It knows no sink, and of the
//! printer no more than that stack.
#![tactic(auto)]

pub mod choice;
pub mod command;
pub mod line;
pub mod probe;
pub mod stack;
mod summed;
mod visit;
pub mod walk;
