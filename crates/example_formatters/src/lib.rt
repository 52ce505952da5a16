//! The formatters of the guide: lists of numbers, and terms whose layouts read back.
#![tactic(auto)]

pub mod document;
pub mod entry;
pub mod entry_document;
pub mod entry_write;
pub mod laws;
pub mod term;
pub mod values;
pub mod write;
