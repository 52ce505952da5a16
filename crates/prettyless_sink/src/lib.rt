//! Where a layout goes: sinks, and the causes for which a render stops. None of it knows nodes.
#![tactic(auto)]

pub mod error;
pub mod fmt_write;
pub mod ghost_bytes;
pub mod io_write;
pub mod pieces;
pub mod render;
pub mod text_writer;
pub mod visits;
