//! The printer: it lays a document's nodes by steps, tries alternatives, and writes the document's layout to a sink.
//!
//! It is proved once, over any nodes that can show themselves (`prettyless_probe::walk`), and against the definitions of
//! `prettyless_model`.
#![tactic(auto)]

pub mod answer;
pub mod buffer;
mod flat_texts;
pub mod render;
mod run;
mod shift;
mod shift_policy;
pub mod trial;
pub mod turn;
