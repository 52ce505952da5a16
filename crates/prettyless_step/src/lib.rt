//! One step of the printer: what the visit of one node of a document does to the line, to the nodes that are still to be laid
//! and to the line suffixes that are pending, and what it writes.
//!
//! It is proved over any nodes that can show themselves, against the definitions of `prettyless_model`. It asks a probe
//! (`prettyless_probe`) whether a group is laid flat, and which document of a partial union is laid.
#![tactic(auto)]

pub mod content;
pub mod pending;
pub mod piece;
pub mod printer;
pub mod queue;
pub mod step;
