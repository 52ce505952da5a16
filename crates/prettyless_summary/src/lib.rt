//! What a document shows a probe, in one value: its summary. It holds whatever the column, the indent and the width.
//!
//! `Summary::then` combines those of two documents, so a probe reads a document by its summary alone.
#![tactic(auto)]

pub mod known;
mod marks;
pub mod summary;
