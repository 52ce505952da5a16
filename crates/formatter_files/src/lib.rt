//! What programs that format files have in common: the options that their words name, what becomes of a layout while it is made,
//! how a file is replaced, how two texts differ, and how the program ends.
#![tactic(auto)]

pub mod action;
pub mod arguments;
mod below;
pub mod comparing;
mod comparison;
pub mod difference;
mod editor;
pub mod ending;
pub mod files;
pub mod folder;
pub mod formatter;
pub mod head;
mod hunks;
mod laying;
pub mod message;
pub mod outcome;
mod printing;
pub mod replace;
mod report;
pub mod request_error;
mod rewriting;
mod search;
mod source;
pub mod stamp;
pub mod task;
pub mod words;
