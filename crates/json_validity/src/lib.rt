//! Whether a text is JSON (RFC 8259). Arrays and objects may be deep in one another: no call is made for one inside another.
#![tactic(auto)]

mod bracket;
mod text;
mod value;

pub use text::{MAX_DEPTH, is_json, is_json_within};
