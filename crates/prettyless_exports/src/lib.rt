//! Layouts into areas of bytes, for callers in other languages: of programs, of JSON texts and of TOML texts. It has the sink
//! over an area that is lent to a call.
#![tactic(auto)]

pub mod area;
pub mod json_texts;
pub mod lay;
pub mod programs;
mod status;
pub mod text;
pub mod toml_texts;
