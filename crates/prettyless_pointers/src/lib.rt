//! The pointers between the nodes of a document, and the places that nodes are put in.
#![tactic(auto)]

pub mod arena;
pub mod boxes;
mod children;
mod constants;
mod copying;
mod pretty;
pub mod rc;

pub use arena::{Arena, IntoRef, RefDoc};
pub use boxes::{BoxAllocator, BoxDoc};
pub use rc::{RcAllocator, RcDoc};
