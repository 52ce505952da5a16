//! The shapes that formatters give to documents, in every place of nodes. Each function says what its document shows by
//! what its operands show, so that the contracts of a formatter need not speak of trees.
//!
//! Operands that are documents are pointers, and so are results. In examples `a` and `b` are the documents of these texts,
//! and `docs` are both. Beside each is its layout, at any width where none is named.
#![tactic(auto)]

mod comments;
mod gaps;
mod indents;
mod leaves;
mod lists;

pub use comments::{with_comment, with_late_comment};
pub use gaps::{ended, joined, lined, spaced, stacked, stacked_all};
pub use indents::{block, broken, grouped, hanging, indented};
pub use leaves::{nil, text};
pub use lists::{ListStyle, list};
