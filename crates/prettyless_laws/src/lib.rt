//! Laws over whole layouts, for people who rewrite documents or compare their layouts. The functions do nothing: their
//! contracts are theorems over the definitions.
#![tactic(auto)]

mod flat;
mod groups;
mod probed;
mod regrouped;
pub mod rows;
mod shown;
mod total;
mod traced;
mod width;

pub use flat::law_flat_group;
pub use groups::law_parts;
pub use probed::law_probe;
pub use regrouped::law_regroup;
pub use shown::{law_lists, law_spaced, law_texts};
pub use total::law_total;
pub use traced::{law_deferred, law_endings};
pub use width::law_width;
