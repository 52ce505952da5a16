//! Laws over documents and whole layouts. The functions do nothing: their contracts are theorems over the definitions.

pub use prettyless_laws::{
    law_deferred, law_endings, law_flat_group, law_lists, law_parts, law_probe, law_regroup,
    law_spaced, law_texts, law_total, law_width, rows,
};
