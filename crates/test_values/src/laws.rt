//! The laws over whole layouts, as a caller names them.
use prettyless::laws::{
    law_deferred, law_endings, law_flat_group, law_lists, law_parts, law_probe, law_regroup,
    law_spaced, law_texts, law_total, law_width,
};

#[test]
fn laws_are_calls(_rt: HostRuntime) {
    law_regroup();
    law_endings();
    law_deferred();
    law_flat_group();
    law_width();
    law_total();
    law_texts();
    law_lists();
    law_spaced();
    law_parts();
    law_probe();
}
