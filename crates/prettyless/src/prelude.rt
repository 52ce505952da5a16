//! What most code that builds documents brings into scope.

pub use prettyless_alloc::{
    DocAllocator, DocAllocatorBetween, DocAllocatorOf, DocAllocatorOfTwo, DocAllocatorOver,
};
pub use prettyless_build::{DocBuilder, Pretty};
pub use prettyless_combinators::{
    align, as_string, concat, dedent, dedent_to_root, expand_parent, fail, flat_alt, flatten,
    group, hard_line, if_column, if_nesting, indent, intersperse, line_or_nil, line_or_space,
    line_suffix, multiline_text, nest, nil, partial_union, repeat, soft_line_or_nil,
    soft_line_or_space, space, spaces, text_with_width, union, weak_line, weak_space,
};
pub use prettyless_doc::DocPlace;
pub use prettyless_placed::{
    PlacedDoc, PlacedDocBetween, PlacedDocOf, PlacedDocOfTwo, PlacedDocOver,
};
