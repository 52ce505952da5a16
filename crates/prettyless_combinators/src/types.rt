//! The types of the combinators.

pub use crate::alternatives::{FlatAlt, IfColumn, IfNesting, PartialUnion, Union};
pub use crate::sequences::{Concat, Intersperse};
pub use crate::text_values::{AsString, MultilineText, TextWithWidth};
pub use crate::tokens::{
    ExpandParent, Fail, HardLine, LineOrNil, LineOrSpace, Nil, SoftLineOrNil, SoftLineOrSpace,
    Space, Spaces, WeakLine, WeakSpace,
};
pub use crate::wrappers::{Align, DedentToRoot, Flatten, Group, LineSuffix, Nest, Repeat};
