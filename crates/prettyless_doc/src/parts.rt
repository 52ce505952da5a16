//! A node by what it holds: nothing, one document or two. So what is done to each node alike is said once.
ghost use Rattle.std.specs.Prelude.{◌≡◌, IfOk, IfErr};
ghost use Rattle.prettyless_model.specs.Tree.{One, Two};
ghost use Rattle.prettyless_doc.specs.BuildErrors.{IsMemory};
ghost use Rattle.prettyless_doc.specs.DocTree.{tree_of};
ghost use Rattle.prettyless_doc.specs.Parts.{parts_tree};

use crate::doc::{Doc, DocPtr};
use crate::text::BuildError;
use prettyless_model::choice::ChoiceTest;
use prettyless_model::kind::{Indenting, Pair, Single};
use std::alloc::Global;

impl<'a, T: DocPtr<'a>> Doc<'a, T> {
    /// The node of this kind that holds `inner`.
    pub fn around(kind: Single, inner: T) -> Self
        ensures { tree_of T.tree result ≡ One kind (T.tree inner) }
    {
        match kind {
            Single::LineSuffix => Doc::LineSuffix(inner),
            Single::Indented(Indenting::Nest(offset)) => Doc::Nest(offset, inner),
            Single::Indented(Indenting::DedentToRoot) => Doc::DedentToRoot(inner),
            Single::Indented(Indenting::Align) => Doc::Align(inner),
            Single::Flatten => Doc::Flatten(inner),
            Single::Group => Doc::Group(inner),
        }
    }

    /// The node of this kind that holds these two.
    pub fn of_two(kind: Pair, first: T, second: T) -> Self
        ensures { tree_of T.tree result ≡ Two kind (T.tree first) (T.tree second) }
    {
        match kind {
            Pair::Append => Doc::Append(first, second),
            Pair::BreakOrFlat => Doc::BreakOrFlat(first, second),
            Pair::Union => Doc::Union(first, second),
            Pair::PartialUnion => Doc::PartialUnion(first, second),
            Pair::Chosen(ChoiceTest::OnColumn(test)) => Doc::OnColumn(test, first, second),
            Pair::Chosen(ChoiceTest::OnNesting(test)) => Doc::OnNesting(test, first, second),
        }
    }
}

/// A node by what it holds.
#[derive(Drop)]
pub enum NodeParts<'d, 'a, T> {
    /// A copy of the node, as it holds no document.
    None(Doc<'a, T>),
    /// Its kind, and the document that it holds.
    One(Single, &'d T),
    /// Its kind, and the two documents that it holds, in order.
    Two(Pair, &'d T, &'d T),
}

/// The node by what it holds: its kind, and the one or two documents in it, in order. Where it holds none, it answers a
/// copy of the node. Only the copy of an owned text takes memory, and fails if memory runs out.
pub fn parts_of<'d, 'a, T: DocPtr<'a>>(
    memory: Global,
    node: &'d Doc<'a, T>,
) -> Result<NodeParts<'d, 'a, T>, BuildError>
    ensures ok { IfOk result (λ p. parts_tree T.tree p ≡ tree_of T.tree node.now) }
    ensures err { IfErr result IsMemory }
{
    Ok(match node {
        Doc::Nil => NodeParts::None(Doc::Nil),
        Doc::Fail => NodeParts::None(Doc::Fail),
        Doc::Text(text) => NodeParts::None(Doc::Text(text.clone(memory)?)),
        Doc::TextWithLen(width, text) => {
            NodeParts::None(Doc::TextWithLen(*width, text.clone(memory)?))
        }
        Doc::MultilineText(payload) => NodeParts::None(Doc::MultilineText(payload.clone(memory)?)),
        Doc::WeakSpace => NodeParts::None(Doc::WeakSpace),
        Doc::HardLine => NodeParts::None(Doc::HardLine),
        Doc::WeakLine => NodeParts::None(Doc::WeakLine),
        Doc::Append(first, second) => NodeParts::Two(Pair::Append, first, second),
        Doc::LineSuffix(inner) => NodeParts::One(Single::LineSuffix, inner),
        Doc::Nest(offset, inner) => NodeParts::One(
            Single::Indented(Indenting::Nest(*offset)),
            inner,
        ),
        Doc::DedentToRoot(inner) => NodeParts::One(
            Single::Indented(Indenting::DedentToRoot),
            inner,
        ),
        Doc::Align(inner) => NodeParts::One(Single::Indented(Indenting::Align), inner),
        Doc::ExpandParent => NodeParts::None(Doc::ExpandParent),
        Doc::Flatten(inner) => NodeParts::One(Single::Flatten, inner),
        Doc::BreakOrFlat(broken, flat) => NodeParts::Two(Pair::BreakOrFlat, broken, flat),
        Doc::Group(inner) => NodeParts::One(Single::Group, inner),
        Doc::Union(first, second) => NodeParts::Two(Pair::Union, first, second),
        Doc::PartialUnion(first, second) => NodeParts::Two(Pair::PartialUnion, first, second),
        Doc::OnColumn(test, first, second) => NodeParts::Two(
            Pair::Chosen(ChoiceTest::OnColumn(*test)),
            first,
            second,
        ),
        Doc::OnNesting(test, first, second) => NodeParts::Two(
            Pair::Chosen(ChoiceTest::OnNesting(*test)),
            first,
            second,
        ),
    })
}
