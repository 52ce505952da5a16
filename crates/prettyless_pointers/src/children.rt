ghost use Rattle.std.specs.Prelude.{◌≡◌, IfOk, IfErr, OnOk};
ghost use Rattle.prettyless_pointers.specs.Children.{children_of, IsFirstPointer, moved_up};

use prettyless_doc::Doc;
use std::mem;

// The pointers that a node holds.
pub(crate) enum Children<T> {
    None,
    One(T),
    Two(T, T),
}

// The pointers of a node, with the node given up.
#[inline(always)]
pub(crate) fn into_children<'a, T>(doc: Doc<'a, T>) -> Children<T>
    ensures { result ≡ children_of doc.entry }
{
    match doc {
        Doc::Nil
        | Doc::Fail
        | Doc::Text(_)
        | Doc::TextWithLen(_, _)
        | Doc::MultilineText(_)
        | Doc::WeakSpace
        | Doc::HardLine
        | Doc::WeakLine
        | Doc::ExpandParent => Children::None,
        Doc::LineSuffix(child)
        | Doc::Nest(_, child)
        | Doc::DedentToRoot(child)
        | Doc::Align(child)
        | Doc::Flatten(child)
        | Doc::Group(child) => Children::One(child),
        Doc::Append(first, second)
        | Doc::BreakOrFlat(first, second)
        | Doc::Union(first, second)
        | Doc::PartialUnion(first, second)
        | Doc::OnColumn(_, first, second)
        | Doc::OnNesting(_, first, second) => Children::Two(first, second),
    }
}

// Takes the first pointer of a node, and puts `back` after what is left. Gives `back` back where the node has no pointer.
#[inline(always)]
pub(crate) fn take_first<'a, T>(doc: &mut Doc<'a, T>, back: T) -> Result<T, T>
    ensures first { IfOk result (IsFirstPointer (children_of doc.old)) }
    ensures moved { OnOk result (children_of doc.new ≡ moved_up (children_of doc.old) back) }
    ensures err { IfErr result (λ p. (p ≡ back) × (doc.new ≡ doc.old)) }
{
    match doc {
        Doc::Nil
        | Doc::Fail
        | Doc::Text(_)
        | Doc::TextWithLen(_, _)
        | Doc::MultilineText(_)
        | Doc::WeakSpace
        | Doc::HardLine
        | Doc::WeakLine
        | Doc::ExpandParent => Err(back),
        Doc::LineSuffix(child) => Ok(mem::replace(child, back)),
        Doc::Nest(_, child) => Ok(mem::replace(child, back)),
        Doc::DedentToRoot(child) => Ok(mem::replace(child, back)),
        Doc::Align(child) => Ok(mem::replace(child, back)),
        Doc::Flatten(child) => Ok(mem::replace(child, back)),
        Doc::Group(child) => Ok(mem::replace(child, back)),
        Doc::Append(first, second) => Ok(mem::replace(first, mem::replace(second, back))),
        Doc::BreakOrFlat(first, second) => Ok(mem::replace(first, mem::replace(second, back))),
        Doc::Union(first, second) => Ok(mem::replace(first, mem::replace(second, back))),
        Doc::PartialUnion(first, second) => Ok(mem::replace(first, mem::replace(second, back))),
        Doc::OnColumn(_, first, second) => Ok(mem::replace(first, mem::replace(second, back))),
        Doc::OnNesting(_, first, second) => Ok(mem::replace(first, mem::replace(second, back))),
    }
}
