//! The parts of a node, and which documents are so small that they take no cell. This file knows `View` alone.
ghost use Rattle.std.specs.Prelude.{◌≡◌};
ghost use Rattle.prettyless_table.specs.Parts.{none, part_trees, parts_of, small, takes, tiny};

use prettyless_model::kind::Single;
use prettyless_probe::walk::{View, Walk};

/// The parts of a node: the nodes right below it, in their order.
#[derive(Drop)]
pub enum Parts<N> {
    None,
    One(N),
    Two(N, N),
}

/// Reads which parts a node has.
#[inline(always)]
pub fn parts_below<N: Walk>(node: &N) -> Parts<N>
    ensures { part_trees N.tree result ≡ parts_of (N.tree node.now) }
{
    match node.view() {
        View::One(_, inner) => Parts::One(inner),
        View::Two(_, first, second) => Parts::Two(first, second),
        _ => Parts::None,
    }
}

/// Whether a node has no parts.
#[inline(always)]
pub fn is_leaf<N: Walk>(node: &N) -> bool
    ensures { result ≡ none (parts_of (N.tree node.now)) }
{
    match parts_below(node) {
        Parts::None => true,
        Parts::One(_) | Parts::Two(_, _) => false,
    }
}

/// Whether the parts of a node have none themselves.
#[inline(always)]
pub fn is_tiny<N: Walk>(node: &N) -> bool
    ensures { result ≡ tiny (N.tree node.now) }
{
    match parts_below(node) {
        Parts::None => true,
        Parts::One(inner) => is_leaf(&inner),
        Parts::Two(first, second) => is_leaf(&first) && is_leaf(&second),
    }
}

// The same, called: few nodes after a leaf are asked.
#[inline(never)]
fn is_branch_of_leaves<N: Walk>(node: &N) -> bool
    ensures { result ≡ tiny (N.tree node.now) }
{
    is_tiny(node)
}

/// Whether a node is so small that it takes no cell: it is tiny, or a leaf and a tiny document after it, as a text before a line.
#[inline(always)]
pub fn is_small<N: Walk>(node: &N) -> bool
    ensures { result ≡ small (N.tree node.now) }
{
    match parts_below(node) {
        Parts::None => true,
        Parts::One(inner) => is_leaf(&inner),
        Parts::Two(first, second) => is_leaf(&first)
            && (is_leaf(&second) || is_branch_of_leaves(&second)),
    }
}

/// Whether a node takes a cell: it is not small, and does not share that of its part.
#[inline(always)]
pub fn takes_cell<N: Walk>(node: &N) -> bool
    ensures { result ≡ takes (N.tree node.now) }
{
    match node.view() {
        View::One(Single::Indented(_) | Single::Group, inner) => {
            !is_leaf(&inner) && is_small(&inner)
        }
        _ => !is_small(node),
    }
}
