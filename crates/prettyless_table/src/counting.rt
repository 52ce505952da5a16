//! How many nodes documents have, and which of them take cells: counted and listed before cells are made, so that none is made in vain.
//! This file knows the parts of nodes, and no table.
ghost use Rattle.std.specs.Prelude.{◌≡◌, ◌+◌, ◌<◌, ◌≤◌, ◌++◌, List, IfOk, IfSome, OnOk, MatchOption, if◌then◌else◌, true};
ghost use Rattle.std.specs.List.{sum_by};
ghost use Rattle.prettyless_model.specs.Tree.{Tree, size};
ghost use Rattle.prettyless_probe.specs.Stack.{nodes, stack_of, trees};
ghost use Rattle.prettyless_table.specs.Owners.{all_owners, owners_of, task_trees, waiting_owners, with_own};
ghost use Rattle.prettyless_table.specs.Parts.{small, tiny};

use crate::below::{Parts, is_small, parts_below, takes_cell};
use crate::refusal::{TableRefused, push};
use prettyless_probe::stack::Stack;
use prettyless_probe::walk::Walk;
use std::alloc::Global;

// How many nodes a tiny document has.
#[inline(always)]
fn count_tiny<N: Walk>(node: &N) -> usize
    requires { tiny (N.tree node.now) ≡ true }
    ensures { result ≡ size (N.tree node.now) }
{
    match parts_below(node) {
        Parts::None => 1,
        Parts::One(_) => 2,
        Parts::Two(_, _) => 3,
    }
}

// How many nodes a small document has, and 0 for another one.
#[inline(always)]
fn count_small<N: Walk>(node: &N) -> usize
    ensures { result ≡ (if small (N.tree node.now) then size (N.tree node.now) else 0) }
{
    if !is_small(node) {
        return 0;
    }
    match parts_below(node) {
        Parts::Two(_, second) => 2 + count_tiny(&second),
        _ => count_tiny(node),
    }
}

// Lists a node, if it takes a cell.
#[inline(always)]
fn list_own<N: Walk>(node: N, owners: &mut Vec<N>) -> Result<(), TableRefused>
    ensures { OnOk result ((rest : List Tree) → trees N.tree owners.new.items ++ rest
        ≡ trees N.tree owners.old.items ++ with_own (N.tree node) rest) }
{
    if takes_cell(&node) {
        push(owners, node)?;
    }
    Ok(())
}

// Counts nodes from one downwards, to its first part where it has two; the second one then waits, unless it is small. Nodes that take
// cells are listed. The answer is how much room is left, and `None` where there is none for all of them.
fn count_down<N: Walk>(
    node: N,
    room: usize,
    owners: &mut Vec<N>,
    waiting: &mut Vec<N>,
) -> Result<Option<usize>, TableRefused>
    ensures counted { IfOk result (λ o. MatchOption o
        (room < sum_by (λ n. size (N.tree n)) waiting.old.items + size (N.tree node))
        (λ left. (left + size (N.tree node) + sum_by (λ n. size (N.tree n)) waiting.old.items
        ≡ room + sum_by (λ n. size (N.tree n)) waiting.new.items) × (left < room))) }
    ensures listed { IfOk result (λ o. IfSome o (λ _. trees N.tree owners.new.items ++ waiting_owners N.tree waiting.new.items
        ≡ trees N.tree owners.old.items ++ (owners_of (N.tree node) ++ waiting_owners N.tree waiting.old.items))) }
{
    let mut next = node;
    let mut left = room;
    'down: while left > 0 {
        left -= 1;
        list_own(next, owners)?;
        match parts_below(&next) {
            Parts::None => return Ok(Some(left)),
            Parts::One(inner) => next = inner,
            Parts::Two(first, second) => {
                let at_once = count_small(&second);
                if at_once > left {
                    return Ok(None);
                }
                if at_once == 0 {
                    push(waiting, second)?;
                }
                left -= at_once;
                next = first;
            }
        }
    }
    Ok(None)
}

// Counts the nodes of a document, and lists those that take cells. The answer is how much room is left, and `None` where there is none
// for all of them.
fn count_one<N: Walk>(
    root: N,
    room: usize,
    owners: &mut Vec<N>,
    waiting: &mut Vec<N>,
) -> Result<Option<usize>, TableRefused>
    ensures counted { IfOk result (λ o. MatchOption o
        (room < size (N.tree root))
        (λ left. left + size (N.tree root) ≡ room)) }
    ensures listed { IfOk result (λ o. IfSome o (λ _. trees N.tree owners.new.items
        ≡ trees N.tree owners.old.items ++ owners_of (N.tree root))) }
{
    waiting.clear();
    push(waiting, root)?;
    let mut left = room;
    'waiting: while let Some(next) = waiting.pop() {
        match count_down(next, left, owners, waiting)? {
            Some(less) => left = less,
            None => return Ok(None),
        }
    }
    Ok(Some(left))
}

/// Counts the nodes of commands, and lists those that take cells after `owners`. `waiting` is room for a list, and what it has is dropped.
/// The answer is how much of `room` is left, and `None` where there is none for all nodes.
///
/// It fails where memory is refused. Nothing is promised of `owners` then, nor at `None`.
pub fn count_commands<N: Walk>(
    commands: &Stack<N>,
    room: usize,
    owners: &mut Vec<N>,
    waiting: &mut Vec<N>,
) -> Result<Option<usize>, TableRefused>
    ensures counted { IfOk result (λ o. MatchOption o
        (room < nodes (stack_of N.tree commands.now))
        (λ left. left + nodes (stack_of N.tree commands.now) ≡ room)) }
    ensures listed { IfOk result (λ o. IfSome o (λ _. trees N.tree owners.new.items
        ≡ trees N.tree owners.old.items ++ all_owners (task_trees (stack_of N.tree commands.now)))) }
{
    let mut left = room;
    let mut below = commands.cursor();
    'commands: while let Some(command) = commands.read_down(&mut below) {
        match count_one(command.node, left, owners, waiting)? {
            Some(less) => left = less,
            None => return Ok(None),
        }
    }
    Ok(Some(left))
}

/// Counts the nodes of documents, as `count_commands`.
pub fn count_roots<N: Walk>(
    roots: &[N],
    room: usize,
    owners: &mut Vec<N>,
    waiting: &mut Vec<N>,
) -> Result<Option<usize>, TableRefused>
    ensures counted { IfOk result (λ o. MatchOption o
        (room < sum_by (λ n. size (N.tree n)) roots.now)
        (λ left. left + sum_by (λ n. size (N.tree n)) roots.now ≡ room)) }
    ensures listed { IfOk result (λ o. IfSome o (λ _. trees N.tree owners.new.items
        ≡ trees N.tree owners.old.items ++ all_owners (trees N.tree roots.now))) }
{
    let mut left = room;
    let mut k = 0;
    'roots: while k < roots.len() {
        match count_one(roots[k], left, owners, waiting)? {
            Some(less) => left = less,
            None => return Ok(None),
        }
        k += 1;
    }
    Ok(Some(left))
}

/// How many nodes a document has; those that take cells are listed after `owners`. `None` is answered where there are
/// more than `most`.
///
/// It fails where memory is refused. Nothing is promised of `owners` then, nor at `None`.
pub fn count<N: Walk>(
    alloc: Global,
    root: N,
    owners: &mut Vec<N>,
    most: usize,
) -> Result<Option<usize>, TableRefused>
    ensures counted { IfOk result (λ o. MatchOption o
        (most < size (N.tree root))
        (λ n. (n ≡ size (N.tree root)) × (n ≤ most))) }
    ensures listed { IfOk result (λ o. IfSome o (λ _. trees N.tree owners.new.items
        ≡ trees N.tree owners.old.items ++ owners_of (N.tree root))) }
{
    let mut waiting = Vec::new(alloc);
    let Some(left) = count_one(root, most, owners, &mut waiting)? else {
        return Ok(None);
    };
    Ok(Some(most - left))
}
