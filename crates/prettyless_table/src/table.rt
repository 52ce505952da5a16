//! The table, and how a document is stored in it. This file knows nodes by `Walk` and their parts, and no printer.
ghost use Rattle.std.specs.Prelude.{◌≡◌, ◌∷◌, [], List, drop, get_or, reverse};
ghost use Rattle.prettyless_model.specs.Tree.{Tree};
ghost use Rattle.prettyless_table.specs.Cells.{In};
ghost use Rattle.prettyless_table.specs.Owners.{Stand};
ghost use Rattle.prettyless_table.specs.Parts.{parts_of};

use crate::below::{Parts, is_small, parts_below};
use crate::cell::Cell;
use crate::refusal::{TableRefused, push, refused};
use crate::sums::{Sums, in_mode, leaf_sums, of_pair, of_single, small_sums};
use prettyless_model::mode::Mode;
use prettyless_probe::walk::{View, Walk};
use prettyless_summary::known::Known;
use std::alloc::Global;

/// How many cells a table has at most: the place of each fits 32 bits, and so does the number after it.
pub const MOST_CELLS: usize = 4_294_967_294;

// Takes the last of these places.
#[inline(always)]
fn take_place(waiting: &mut Vec<u32>) -> u32
    ensures taken { result ≡ get_or (reverse waiting.old.items) 0 0 }
    ensures left { reverse waiting.new.items ≡ drop 1 (reverse waiting.old.items) }
{
    waiting.pop().unwrap_or(0)
}

// Where a document stands: at the last of these places, which is taken; but a small one has none.
#[inline(always)]
fn place_of<N: Walk>(root: &N, waiting: &mut Vec<u32>) -> u32
    ensures { (cells : List (Cell N)) (later : List Tree) → Stand cells (N.tree root.now ∷ later) waiting.old.items
        → In cells (N.tree root.now) result × Stand cells later waiting.new.items }
{
    if is_small(root) {
        return 0;
    }
    take_place(waiting)
}

/// Documents stored in cells, each after the cells of its parts.
#[derive(Drop)]
pub struct Table<N> {
    pub(crate) cells: Vec<Cell<N>>,
}

impl<N: Walk> Table<N> {
    ghost use Rattle.std.specs.Prelude.{◌+◌, ◌-◌, ◌≤◌, ◌<◌, ◌++◌, length, map, IfOk};
    ghost use Rattle.prettyless_summary.specs.Known.{IsKnown};
    ghost use Rattle.prettyless_table.specs.Sums.{AreDocumentSums};
    ghost use Rattle.prettyless_table.specs.Cells.{CellsGrow, IsRoot, CellsAreSound, KeepsBoth, second_at, second_of, tree_at, cell_trees};
    ghost use Rattle.prettyless_table.specs.Stored.{FirstIn, HasAt, SecondIn};
    ghost use Rattle.prettyless_table.specs.Owners.{AreFound, WaitsInTable, all_owners, keepers};

    /// A table without documents, with memory for so many cells, which is asked for once. It fails where that memory is refused.
    pub fn with_room(alloc: Global, nodes: usize) -> Result<Self, TableRefused>
        ensures empty { IfOk result (λ t. t.cells.items ≡ []) }
        ensures sound { IfOk result (λ t. CellsAreSound N.tree t.cells.items) }
        ensures room { IfOk result (λ t. nodes ≤ t.cells.cap) }
    {
        Ok(Table {
            cells: Vec::with_capacity(alloc, nodes).map_err(refused)?,
        })
    }

    /// The document at a place, and where its node stands.
    #[inline(always)]
    pub(crate) fn root(&self, at: u32) -> (N, u32)
        requires within { IsRoot self.now.cells.items at }
        requires sound { CellsAreSound N.tree self.now.cells.items }
        ensures tree { N.tree result.0 ≡ tree_at N.tree self.now.cells.items at }
        ensures stands { In self.now.cells.items (N.tree result.0) result.1 }
    {
        match self.cells[at as usize] {
            Cell::Root(place, node) => (node, place),
            Cell::Sums { .. } | Cell::Wide(_, _) => unreachable!(),
        }
    }

    /// The place of the second part of the node at a place.
    #[inline(always)]
    pub(crate) fn second(&self, at: u32) -> u32
        ensures { result ≡ second_at self.now.cells.items at }
    {
        if at as usize >= self.cells.len() {
            return 0;
        }
        self.cells[at as usize].second()
    }

    /// What is known of a node in a mode.
    #[inline(always)]
    pub(crate) fn known(&self, node: &N, at: u32, mode: Mode) -> Known
        requires { In self.now.cells.items (N.tree node.now) at }
        ensures { IsKnown result (N.tree node.now) mode }
    {
        if is_small(node) {
            return in_mode(small_sums(node), mode);
        }
        self.cells[at as usize].known(mode)
    }

    // The summaries of a node.
    #[inline(always)]
    fn sums(&self, node: &N, at: u32) -> Sums
        requires { In self.now.cells.items (N.tree node.now) at }
        ensures { AreDocumentSums result (N.tree node.now) }
    {
        if is_small(node) {
            return small_sums(node);
        }
        let cell = &self.cells[at as usize];
        Sums {
            flat: cell.known(Mode::Flat),
            broken: cell.known(Mode::Break),
        }
    }

    // The place of the last cell.
    #[inline(always)]
    fn last(&self) -> u32
        requires { length self.now.cells.items ≤ MOST_CELLS }
        ensures { result ≡ length self.now.cells.items - 1 }
    {
        self.cells.len().saturating_sub(1) as u32
    }

    // The summaries of a node whose parts are stored: the first one last, and the second one at this place.
    #[inline(always)]
    fn node_sums(&self, node: &N, second: u32) -> Sums
        requires most { length self.now.cells.items ≤ MOST_CELLS }
        requires first { FirstIn self.now.cells.items (length self.now.cells.items - 1) (parts_of (N.tree node.now)) }
        requires second { SecondIn self.now.cells.items second (parts_of (N.tree node.now)) }
        ensures { AreDocumentSums result (N.tree node.now) }
    {
        match node.view() {
            View::One(kind, inner) => of_single(kind, self.sums(&inner, self.last())),
            View::Two(kind, first, other) => of_pair(
                kind,
                self.sums(&first, self.last()),
                self.sums(&other, second),
            ),
            _ => leaf_sums(node),
        }
    }

    // The place of the second part of a node, whose parts stand in the table. Of documents that wait in the table the last one has the
    // last cell, and `waiting` has the places of all others. Where the node has none of them below it, the last one goes on waiting.
    #[inline(always)]
    fn second_place(&self, node: &N, waiting: &mut Vec<u32>) -> Result<u32, TableRefused>
        requires { length self.now.cells.items ≤ MOST_CELLS }
        ensures { IfOk result (λ second. (ds : List Tree)
            → WaitsInTable self.now.cells.items (keepers (parts_of (N.tree node.now)) ++ ds) (reverse waiting.old.items)
            → AreFound self.now.cells.items (parts_of (N.tree node.now)) second ds (reverse waiting.new.items)) }
    {
        match parts_below(node) {
            Parts::None => {}
            Parts::One(inner) => {
                if !is_small(&inner) {
                    return Ok(0);
                }
            }
            Parts::Two(first, second) => match (is_small(&first), is_small(&second)) {
                (true, true) => {}
                (true, false) => return Ok(self.last()),
                (false, true) => return Ok(0),
                (false, false) => return Ok(take_place(waiting)),
            },
        }
        push(waiting, self.last())?;
        Ok(0)
    }

    /// Adds the cells of listed nodes, those of the last document first. The answer is where the documents stand that are not small,
    /// the first one last.
    ///
    /// It fails where memory is refused. The cells that the table had stay then, and others may follow them.
    pub fn fill(&mut self, alloc: Global, owners: Vec<N>) -> Result<Vec<u32>, TableRefused>
        requires room { length self.old.cells.items + length owners.items ≤ MOST_CELLS }
        requires listed { (ds : List Tree) × (map N.tree owners.items ≡ all_owners ds) }
        ensures grows { CellsGrow N.tree self.old.cells.items self.new.cells.items }
        ensures count { IfOk result (λ _. length self.new.cells.items ≡ length self.old.cells.items + length owners.items) }
        ensures stand { IfOk result (λ places. (ds : List Tree) → map N.tree owners.items ≡ all_owners ds
            → Stand self.new.cells.items ds places.items) }
    {
        let mut waiting = Vec::new(alloc);
        let mut k = owners.len();
        'owners: while k > 0 {
            k -= 1;
            let node = owners[k];
            let second = self.second_place(&node, &mut waiting)?;
            let sums = self.node_sums(&node, second);
            let cell = Cell::of_sums(alloc, sums, second)?;
            push(&mut self.cells, cell)?;
        }
        push(&mut waiting, self.last())?;
        Ok(waiting)
    }

    /// Adds a document, whose nodes have their cells, and answers its place. Where it stands is the last of these places, unless it is
    /// small.
    ///
    /// It fails where memory is refused: the cells that the table had stay then.
    pub fn add(&mut self, root: N, waiting: &mut Vec<u32>) -> Result<u32, TableRefused>
        requires sound { CellsAreSound N.tree self.old.cells.items }
        requires room { length self.old.cells.items < MOST_CELLS }
        requires stands { (later : List Tree) × Stand self.old.cells.items (N.tree root ∷ later) waiting.old.items }
        ensures grows { CellsGrow N.tree self.old.cells.items self.new.cells.items }
        ensures stored { IfOk result (λ at. HasAt (cell_trees N.tree self.new.cells.items) at (N.tree root)) }
        ensures count { IfOk result (λ _. length self.new.cells.items ≡ length self.old.cells.items + 1) }
        ensures later { IfOk result (λ _. (later : List Tree)
            → Stand self.old.cells.items (N.tree root ∷ later) waiting.old.items
            → Stand self.new.cells.items later waiting.new.items) }
    {
        let place = place_of(&root, waiting);
        push(&mut self.cells, Cell::Root(place, root))?;
        Ok(self.last())
    }
}
