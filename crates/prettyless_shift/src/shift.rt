//! The shift: what a printer has left is stored in a table, and a printer over the table goes on from where the first one stands.
//! It knows a printer's state, and no sink and no trials.
ghost use Rattle.std.specs.Prelude.{◌≡◌, ◌+◌, ◌≤◌, ◌++◌, List, length, map, IfOk, true};
ghost use Rattle.std.specs.List.{All};
ghost use Rattle.prettyless_model.specs.Tree.{Tree};
ghost use Rattle.prettyless_probe.specs.Stack.{stack_of, task, trees};
ghost use Rattle.prettyless_probe.specs.Sums.{IsSummed};
ghost use Rattle.prettyless_table.specs.Cells.{CellsGrow, IsRoot, CellsAreSound, tree_at};
ghost use Rattle.prettyless_table.specs.Owners.{Stand, task_trees};
ghost use Rattle.prettyless_shift.specs.Shift.{AreCommands, AreNodes, IsInTable, IsShifted, documents_left};

use crate::refusal::{ShiftRefused, refused};
use prettyless_probe::command::Command;
use prettyless_probe::stack::Stack;
use prettyless_probe::walk::Walk;
use prettyless_step::printer::Printer;
use prettyless_step::queue::Queue;
use prettyless_table::refusal::{TableRefused, push};
use prettyless_table::{MOST_CELLS, Placed, Table};
use std::alloc::Global;

/// Where all that a printer has left stands in a table: its commands, the next one first, and its queue, the oldest suffix first.
#[derive(Drop)]
pub struct Places {
    commands: Vec<Command<u32>>,
    queue: Vec<u32>,
}

// Adds commands to a table, and answers their places, the next one first.
fn store_commands<N: Walk>(
    alloc: Global,
    commands: &Stack<N>,
    table: &mut Table<N>,
    waiting: &mut Vec<u32>,
) -> Result<Vec<Command<u32>>, TableRefused>
    requires sound { CellsAreSound N.tree table.old.cells.items }
    requires room { length table.old.cells.items + length (stack_of N.tree commands.now) ≤ MOST_CELLS }
    requires stand { (later : List Tree)
        × Stand table.old.cells.items (task_trees (stack_of N.tree commands.now) ++ later) waiting.old.items }
    ensures grows { CellsGrow N.tree table.old.cells.items table.new.cells.items }
    ensures stored { IfOk result (λ places. AreCommands N.tree table.new.cells.items places.items (stack_of N.tree commands.now)) }
    ensures count { IfOk result (λ _. length table.new.cells.items
        ≡ length table.old.cells.items + length (stack_of N.tree commands.now)) }
    ensures later { IfOk result (λ _. (later : List Tree)
        → Stand table.old.cells.items (task_trees (stack_of N.tree commands.now) ++ later) waiting.old.items
        → Stand table.new.cells.items later waiting.new.items) }
{
    let mut places = Vec::new(alloc);
    let mut below = commands.cursor();
    'commands: while let Some(command) = commands.read_down(&mut below) {
        let node = table.add(command.node, waiting)?;
        let placed = Command {
            indent: command.indent,
            mode: command.mode,
            node,
        };
        push(&mut places, placed)?;
    }
    Ok(places)
}

// Adds documents to a table, and answers their places, in the same order.
fn store_nodes<N: Walk>(
    alloc: Global,
    roots: &[N],
    table: &mut Table<N>,
    waiting: &mut Vec<u32>,
) -> Result<Vec<u32>, TableRefused>
    requires sound { CellsAreSound N.tree table.old.cells.items }
    requires room { length table.old.cells.items + length roots.now ≤ MOST_CELLS }
    requires stand { (later : List Tree) × Stand table.old.cells.items (trees N.tree roots.now ++ later) waiting.old.items }
    ensures grows { CellsGrow N.tree table.old.cells.items table.new.cells.items }
    ensures stored { IfOk result (λ places. AreNodes N.tree table.new.cells.items places.items (trees N.tree roots.now)) }
    ensures count { IfOk result (λ _. length table.new.cells.items ≡ length table.old.cells.items + length roots.now) }
    ensures later { IfOk result (λ _. (later : List Tree)
        → Stand table.old.cells.items (trees N.tree roots.now ++ later) waiting.old.items
        → Stand table.new.cells.items later waiting.new.items) }
{
    let mut places = Vec::new(alloc);
    let mut k = 0;
    'roots: while k < roots.len() {
        push(&mut places, table.add(roots[k], waiting)?)?;
        k += 1;
    }
    Ok(places)
}

/// Adds all that a printer has left to a table that has the cells of its nodes, and answers where it stands.
///
/// It fails where memory is refused: the cells that the table had stay then.
pub fn store_all<N: Walk>(
    alloc: Global,
    printer: &Printer<N>,
    table: &mut Table<N>,
    waiting: &mut Vec<u32>,
) -> Result<Places, TableRefused>
    requires sound { CellsAreSound N.tree table.old.cells.items }
    requires room { length table.old.cells.items + length (documents_left N.tree printer.now) ≤ MOST_CELLS }
    requires stand { (later : List Tree) × Stand table.old.cells.items (documents_left N.tree printer.now ++ later) waiting.old.items }
    ensures sound { CellsAreSound N.tree table.new.cells.items }
    ensures grows { CellsGrow N.tree table.old.cells.items table.new.cells.items }
    ensures stored { IfOk result (λ places. IsInTable N.tree table.new.cells.items printer.now places) }
    ensures count { IfOk result (λ _. length table.new.cells.items
        ≡ length table.old.cells.items + length (documents_left N.tree printer.now)) }
    ensures later { IfOk result (λ _. (later : List Tree)
        → Stand table.old.cells.items (documents_left N.tree printer.now ++ later) waiting.old.items
        → Stand table.new.cells.items later waiting.new.items) }
{
    let commands = store_commands(alloc, &printer.commands, table, waiting)?;
    let queue = store_nodes(alloc, printer.queue.all(), table, waiting)?;
    Ok(Places { commands, queue })
}

// The commands at places of a table, the next one first, as a stack.
fn placed_commands<'t, N: Walk>(
    alloc: Global,
    table: &'t Table<N>,
    places: &[Command<u32>],
) -> Result<Stack<Placed<'t, N>>, ShiftRefused>
    requires sound { CellsAreSound N.tree table.now.cells.items }
    requires within { All (λ c. IsRoot table.now.cells.items c.node) places.now }
    ensures tasks { IfOk result (λ s. stack_of ⟦<Placed<'t, N> as Walk>⟧.tree s
        ≡ map (task (tree_at N.tree table.now.cells.items)) places.now) }
    ensures summed { IfOk result (λ s. IsSummed true ⟦<Placed<'t, N> as Walk>⟧.tree s) }
{
    let mut commands = Stack::new(alloc);
    let mut k = places.len();
    'places: while k > 0 {
        k -= 1;
        let command = places[k];
        let node = table.node(command.node);
        if let Err(e) = commands.push(command.indent, command.mode, node) {
            return Err(refused(e));
        }
    }
    Ok(commands)
}

// The nodes at places of a table as a queue, with the start of another queue that is as long.
fn placed_queue<'t, N: Walk>(
    alloc: Global,
    table: &'t Table<N>,
    places: &[u32],
    queue: &Queue<N>,
) -> Result<Queue<Placed<'t, N>>, ShiftRefused>
    requires sound { CellsAreSound N.tree table.now.cells.items }
    requires nodes { AreNodes N.tree table.now.cells.items places.now (trees N.tree queue.now.nodes.items) }
    ensures nodes { IfOk result (λ q. trees ⟦<Placed<'t, N> as Walk>⟧.tree q.nodes.items ≡ trees N.tree queue.now.nodes.items) }
    ensures start { IfOk result (λ q. q.start ≡ queue.now.start) }
{
    let mut placed = Queue::new(alloc);
    let mut k = 0;
    'places: while k < places.len() {
        if let Err(e) = placed.push(table.node(places[k])) {
            return Err(refused(e));
        }
        k += 1;
    }
    placed.rewind(queue.mark());
    Ok(placed)
}

/// The printer over a table in which all that another printer has left stands: it goes on from where that one stands.
///
/// It fails where memory is refused. The other printer and the table stay as they are.
pub fn placed_printer<'t, N: Walk>(
    alloc: Global,
    printer: &Printer<N>,
    table: &'t Table<N>,
    places: &Places,
) -> Result<Printer<Placed<'t, N>>, ShiftRefused>
    requires sound { CellsAreSound N.tree table.now.cells.items }
    requires stored { IsInTable N.tree table.now.cells.items printer.now places.now }
    ensures shifted { IfOk result (λ p. IsShifted N.tree ⟦<Placed<'t, N> as Walk>⟧.tree printer.now p) }
{
    Ok(Printer {
        options: printer.options,
        column: printer.column,
        within: printer.within,
        commands: placed_commands(alloc, table, &places.commands)?,
        scratch: Stack::new(alloc),
        flat: Vec::new(alloc),
        queue: placed_queue(alloc, table, &places.queue, &printer.queue)?,
    })
}
