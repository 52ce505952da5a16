//! The probe where nodes have summaries: it reads a node that is known by its summary, and what follows by its sum.
//! It knows nodes by `Walk` alone, and of a printer the commands that it has left.
ghost use Rattle.std.specs.Prelude.{◌≡◌, ◌++◌, ◌∷◌, IfOk, IsTrue, List, [], length, ◌+◌, ◌-◌, ◌*◌, ◌^◌, ◌<◌, ◌≤◌, ℕ, Bool, true, false};
ghost use Rattle.prettyless_model.specs.Tree.{size};
ghost use Rattle.prettyless_model.specs.Look.{answer_of};
ghost use Rattle.prettyless_model.specs.declared.column.Column.{Column};
ghost use Rattle.prettyless_summary.specs.Summary.{look_by};
ghost use Rattle.prettyless_probe.specs.Probing.{OneLeft, ReadsAs, nodes_next, pace};
ghost use Rattle.prettyless_probe.specs.Reads.{read_after, reads_all, reads_below, reads_on};
ghost use Rattle.prettyless_probe.specs.Costs.{GoesOnCosts, IsShort, PartCosts, left_at, probe_point};
ghost use Rattle.prettyless_probe.specs.Stack.{IsCursor, Task, in_break, make_task, nodes, stack_of, task, tasks_fit, unread};
ghost use Rattle.prettyless_probe.specs.Sums.{AreSums, HaveSum};

use crate::command::Command;
use crate::line::ProbeLine;
use crate::stack::{Cursor, Stack};
use crate::visit::{ProbeStep, probe_one};
use crate::walk::Walk;
use prettyless_model::count::one_more;
use prettyless_model::mode::Mode;
use prettyless_summary::known::Known;
use prettyless_summary::summary::{ReadResult, Summary};
use std::alloc::AllocError;

// Reads on by a summary.
#[inline(always)]
fn read_by<N: Walk>(width: usize, line: &mut ProbeLine, summary: Summary) -> ProbeStep<Command<N>>
    ensures answer { (ts : List Task) → ReadsAs N.tree width result
        (answer_of (look_by width summary line.old.column line.old.pending) (λ c p. tasks_fit width ts c p))
        ts line.new.column line.new.pending }
    ensures pace { pace N.tree result ≤ 1 }
    ensures nodes { nodes_next N.tree result ≡ 0 }
    ensures reads { (ts : List Task) (next : Column → Bool → ℕ) →
        read_after (look_by width summary line.old.column line.old.pending) (reads_all true width ts next)
        ≡ reads_on N.tree true width result ts next line.new.column line.new.pending }
{
    match summary.read(width, line.column, line.pending) {
        ReadResult::Answer(answer) => ProbeStep::Answer(answer),
        ReadResult::Line(column, pending) => {
            line.column = column;
            line.pending = pending;
            ProbeStep::Silent
        }
    }
}

// Reads one node, by its summary where that is known.
#[inline(always)]
#[tactic(auto, using(crate::proofs::Sizes::size_positive))]
fn read_one<N: Walk>(
    width: usize,
    line: &mut ProbeLine,
    indent: usize,
    mode: Mode,
    node: N,
    stack: &mut Stack<N>,
) -> Result<ProbeStep<Command<N>>, AllocError>
    ensures answer { IfOk result (λ a. (ts : List Task) → ReadsAs N.tree width a
        (tasks_fit width (make_task indent mode (N.tree node) ∷ (stack_of N.tree stack.old ++ ts)) line.old.column line.old.pending)
        (stack_of N.tree stack.new ++ ts) line.new.column line.new.pending) }
    ensures smaller { IfOk result (λ a.
        nodes_next N.tree a + nodes (stack_of N.tree stack.new) < size (N.tree node) + nodes (stack_of N.tree stack.old)) }
    ensures reads { IfOk result (λ a. (next : Column → Bool → ℕ) → IsTrue N.HAS_SUMMARIES → size (N.tree node) < 2 ^ 32
        → reads_all true width (make_task indent mode (N.tree node) ∷ stack_of N.tree stack.old) next line.old.column line.old.pending
        ≡ 1 + reads_on N.tree true width a (stack_of N.tree stack.new) next line.new.column line.new.pending) }
{
    match node.known(mode) {
        Known::Whole(summary) => Ok(read_by(width, line, summary)),
        Known::Begins(_) => probe_one(width, line, indent, mode, node, stack),
    }
}

// Goes on where nothing comes next: with one of the probe's own nodes; then by the sum of the printer's commands that are not read
// yet, or with the next of them.
#[inline(always)]
fn read_on<N: Walk>(
    width: usize,
    line: &mut ProbeLine,
    commands: &Stack<N>,
    below: &mut Cursor,
    stack: &mut Stack<N>,
    probes: &mut u64,
) -> ProbeStep<Command<N>>
    requires of_this { IsCursor commands.now below.old }
    requires summed { AreSums commands.now.sums.items (unread N.tree commands.now below.old) }
    ensures of_this { IsCursor commands.now below.new }
    ensures summed { AreSums commands.now.sums.items (unread N.tree commands.now below.new) }
    ensures answer { ReadsAs N.tree width result
        (tasks_fit width (stack_of N.tree stack.old ++ in_break (unread N.tree commands.now below.old)) line.old.column line.old.pending)
        (stack_of N.tree stack.new ++ in_break (unread N.tree commands.now below.new)) line.new.column line.new.pending }
    ensures smaller { pace N.tree result + 2 * (nodes (stack_of N.tree stack.new) + nodes (unread N.tree commands.now below.new))
        < 1 + 2 * (nodes (stack_of N.tree stack.old) + nodes (unread N.tree commands.now below.old)) }
    ensures shorter { length (unread N.tree commands.now below.new) ≤ length (unread N.tree commands.now below.old) }
    ensures visits { GoesOnCosts N.tree width commands.now.sums.items result
        (probe_point (stack_of N.tree stack.old) (unread N.tree commands.now below.old) line.old)
        (probe_point (stack_of N.tree stack.new) (unread N.tree commands.now below.new) line.new) probes.old probes.new }
{
    if let Some(next) = stack.pop() {
        return ProbeStep::Next(next);
    }
    if let Some(sum) = commands.sum_of(below) {
        *probes = one_more(*probes);
        commands.skip_to(below, sum.left);
        return read_by(width, line, sum.sum);
    }
    match commands.read_down(below) {
        Some(next) => ProbeStep::Next(Command {
            indent: next.indent,
            mode: Mode::Break,
            node: next.node,
        }),
        None => ProbeStep::Answer(line.column.padding_fits(width, line.pending)),
    }
}

// Goes on after a result, up to an answer: with the node that is read next, what is on the stack, and then the printer's commands
// downwards. Of each node it reads the summary where there is one, and else the node. Each of these and each sum is counted in `probes`.
#[inline(always)]
#[tactic(auto, using(crate::proofs::Sizes::size_positive, crate::proofs::Counting::some_read))]
fn read_rest<N: Walk>(
    width: usize,
    start: ProbeLine,
    first: ProbeStep<Command<N>>,
    commands: &Stack<N>,
    cursor: Cursor,
    stack: &mut Stack<N>,
    probes: &mut u64,
) -> Result<bool, AllocError>
    requires of_this { IsCursor commands.now cursor }
    requires summed { AreSums commands.now.sums.items (unread N.tree commands.now cursor) }
    ensures answer { IfOk result (λ r. ReadsAs N.tree width first r
        (stack_of N.tree stack.old ++ in_break (unread N.tree commands.now cursor)) start.column start.pending) }
    ensures few { OneLeft N.tree first (stack_of N.tree stack.old) (unread N.tree commands.now cursor) commands.now.sums.items
        → probes.new ≤ probes.old + 1 }
    ensures visits { PartCosts result ((probes.old ≤ 2 ^ 64 - 1) × IsShort N.HAS_SUMMARIES (nodes_next N.tree first)
        (stack_of N.tree stack.old) (unread N.tree commands.now cursor) commands.now.sums.items) 0
        (nodes_next N.tree first + (nodes (stack_of N.tree stack.old) + nodes (unread N.tree commands.now cursor)))
        (left_at N.tree width first (probe_point (stack_of N.tree stack.old) (unread N.tree commands.now cursor) start))
        probes.old probes.new }
{
    let mut line = start;
    let mut below = cursor;
    let mut read = first;
    'read: loop {
        read = match read {
            ProbeStep::Answer(answer) => return Ok(answer),
            ProbeStep::Next(next) => {
                *probes = one_more(*probes);
                read_one(width, &mut line, next.indent, next.mode, next.node, stack)?
            }
            ProbeStep::Silent => read_on(width, &mut line, commands, &mut below, stack, probes),
        };
    }
}

/// Reads a line by a summary, then what is on the stack and the printer's commands downwards, up to an answer. The summary, each node
/// that is read and each sum is counted in `probes`.
#[inline(always)]
pub(crate) fn visit_by_sums<N: Walk>(
    width: usize,
    start: ProbeLine,
    summary: Summary,
    commands: &Stack<N>,
    cursor: Cursor,
    stack: &mut Stack<N>,
    probes: &mut u64,
) -> Result<bool, AllocError>
    requires of_this { IsCursor commands.now cursor }
    requires summed { AreSums commands.now.sums.items (unread N.tree commands.now cursor) }
    ensures answer { IfOk result
        (λ r. r ≡ answer_of (look_by width summary start.column start.pending)
        (λ c p. tasks_fit width (stack_of N.tree stack.old ++ in_break (unread N.tree commands.now cursor)) c p)) }
    ensures few { stack_of N.tree stack.old ≡ [] → length (unread N.tree commands.now cursor) ≤ length commands.now.sums.items
        → HaveSum (unread N.tree commands.now cursor) → probes.new ≤ probes.old + 2 }
    ensures visits { PartCosts result (IsShort N.HAS_SUMMARIES 0 (stack_of N.tree stack.old) (unread N.tree commands.now cursor)
        commands.now.sums.items) 1 (1 + (nodes (stack_of N.tree stack.old) + nodes (unread N.tree commands.now cursor)))
        (1 + read_after (look_by width summary start.column start.pending)
        (reads_all true width (stack_of N.tree stack.old) (reads_below true width false (unread N.tree commands.now cursor))))
        probes.old probes.new }
{
    let mut line = start;
    *probes = one_more(*probes);
    let read = read_by(width, &mut line, summary);
    read_rest(width, line, read, commands, cursor, stack, probes)
}

/// Visits a node, what is on the stack, and then the printer's commands downwards, up to an answer. Of each node it reads the summary
/// where there is one, and else the node. Each of these and each sum is counted in `probes`. It is not copied into `probe`, which seldom
/// takes this way.
#[cold]
#[inline(never)]
#[tactic(auto, using(crate::proofs::Sizes::size_positive, crate::proofs::Counting::some_read))]
pub(crate) fn visit_by_parts<N: Walk>(
    width: usize,
    start: ProbeLine,
    first: Command<N>,
    commands: &Stack<N>,
    cursor: Cursor,
    stack: &mut Stack<N>,
    probes: &mut u64,
) -> Result<bool, AllocError>
    requires of_this { IsCursor commands.now cursor }
    requires summed { AreSums commands.now.sums.items (unread N.tree commands.now cursor) }
    ensures answer { IfOk result
        (λ r. r ≡ tasks_fit width (task N.tree first ∷ (stack_of N.tree stack.old ++ in_break (unread N.tree commands.now cursor)))
        start.column start.pending) }
    ensures visits { PartCosts result (IsShort N.HAS_SUMMARIES (size (N.tree first.node)) (stack_of N.tree stack.old)
        (unread N.tree commands.now cursor) commands.now.sums.items) 1
        (size (N.tree first.node) + (nodes (stack_of N.tree stack.old) + nodes (unread N.tree commands.now cursor)))
        (reads_all true width (task N.tree first ∷ stack_of N.tree stack.old)
        (reads_below true width false (unread N.tree commands.now cursor)) start.column start.pending) probes.old probes.new }
{
    let mut line = start;
    *probes = one_more(*probes);
    let read = read_one(
        width,
        &mut line,
        first.indent,
        first.mode,
        first.node,
        stack,
    )?;
    read_rest(width, line, read, commands, cursor, stack, probes)
}
