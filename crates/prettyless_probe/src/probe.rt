//! The probe: whether a node fits the line with what follows it. It visits the node, then all that is left on its stack, and then
//! the commands of a printer downwards, up to an answer. It knows nodes by `Walk` alone, and no sink.
ghost use Rattle.std.specs.Prelude.{◌≡◌, ◌++◌, ◌∷◌, ◌+◌, ◌≤◌, ◌&&◌, [], IfOk, OnOk, IfSome, MatchOption, Bool, ℕ, ⊤};
ghost use Rattle.std.specs.Prelude.{false, if◌then◌else◌, nat_lt};
ghost use Rattle.prettyless_model.specs.Tree.{Tree, size};
ghost use Rattle.prettyless_model.specs.declared.column.Column.{Column};
ghost use Rattle.prettyless_model.specs.declared.mode.Mode.TheVariants.{Flat};
ghost use Rattle.prettyless_model.specs.Look.{answer_of, look};
ghost use Rattle.prettyless_model.specs.Layout.{rest_fits};
ghost use Rattle.prettyless_probe.specs.declared.probe.Fit.TheVariants.{FitsAsTexts, Fits, Exceeds};
ghost use Rattle.prettyless_probe.specs.Costs.{PartCosts, ProbeCosts};
ghost use Rattle.prettyless_probe.specs.Glances.{IsLearned};
ghost use Rattle.prettyless_probe.specs.Probing.{is_fit};
ghost use Rattle.prettyless_probe.specs.Reads.{parts_read, probe_reads, reads_all, reads_below, reads_next};
ghost use Rattle.prettyless_probe.specs.Stack.{IsCursor, follow, in_break, nodes, room_of, stack_of, task, tasks_fit, unread, with_next};
ghost use Rattle.prettyless_probe.specs.Sums.{IsSummed};
ghost use Rattle.prettyless_probe.specs.Texts.{IsTexts, IsTextsIf, tasks_waiting, texts_waiting};

use crate::choice::either;
use crate::command::Command;
use crate::line::{LineState, ProbeLine, read_line_end};
use crate::stack::{Cursor, Stack};
use crate::summed::{visit_by_parts, visit_by_sums};
use crate::visit::{ProbeStep, visit_one};
use crate::walk::Walk;
use prettyless_model::count::one_more;
use prettyless_model::mode::Mode;
use prettyless_summary::known::Known;
use prettyless_summary::summary::{ReadResult, Summary};
use std::alloc::AllocError;

// The next node that the probe reads: one of its own, and then the printer's commands downwards, each in Break. The topmost frame
// of its stack is that of this node then.
#[inline(always)]
#[tactic(auto, using(crate::proofs::Stacks::below_steps))]
fn next_unread<N: Walk>(
    commands: &Stack<N>,
    below: &mut Cursor,
    stack: &mut Stack<N>,
) -> Result<Option<N>, AllocError>
    requires { IsCursor commands.now below.old }
    ensures of_this { IsCursor commands.now below.new }
    ensures ahead { IfOk result (λ o. MatchOption o (stack_of N.tree stack.old ++ in_break (unread N.tree commands.now below.old) ≡ [])
        (λ n. stack_of N.tree stack.old ++ in_break (unread N.tree commands.now below.old)
        ≡ with_next N.tree n stack.new ++ in_break (unread N.tree commands.now below.new))) }
    ensures left { IfOk result (λ o. IfSome o (λ n. nodes (stack_of N.tree stack.old) + nodes (unread N.tree commands.now below.old)
        ≡ nodes (with_next N.tree n stack.new) + nodes (unread N.tree commands.now below.new))) }
    ensures reads { IfOk result (λ o. (width : ℕ) (c : Column) (p : Bool) → reads_all false width (stack_of N.tree stack.old)
        (reads_below false width false (unread N.tree commands.now below.old)) c p ≡ reads_next o (λ n. reads_all false width
        (with_next N.tree n stack.new) (reads_below false width false (unread N.tree commands.now below.new)) c p)) }
    ensures texts { IfOk result (λ o. (d : Tree) → IsTextsIf d (stack_of N.tree stack.old)
        → MatchOption o (IsTexts d) (λ n. IsTextsIf d (with_next N.tree n stack.new))) }
    ensures room { OnOk result (room_of stack.old ≤ room_of stack.new) }
    ensures waiting { IfOk result (λ o. MatchOption o (tasks_waiting (stack_of N.tree stack.old) ≡ 0)
        (λ n. tasks_waiting (stack_of N.tree stack.old) ≡ tasks_waiting (with_next N.tree n stack.new))) }
{
    if let Some(next) = stack.pop_in() {
        return Ok(Some(next));
    }
    let Some(next) = commands.read_down(below) else {
        return Ok(None);
    };
    stack.enter(next.indent, Mode::Break)?;
    Ok(Some(next.node))
}

/// What a probe finds of a node: it goes past the width, it stays within the width, or it does and is its texts where it is laid flat.
///
/// Texts that fit have a way of their own. A probe finds them (`FitsAsTexts`), as it reads the node. A step hands them on
/// (`StepResult::DescendTexts`). A printer lays them in a loop without frames, modes and tests of the width (`lay_texts`), with room for
/// as many nodes as the probe's stack had: so no memory is asked for once a byte of them is written.
#[derive(Clone, Copy)]
pub enum Fit {
    Exceeds,
    Fits,
    FitsAsTexts,
}

// What is found of a node that fits or not, and is its texts or not.
#[inline(always)]
fn found(fits: bool, is_texts: bool) -> Fit
    ensures { result ≡ if fits then (if is_texts then FitsAsTexts else Fits) else Exceeds }
{
    if !fits {
        return Fit::Exceeds;
    }
    if is_texts {
        Fit::FitsAsTexts
    } else {
        Fit::Fits
    }
}

// Visits a node, what is on the stack, and then the printer's commands downwards, up to an answer. Each node is counted in `probes`.
#[inline(always)]
#[tactic(auto, using(crate::proofs::Sizes::size_positive, crate::proofs::Counting::some_read))]
fn visit_all<N: Walk>(
    width: usize,
    start: ProbeLine,
    first: Command<N>,
    commands: &Stack<N>,
    cursor: Cursor,
    stack: &mut Stack<N>,
    probes: &mut u64,
) -> Result<Fit, AllocError>
    requires { IsCursor commands.now cursor }
    ensures answer { IfOk result
        (λ r. is_fit r ≡ tasks_fit width
        (task N.tree first ∷ (stack_of N.tree stack.old ++ in_break (unread N.tree commands.now cursor))) start.column start.pending) }
    ensures texts { IfOk result (λ r. r ≡ FitsAsTexts → stack_of N.tree stack.old ≡ [] → (first.mode ≡ Flat)
        × IsTexts (N.tree first.node)) }
    ensures room { IfOk result (λ r. r ≡ FitsAsTexts → stack_of N.tree stack.old ≡ []
        → texts_waiting (N.tree first.node) 0 ≤ room_of stack.new) }
    ensures visits { PartCosts result ⊤ 1
        (size (N.tree first.node) + (nodes (stack_of N.tree stack.old) + nodes (unread N.tree commands.now cursor)))
        (reads_all false width (task N.tree first ∷ stack_of N.tree stack.old)
        (reads_below false width false (unread N.tree commands.now cursor)) start.column start.pending) probes.old probes.new }
{
    let mut line = LineState::at(start);
    let mut below = cursor;
    let mut node = first.node;
    let mut is_texts = either(first.mode, false, true);
    stack.enter(first.indent, first.mode)?;
    'read: loop {
        *probes = one_more(*probes);
        match visit_one(width, &mut line, node, stack, &mut is_texts)? {
            ProbeStep::Answer(answer) => return Ok(found(answer, is_texts)),
            ProbeStep::Next(next) => {
                node = next;
            }
            ProbeStep::Silent => {
                let Some(next) = next_unread(commands, &mut below, stack)? else {
                    return Ok(found(read_line_end(width, &line.get(), Mode::Break), is_texts));
                };
                node = next;
            }
        }
    }
}

// How many nodes probes visit before one reads node by node where nodes have summaries. To ask each node for its summary takes longer
// than to read it.
const PARTS_READ: u64 = 1_000;

// What a probe learns of a node before it reads it, where nodes have summaries: the answer of what the node begins with, or the summary
// that is read in place of the node.
#[inline(always)]
fn learn<N: Walk>(width: usize, line: ProbeLine, node: &N, mode: Mode) -> ProbeStep<Summary>
    ensures { (i : ℕ) → IsLearned N.HAS_SUMMARIES result width (N.tree node.now) i mode line.column line.pending }
{
    if !N::has_summaries() {
        return ProbeStep::Silent;
    }
    match node.known(mode) {
        Known::Whole(summary) => ProbeStep::Next(summary),
        Known::Begins(summary) => match summary.read(width, line.column, line.pending) {
            ReadResult::Answer(answer) => ProbeStep::Answer(answer),
            ReadResult::Line(_, _) => ProbeStep::Silent,
        },
    }
}

// Whether nodes have summaries, and probes visited few nodes.
#[inline(always)]
fn reads_parts<N: Walk>(probes: u64) -> bool
    ensures { result ≡ (N.HAS_SUMMARIES && nat_lt probes parts_read) }
{
    N::has_summaries() && probes < PARTS_READ
}

/// Whether a node, laid at this indent and in this mode from where the line is, stays within the width together with what
/// follows it, up to the first line end. `stack` is only a place to work in. The nodes that it visits are counted in `probes`: one at
/// least, and two at most where all is summed up.
///
/// It fails where memory is refused. Nothing is promised of `stack` then, and what was visited is counted.
#[tactic(auto, using(crate::proofs::Probes::probe_fits, crate::proofs::Sizes::size_positive))]
pub fn probe<N: Walk>(
    width: usize,
    start: ProbeLine,
    node: N,
    indent: usize,
    mode: Mode,
    commands: &Stack<N>,
    stack: &mut Stack<N>,
    probes: &mut u64,
) -> Result<Fit, AllocError>
    requires { IsSummed N.HAS_SUMMARIES N.tree commands.now }
    ensures answer { IfOk result
        (λ r. is_fit r ≡ answer_of (look width (N.tree node) indent mode start.column start.pending)
        (λ c p. rest_fits width (follow (stack_of N.tree commands.now)) c p)) }
    ensures texts { IfOk result (λ r. r ≡ FitsAsTexts → (mode ≡ Flat) × IsTexts (N.tree node)) }
    ensures room { IfOk result (λ r. r ≡ FitsAsTexts → texts_waiting (N.tree node) 0 ≤ room_of stack.new) }
    ensures visits { ProbeCosts result N.HAS_SUMMARIES (N.tree node) (stack_of N.tree commands.now)
        (probe_reads N.HAS_SUMMARIES probes.old width (N.tree node) indent mode (stack_of N.tree commands.now)
        start.column start.pending) probes.old probes.new }
{
    stack.clear();
    let below = commands.cursor();
    match learn(width, start, &node, mode) {
        ProbeStep::Next(summary) => {
            let fits = visit_by_sums(width, start, summary, commands, below, stack, probes)?;
            return Ok(found(fits, false));
        }
        ProbeStep::Answer(fits) => {
            *probes = one_more(*probes);
            return Ok(found(fits, false));
        }
        ProbeStep::Silent => {}
    }
    let first = Command { indent, mode, node };
    if reads_parts::<N>(*probes) {
        let within = visit_by_parts(width, start, first, commands, below, stack, probes)?;
        return Ok(found(within, false));
    }
    let mut count = *probes;
    let fit = visit_all(width, start, first, commands, below, stack, &mut count);
    *probes = count;
    fit
}
