//! The visit of one node by a probe: what the node does to the line and to the stack, and what is read next.
//! It knows nodes by `Walk` alone, and no commands of a printer.
ghost use Rattle.std.specs.Prelude.{◌≡◌, ◌++◌, ◌∷◌, ◌+◌, ◌<◌, ◌≤◌, ◌&&◌, IfOk, OnOk, IsTrue, List, Bool, ℕ, false, if◌then◌else◌};
ghost use Rattle.prettyless_model.specs.Tree.{Tree, size};
ghost use Rattle.prettyless_model.specs.declared.column.Column.{Column};
ghost use Rattle.prettyless_probe.specs.declared.visit.ProbeStep.TheVariants.{Answer, Next, Silent};
ghost use Rattle.prettyless_probe.specs.Probing.{ReadsAs, RoomAt, TextsAt, nodes_next, read_in};
ghost use Rattle.prettyless_probe.specs.Reads.{reads_all, reads_on};
ghost use Rattle.prettyless_probe.specs.Stack.{Task, make_command, make_task, nodes, room_of, stack_of, tasks_fit, with_next};
ghost use Rattle.prettyless_probe.specs.Texts.{IsTextsIf, tasks_waiting};
ghost use Rattle.prettyless_summary.specs.Summary.{has_summary};

use crate::choice::{by_column, by_nesting, either};
use crate::command::{Command, nested_indent};
use crate::line::{LineState, ProbeLine, read_content, read_line_end, read_payload};
use crate::stack::Stack;
use crate::walk::{View, Walk};
use prettyless_model::choice::ChoiceTest;
use prettyless_model::kind::{Indenting, Pair, Single};
use prettyless_model::mode::Mode;
use std::alloc::AllocError;

/// What a probe knows once it has read something: an answer, what it reads next, or neither.
#[derive(Clone, Copy)]
pub enum ProbeStep<T> {
    /// Whether the line stays within the width.
    Answer(bool),
    /// A node, of the topmost frame or with its own indent and mode; or a summary.
    Next(T),
    Silent,
}

// A line that stays within the width, or none.
#[inline(always)]
fn done<T>(within: bool) -> ProbeStep<T>
    ensures { result ≡ if within then Silent else Answer false }
{
    if within {
        ProbeStep::Silent
    } else {
        ProbeStep::Answer(false)
    }
}

// A node that is read next, with its indent and its mode.
#[inline(always)]
fn next_at<N>(indent: usize, mode: Mode, node: N) -> ProbeStep<Command<N>>
    ensures { result ≡ Next (make_command indent mode node) }
{
    ProbeStep::Next(Command { indent, mode, node })
}

// Reads one node. The nodes below it are read next: the first is answered, and a second one is now on the stack.
#[inline(always)]
#[tactic(auto, using(crate::proofs::Probes::looks, crate::proofs::Counting::looks_read))]
pub(crate) fn probe_one<N: Walk>(
    width: usize,
    line: &mut ProbeLine,
    indent: usize,
    mode: Mode,
    node: N,
    stack: &mut Stack<N>,
) -> Result<ProbeStep<Command<N>>, AllocError>
    ensures answer { IfOk result (λ a. (ts : List Task) → ReadsAs N.tree width a
        (tasks_fit width (make_task indent mode (N.tree node) ∷ (stack_of N.tree stack.old ++ ts)) line.old.column line.old.pending)
        (stack_of N.tree stack.new ++ ts) line.new.column line.new.pending) }
    ensures smaller { IfOk result (λ a.
        nodes_next N.tree a + nodes (stack_of N.tree stack.new) < size (N.tree node) + nodes (stack_of N.tree stack.old)) }
    ensures reads { IfOk result (λ a. (sums : Bool) (next : Column → Bool → ℕ) → (sums && has_summary (N.tree node) mode) ≡ false
        → reads_all sums width (make_task indent mode (N.tree node) ∷ stack_of N.tree stack.old) next line.old.column line.old.pending
        ≡ 1 + reads_on N.tree sums width a (stack_of N.tree stack.new) next line.new.column line.new.pending) }
    ensures room { OnOk result (room_of stack.old ≤ room_of stack.new) }
{
    match node.view() {
        View::Nil => Ok(ProbeStep::Silent),
        View::Fail => Ok(ProbeStep::Answer(false)),
        View::Text(s) => Ok(done(read_content(width, line, s.len(), s))),
        View::TextWithLen(counted, s) => Ok(done(read_content(width, line, counted, s))),
        View::MultilineText(_, metrics) => Ok(ProbeStep::Answer(read_payload(
            width, line, mode, metrics,
        ))),
        View::WeakSpace => {
            line.column = line.column.blank();
            Ok(ProbeStep::Silent)
        }
        View::HardLine => Ok(ProbeStep::Answer(read_line_end(width, line, mode))),
        // Nothing on a fresh line where no suffix is pending. Its indent does not matter.
        View::WeakLine if line.column.fresh && !line.pending => Ok(ProbeStep::Silent),
        View::WeakLine => Ok(ProbeStep::Answer(read_line_end(width, line, mode))),
        View::ExpandParent => match mode {
            Mode::Break => Ok(ProbeStep::Silent),
            Mode::Flat => Ok(ProbeStep::Answer(false)),
        },
        View::One(Single::LineSuffix, _) => {
            line.pending = true;
            Ok(ProbeStep::Silent)
        }
        View::One(Single::Indented(how), inner) => Ok(next_at(
            how.indent(indent, line.column),
            mode,
            inner,
        )),
        View::One(Single::Group, inner) => Ok(next_at(indent, mode, inner)),
        View::One(Single::Flatten, inner) => Ok(next_at(indent, Mode::Flat, inner)),
        View::Two(Pair::Append, first, second) => {
            stack.put(indent, mode, second)?;
            Ok(next_at(indent, mode, first))
        }
        View::Two(Pair::BreakOrFlat, broken, flat) => Ok(next_at(
            indent,
            mode,
            either(mode, broken, flat),
        )),
        View::Two(Pair::Union | Pair::PartialUnion, first, second) => {
            Ok(next_at(indent, mode, either(mode, second, first)))
        }
        View::Two(Pair::Chosen(ChoiceTest::OnColumn(test)), first, second) => {
            Ok(next_at(
                indent,
                mode,
                by_column(test, line.column, indent, first, second),
            ))
        }
        View::Two(Pair::Chosen(ChoiceTest::OnNesting(test)), first, second) => {
            Ok(next_at(indent, mode, by_nesting(test, indent, first, second)))
        }
    }
}

// Reads one node that probes seldom meet. It is not copied into their loop, whose registers are for other nodes.
#[cold]
#[inline(never)]
fn visit_other<N: Walk>(
    width: usize,
    line: &mut ProbeLine,
    node: N,
    stack: &mut Stack<N>,
) -> Result<ProbeStep<N>, AllocError>
    ensures answer { IfOk result (λ a. (ts : List Task) → ReadsAs N.tree width (read_in stack.new a)
        (tasks_fit width (with_next N.tree node stack.old ++ ts) line.old.column line.old.pending)
        (stack_of N.tree stack.new ++ ts) line.new.column line.new.pending) }
    ensures smaller { IfOk result (λ a. nodes_next N.tree (read_in stack.new a) + nodes (stack_of N.tree stack.new)
        < nodes (with_next N.tree node stack.old)) }
    ensures reads { IfOk result (λ a. (next : Column → Bool → ℕ)
        → reads_all false width (with_next N.tree node stack.old) next line.old.column line.old.pending
        ≡ 1 + reads_on N.tree false width (read_in stack.new a) (stack_of N.tree stack.new) next line.new.column line.new.pending) }
    ensures room { OnOk result (room_of stack.old ≤ room_of stack.new) }
{
    let indent = stack.indent_in();
    let mode = stack.mode_in();
    match probe_one(width, line, indent, mode, node, stack)? {
        ProbeStep::Answer(answer) => Ok(ProbeStep::Answer(answer)),
        ProbeStep::Next(next) => {
            stack.enter(next.indent, next.mode)?;
            Ok(ProbeStep::Next(next.node))
        }
        ProbeStep::Silent => Ok(ProbeStep::Silent),
    }
}

// Reads one node, of the indent and the mode of the topmost frame.
#[inline(always)]
#[tactic(auto, using(crate::proofs::Probes::looks, crate::proofs::Counting::looks_read))]
pub(crate) fn visit_one<N: Walk>(
    width: usize,
    line: &mut LineState,
    node: N,
    stack: &mut Stack<N>,
    is_texts: &mut bool,
) -> Result<ProbeStep<N>, AllocError>
    ensures answer { IfOk result (λ a. (ts : List Task) → ReadsAs N.tree width (read_in stack.new a)
        (tasks_fit width (with_next N.tree node stack.old ++ ts) line.old.column line.old.pending)
        (stack_of N.tree stack.new ++ ts) line.new.column line.new.pending) }
    ensures smaller { IfOk result (λ a. nodes_next N.tree (read_in stack.new a) + nodes (stack_of N.tree stack.new)
        < nodes (with_next N.tree node stack.old)) }
    ensures reads { IfOk result (λ a. (next : Column → Bool → ℕ)
        → reads_all false width (with_next N.tree node stack.old) next line.old.column line.old.pending
        ≡ 1 + reads_on N.tree false width (read_in stack.new a) (stack_of N.tree stack.new) next line.new.column line.new.pending) }
    ensures texts { IfOk result (λ a. IsTrue is_texts.new → IsTrue is_texts.old × ((d : Tree)
        → IsTextsIf d (with_next N.tree node stack.old) → TextsAt N.tree d (read_in stack.new a) (stack_of N.tree stack.new))) }
    ensures room { OnOk result (room_of stack.old ≤ room_of stack.new) }
    ensures waiting { IfOk result (λ a. IsTrue is_texts.new → RoomAt N.tree (tasks_waiting (with_next N.tree node stack.old))
        (room_of stack.new) (read_in stack.new a) (stack_of N.tree stack.new)) }
{
    match node.view() {
        View::Two(Pair::Append, first, second) => {
            stack.put_in(second)?;
            Ok(ProbeStep::Next(first))
        }
        View::Text(s) => {
            if line.read_text(width, s) {
                Ok(ProbeStep::Silent)
            } else {
                Ok(ProbeStep::Answer(false))
            }
        }
        View::Two(Pair::BreakOrFlat, broken, flat) => Ok(ProbeStep::Next(either(
            stack.mode_in(),
            broken,
            flat,
        ))),
        View::One(Single::Indented(Indenting::Nest(offset)), inner) => {
            stack.enter(nested_indent(stack.indent_in(), offset), stack.mode_in())?;
            Ok(ProbeStep::Next(inner))
        }
        View::One(Single::Group, inner) => Ok(ProbeStep::Next(inner)),
        View::HardLine => Ok(ProbeStep::Answer(read_line_end(width, &line.get(), stack.mode_in()))),
        View::Nil => Ok(ProbeStep::Silent),
        // Where nodes have no summaries, choices are seldom met, and documents without one took a twelfth longer with this arm.
        View::Two(Pair::Chosen(ChoiceTest::OnColumn(test)), first, second) if N::has_summaries() =>
            {
                *is_texts = either(stack.mode_in(), *is_texts, false);
                let column = line.get().column;
                Ok(ProbeStep::Next(by_column(test, column, stack.indent_in(), first, second)))
            }
        // One that is met flat is no text.
        _ => {
            let mode = stack.mode_in();
            let mut other = line.get();
            let read = visit_other(width, &mut other, node, stack)?;
            *line = LineState::at(other);
            *is_texts = either(mode, *is_texts, false);
            Ok(read)
        }
    }
}
