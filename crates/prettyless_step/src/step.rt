//! What the visit of one node does.
//! This file knows nodes by `Walk` alone, and no trials and no sink. Only here are probes started.
ghost use Rattle.std.specs.Prelude.{◌≡◌, ◌≤◌, ◌<◌, ◌^◌, ◌&&◌, false, true, IfOk, IsFalse, IsTrue, OnOk};
ghost use Rattle.prettyless_model.specs.Tree.{Group, PartialUnion, Union};
ghost use Rattle.prettyless_model.specs.Content.{suffix_depth};
ghost use Rattle.prettyless_model.specs.Layout.{is_suppressed, lay_ending, some_pending, next_indent, probe as probe_of};
ghost use Rattle.prettyless_model.specs.declared.mode.Mode.TheVariants.{Break, Flat};
ghost use Rattle.prettyless_probe.specs.Stack.{room_of};
ghost use Rattle.prettyless_step.specs.Steps.{at_once, counted_payload, decided_by_metrics, is_rejected};
ghost use Rattle.prettyless_step.specs.Piece.{piece_bytes};
ghost use Rattle.prettyless_step.specs.Printing.{IsStopped, StartStays, TakesBreak, TakesStep, Writes, break_here, following, state_of};
ghost use Rattle.prettyless_probe.specs.Probing.{is_fit};
ghost use Rattle.prettyless_step.specs.Costs.{ProbeCostsHere, StepCostsHere};
ghost use Rattle.prettyless_probe.specs.Texts.{IsTexts, texts_waiting};
ghost use Rattle.prettyless_probe.specs.declared.probe.Fit.TheVariants.{FitsAsTexts};
ghost use Rattle.prettyless_probe.specs.Sums.{IsSummed};

use crate::content::{payload_fits, put_payload, put_text};
use crate::pending::{is_pending, take_pending};
use crate::piece::Piece;
use crate::printer::{Printer, StepResult};
use prettyless_model::choice::ChoiceTest;
use prettyless_model::column::Column;
use prettyless_model::count::one_more;
use prettyless_model::kind::{Pair, Single};
use prettyless_model::mode::Mode;
use prettyless_model::options::IndentationPolicy;
use prettyless_probe::choice::{by_column, by_nesting, either};
use prettyless_probe::line::ProbeLine;
use prettyless_probe::probe::{Fit, probe};
use prettyless_probe::walk::{View, Walk};
use prettyless_sink::visits::Visits;
use std::alloc::AllocError;

// Whether a node fits the line at this indent and in this mode, with the printer's commands following it. The loop of a probe is
// copied into it. It is not copied into the printer's loop itself: short probes took longer where it was.
#[inline(never)]
fn probe_here<N: Walk>(
    printer: &mut Printer<N>,
    node: N,
    indent: usize,
    mode: Mode,
    probes: &mut u64,
) -> Result<Fit, AllocError>
    requires { IsSummed N.HAS_SUMMARIES N.tree printer.old.commands }
    ensures answer { IfOk result (λ fit. is_fit fit ≡ probe_of printer.old.options (N.tree node) indent mode
        (following N.tree printer.old) (state_of N.tree printer.old)) }
    ensures texts { IfOk result (λ fit. fit ≡ FitsAsTexts → (mode ≡ Flat) × IsTexts (N.tree node)) }
    ensures room { IfOk result (λ fit. fit ≡ FitsAsTexts → texts_waiting (N.tree node) 0 ≤ room_of printer.new.scratch) }
    ensures others { printer.new ≡ record printer.old { scratch = printer.new.scratch } }
    ensures visits { ProbeCostsHere N.tree result N.HAS_SUMMARIES (N.tree node) indent mode printer.old probes.old probes.new }
{
    let start = ProbeLine {
        column: printer.column,
        pending: is_pending(printer),
    };
    probe(
        printer.options.width,
        start,
        node,
        indent,
        mode,
        &printer.commands,
        &mut printer.scratch,
        probes,
    )
}

// What decides between the branches of a union before one is laid: the metrics of a first one that is a payload.
fn metrics_choice<N: Walk>(printer: &Printer<N>, first: &N) -> Option<bool>
    ensures { result ≡ decided_by_metrics printer.now.options (N.tree first.now) (state_of N.tree printer.now) }
{
    match first.view() {
        View::MultilineText(_, metrics) => Some(payload_fits(
            printer.options,
            printer.column,
            metrics,
        )),
        _ => None,
    }
}

// The end of a line, and the indent of the next.
#[tactic(auto, using(crate::proofs::Queues::queues))]
fn end_line<N: Walk>(printer: &mut Printer<N>, indent: usize) -> Piece<'static>
    ensures writes { Writes N.tree (piece_bytes result)
        (at_once (lay_ending printer.old.options printer.old.options.indentation_policy
        (next_indent indent (following N.tree printer.old)) (state_of N.tree printer.old)))
        printer.old printer.new }
    ensures commands { printer.new.commands ≡ printer.old.commands }
    ensures queue { printer.new.queue ≡ printer.old.queue }
{
    let next = printer.commands.next_indent(indent);
    let text = printer.options.line_ending.as_str();
    match printer.options.indentation_policy {
        IndentationPolicy::Eager => {
            printer.column = Column::indented(next);
            Piece::Line(text, next)
        }
        IndentationPolicy::Deferred => {
            printer.column = Column::deferred(next);
            Piece::Line(text, 0)
        }
    }
}

// The pending line suffixes come next, and after them the break again.
#[tactic(auto, using(prettyless_probe::proofs::Stacks::below_steps))]
fn flush_line<N: Walk>(
    printer: &mut Printer<N>,
    indent: usize,
    mode: Mode,
    node: N,
) -> Result<Piece<'static>, AllocError>
    requires pending { some_pending (state_of N.tree printer.old).pending ≡ true }
    requires summed { IsSummed N.HAS_SUMMARIES N.tree printer.old.commands }
    ensures writes { IfOk result (λ piece. Writes N.tree (piece_bytes piece)
        (break_here N.tree (N.tree node) indent mode printer.old) printer.old printer.new) }
    ensures summed { OnOk result (IsSummed N.HAS_SUMMARIES N.tree printer.new.commands) }
{
    printer.commands.push(indent, mode, node)?;
    let gap = take_pending(printer, indent, mode)?;
    Ok(Piece::Text(gap, ""))
}

// A break: a hard one, or a weak one, which is nothing at the beginning of a line where no suffix is pending.
#[inline(always)]
fn break_line<N: Walk>(
    printer: &mut Printer<N>,
    indent: usize,
    mode: Mode,
    node: N,
    weak: bool,
) -> Result<StepResult<'static, N>, AllocError>
    requires suppressed { is_suppressed (N.tree node) printer.old.column ≡ (weak && printer.old.column.fresh) }
    requires summed { IsSummed N.HAS_SUMMARIES N.tree printer.old.commands }
    ensures step { TakesBreak N.tree result (N.tree node) indent mode printer.old printer.new }
    ensures queue { some_pending (state_of N.tree printer.old).pending ≡ false → printer.new.queue ≡ printer.old.queue }
    ensures start { OnOk result (StartStays N.tree printer.old printer.new) }
    ensures past { IfOk result (λ taken. IsStopped taken → ⊥) }
    ensures summed { OnOk result (IsSummed N.HAS_SUMMARIES N.tree printer.new.commands) }
{
    if is_pending(printer) {
        return Ok(StepResult::Emit(flush_line(printer, indent, mode, node)?));
    }
    if weak && printer.column.fresh {
        return Ok(StepResult::Silent);
    }
    Ok(StepResult::Emit(end_line(printer, indent)))
}

// Whether probes have visited more nodes than a limit, which with the greatest one they never have.
#[inline(always)]
fn is_past_limit(probes: u64, limit: u64) -> bool
    ensures past { IsTrue result → (limit < probes) × (probes < 2 ^ 64) }
    ensures within { IsFalse result → probes ≤ limit }
{
    probes > limit
}

// A group, whose document is laid flat where it fits. No probe is started where probes are past the limit.
#[inline(always)]
fn group<N: Walk>(
    printer: &mut Printer<N>,
    indent: usize,
    mode: Mode,
    inner: N,
    limit: u64,
    visits: &mut Visits,
) -> Result<StepResult<'static, N>, AllocError>
    requires { IsSummed N.HAS_SUMMARIES N.tree printer.old.commands }
    ensures step { TakesStep N.tree result (Group (N.tree inner)) indent mode printer.old printer.new }
    ensures visits { StepCostsHere N.tree result N.HAS_SUMMARIES
        (Group (N.tree inner)) indent mode printer.old limit visits.old visits.new }
    ensures queue { printer.new.queue ≡ printer.old.queue }
    ensures summed { OnOk result (IsSummed N.HAS_SUMMARIES N.tree printer.new.commands) }
{
    if let Mode::Break = mode {
        if is_past_limit(visits.probes, limit) {
            return Ok(StepResult::Shift);
        }
        match probe_here(printer, inner, indent, Mode::Flat, &mut visits.probes)? {
            // The groups inside are probed in turn: to spare that takes a variant of the answer, an argument and an invariant.
            Fit::Exceeds => return Ok(StepResult::Descend(indent, inner)),
            // A break alone is laid as soon by the printer's own loop.
            Fit::FitsAsTexts => match inner.view() {
                View::Two(Pair::BreakOrFlat, _, _) => return Ok(StepResult::DescendFlat(
                    indent, inner,
                )),
                _ => return Ok(StepResult::DescendTexts(indent, inner)),
            },
            Fit::Fits => return Ok(StepResult::DescendFlat(indent, inner)),
        }
    }
    Ok(StepResult::DescendFlat(indent, inner))
}

// A partial union: the first document where it fits. No probe is started where probes are past the limit.
#[inline(always)]
fn partial_union<N: Walk>(
    printer: &mut Printer<N>,
    indent: usize,
    mode: Mode,
    first: N,
    second: N,
    limit: u64,
    visits: &mut Visits,
) -> Result<StepResult<'static, N>, AllocError>
    requires { IsSummed N.HAS_SUMMARIES N.tree printer.old.commands }
    ensures step { TakesStep N.tree result (PartialUnion (N.tree first) (N.tree second)) indent mode printer.old printer.new }
    ensures visits { StepCostsHere N.tree result N.HAS_SUMMARIES
        (PartialUnion (N.tree first) (N.tree second)) indent mode printer.old limit visits.old visits.new }
    ensures queue { printer.new.queue ≡ printer.old.queue }
    ensures summed { OnOk result (IsSummed N.HAS_SUMMARIES N.tree printer.new.commands) }
{
    if let Mode::Flat = mode {
        return Ok(StepResult::Descend(indent, first));
    }
    let is_past = is_past_limit(visits.probes, limit);
    if is_past {
        return Ok(StepResult::Shift);
    }
    match probe_here(printer, first, indent, Mode::Break, &mut visits.probes)? {
        Fit::Exceeds => Ok(StepResult::Descend(indent, second)),
        Fit::Fits | Fit::FitsAsTexts => Ok(StepResult::Descend(indent, first)),
    }
}

// A union in Break: the metrics of its first branch decide, or a trial is needed. A payload that they reject is a visit.
#[inline(always)]
fn union<N: Walk>(
    printer: &mut Printer<N>,
    indent: usize,
    first: N,
    second: N,
    visits: &mut Visits,
) -> Result<StepResult<'static, N>, AllocError>
    ensures step { TakesStep N.tree result (Union (N.tree first) (N.tree second)) indent Break printer.old printer.new }
    ensures printer { visits.new.printer
        ≡ counted_payload (is_rejected (decided_by_metrics printer.old.options (N.tree first) (state_of N.tree printer.old)))
        visits.old.printer }
    ensures probes { visits.new.probes ≡ visits.old.probes }
    ensures past { IfOk result (λ taken. IsStopped taken → ⊥) }
    ensures others { printer.new ≡ printer.old }
{
    match metrics_choice(printer, &first) {
        Some(true) => Ok(StepResult::Descend(indent, first)),
        Some(false) => {
            visits.printer = one_more(visits.printer);
            Ok(StepResult::Descend(indent, second))
        }
        None => Ok(StepResult::Choice(indent, first, second)),
    }
}

/// Visits one node at an indent in a mode, with the printer's commands following it. It answers `Shift`, and changes
/// nothing, where the node needs a probe and probes have visited more nodes than the limit. What a probe visits is
/// counted in `visits`. So is a payload that its metrics reject as the first branch of a union. The node itself is not
/// counted.
///
/// It fails where memory is refused. What the printer has left is not known then, but the visits are counted.
#[inline(always)]
#[tactic(auto, using(crate::proofs::Queues::queues))]
pub fn step<'v, N: Walk>(
    printer: &mut Printer<N>,
    indent: usize,
    mode: Mode,
    node: &'v N,
    limit: u64,
    visits: &mut Visits,
) -> Result<StepResult<'v, N>, AllocError>
    requires { IsSummed N.HAS_SUMMARIES N.tree printer.old.commands }
    ensures step { TakesStep N.tree result (N.tree node.now) indent mode printer.old printer.new }
    ensures visits { StepCostsHere N.tree result N.HAS_SUMMARIES (N.tree node.now) indent mode printer.old limit visits.old visits.new }
    ensures queue { suffix_depth (N.tree node.now) ≡ 0 → some_pending (state_of N.tree printer.old).pending ≡ false
        → printer.new.queue ≡ printer.old.queue }
    ensures start { OnOk result (StartStays N.tree printer.old printer.new) }
    ensures summed { OnOk result (IsSummed N.HAS_SUMMARIES N.tree printer.new.commands) }
{
    match node.view() {
        View::Nil | View::ExpandParent => Ok(StepResult::Silent),
        View::Fail => Ok(StepResult::Failed),
        View::Text(s) => Ok(StepResult::Emit(put_text(printer, s.len(), s))),
        View::TextWithLen(counted, s) => Ok(StepResult::Emit(put_text(printer, counted, s))),
        View::MultilineText(s, metrics) => match mode {
            Mode::Break => Ok(StepResult::Emit(put_payload(printer, s, metrics))),
            Mode::Flat => Ok(StepResult::Failed),
        },
        View::WeakSpace => {
            if !printer.column.fresh {
                printer.column.padding = printer.column.padding.saturating_add(1);
            }
            Ok(StepResult::Silent)
        }
        View::HardLine => match mode {
            Mode::Break => break_line(printer, indent, mode, *node, false),
            Mode::Flat => Ok(StepResult::Failed),
        },
        View::WeakLine => break_line(printer, indent, mode, *node, true),
        View::Two(Pair::Append, l, r) => {
            printer.commands.push(indent, mode, r)?;
            Ok(StepResult::Descend(indent, l))
        }
        View::One(Single::LineSuffix, d) => {
            printer.queue.push(d)?;
            Ok(StepResult::Silent)
        }
        View::One(Single::Indented(how), d) => Ok(StepResult::Descend(
            how.indent(indent, printer.column),
            d,
        )),
        View::One(Single::Flatten, d) => Ok(StepResult::DescendFlat(indent, d)),
        View::Two(Pair::BreakOrFlat, b, f) => Ok(StepResult::Descend(indent, either(mode, b, f))),
        View::One(Single::Group, d) => group(printer, indent, mode, d, limit, visits),
        View::Two(Pair::Union, l, r) => match mode {
            Mode::Break => union(printer, indent, l, r, visits),
            Mode::Flat => Ok(StepResult::DescendFlat(indent, l)),
        },
        View::Two(Pair::PartialUnion, l, r) => {
            partial_union(printer, indent, mode, l, r, limit, visits)
        }
        View::Two(Pair::Chosen(ChoiceTest::OnColumn(test)), l, r) => {
            Ok(StepResult::Descend(indent, by_column(test, printer.column, indent, l, r)))
        }
        View::Two(Pair::Chosen(ChoiceTest::OnNesting(test)), l, r) => Ok(StepResult::Descend(
            indent,
            by_nesting(test, indent, l, r),
        )),
    }
}
