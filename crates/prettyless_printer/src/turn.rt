//! A turn: the next command is stepped, and so is each node that a step leads to; the last one is written.
//! It knows steps and sinks, and no trials.
ghost use Rattle.std.specs.Prelude.{◌≡◌, ◌<◌, [], length, IfOk, OnOk};
ghost use Rattle.prettyless_step.specs.Printing.{tasks_of};
ghost use Rattle.prettyless_probe.specs.Sums.{IsSummed};
ghost use Rattle.prettyless_printer.specs.Points.{point, seen, standing, state_at};
ghost use Rattle.prettyless_printer.specs.Course.{Around};
ghost use Rattle.prettyless_printer.specs.CourseOf.{TrialGoesOn, TurnCourse, place_at};
ghost use Rattle.prettyless_printer.specs.Visits.{Plain, visited_more};
ghost use Rattle.prettyless_printer.specs.Spending.{Spends, after_turn, left, rule_of};
ghost use Rattle.prettyless_printer.specs.Due.{PaysTurn, StartStaysBy, due, unions_due};
ghost use Rattle.prettyless_printer.specs.Turns.{Advances, StopsPast};

use crate::answer::{Choice, TurnResult};
use crate::flat_texts::{lay_texts, make_room};
use prettyless_model::count::one_more;
use prettyless_model::mode::Mode;
use prettyless_probe::walk::Walk;
use prettyless_sink::error::RenderError;
use prettyless_sink::render::Render;
use prettyless_sink::visits::Visits;
use prettyless_step::piece::write_piece;
use prettyless_step::printer::{Printer, StepResult};
use prettyless_step::step::step;

// Adds so many nodes to those that the printer visited.
#[inline(always)]
fn count_more(visits: &mut Visits, count: u64)
    ensures more { visits.new ≡ visited_more count visits.old }
{
    visits.printer = visits.printer.saturating_add(count);
}

/// Takes the next command, steps down to a node that leads to no other, and writes what that one gives.
/// Each of these nodes is a visit, and so is a payload that a step rejects. Before a node that needs a probe it stops if probes have
/// visited more nodes than the limit (`TurnResult::Shift`).
///
/// `Memory` is answered where memory was refused: nothing was written then. `Sink` is answered where the sink failed:
/// a beginning of what was to be laid was written then. Both hold where the sink's bytes are known. A node that fails
/// is no error, but the result `Failed`.
#[inline(always)]
pub fn turn<N: Walk, W: Render>(
    printer: &mut Printer<N>,
    out: &mut W,
    limit: u64,
    visits: &mut Visits,
) -> Result<TurnResult<N>, RenderError<W::Error>>
    requires some { 0 < length (tasks_of N.tree printer.old) }
    requires summed { IsSummed N.HAS_SUMMARIES N.tree printer.old.commands }
    ensures advances { Advances N.tree
        (point N.tree printer.old (seen W.bytes W.failures W.lender out.old) visits.old)
        (point N.tree printer.new (seen W.bytes W.failures W.lender out.new) visits.new) result }
    ensures past { IfOk result (λ t. StopsPast limit visits.new.probes t) }
    ensures spends { Plain (standing N.tree printer.old) → Spends
        (rule_of N.HAS_SUMMARIES limit)
        (left (standing N.tree printer.old) [] visits.old)
        (after_turn N.tree (standing N.tree printer.new) visits.new result) }
    ensures course { (u : Around) → u.has ≡ N.HAS_SUMMARIES
        → TrialGoesOn u (tasks_of N.tree printer.old) (state_at (standing N.tree printer.old))
        → TurnCourse N.tree printer.old.options (place_at (standing N.tree printer.old) visits.old.probes u) u
        (standing N.tree printer.new) visits.new.probes result }
    ensures pays { unions_due (due (standing N.tree printer.old) visits.old) ≡ 0 → PaysTurn
        (rule_of N.HAS_SUMMARIES limit)
        (due (standing N.tree printer.old) visits.old) (standing N.tree printer.new) visits.new result }
    ensures start { StartStaysBy (standing N.tree printer.old) (standing N.tree printer.new) result }
    ensures summed { OnOk result (IsSummed N.HAS_SUMMARIES N.tree printer.new.commands) }
{
    let Some(command) = printer.commands.pop() else {
        unreachable!()
    };
    let mut indent = command.indent;
    let mut mode = command.mode;
    let mut node = command.node;
    // Once it is read, it is known to be a number of 64 bits.
    let _visited = visits.printer;
    let mut count = 0;
    'down: loop {
        match step(printer, indent, mode, &node, limit, visits) {
            Err(e) => {
                count_more(visits, one_more(count));
                return Err(RenderError::Memory(e));
            }
            Ok(StepResult::Shift) => {
                count_more(visits, count);
                return match printer.commands.push(indent, mode, node) {
                    Ok(()) => Ok(TurnResult::Shift),
                    Err(e) => Err(RenderError::Memory(e)),
                };
            }
            Ok(StepResult::Descend(next_indent, next)) => {
                indent = next_indent;
                node = next;
                count = one_more(count);
            }
            Ok(StepResult::DescendFlat(next_indent, next)) => {
                indent = next_indent;
                mode = Mode::Flat;
                node = next;
                count = one_more(count);
            }
            Ok(StepResult::DescendTexts(_, next)) => {
                count_more(visits, one_more(count));
                if let Err(e) = make_room(printer) {
                    return Err(RenderError::Memory(e));
                }
                return match lay_texts(printer, out, next, visits) {
                    Ok(()) => Ok(TurnResult::Complete),
                    Err(e) => Err(RenderError::Sink(e)),
                };
            }
            Ok(StepResult::Silent) => {
                count_more(visits, one_more(count));
                return Ok(TurnResult::Complete);
            }
            Ok(StepResult::Failed) => {
                count_more(visits, one_more(count));
                return Ok(TurnResult::Failed);
            }
            Ok(StepResult::Choice(indent, first, second)) => {
                count_more(visits, one_more(count));
                return Ok(TurnResult::Choice(Choice {
                    indent,
                    first,
                    second,
                }));
            }
            Ok(StepResult::Emit(piece)) => {
                count_more(visits, one_more(count));
                return match write_piece(out, piece) {
                    Ok(()) => Ok(TurnResult::Complete),
                    Err(e) => Err(RenderError::Sink(e)),
                };
            }
        }
    }
}
