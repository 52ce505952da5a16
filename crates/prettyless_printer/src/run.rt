//! The run: commands are laid into a sink until none is left, and then what is pending at the end.
//! It knows turns and trials, and no table.
ghost use Rattle.std.specs.Prelude.{◌≡◌, ◌^◌, ◌-◌, [], List, ℕ, OnOk};
ghost use Rattle.prettyless_model.specs.Tree.{Tree};
ghost use Rattle.prettyless_step.specs.Printing.{tasks_of};
ghost use Rattle.prettyless_probe.specs.Sums.{IsSummed};
ghost use Rattle.prettyless_printer.specs.Points.{Point, point_of, seen_by, standing};
ghost use Rattle.prettyless_printer.specs.Renders.{FlushesEnd, RunsToEnd};
ghost use Rattle.prettyless_printer.specs.Open.{held_of};
ghost use Rattle.prettyless_printer.specs.Course.{RunPlace, Waiting};
ghost use Rattle.prettyless_printer.specs.CourseOf.{ChoiceCourse, ComesToChoice, CommandsCourse, EndCourse, EndCourseOrStop, NoneFails};
ghost use Rattle.prettyless_printer.specs.CourseOf.{WaitWith, around, choice_waits, place_at};
ghost use Rattle.prettyless_printer.specs.Visits.{Plain};
ghost use Rattle.prettyless_printer.specs.Spending.{IsPlainChoice, Spends, SpendsAs, left_alone, left_choice, left_of, none_left, rule_of};
ghost use Rattle.prettyless_printer.specs.Due.{Pays, PaysRun, due_of, nothing_due, unions_due};
ghost use Rattle.prettyless_printer.specs.Runs.{RunReaches, InChoice, RunsToEndOrStops, ChoosesOrStops, RunsCommandsOrStops, station_of};

use crate::answer::{Choice, RunResult, TrialResult, TurnResult};
use crate::buffer::Buffer;
use crate::trial::Trials;
use crate::turn::turn;
use prettyless_model::mode::Mode;
use prettyless_probe::walk::Walk;
use prettyless_sink::error::RenderError;
use prettyless_sink::pieces::write_gap_and_text;
use prettyless_sink::render::Render;
use prettyless_sink::visits::Visits;
use prettyless_step::pending::{is_pending, take_pending};
use prettyless_step::printer::Printer;
use std::alloc::Global;

/// A run: all that it has left, and what it has visited. Its sink is the caller's.
#[derive(Drop)]
pub struct Run<N> {
    /// Where tables take their memory.
    pub alloc: Global,
    pub printer: Printer<N>,
    /// The trials that are open.
    pub trials: Trials<N>,
    /// What they wrote.
    pub buffer: Buffer,
    /// The visits so far, with those before the run.
    pub visits: Visits,
}

// At the end the pending line suffixes become the commands, and the line's gap is written, as before content. No trial goes back past
// that, so the queue forgets them.
fn flush_end<N: Walk, W: Render>(
    printer: &mut Printer<N>,
    out: &mut W,
) -> Result<(), RenderError<W::Error>>
    requires none { tasks_of N.tree printer.old ≡ [] }
    requires summed { IsSummed N.HAS_SUMMARIES N.tree printer.old.commands }
    ensures flushes { FlushesEnd (standing N.tree printer.old) (standing N.tree printer.new)
        (seen_by W.Render out.old) (seen_by W.Render out.new) result }
    ensures none { NoneFails result }
    ensures summed { OnOk result (IsSummed N.HAS_SUMMARIES N.tree printer.new.commands) }
    ensures start { OnOk result (printer.new.queue.start ≡ 0) }
{
    match take_pending(printer, 0, Mode::Break) {
        Err(e) => Err(RenderError::Memory(e)),
        Ok(gap) => {
            printer.queue.forget_laid();
            match write_gap_and_text(out, gap, "") {
                Ok(()) => Ok(()),
                Err(e) => Err(RenderError::Sink(e)),
            }
        }
    }
}

impl<N: Walk> Run<N> {
    // Resumes a choice whose trials are open. A branch that is kept goes to the sink in one piece.
    fn resume_choice<W: Render>(
        &mut self,
        out: &mut W,
        limit: u64,
    ) -> Result<RunResult, RenderError<W::Error>>
        requires open { (i : ℕ) × (x : Tree) × (y : Tree) × (a : Point)
            × InChoice i x y a (station_of N.tree self.old (seen_by W.Render out.old)) }
        requires summed { IsSummed N.HAS_SUMMARIES N.tree self.old.printer.commands }
        ensures settles { (i : ℕ) (x y : Tree) (a : Point) → InChoice i x y a (station_of N.tree self.old (seen_by W.Render out.old))
            → ChoosesOrStops limit i x y a (station_of N.tree self.new (seen_by W.Render out.new)) result }
        ensures spends { (i : ℕ) (x y : Tree) (a : Point) → InChoice i x y a (station_of N.tree self.old (seen_by W.Render out.old))
            → IsPlainChoice a.printer x y
            → SpendsAs (rule_of N.HAS_SUMMARIES limit) (left_of N.tree self.old) (left_of N.tree self.new) result }
        ensures course { (i : ℕ) (x y : Tree) (a : Point) (h : InChoice i x y a (station_of N.tree self.old (seen_by W.Render out.old)))
            (refused : ℕ) → ChoiceCourse self.old.printer.options (place_at (standing N.tree self.old.printer) self.old.visits.probes
            (around (choice_waits i x y a (station_of N.tree self.old (seen_by W.Render out.old)) h) N.HAS_SUMMARIES refused))
            N.HAS_SUMMARIES refused i x y a (station_of N.tree self.new (seen_by W.Render out.new)) result }
        ensures summed { OnOk result (IsSummed N.HAS_SUMMARIES N.tree self.new.printer.commands) }
    {
        match self.resume_trial(limit) {
            Err(e) => Err(RenderError::Memory(e)),
            Ok(TrialResult::Shift) => Ok(RunResult::Shift),
            Ok(TrialResult::Rejected) => Ok(RunResult::Finished),
            Ok(TrialResult::Kept) => match write_gap_and_text(out, 0, self.buffer.text.as_str()) {
                Ok(()) => Ok(RunResult::Finished),
                Err(e) => Err(RenderError::Sink(e)),
            },
        }
    }

    // Lays the branch of a union that its trial chooses, or stops in the trial.
    fn choose<W: Render>(
        &mut self,
        out: &mut W,
        choice: Choice<N>,
        limit: u64,
    ) -> Result<RunResult, RenderError<W::Error>>
        requires none { self.old.trials.open.items ≡ [] }
        requires summed { IsSummed N.HAS_SUMMARIES N.tree self.old.printer.commands }
        ensures settles { ChoosesOrStops limit choice.indent (N.tree choice.first) (N.tree choice.second)
            (point_of N.tree self.old (seen_by W.Render out.old)) (station_of N.tree self.new (seen_by W.Render out.new)) result }
        ensures spends { IsPlainChoice (standing N.tree self.old.printer) (N.tree choice.first) (N.tree choice.second)
            → SpendsAs (rule_of N.HAS_SUMMARIES limit)
            (left_choice choice.indent (N.tree choice.first) (N.tree choice.second) (standing N.tree self.old.printer) self.old.visits)
            (left_of N.tree self.new) result }
        ensures course { (b : RunPlace) (refused : ℕ) → ComesToChoice self.old.printer.options b (around [] N.HAS_SUMMARIES refused)
            choice.indent (N.tree choice.first) (N.tree choice.second) (standing N.tree self.old.printer) self.old.visits.probes
            → ChoiceCourse self.old.printer.options b N.HAS_SUMMARIES refused choice.indent (N.tree choice.first) (N.tree choice.second)
            (point_of N.tree self.old (seen_by W.Render out.old)) (station_of N.tree self.new (seen_by W.Render out.new)) result }
        ensures summed { OnOk result (IsSummed N.HAS_SUMMARIES N.tree self.new.printer.commands) }
    {
        self.buffer.text.clear();
        match self.open_trial(choice) {
            Err(e) => Err(RenderError::Memory(e)),
            Ok(()) => self.resume_choice(out, limit),
        }
    }

    // Runs commands until none is left, or before a node probes are past the limit. No trial is open between two of them: line
    // suffixes that were laid are forgotten there.
    fn run_commands<W: Render>(
        &mut self,
        out: &mut W,
        limit: u64,
    ) -> Result<RunResult, RenderError<W::Error>>
        requires none { self.old.trials.open.items ≡ [] }
        requires summed { IsSummed N.HAS_SUMMARIES N.tree self.old.printer.commands }
        ensures works { RunsCommandsOrStops (W.document_errors out.new) limit (point_of N.tree self.old (seen_by W.Render out.old))
            (station_of N.tree self.new (seen_by W.Render out.new)) result }
        ensures spends { Plain (standing N.tree self.old.printer)
            → SpendsAs (rule_of N.HAS_SUMMARIES limit) (left_alone N.tree self.old) (left_of N.tree self.new) result }
        ensures course { (refused : ℕ) → CommandsCourse self.old.printer.options
            (place_at (standing N.tree self.old.printer) self.old.visits.probes (around [] N.HAS_SUMMARIES refused))
            N.HAS_SUMMARIES refused (station_of N.tree self.new (seen_by W.Render out.new)) result }
        ensures pays { unions_due (due_of N.tree self.old) ≡ 0
            → PaysRun N.tree (rule_of N.HAS_SUMMARIES limit) self.old self.new result }
        ensures summed { OnOk result (IsSummed N.HAS_SUMMARIES N.tree self.new.printer.commands) }
    {
        'work: while self.printer.commands.len() > 0 {
            match turn(&mut self.printer, out, limit, &mut self.visits)? {
                TurnResult::Failed => return Err(RenderError::Document(out.fail_doc())),
                TurnResult::Complete => self.printer.queue.forget_laid(),
                TurnResult::Shift => return Ok(RunResult::Shift),
                TurnResult::Choice(choice) => match self.choose(out, choice, limit)? {
                    RunResult::Finished => self.printer.queue.forget_laid(),
                    RunResult::Shift => return Ok(RunResult::Shift),
                },
            }
        }
        Ok(RunResult::Finished)
    }

    // Lays the commands and then, round by round, the line suffixes that are pending at the end, as long as probes are not past
    // the limit.
    fn run_to_end<W: Render>(
        &mut self,
        out: &mut W,
        limit: u64,
    ) -> Result<RunResult, RenderError<W::Error>>
        requires none { self.old.trials.open.items ≡ [] }
        requires summed { IsSummed N.HAS_SUMMARIES N.tree self.old.printer.commands }
        ensures runs { RunsToEndOrStops (W.document_errors out.new) limit (point_of N.tree self.old (seen_by W.Render out.old))
            (station_of N.tree self.new (seen_by W.Render out.new)) result }
        ensures spends { Plain (standing N.tree self.old.printer)
            → SpendsAs (rule_of N.HAS_SUMMARIES limit) (left_alone N.tree self.old) (left_of N.tree self.new) result }
        ensures course { (refused : ℕ) → EndCourseOrStop self.old.printer.options
            (place_at (standing N.tree self.old.printer) self.old.visits.probes (around [] N.HAS_SUMMARIES refused))
            N.HAS_SUMMARIES refused (station_of N.tree self.new (seen_by W.Render out.new)) result }
        ensures pays { unions_due (due_of N.tree self.old) ≡ 0
            → PaysRun N.tree (rule_of N.HAS_SUMMARIES limit) self.old self.new result }
        ensures summed { OnOk result (IsSummed N.HAS_SUMMARIES N.tree self.new.printer.commands) }
    {
        'rounds: loop {
            match self.run_commands(out, limit)? {
                RunResult::Shift => return Ok(RunResult::Shift),
                RunResult::Finished => {
                    if !is_pending(&self.printer) {
                        return Ok(RunResult::Finished);
                    }
                    flush_end(&mut self.printer, out)?;
                }
            }
        }
    }

    /// Resumes the open trials, if there are any, and then runs to the end, as long as probes are not past the limit
    /// (`TurnResult::Shift`).
    pub(crate) fn resume<W: Render>(
        &mut self,
        out: &mut W,
        limit: u64,
    ) -> Result<RunResult, RenderError<W::Error>>
        requires comes { (a : Point) × RunReaches a (station_of N.tree self.old (seen_by W.Render out.old)) }
        requires summed { IsSummed N.HAS_SUMMARIES N.tree self.old.printer.commands }
        ensures runs { (a : Point) → RunReaches a (station_of N.tree self.old (seen_by W.Render out.old))
            → RunsToEndOrStops (W.document_errors out.new) limit a (station_of N.tree self.new (seen_by W.Render out.new)) result }
        ensures spends { (a : Point) → RunReaches a (station_of N.tree self.old (seen_by W.Render out.old)) → Plain a.printer
            → SpendsAs (rule_of N.HAS_SUMMARIES limit) (left_of N.tree self.old) (left_of N.tree self.new) result }
        ensures course { (ws : List Waiting) (refused : ℕ)
            → WaitWith (held_of N.tree self.old) (station_of N.tree self.old (seen_by W.Render out.old)) ws
            → EndCourseOrStop self.old.printer.options
            (place_at (standing N.tree self.old.printer) self.old.visits.probes (around ws N.HAS_SUMMARIES refused))
            N.HAS_SUMMARIES refused (station_of N.tree self.new (seen_by W.Render out.new)) result }
        ensures pays { self.old.trials.open.items ≡ [] → unions_due (due_of N.tree self.old) ≡ 0
            → PaysRun N.tree (rule_of N.HAS_SUMMARIES limit) self.old self.new result }
        ensures summed { OnOk result (IsSummed N.HAS_SUMMARIES N.tree self.new.printer.commands) }
    {
        if self.trials.is_empty() {
            return self.run_to_end(out, limit);
        }
        match self.resume_choice(out, limit)? {
            RunResult::Finished => self.run_to_end(out, limit),
            RunResult::Shift => Ok(RunResult::Shift),
        }
    }

    /// Runs to the end, however much probes visit.
    pub(crate) fn finish<W: Render>(&mut self, out: &mut W) -> Result<(), RenderError<W::Error>>
        requires comes { (a : Point) × RunReaches a (station_of N.tree self.old (seen_by W.Render out.old)) }
        requires summed { IsSummed N.HAS_SUMMARIES N.tree self.old.printer.commands }
        ensures ends { (a : Point) → RunReaches a (station_of N.tree self.old (seen_by W.Render out.old))
            → RunsToEnd (W.document_errors out.new) a (point_of N.tree self.new (seen_by W.Render out.new)) result }
        ensures spends { (a : Point) → RunReaches a (station_of N.tree self.old (seen_by W.Render out.old)) → Plain a.printer
            → Spends (rule_of N.HAS_SUMMARIES (2 ^ 64 - 1)) (left_of N.tree self.old) (none_left self.new.visits) }
        ensures course { (ws : List Waiting) (refused : ℕ)
            → WaitWith (held_of N.tree self.old) (station_of N.tree self.old (seen_by W.Render out.old)) ws
            → EndCourse self.old.printer.options
            (place_at (standing N.tree self.old.printer) self.old.visits.probes (around ws N.HAS_SUMMARIES refused))
            self.new.visits.probes refused result }
        ensures pays { self.old.trials.open.items ≡ [] → unions_due (due_of N.tree self.old) ≡ 0
            → Pays (rule_of N.HAS_SUMMARIES (2 ^ 64 - 1)) (due_of N.tree self.old) (nothing_due self.new.visits) }
    {
        match self.resume(out, u64::MAX)? {
            RunResult::Finished => Ok(()),
            RunResult::Shift => unreachable!(),
        }
    }
}
