//! Trials: a union's first branch is laid, and kept or rejected. They know turns, and no sink but the buffer.
ghost use Rattle.std.specs.Prelude.{◌≡◌, ◌≤◌, ◌<◌, [], ℕ, length, take, vec_len, IfOk, IsFalse, IsTrue, OnOk};
ghost use Rattle.std.specs.String.{string_bytes};
ghost use Rattle.std.specs.String.Boundary.{IsSplitPoint};
ghost use Rattle.prettyless_model.specs.Tree.{Tree};
ghost use Rattle.prettyless_probe.specs.Sums.{IsSummed};
ghost use Rattle.prettyless_printer.specs.Points.{buffer_seen, standing, trial_point};
ghost use Rattle.prettyless_printer.specs.Trials.{Trial, TrialTurns, Marks, Restores, TrialStopsPast};
ghost use Rattle.prettyless_printer.specs.Open.{BeginsTrial, TrialsEnd, Open, Opens, all_held, below_all, held_of};
ghost use Rattle.prettyless_printer.specs.CourseOf.{TrialCourses, TrialsCourse, around, open_waits, place_at};
ghost use Rattle.prettyless_printer.specs.Visits.{Plain};
ghost use Rattle.prettyless_printer.specs.Spending.{IsPlainTrial, Spends, SpendsAs, after_trial_turn, left_alone, left_of, rule_of};

use crate::answer::{Choice, TrialResult, TrialState, TurnResult};
use crate::buffer::Buffer;
use crate::run::Run;
use crate::turn::turn;
use prettyless_model::column::Column;
use prettyless_model::mode::Mode;
use prettyless_probe::walk::Walk;
use prettyless_sink::error::RenderError;
use prettyless_step::pending::is_pending;
use prettyless_step::printer::Printer;
use prettyless_step::queue::QueueMark;
use std::alloc::{AllocError, Global};

/// What a trial goes back to if its branch is rejected.
#[derive(Clone, Copy)]
pub struct Mark {
    /// How many commands are below the branch.
    pub commands: usize,
    /// How many line suffixes the queue had, and which were pending.
    pub queue: QueueMark,
    /// The column where the branch begins.
    pub column: Column,
    /// The printer's `within` before the trial.
    pub within: bool,
    /// How many bytes the buffer had.
    pub written: usize,
}

/// A trial that is open: its mark, and the second branch at its indent, which comes next if the first one is rejected.
#[derive(Drop)]
pub struct OpenTrial<N> {
    pub mark: Mark,
    /// The indent of both branches, in columns.
    pub indent: usize,
    pub second: N,
}

/// The trials that are open, each inside the one before it. All of them write to one buffer.
#[derive(Drop)]
pub struct Trials<N> {
    pub open: Vec<OpenTrial<N>>,
}

impl<N: Walk> Trials<N> {
    /// None is open. It takes no memory.
    pub fn new(alloc: Global) -> Self
        ensures { result.open.items ≡ [] }
    {
        Trials {
            open: Vec::new(alloc),
        }
    }

    /// Whether none is open.
    pub fn is_empty(&self) -> bool
        ensures none { IsTrue result → length self.now.open.items ≡ 0 }
        ensures some { IsFalse result → 0 < length self.now.open.items }
    {
        self.open.len() == 0
    }

    // How many commands are below the branch of the innermost one.
    #[inline(always)]
    fn below(&self) -> usize
        requires { 0 < length self.now.open.items }
        ensures { result ≡ below_all (all_held N.tree self.now.open.items) }
    {
        self.open[self.open.len() - 1].mark.commands
    }
}

fn mark_of<N: Walk>(printer: &Printer<N>, buffer: &Buffer) -> Mark
    ensures { Marks result (standing N.tree printer.now) (buffer_seen buffer.now) }
{
    Mark {
        commands: printer.commands.len(),
        queue: printer.queue.mark(),
        column: printer.column,
        within: printer.within,
        written: buffer.text.len(),
    }
}

// Goes back to where a trial began: nothing of it is left.
fn undo<N: Walk>(printer: &mut Printer<N>, mark: Mark, buffer: &mut Buffer)
    requires mark { mark.queue.len ≤ vec_len printer.old.queue.nodes }
    requires buffer { IsSplitPoint (string_bytes buffer.old.text) mark.written }
    ensures printer { Restores mark (standing N.tree printer.old) (standing N.tree printer.new) }
    ensures buffer { string_bytes buffer.new.text ≡ take mark.written (string_bytes buffer.old.text) }
    ensures failures { buffer.new.failures ≡ buffer.old.failures }
    ensures summed { IsSummed N.HAS_SUMMARIES N.tree printer.old.commands → IsSummed N.HAS_SUMMARIES N.tree printer.new.commands }
{
    printer.commands.cut(mark.commands);
    printer.queue.rewind(mark.queue);
    printer.column = mark.column;
    printer.within = mark.within;
    buffer.cut_to(mark.written);
}

fn memory_of(error: RenderError<AllocError>) -> AllocError {
    match error {
        RenderError::Document(e) => e,
        RenderError::Sink(e) => e,
        RenderError::Memory(e) => e,
    }
}

impl<N: Walk> Run<N> {
    /// Opens a trial of the first branch of a choice. The second branch waits.
    pub(crate) fn open_trial(&mut self, choice: Choice<N>) -> Result<(), AllocError>
        requires summed { IsSummed N.HAS_SUMMARIES N.tree self.old.printer.commands }
        ensures held { OnOk result (Opens N.tree choice.indent (N.tree choice.second) (standing N.tree self.old.printer)
            (buffer_seen self.old.buffer) (held_of N.tree self.old) (held_of N.tree self.new)) }
        ensures begun { OnOk result (BeginsTrial choice.indent (N.tree choice.first) (standing N.tree self.old.printer)
            (standing N.tree self.new.printer)) }
        ensures queue { self.new.printer.queue ≡ self.old.printer.queue }
        ensures others { self.new ≡ record self.old { printer = self.new.printer; trials = self.new.trials } }
        ensures summed { OnOk result (IsSummed N.HAS_SUMMARIES N.tree self.new.printer.commands) }
    {
        let mark = mark_of(&self.printer, &self.buffer);
        self.trials.open.push(OpenTrial {
            mark,
            indent: choice.indent,
            second: choice.second,
        })?;
        self.printer.within = true;
        self.printer
            .commands
            .push(choice.indent, Mode::Break, choice.first)
    }

    // One turn of the innermost trial; or its end, where it is over if the padding fits.
    fn advance(&mut self, limit: u64) -> Result<TrialState<N>, AllocError>
        requires some { 0 < length self.old.trials.open.items }
        requires summed { IsSummed N.HAS_SUMMARIES N.tree self.old.printer.commands }
        ensures courses { TrialTurns N.tree (below_all (held_of N.tree self.old)) (trial_point N.tree self.old)
            (trial_point N.tree self.new) result }
        ensures past { IfOk result (λ c. TrialStopsPast limit self.new.visits.probes c) }
        ensures spends { Plain (standing N.tree self.old.printer) → Spends (rule_of N.HAS_SUMMARIES limit)
            (left_alone N.tree self.old) (after_trial_turn N.tree (standing N.tree self.new.printer) self.new.visits result) }
        ensures course { TrialCourses N.tree (below_all (held_of N.tree self.old)) N.HAS_SUMMARIES (trial_point N.tree self.old)
            (trial_point N.tree self.new) result }
        ensures trials { self.new.trials ≡ self.old.trials }
        ensures summed { OnOk result (IsSummed N.HAS_SUMMARIES N.tree self.new.printer.commands) }
    {
        if self.printer.commands.len() <= self.trials.below() {
            if self
                .printer
                .column
                .padding_fits(self.printer.options.width, is_pending(&self.printer))
            {
                return Ok(TrialState::Complete);
            }
            return Ok(TrialState::Rejected);
        }
        match turn(&mut self.printer, &mut self.buffer, limit, &mut self.visits) {
            Err(e) => Err(memory_of(e)),
            Ok(TurnResult::Failed) => Ok(TrialState::Rejected),
            Ok(TurnResult::Complete) => {
                if self.printer.within {
                    return Ok(TrialState::Running);
                }
                Ok(TrialState::Rejected)
            }
            Ok(TurnResult::Choice(choice)) => Ok(TrialState::Choice(choice)),
            Ok(TurnResult::Shift) => Ok(TrialState::Shift),
        }
    }

    /// Resumes the open trials, each turn in the innermost one, until the outermost one is over, or before a node probes are past
    /// the limit. A trial lays its branch without what follows it but with that known. The branch is kept if it does not fail,
    /// nothing of it goes past the width, and at its end the padding fits; else all is as before, and the second branch comes next.
    /// A refusal of memory is an error, and never a reason to reject a branch.
    pub(crate) fn resume_trial(&mut self, limit: u64) -> Result<TrialResult, AllocError>
        requires open { (s : Trial) × (y : Tree) × Open s y (held_of N.tree self.old) (trial_point N.tree self.old) }
        requires summed { IsSummed N.HAS_SUMMARIES N.tree self.old.printer.commands }
        ensures ends { (s : Trial) (y : Tree) → Open s y (held_of N.tree self.old) (trial_point N.tree self.old)
            → TrialsEnd limit s y (trial_point N.tree self.new) (held_of N.tree self.new) result }
        ensures spends { (s : Trial) (y : Tree) → Open s y (held_of N.tree self.old) (trial_point N.tree self.old)
            → IsPlainTrial s y
            → SpendsAs (rule_of N.HAS_SUMMARIES limit) (left_of N.tree self.old) (left_of N.tree self.new) result }
        ensures course { (s : Trial) (y : Tree) (h : Open s y (held_of N.tree self.old) (trial_point N.tree self.old)) (refused : ℕ)
            → TrialsCourse self.old.printer.options (place_at (standing N.tree self.old.printer) self.old.visits.probes
            (around (open_waits s y (held_of N.tree self.old) (trial_point N.tree self.old) h) N.HAS_SUMMARIES refused))
            N.HAS_SUMMARIES refused s y (trial_point N.tree self.new) (held_of N.tree self.new) result }
        ensures summed { OnOk result (IsSummed N.HAS_SUMMARIES N.tree self.new.printer.commands) }
    {
        'work: loop {
            match self.advance(limit)? {
                TrialState::Running => {}
                TrialState::Shift => return Ok(TrialResult::Shift),
                TrialState::Complete => {
                    let Some(trial) = self.trials.open.pop() else {
                        unreachable!()
                    };
                    self.printer.within = trial.mark.within;
                    if self.trials.is_empty() {
                        return Ok(TrialResult::Kept);
                    }
                }
                TrialState::Rejected => {
                    let Some(trial) = self.trials.open.pop() else {
                        unreachable!()
                    };
                    undo(&mut self.printer, trial.mark, &mut self.buffer);
                    self.printer
                        .commands
                        .push(trial.indent, Mode::Break, trial.second)?;
                    if self.trials.is_empty() {
                        return Ok(TrialResult::Rejected);
                    }
                }
                TrialState::Choice(choice) => self.open_trial(choice)?,
            }
        }
    }
}
