//! The shift: what a run has left is stored in a table, and the run goes on over that.
//! It knows runs, trials and tables, and takes no turns.
ghost use Rattle.std.specs.Prelude.{◌≡◌, ℕ, ◌<◌, ◌≤◌, ◌+◌, ◌++◌, IfNone, IfOk, IfSome, MatchOption, OnErr, [], length, min};
ghost use Rattle.prettyless_step.specs.Printing.{tasks_of};
ghost use Rattle.prettyless_probe.specs.Stack.{nodes, trees};
ghost use Rattle.prettyless_probe.specs.Sums.{IsSummed};
ghost use Rattle.prettyless_table.specs.Cells.{CellsGrow, CellsAreSound};
ghost use Rattle.prettyless_table.specs.Owners.{Stand, all_owners};
ghost use Rattle.prettyless_shift.specs.Shift.{AreNodes};
ghost use Rattle.prettyless_printer.specs.Points.{Point, point_of, seen_by, standing};
ghost use Rattle.prettyless_printer.specs.Open.{all_held, run_documents, run_nodes, seconds};
ghost use Rattle.prettyless_printer.specs.Renders.{EndsAnywhere};
ghost use Rattle.prettyless_printer.specs.Runs.{RunReaches, station_of};
ghost use Rattle.prettyless_printer.specs.ShiftPolicy.{probe_factor, probe_grace};
ghost use Rattle.prettyless_printer.specs.Linear.{IsLinearBound, IsLinearStart};
ghost use Rattle.prettyless_printer.specs.Spending.{EndsOverTable, left_of};
ghost use Rattle.prettyless_printer.specs.CourseOf.{EndCourse, EndCourses, RefusedOnce, around, place_at, refused_after};
ghost use Rattle.prettyless_printer.specs.Due.{PaysOverTable, PaysToEnd, due_of, unions_due};

use crate::answer::RunResult;
use crate::buffer::Buffer;
use crate::run::Run;
use crate::shift_policy::ShiftPolicy;
use crate::trial::{OpenTrial, Trials};
use prettyless_probe::walk::Walk;
use prettyless_shift::refusal::{Refusals, ShiftRefused};
use prettyless_shift::{count_left, placed_printer, store_all};
use prettyless_sink::error::RenderError;
use prettyless_sink::render::Render;
use prettyless_table::refusal::{TableRefused, push};
use prettyless_table::{MOST_CELLS, Placed, Table, count};
use std::alloc::Global;
use std::mem::replace;

// Adds the second branches of open trials to a table that has the cells of their nodes, and answers their places, the outermost first.
fn store_seconds<N: Walk>(
    alloc: Global,
    trials: &Trials<N>,
    table: &mut Table<N>,
    waiting: &mut Vec<u32>,
) -> Result<Vec<u32>, TableRefused>
    requires sound { CellsAreSound N.tree table.old.cells.items }
    requires room { length table.old.cells.items + length trials.now.open.items ≤ 4294967294 }
    requires stand { Stand table.old.cells.items (seconds (all_held N.tree trials.now.open.items)) waiting.old.items }
    ensures grows { CellsGrow N.tree table.old.cells.items table.new.cells.items }
    ensures stored { IfOk result (λ places.
        AreNodes N.tree table.new.cells.items places.items (seconds (all_held N.tree trials.now.open.items))) }
{
    let mut places = Vec::new(alloc);
    let mut k = 0;
    'trials: while k < trials.open.len() {
        push(&mut places, table.add(trials.open[k].second, waiting)?)?;
        k += 1;
    }
    Ok(places)
}

// The open trials over a table in which their second branches stand at these places.
fn placed_trials<'t, N: Walk>(
    alloc: Global,
    trials: &Trials<N>,
    table: &'t Table<N>,
    places: &[u32],
) -> Result<Trials<Placed<'t, N>>, TableRefused>
    requires sound { CellsAreSound N.tree table.now.cells.items }
    requires laid { AreNodes N.tree table.now.cells.items places.now (seconds (all_held N.tree trials.now.open.items)) }
    ensures { IfOk result (λ t. all_held ⟦<Placed<'t, N> as Walk>⟧.tree t.open.items ≡ all_held N.tree trials.now.open.items) }
{
    let mut placed = Trials::new(alloc);
    let mut k = 0;
    'trials: while k < trials.open.len() {
        let trial = &trials.open[k];
        let over_table = OpenTrial {
            mark: trial.mark,
            indent: trial.indent,
            second: table.node(places[k]),
        };
        push(&mut placed.open, over_table)?;
        k += 1;
    }
    Ok(placed)
}

impl<N: Walk> Run<N> {
    // How many nodes are left, with the second branches of open trials; those that take cells are listed after `owners`. `None` is
    // answered where there are more than `most`: so nothing is stored in vain, and the table asks for its memory once.
    fn count_all(&self, owners: &mut Vec<N>, most: usize) -> Result<Option<usize>, TableRefused>
        ensures counted { IfOk result (λ o. MatchOption o (most < run_nodes N.tree self.now)
            (λ n. (n ≡ run_nodes N.tree self.now) × (n ≤ most))) }
        ensures listed { IfOk result (λ o. IfSome o (λ _. trees N.tree owners.new.items
            ≡ trees N.tree owners.old.items ++ all_owners (run_documents N.tree self.now))) }
    {
        let Some(mut counted) = count_left(self.alloc, &self.printer, owners, most)? else {
            return Ok(None);
        };
        let mut k = 0;
        'trials: while k < self.trials.open.len() {
            let second = self.trials.open[k].second;
            let Some(more) = count(self.alloc, second, owners, most - counted)? else {
                return Ok(None);
            };
            counted += more;
            k += 1;
        }
        Ok(Some(counted))
    }

    // Stores what is left in a table, with the second branches of open trials, and goes on over that to the end. `None` is answered
    // where it would have more nodes than there is room for, or than a table can have. Then nothing has changed, nor where memory
    // is refused for the table.
    #[inline(never)]
    fn shift<W: Render>(
        &mut self,
        out: &mut W,
        room: u64,
    ) -> Result<Option<Result<(), RenderError<W::Error>>>, ShiftRefused>
        requires comes { (a : Point) × RunReaches a (station_of N.tree self.old (seen_by W.Render out.old)) }
        ensures ended { IfOk result (λ o. IfSome o (λ r. (a : Point) → RunReaches a (station_of N.tree self.old (seen_by W.Render out.old))
            → EndsOverTable (W.document_errors out.new) a (left_of N.tree self.old) (seen_by W.Render out.new) self.new.visits r)) }
        ensures course { IfOk result (λ o. IfSome o (λ r.
            EndCourses N.HAS_SUMMARIES (station_of N.tree self.old (seen_by W.Render out.old)) self.new.visits.probes r)) }
        ensures pays { IfOk result (λ o. IfSome o (λ _. PaysOverTable N.tree self.old self.new.visits)) }
        ensures large { IfOk result (λ o. IfNone o (min room 4294967294 < run_nodes N.tree self.old)) }
        ensures none { IfOk result (λ o. IfNone o ((out.new ≡ out.old) × (self.new ≡ self.old))) }
        ensures refused { OnErr result ((out.new ≡ out.old) × (self.new ≡ self.old)) }
    {
        let alloc = self.alloc;
        let most = (room as usize).min(MOST_CELLS);
        let mut owners = Vec::new(alloc);
        let Some(nodes) = self.count_all(&mut owners, most)? else {
            return Ok(None);
        };
        let mut table = Table::with_room(alloc, nodes)?;
        let mut waiting = table.fill(alloc, owners)?;
        let places = store_all(alloc, &self.printer, &mut table, &mut waiting)?;
        let seconds = store_seconds(alloc, &self.trials, &mut table, &mut waiting)?;
        let printer = placed_printer(alloc, &self.printer, &table, &places)?;
        let trials = placed_trials(alloc, &self.trials, &table, &seconds)?;
        let buffer = replace(&mut self.buffer, Buffer::new(alloc));
        let mut placed = Run {
            alloc,
            printer,
            trials,
            buffer,
            visits: self.visits,
        };
        let ended = placed.finish(out);
        self.visits = placed.visits;
        Ok(Some(ended))
    }

    // Shifts where there is any room. A table that is refused memory is counted.
    fn try_shift<W: Render>(
        &mut self,
        out: &mut W,
        room: u64,
        refused: &mut Refusals,
    ) -> Option<Result<(), RenderError<W::Error>>>
        requires comes { (a : Point) × RunReaches a (station_of N.tree self.old (seen_by W.Render out.old)) }
        ensures ended { IfSome result (λ r. (a : Point) → RunReaches a (station_of N.tree self.old (seen_by W.Render out.old))
            → EndsOverTable (W.document_errors out.new) a (left_of N.tree self.old) (seen_by W.Render out.new) self.new.visits r) }
        ensures course { IfSome result (λ r.
            EndCourses N.HAS_SUMMARIES (station_of N.tree self.old (seen_by W.Render out.old)) self.new.visits.probes r) }
        ensures made { IfSome result (λ _. refused.new ≡ refused.old) }
        ensures refuses { RefusedOnce room refused.old refused.new }
        ensures pays { IfSome result (λ _. PaysOverTable N.tree self.old self.new.visits) }
        ensures large { IfNone result (0 < room → refused.new ≡ 0 → min room 4294967294 < run_nodes N.tree self.old) }
        ensures none { IfNone result ((out.new ≡ out.old) × (self.new ≡ self.old)) }
        ensures rises { refused.old ≤ refused.new }
    {
        if room == 0 {
            return None;
        }
        match self.shift(out, room) {
            Ok(Some(ended)) => Some(ended),
            Ok(None) => None,
            Err(refusal) => {
                refused.count(refusal);
                None
            }
        }
    }

    /// Runs to the end, over a table from where that is worth it, and from the first node on where there is room for all nodes at
    /// first. Tables that are refused memory are counted.
    pub(crate) fn run_with_shift<W: Render>(
        &mut self,
        out: &mut W,
        room_at_first: u64,
        refused: &mut Refusals,
    ) -> Result<(), RenderError<W::Error>>
        requires none { self.old.trials.open.items ≡ [] }
        requires summed { IsSummed N.HAS_SUMMARIES N.tree self.old.printer.commands }
        ensures ends { EndsAnywhere (W.document_errors out.new) (point_of N.tree self.old (seen_by W.Render out.old))
            (seen_by W.Render out.new) self.new.visits result }
        ensures course { (before : ℕ) → EndCourse self.old.printer.options
            (place_at (standing N.tree self.old.printer) self.old.visits.probes
            (around [] N.HAS_SUMMARIES (refused_after before refused.old)))
            self.new.visits.probes (refused_after before refused.new) result }
        ensures rises { refused.old ≤ refused.new }
        ensures few { IsLinearStart (standing N.tree self.old.printer) → refused.new ≡ 0
            → IsLinearBound probe_factor probe_grace (nodes (tasks_of N.tree self.old.printer)) self.old.visits self.new.visits }
        ensures twice { IsLinearStart (standing N.tree self.old.printer) → refused.new ≡ 0 → 0 < room_at_first
            → nodes (tasks_of N.tree self.old.printer) ≤ room_at_first
            → IsLinearBound 2 0 (nodes (tasks_of N.tree self.old.printer)) self.old.visits self.new.visits }
        ensures pays { unions_due (due_of N.tree self.old) ≡ 0 → self.old.printer.queue.start ≡ 0
            → PaysToEnd (due_of N.tree self.old) refused.new self.new.visits }
    {
        let mut policy = ShiftPolicy::new(self.visits);
        let mut room = room_at_first;
        'rounds: loop {
            if let Some(ended) = self.try_shift(out, room, refused) {
                return ended;
            }
            let limit = policy.limit(self.visits);
            match self.resume(out, limit)? {
                RunResult::Finished => return Ok(()),
                RunResult::Shift => room = policy.next_room(self.visits),
            }
        }
    }
}
