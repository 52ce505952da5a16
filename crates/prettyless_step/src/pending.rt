//! Pending line suffixes, and their way back to the commands.
//! This file knows the printer's state, and no sink: the gap that is to be written is an answer.
ghost use Rattle.std.specs.Prelude.{◌≡◌, ◌++◌, IfOk, OnOk};
ghost use Rattle.prettyless_model.specs.Column.{gap as gap_of};
ghost use Rattle.prettyless_model.specs.Layout.{flushed, some_pending};
ghost use Rattle.prettyless_probe.specs.Stack.{tasks};
ghost use Rattle.prettyless_step.specs.Printing.{PrinterGrows, state_of, tasks_of};
ghost use Rattle.prettyless_probe.specs.Sums.{IsSummed};

use crate::printer::Printer;
use prettyless_model::mode::Mode;
use prettyless_probe::walk::Walk;
use std::alloc::AllocError;

/// Whether a line suffix is pending.
#[tactic(auto, using(crate::proofs::Queues::queues))]
pub fn is_pending<N: Walk>(printer: &Printer<N>) -> bool
    ensures { result ≡ some_pending (state_of N.tree printer.now).pending }
{
    printer.queue.is_pending()
}

/// Makes the pending line suffixes the next commands, in their order. The line's gap is to be written before them, as before
/// content: it is the answer, in spaces.
///
/// It fails where memory is refused. The options stay then, the queue keeps its suffixes, and no more is promised.
#[tactic(auto, using(crate::proofs::Queues::queues))]
pub fn take_pending<N: Walk>(
    printer: &mut Printer<N>,
    indent: usize,
    mode: Mode,
) -> Result<usize, AllocError>
    ensures gap { IfOk result (λ gap. gap ≡ gap_of printer.old.column) }
    ensures options { printer.new.options ≡ printer.old.options }
    ensures stack { OnOk result (tasks_of N.tree printer.new
        ≡ tasks indent mode (state_of N.tree printer.old).pending ++ tasks_of N.tree printer.old) }
    ensures state { OnOk result (state_of N.tree printer.new ≡ flushed printer.old.options (state_of N.tree printer.old)) }
    ensures grows { PrinterGrows printer.old printer.new }
    ensures summed { OnOk result (IsSummed N.HAS_SUMMARIES N.tree printer.old.commands
        → IsSummed N.HAS_SUMMARIES N.tree printer.new.commands) }
{
    let gap = printer.column.gap();
    let fits = printer.column.padding_fits(printer.options.width, true);
    printer
        .commands
        .push_each(indent, mode, printer.queue.pending())?;
    printer.queue.clear_pending();
    printer.within = printer.within && fits;
    printer.column = printer.column.committed(0);
    Ok(gap)
}
