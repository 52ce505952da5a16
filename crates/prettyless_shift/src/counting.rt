//! How many nodes a printer has left, and which of them take cells. This file knows a printer's state, and no table.
ghost use Rattle.std.specs.Prelude.{◌≡◌, ◌<◌, ◌≤◌, ◌++◌, IfOk, IfSome, MatchOption};
ghost use Rattle.prettyless_probe.specs.Stack.{trees};
ghost use Rattle.prettyless_table.specs.Owners.{all_owners};
ghost use Rattle.prettyless_shift.specs.Shift.{documents_left, nodes_left};

use prettyless_probe::walk::Walk;
use prettyless_step::printer::Printer;
use prettyless_table::refusal::TableRefused;
use prettyless_table::{count_commands, count_roots};
use std::alloc::Global;

/// How many nodes a printer has left, in its commands and its queue; those that take cells are listed after `owners`.
/// `None` is answered where there are more than `most`.
///
/// It fails where memory is refused. Nothing is promised of `owners` then, nor at `None`.
pub fn count_left<N: Walk>(
    alloc: Global,
    printer: &Printer<N>,
    owners: &mut Vec<N>,
    most: usize,
) -> Result<Option<usize>, TableRefused>
    ensures counted { IfOk result (λ o. MatchOption o
        (most < nodes_left N.tree printer.now)
        (λ n. (n ≡ nodes_left N.tree printer.now) × (n ≤ most))) }
    ensures listed { IfOk result (λ o. IfSome o (λ _. trees N.tree owners.new.items
        ≡ trees N.tree owners.old.items ++ all_owners (documents_left N.tree printer.now))) }
{
    let mut waiting = Vec::new(alloc);
    let Some(room) = count_commands(&printer.commands, most, owners, &mut waiting)? else {
        return Ok(None);
    };
    let Some(left) = count_roots(printer.queue.all(), room, owners, &mut waiting)? else {
        return Ok(None);
    };
    Ok(Some(most - left))
}
