//! What texts and payloads do to the column.
//! This file knows the printer's state, and no sink: what is to be written is an answer.
ghost use Rattle.std.specs.Prelude.{◌≡◌};
ghost use Rattle.prettyless_model.specs.Layout.{after_payload as after_payload_of, lay_payload, lay_text, payload_fits as payload_fits_of};
ghost use Rattle.prettyless_step.specs.Steps.{at_once};
ghost use Rattle.prettyless_step.specs.Printing.{Writes, state_of};
ghost use Rattle.prettyless_step.specs.Piece.{piece_bytes};

use crate::piece::Piece;
use crate::printer::Printer;
use prettyless_model::column::Column;
use prettyless_model::metrics::Metrics;
use prettyless_model::options::RenderOptions;
use prettyless_probe::walk::Walk;

/// Content of this counted width, in columns: the column moves past it, and `within` falls where that is past the width.
/// An empty text is nothing.
#[tactic(auto, using(crate::proofs::Queues::queues))]
pub fn put_text<'v, N: Walk>(printer: &mut Printer<N>, counted: usize, text: &'v str) -> Piece<'v>
    ensures writes { Writes N.tree (piece_bytes result)
        (at_once (lay_text printer.old.options counted text.now (state_of N.tree printer.old))) printer.old printer.new }
    ensures commands { printer.new.commands ≡ printer.old.commands }
    ensures queue { printer.new.queue ≡ printer.old.queue }
{
    if text.is_empty() {
        return Piece::Nothing;
    }
    let gap = printer.column.gap();
    printer.column = printer.column.committed(counted);
    if printer.column.position > printer.options.width {
        printer.within = false;
    }
    Piece::Text(gap, text)
}

/// Whether a payload fits the line: its first part ends within the width, or is empty, and no later one is wider.
pub fn payload_fits(options: RenderOptions, column: Column, metrics: Metrics) -> bool
    ensures { result ≡ payload_fits_of options metrics column }
{
    let first_fits = !metrics.first_nonempty
        || column.prospective().saturating_add(metrics.first_width) <= options.width;
    first_fits && metrics.rest_width <= options.width
}

// The column after a payload: that of its last part.
fn after_payload(metrics: Metrics) -> Column
    ensures { result ≡ after_payload_of metrics }
{
    if metrics.last_nonempty {
        return Column::start().committed(metrics.last_width);
    }
    Column::start()
}

/// A payload: the line's gap is written before it, unless its first part is empty.
#[tactic(auto, using(crate::proofs::Queues::queues))]
pub fn put_payload<'v, N: Walk>(
    printer: &mut Printer<N>,
    text: &'v str,
    metrics: Metrics,
) -> Piece<'v>
    ensures writes { Writes N.tree (piece_bytes result)
        (at_once (lay_payload printer.old.options metrics text.now (state_of N.tree printer.old))) printer.old printer.new }
    ensures commands { printer.new.commands ≡ printer.old.commands }
    ensures queue { printer.new.queue ≡ printer.old.queue }
{
    let gap = if metrics.first_nonempty {
        printer.column.gap()
    } else {
        0
    };
    printer.within = printer.within && payload_fits(printer.options, printer.column, metrics);
    printer.column = after_payload(metrics);
    Piece::Text(gap, text)
}
