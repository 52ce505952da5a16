//! A document that fits and is its texts alone is laid by a loop of its own, without frames, modes and tests of the width.
//! This file knows nodes by `Walk` alone, and no steps and no trials.
ghost use Rattle.std.specs.Prelude.{◌≡◌, ◌+◌, ◌≤◌, ◌∷◌, [], ℕ, OnOk, vec_capacity};
ghost use Rattle.prettyless_model.specs.Tree.{size};
ghost use Rattle.prettyless_model.specs.declared.mode.Mode.TheVariants.{Flat};
ghost use Rattle.prettyless_probe.specs.Stack.{make_task, room_of};
ghost use Rattle.prettyless_probe.specs.Texts.{IsTexts, texts_waiting};
ghost use Rattle.prettyless_printer.specs.Points.{Point, point, seen, standing, state_at};
ghost use Rattle.prettyless_printer.specs.Turns.{Advances};
ghost use Rattle.prettyless_printer.specs.Laying.{Laying, ends_turn, laid_to};
ghost use Rattle.prettyless_printer.specs.CourseOf.{after_texts};

use prettyless_model::column::Column;
use prettyless_model::count::one_more;
use prettyless_model::kind::Pair;
use prettyless_probe::walk::{View, Walk};
use prettyless_sink::pieces::write_gap_and_text;
use prettyless_sink::render::Render;
use prettyless_sink::visits::Visits;
use prettyless_step::printer::Printer;
use std::alloc::AllocError;

// Leaves the printer at the position where texts end, if one of them was not empty.
#[inline(always)]
fn leave_at<N: Walk>(printer: &mut Printer<N>, is_written: bool, position: usize)
    ensures stands { standing N.tree printer.new ≡ laid_to (standing N.tree printer.old) is_written position }
    ensures commands { printer.new.commands ≡ printer.old.commands }
    ensures queue { printer.new.queue ≡ printer.old.queue }
{
    if is_written {
        printer.column = Column {
            position,
            indent: 0,
            padding: 0,
            fresh: false,
        };
        printer.within = printer.within && position <= printer.options.width;
    }
}

/// Makes room for the nodes that wait while a document is laid as its texts: as much as the probe had that found it to be so.
#[inline(always)]
pub(crate) fn make_room<N: Walk>(printer: &mut Printer<N>) -> Result<(), AllocError>
    ensures empty { printer.new.flat.items ≡ [] }
    ensures room { OnOk result (room_of printer.old.scratch ≤ vec_capacity printer.new.flat) }
    ensures others { printer.new ≡ record printer.old { flat = printer.new.flat } }
{
    printer.flat.clear();
    printer.flat.reserve(printer.scratch.room())
}

/// Lays a document that fits and is its texts alone, flat, as the end of a turn. Each of its nodes that is laid is a visit. There is room
/// for the nodes that wait, so it fails only where the sink does.
#[inline(never)]
pub(crate) fn lay_texts<N: Walk, W: Render>(
    printer: &mut Printer<N>,
    out: &mut W,
    first: N,
    visits: &mut Visits,
) -> Result<(), W::Error>
    requires texts { IsTexts (N.tree first) }
    requires empty { printer.old.flat.items ≡ [] }
    requires room { texts_waiting (N.tree first) 0 ≤ vec_capacity printer.old.flat }
    ensures lays { (a : Point) (i : ℕ) → Laying a (make_task i Flat (N.tree first) ∷ [])
        (point N.tree printer.old (seen W.bytes W.failures W.lender out.old) visits.old) →
        Advances N.tree a (point N.tree printer.new (seen W.bytes W.failures W.lender out.new) visits.new) (ends_turn result) }
    ensures commands { printer.new.commands ≡ printer.old.commands }
    ensures queue { printer.new.queue ≡ printer.old.queue }
    ensures rises { visits.old.printer ≤ visits.new.printer }
    ensures counted { visits.new.printer ≤ visits.old.printer + size (N.tree first) }
    ensures probes { visits.new.probes ≡ visits.old.probes }
    ensures state { OnOk result (state_at (standing N.tree printer.new)
        ≡ after_texts printer.old.options (N.tree first) (state_at (standing N.tree printer.old))) }
{
    let mut gap = printer.column.gap();
    let mut position = printer.column.prospective();
    let mut is_written = false;
    let mut count = visits.printer;
    let mut node = first;
    'nodes: loop {
        count = one_more(count);
        match node.view() {
            View::Two(Pair::Append, l, r) => {
                printer.flat.push_reserved(r);
                node = l;
                continue 'nodes;
            }
            View::Two(Pair::BreakOrFlat, _, flat) => {
                node = flat;
                continue 'nodes;
            }
            View::One(_, inner) => {
                node = inner;
                continue 'nodes;
            }
            View::Text(s) => {
                if !s.is_empty() {
                    position = position.saturating_add(s.len());
                    is_written = true;
                    if let Err(e) = write_gap_and_text(out, gap, s) {
                        visits.printer = count;
                        return Err(e);
                    }
                    gap = 0;
                }
            }
            View::Nil => {}
            _ => unreachable!(),
        }
        let Some(next) = printer.flat.pop() else {
            visits.printer = count;
            leave_at(printer, is_written, position);
            return Ok(());
        };
        node = next;
    }
}
