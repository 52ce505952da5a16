//! Rendering a document to a sink. This file knows nodes by `Walk` alone, and no turns and no trials.
ghost use Rattle.std.specs.Prelude.{◌≡◌, ◌≤◌, IfOk, []};
ghost use Rattle.prettyless_model.specs.Tree.{size};
ghost use Rattle.prettyless_probe.specs.Sums.{IsSummed};
ghost use Rattle.prettyless_printer.specs.Points.{seen, standing};
ghost use Rattle.prettyless_printer.specs.Renders.{Begins, Renders};
ghost use Rattle.prettyless_printer.specs.CourseOf.{RenderCourse};
ghost use Rattle.prettyless_printer.specs.Linear.{BoundedByTable, IsLinear, IsLinearBound};

use crate::buffer::Buffer;
use crate::run::Run;
use crate::shift_policy::ROOM_AT_FIRST;
use crate::trial::Trials;
use prettyless_model::column::Column;
use prettyless_model::mode::Mode;
use prettyless_model::options::RenderOptions;
use prettyless_probe::stack::Stack;
use prettyless_probe::walk::Walk;
use prettyless_shift::refusal::Refusals;
use prettyless_sink::error::RenderError;
use prettyless_sink::render::Render;
use prettyless_sink::visits::{RenderCost, Visits};
use prettyless_step::printer::Printer;
use prettyless_step::queue::Queue;
use std::alloc::{AllocError, Global};

// A run before a document, with the visits before it.
fn run_before<N: Walk>(
    alloc: Global,
    node: N,
    options: RenderOptions,
    visits: Visits,
) -> Result<Run<N>, AllocError>
    ensures begins { IfOk result (λ r. Begins options (N.tree node) (standing N.tree r.printer)) }
    ensures none { IfOk result (λ r. r.trials.open.items ≡ []) }
    ensures visits { IfOk result (λ r. r.visits ≡ visits) }
    ensures start { IfOk result (λ r. r.printer.queue.start ≡ 0) }
    ensures summed { IfOk result (λ r. IsSummed N.HAS_SUMMARIES N.tree r.printer.commands) }
{
    let mut run = Run {
        alloc,
        printer: Printer {
            options,
            column: Column::start(),
            within: true,
            commands: Stack::new(alloc),
            scratch: Stack::new(alloc),
            flat: Vec::new(alloc),
            queue: Queue::new(alloc),
        },
        trials: Trials::new(alloc),
        buffer: Buffer::new(alloc),
        visits,
    };
    run.printer.commands.push(0, Mode::Break, node)?;
    Ok(run)
}

// Renders the document of a node to a sink, with so much room for a table of all its nodes from the first one on.
fn render_with_room<N: Walk, W: Render>(
    alloc: Global,
    node: N,
    options: RenderOptions,
    out: &mut W,
    cost: &mut RenderCost,
    room: u64,
) -> Result<(), RenderError<W::Error>>
    ensures renders { Renders (W.document_errors out.new) options (N.tree node)
        (seen W.bytes W.failures W.lender out.old) (seen W.bytes W.failures W.lender out.new)
        cost.old cost.new result }
    ensures course { RenderCourse N.HAS_SUMMARIES options (N.tree node) cost.old cost.new result }
    ensures twice { IsLinear (N.tree node) → size (N.tree node) ≤ room → cost.new.refused ≡ 0
        → IsLinearBound 2 0 (size (N.tree node)) cost.old.visits cost.new.visits }
{
    match run_before(alloc, node, options, cost.visits) {
        Ok(mut run) => {
            let mut refused = Refusals::none();
            let result = run.run_with_shift(out, room, &mut refused);
            *cost = RenderCost {
                visits: run.visits,
                refused: cost.refused.saturating_add(refused.total()),
            };
            result
        }
        Err(e) => Err(RenderError::Memory(e)),
    }
}

/// Renders the document of a node to a sink: what is written is its layout.
///
/// Where the sink's bytes are known: on success all of the layout was appended. `Document` is answered only where the
/// layout fails, after the bytes before the failing node. `Sink` is answered where the sink failed, once in this call,
/// and `Memory` where a growth was refused, which leaves the sink's failures as they were: what was appended then is a
/// beginning of the layout's bytes.
///
/// The nodes that are visited are added to `cost`, and so are the tables that are refused memory. On success the printer has
/// visited at least the nodes that the layout lays, and its probes at least one node for each probe that the layout needs; a
/// rejected branch counts nothing here. Without line suffixes the printer visits at most as many nodes as the document has, and
/// its probes together at most that many for each node that needs one. Where the document is linear too (`IsLinear`) and no table
/// was refused memory, probes visit at most sixteen nodes for each node of the document, and a thousand.
/// With line suffixes and without unions the printer visits at most a node more for each line suffix, and probes at most sixteen for each
/// of these, and a thousand, where the document is linear but for its line suffixes (`IsLinearButSuffixes`).
pub fn render<N: Walk, W: Render>(
    alloc: Global,
    node: N,
    options: RenderOptions,
    out: &mut W,
    cost: &mut RenderCost,
) -> Result<(), RenderError<W::Error>>
    ensures renders { Renders (W.document_errors out.new) options (N.tree node)
        (seen W.bytes W.failures W.lender out.old) (seen W.bytes W.failures W.lender out.new)
        cost.old cost.new result }
    ensures course { RenderCourse N.HAS_SUMMARIES options (N.tree node) cost.old cost.new result }
{
    render_with_room(alloc, node, options, out, cost, 0)
}

/// Renders the document of a node as `render` does, over a table of all of its nodes from the first one on: each probe takes two
/// visits where no choice by column or nesting stands in what it reads. A document that is rendered so takes two to four times as
/// long as most documents take without a table. It is rendered as by `render` where memory for the table is refused, and where it
/// has more than 1,048,576 nodes.
pub fn render_over_table<N: Walk, W: Render>(
    alloc: Global,
    node: N,
    options: RenderOptions,
    out: &mut W,
    cost: &mut RenderCost,
) -> Result<(), RenderError<W::Error>>
    ensures renders { Renders (W.document_errors out.new) options (N.tree node)
        (seen W.bytes W.failures W.lender out.old) (seen W.bytes W.failures W.lender out.new)
        cost.old cost.new result }
    ensures course { RenderCourse N.HAS_SUMMARIES options (N.tree node) cost.old cost.new result }
    ensures twice { BoundedByTable (N.tree node) cost.new.refused cost.old.visits cost.new.visits }
{
    render_with_room(alloc, node, options, out, cost, ROOM_AT_FIRST)
}
