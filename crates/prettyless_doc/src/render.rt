//! Renders of a document.
ghost use Rattle.std.specs.Prelude.{◌≡◌, ◌≤◌, ⊤, false};
ghost use Rattle.std.specs.IoError.{error_kind};
ghost use Rattle.std.specs.declared.io.ErrorKind.TheVariants.{Other};
ghost use Rattle.prettyless_model.specs.Options.{options_at};
ghost use Rattle.prettyless_doc.specs.DocTree.{tree_of};
ghost use Rattle.prettyless_printer.specs.CourseOf.{RenderCourse};
ghost use Rattle.prettyless_doc.specs.Rendering.{CountsVisits, CountsVisitsOverTable, RendersDoc, RendersDocInto};

use crate::doc::{Doc, DocPtr};
use prettyless_model::options::RenderOptions;
use prettyless_printer::render;
use prettyless_sink::error::RenderError;
use prettyless_sink::fmt_write::FmtWrite;
use prettyless_sink::io_write::IoWrite;
use prettyless_sink::render::Render;
use prettyless_sink::text_writer::TextWriter;
use prettyless_sink::visits::{RenderCost, Visits};
use std::alloc::Global;
use std::{fmt, io};

/// Renders. `Ok` says that exactly the bytes of the layout were appended. Where the document fails, exactly the bytes
/// before its failing node were appended, and the error says that it fails. Where the sink fails or memory runs out, a
/// beginning of the layout's bytes was appended. All of this holds where the bytes of the sink or of the writer are
/// known; of others, as of one within `OpaqueWriter`, nothing is promised.
///
/// A width is in columns. Lines end in LF and indents are written at once, unless options say otherwise.
impl<'a, T: DocPtr<'a>> Doc<'a, T> {
    /// Renders to a sink. Each error says what was appended by then. Only where it is `Sink` do the sink's failures rise,
    /// by one (at their greatest value they stay).
    ///
    /// ```
    /// let options = RenderOptions::new(80).with_line_ending(LineEnding::Crlf);
    /// doc.render_raw_with(alloc, options, &mut FmtWrite::new(&mut text))?; // `text` grew by the layout
    /// ```
    pub fn render_raw_with<W: Render>(
        &self,
        alloc: Global,
        options: RenderOptions,
        out: &mut W,
    ) -> Result<(), RenderError<W::Error>>
        ensures { RendersDoc options (tree_of T.tree self.now) (W.document_errors out.new)
            (W.lender out.old) (W.lender out.new) (W.bytes out.old) (W.bytes out.new) (W.failures out.old) (W.failures out.new) result }
    {
        self.render_raw_observed_with(alloc, options, out, &mut RenderCost::default())
    }

    /// Renders to a sink as `render_raw_with` does, and adds to `cost` how many nodes are visited, and for how many
    /// tables there was no memory, also where the render fails. Take it to see what a render costs: it takes no more
    /// time or memory than that render.
    ///
    /// The visits have the bounds of `render_raw_counted_with`, but that of two visits a node. Those of probes are
    /// exactly what all probes of the render read, up to the greatest `u64`; where memory ran out in one, no more than
    /// it reads.
    ///
    /// ```
    /// let (options, mut cost) = (RenderOptions::new(80), RenderCost::default());
    /// doc.render_raw_observed_with(alloc, options, &mut FmtWrite::new(&mut text), &mut cost)?; // `text` grew by the layout
    /// ```
    pub fn render_raw_observed_with<W: Render>(
        &self,
        alloc: Global,
        options: RenderOptions,
        out: &mut W,
        cost: &mut RenderCost,
    ) -> Result<(), RenderError<W::Error>>
        ensures rendered { RendersDoc options (tree_of T.tree self.now) (W.document_errors out.new)
            (W.lender out.old) (W.lender out.new) (W.bytes out.old) (W.bytes out.new) (W.failures out.old) (W.failures out.new) result }
        ensures counts { CountsVisits options (tree_of T.tree self.now) cost.new.refused cost.old.visits cost.new.visits result }
        ensures refused { cost.old.refused ≤ cost.new.refused }
        ensures course { RenderCourse false options (tree_of T.tree self.now) cost.old cost.new result }
    {
        render::render(alloc, self, options, out, cost)
    }

    /// Renders to a sink as `render_raw_with` does, and adds to `visits` how many nodes are visited, also where the
    /// render fails. Take it for few visits, and `render_raw_observed_with` to see what the other calls cost.
    ///
    /// A document of at most 1,048,576 nodes is first stored in a table, where a node counts in each place that it has.
    /// Over that a probe reads what has no choice by column or nesting in two visits. Most documents take two to four
    /// times as long so. A larger one is rendered as by the other calls, and so is one whose table is refused memory.
    ///
    /// In a document with no line suffix the printer visits each node at most once, also where a trial is rejected.
    /// Each group and partial union starts at most one probe, which visits each node at most once.
    ///
    /// Take one that has no choice by column or nesting either, and fewer than 2^32 - 1 nodes. Then probes visit at most
    /// sixteen nodes for each of its nodes, and a thousand. Of at most 1,048,576 nodes they visit two for each. That
    /// holds where no table was refused memory, which the other call counts, and where the printer's count stays below the
    /// greatest `u64`.
    ///
    /// Take one with line suffixes and no union. Then the printer visits each node at most once, and once more, for each
    /// line suffix, the break before which that is laid: fewer than two visits for each node. Where it has no choice by
    /// column or nesting either, and its nodes and line suffixes together are fewer than 2^32 - 1, probes visit at most
    /// sixteen nodes for each of these visits, and a thousand, on the same two conditions.
    ///
    /// After `Ok` the printer has visited at least the nodes that the layout lays. Its probes have visited at least one
    /// node for each probe that the layout needs. Both hold up to the greatest `u64`. In this lower bound a rejected
    /// branch of a union counts nothing, and neither does the document of a line suffix. A branch that is kept counts.
    ///
    /// ```
    /// let (options, mut visits) = (RenderOptions::new(80), Visits::default());
    /// doc.render_raw_counted_with(alloc, options, &mut FmtWrite::new(&mut text), &mut visits)?; // `text` grew by the layout
    /// ```
    pub fn render_raw_counted_with<W: Render>(
        &self,
        alloc: Global,
        options: RenderOptions,
        out: &mut W,
        visits: &mut Visits,
    ) -> Result<(), RenderError<W::Error>>
        ensures rendered { RendersDoc options (tree_of T.tree self.now) (W.document_errors out.new)
            (W.lender out.old) (W.lender out.new) (W.bytes out.old) (W.bytes out.new) (W.failures out.old) (W.failures out.new) result }
        ensures counts { CountsVisitsOverTable options (tree_of T.tree self.now) visits.old visits.new result }
    {
        let mut cost = RenderCost {
            visits: *visits,
            refused: 0,
        };
        let result = render::render_over_table(alloc, self, options, out, &mut cost);
        *visits = cost.visits;
        result
    }

    /// Renders to a sink at this width, in columns, as `render_raw_with` does by `RenderOptions::new(width)`: with the same
    /// errors.
    ///
    /// ```
    /// doc.render_raw(alloc, 80, &mut FmtWrite::new(&mut text))?; // `text` grew by the layout
    /// ```
    pub fn render_raw<W: Render>(
        &self,
        alloc: Global,
        width: usize,
        out: &mut W,
    ) -> Result<(), RenderError<W::Error>>
        ensures { RendersDoc (options_at width) (tree_of T.tree self.now) (W.document_errors out.new)
            (W.lender out.old) (W.lender out.new) (W.bytes out.old) (W.bytes out.new) (W.failures out.old) (W.failures out.new) result }
    {
        self.render_raw_with(alloc, RenderOptions::new(width), out)
    }

    /// Renders to a byte writer, piece by piece. Pass a `BufWriter` where a write is slow, and flush it afterwards,
    /// since no call here does. An interruption is answered as `Sink`, and not tried again. Each error says what was
    /// appended by then; that of `Document` is of the kind `Other`.
    ///
    /// ```
    /// let options = RenderOptions::new(80).with_line_ending(LineEnding::Crlf);
    /// doc.render_with(alloc, options, &mut bytes)?; // `bytes`, a `Vec<u8>`, grew by the layout
    /// ```
    pub fn render_with<W: io::Write>(
        &self,
        alloc: Global,
        options: RenderOptions,
        out: &mut W,
    ) -> Result<(), RenderError<io::Error>>
        ensures { RendersDocInto options (tree_of T.tree self.now) (λ e. error_kind e ≡ Other) (W.contents out.old)
            (W.contents out.new) result }
    {
        self.render_raw_with(alloc, options, &mut IoWrite::new(out))
    }

    /// Renders to a byte writer at this width, in columns, as `render_with` does by `RenderOptions::new(width)`: with the
    /// same errors.
    ///
    /// ```
    /// doc.render(alloc, 80, &mut bytes)?; // `bytes`, a `Vec<u8>`, grew by the layout
    /// ```
    pub fn render<W: io::Write>(
        &self,
        alloc: Global,
        width: usize,
        out: &mut W,
    ) -> Result<(), RenderError<io::Error>>
        ensures { RendersDocInto (options_at width) (tree_of T.tree self.now) (λ e. error_kind e ≡ Other) (W.contents out.old)
            (W.contents out.new) result }
    {
        self.render_with(alloc, RenderOptions::new(width), out)
    }

    /// Renders to a text writer. Each error says what was appended by then.
    ///
    /// ```
    /// let options = RenderOptions::new(80).with_indentation_policy(IndentationPolicy::Deferred);
    /// doc.render_fmt_with(alloc, options, &mut text)?; // `text`, a `String`, grew by the layout
    /// ```
    pub fn render_fmt_with<W: TextWriter>(
        &self,
        alloc: Global,
        options: RenderOptions,
        out: &mut W,
    ) -> Result<(), RenderError<fmt::Error>>
        ensures { RendersDocInto options (tree_of T.tree self.now) (λ _. ⊤) (W.text out.old) (W.text out.new) result }
    {
        self.render_raw_with(alloc, options, &mut FmtWrite::new(out))
    }

    /// Renders to a text writer at this width, in columns, as `render_fmt_with` does by `RenderOptions::new(width)`: with
    /// the same errors.
    ///
    /// ```
    /// doc.render_fmt(alloc, 80, &mut text)?; // `text`, a `String`, grew by the layout
    /// ```
    pub fn render_fmt<W: TextWriter>(
        &self,
        alloc: Global,
        width: usize,
        out: &mut W,
    ) -> Result<(), RenderError<fmt::Error>>
        ensures { RendersDocInto (options_at width) (tree_of T.tree self.now) (λ _. ⊤) (W.text out.old) (W.text out.new) result }
    {
        self.render_fmt_with(alloc, RenderOptions::new(width), out)
    }
}
