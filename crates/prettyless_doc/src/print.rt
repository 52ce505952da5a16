ghost use Rattle.std.specs.Prelude.{◌≡◌, IfSome, IsOk, IsSome};
ghost use Rattle.std.specs.Fmt.{DisplaysOnOk, DisplaysStyledOnOk};
ghost use Rattle.prettyless_model.specs.Options.{options_at};
ghost use Rattle.prettyless_model.specs.Content.{HasContent};
ghost use Rattle.prettyless_model.specs.Layout.{layout, whole_bytes};
ghost use Rattle.prettyless_doc.specs.DocTree.{tree_of};

use crate::doc::{Doc, DocPtr};
use crate::formatter_sink::FormatterSink;
use prettyless_model::options::RenderOptions;
use std::alloc::Global;
use std::fmt;
use std::snapshot::Snapshot;

/// A document and options, whose `Display` writes the layout. What a formatter is asked for, as a width or an
/// alignment, changes nothing.
///
/// The layout is passed on to the formatter piece by piece, and not kept. It prints the whole layout or fails: where
/// the document fails, memory runs out or the formatter fails. Then some of it may be printed.
#[derive(Clone, Copy)]
pub struct PrettyFmt<'a, 'd, T> {
    doc: &'d Doc<'a, T>,
    alloc: Global,
    options: RenderOptions,
}

impl<'a, T: DocPtr<'a>> Doc<'a, T> {
    /// A value whose `Display` writes the document's layout at this width, in columns.
    ///
    /// ```
    /// format!(in alloc; "{}", doc.print(alloc, 80))? // the layout
    /// ```
    pub fn print<'d>(&'d self, alloc: Global, width: usize) -> PrettyFmt<'a, 'd, T>
        ensures options { result.options ≡ options_at width }
        ensures doc { result.doc.now ≡ self.now }
        ensures content { IfSome (whole_bytes (layout (options_at width) (tree_of T.tree self.now)))
            (HasContent (tree_of T.tree self.now)) }
    {
        self.print_with(alloc, RenderOptions::new(width))
    }

    /// A value whose `Display` writes the document's layout with these options.
    ///
    /// ```
    /// format!(in alloc; "{}", doc.print_with(alloc, RenderOptions::default()))? // the layout
    /// ```
    pub fn print_with<'d>(&'d self, alloc: Global, options: RenderOptions) -> PrettyFmt<'a, 'd, T>
        ensures options { result.options ≡ options }
        ensures doc { result.doc.now ≡ self.now }
        ensures content { IfSome (whole_bytes (layout options (tree_of T.tree self.now)))
            (HasContent (tree_of T.tree self.now)) }
    {
        PrettyFmt {
            doc: self,
            alloc,
            options,
        }
    }
}

impl<'a, T: DocPtr<'a>> fmt::Display for PrettyFmt<'a, '_, T> {
    ghost output = { λ p. whole_bytes (layout p.options (tree_of T.tree p.doc.now)) };

    ghost styled_output = { λ p _. whole_bytes (layout p.options (tree_of T.tree p.doc.now)) };

    fn fmt<W: fmt::Write>(&self, f: &mut fmt::Formatter<W>) -> fmt::Result
        ensures writes { DisplaysOnOk W.Write.write_str_gives f.old result
            (whole_bytes (layout self.now.options (tree_of T.tree self.now.doc.now))) f.new }
        ensures styled { DisplaysStyledOnOk W.Write.write_str_gives f.old result
            (whole_bytes (layout self.now.options (tree_of T.tree self.now.doc.now))) f.new }
        ensures whole { IsOk result → IsSome (whole_bytes (layout self.now.options (tree_of T.tree self.now.doc.now))) }
    {
        let start = Snapshot::of(&*f);
        let mut sink = FormatterSink::new(f, &start);
        let result = self
            .doc
            .render_raw_with(self.alloc, self.options, &mut sink);
        sink.streams();
        match result {
            Ok(()) => Ok(()),
            Err(_) => Err(fmt::Error),
        }
    }
}
