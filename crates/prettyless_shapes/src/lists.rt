//! Lists of documents between brackets.
ghost use Rattle.std.specs.Prelude.{◌≡◌, false, IfOk, IfErr, map};
ghost use Rattle.prettyless_doc.specs.BuildErrors.{IsMemory};
ghost use Rattle.prettyless_trees.specs.Counted as counted;
ghost use Rattle.prettyless_doc.specs.DocTree.{built};
ghost use Rattle.prettyless_build.specs.Builds.{Builds};
ghost use Rattle.prettyless_shapes.specs.Items.{ShowsList};
ghost use Rattle.prettyless_shapes.specs.Shapes as shapes;

use crate::gaps::joined;
use crate::leaves::text;
use prettyless_alloc::DocAllocator;
use prettyless_build::{DocBuilder, Pretty};
use prettyless_doc::{BuildError, DocPlace};

/// The style of a list. Where it fits its line, it is flat, with the punctuation and a space between two documents.
/// Else its lines are broken, after the first bracket and before the last one too.
#[derive(Clone, Copy, Debug, Drop, PartialEq, Eq)]
pub struct ListStyle {
    /// By how many columns the documents are indented relative to the brackets, where lines are broken.
    pub indent: u32,
    /// Whether a space is inside each bracket where the list is flat, as in `{ a, b }`.
    pub padded: bool,
    /// Whether the punctuation is after the last document too, where lines are broken.
    pub trailing: bool,
    /// Whether documents fill lines, where these are broken. Else each has a line of its own.
    pub filled: bool,
}

impl ListStyle {
    /// A style by which broken lists have each document on a line of its own, indented by `indent`, with no punctuation
    /// after the last. Flat lists have no space inside the brackets.
    ///
    /// ```
    /// let style = ListStyle { trailing: true, ..ListStyle::new(2) };
    /// list(place, "[", docs, ",", "]", style)? // of "a" and "b": "[\n  a,\n  b,\n]" at 5 columns
    /// ```
    pub const fn new(indent: u32) -> Self
        ensures { result ≡ record { indent = indent; padded = false; trailing = false; filled = false } }
    {
        ListStyle {
            indent,
            padded: false,
            trailing: false,
            filled: false,
        }
    }
}

// What is inside each bracket.
fn edge<'a, D: DocPlace<'a>>(
    place: &'a D,
    style: ListStyle,
) -> Result<DocBuilder<'a, D>, BuildError>
    ensures { Builds result (λ b. built D.Doc.tree b.1) (shapes.edge style) }
{
    if style.padded {
        place.line()
    } else {
        place.line_()
    }
}

// What is between two documents, after the punctuation.
fn gap<'a, D: DocPlace<'a>>(place: &'a D, style: ListStyle) -> Result<DocBuilder<'a, D>, BuildError>
    ensures { Builds result (λ b. built D.Doc.tree b.1) (shapes.gap_between style) }
{
    if style.filled {
        place.softline()
    } else {
        place.line()
    }
}

// What is after the last document.
fn trail<'a, D: DocPlace<'a>>(
    place: &'a D,
    mark: &'a str,
    style: ListStyle,
) -> Result<DocBuilder<'a, D>, BuildError>
    ensures { Builds result (λ b. built D.Doc.tree b.1) (shapes.trail style (counted.text mark.now)) }
{
    if style.trailing {
        mark.pretty(place)?.when_group_break()
    } else {
        place.nil()
    }
}

// The documents with their punctuation and gaps.
fn members<'a, D: DocPlace<'a>>(
    place: &'a D,
    docs: Vec<D::Doc>,
    mark: &'a str,
    style: ListStyle,
) -> Result<DocBuilder<'a, D>, BuildError>
    ensures { Builds result (λ b. built D.Doc.tree b.1)
        (shapes.members style (counted.text mark.now) (map D.Doc.tree docs.items)) }
{
    let marked = place.punctuated(docs, mark.pretty(place)?)?;
    let gap = gap(place, style)?;
    place
        .separate(marked, gap)?
        .join(trail(place, mark, style)?)
}

// The same, indented and with what is inside the brackets.
fn inside<'a, D: DocPlace<'a>>(
    place: &'a D,
    docs: Vec<D::Doc>,
    mark: &'a str,
    style: ListStyle,
) -> Result<DocBuilder<'a, D>, BuildError>
    ensures { Builds result (λ b. built D.Doc.tree b.1)
        (shapes.inside style (counted.text mark.now) (map D.Doc.tree docs.items)) }
{
    let members = members(place, docs, mark, style)?;
    let nested = edge(place, style)?
        .join(members)?
        .nest(style.indent as isize)?;
    nested.join(edge(place, style)?)
}

/// The documents between two brackets, with the punctuation after each but the last. They are flat where they fit the
/// line, and else as the style says. Where there is no document, the brackets stand side by side, with no break. It
/// fails if memory runs out.
///
/// ```
/// list(place, "[", docs, ",", "]", ListStyle::new(2))? // of "a" and "b": "[a, b]" at 6 columns, "[\n  a,\n  b\n]" at 5
/// ```
pub fn list<'a, D: DocPlace<'a>>(
    place: &'a D,
    before: &'a str,
    docs: Vec<D::Doc>,
    mark: &'a str,
    after: &'a str,
    style: ListStyle,
) -> Result<D::Doc, BuildError>
    ensures ok { IfOk result (λ p. D.Doc.tree p
        ≡ shapes.list style before.now (map D.Doc.tree docs.items) mark.now after.now) }
    ensures items { IfOk result (λ p.
        ShowsList style before.now (map D.Doc.tree docs.items) mark.now after.now (D.Doc.tree p)) }
    ensures err { IfErr result IsMemory }
{
    if docs.is_empty() {
        return joined(place, text(place, before)?, text(place, after)?);
    }
    inside(place, docs, mark, style)?
        .enclose(before, after)?
        .group()?
        .into_doc()
}
