//! The documents, by the calls that ask for memory more than once, or that make one document of many. And those of two branches.
use crate::alternatives::{both_kept, comments, ending_line, rejected_after, too_wide};
use crate::parts::{joined, put_off, text};
use prettyless::prelude::*;
use prettyless::text::{BuildError, Text};
use prettyless::{Doc, DocBuilder, docs};
use std::{fmt, iter};

/// A text that has no room in a node.
const LONG: &str = "a text of 23 characters";

/// Prints that text in two pieces, and ends well whatever comes of them.
#[derive(Drop)]
struct Stubborn;

impl fmt::Display for Stubborn {
    fn fmt<W: fmt::Write>(&self, f: &mut fmt::Formatter<W>) -> fmt::Result {
        let _ = f.write_str("a text of 23 character");
        let _ = f.write_str("s");
        Ok(())
    }
}

/// Which document it is.
#[derive(Clone, Copy, Drop)]
pub enum DocumentKind {
    Repeated,
    Interspersed,
    Reflowed,
    OfMacro,
    Owned,
    Printed,
    Suffixes,
    TooWide,
    Comments,
    EndingLine,
    RejectedAfter,
    BothKept,
    Grouped,
}

/// The documents that are built in each place.
pub const ALL: &[DocumentKind] = &[
    DocumentKind::Repeated,
    DocumentKind::Interspersed,
    DocumentKind::Reflowed,
    DocumentKind::OfMacro,
    DocumentKind::Owned,
    DocumentKind::Printed,
    DocumentKind::TooWide,
    DocumentKind::Comments,
    DocumentKind::EndingLine,
    DocumentKind::RejectedAfter,
    DocumentKind::BothKept,
];

/// The documents that are copied.
pub const COPIED: &[DocumentKind] = &[DocumentKind::Interspersed, DocumentKind::Owned];

/// The document that stays while others are built.
pub const KEPT: DocumentKind = DocumentKind::Suffixes;

/// The document whose visits are counted.
pub const COUNTED: DocumentKind = DocumentKind::Grouped;

fn repeated<'a, D: DocPlace<'a>>(place: &'a D) -> Result<D::Doc, BuildError> {
    place.pretty(("a", hard_line()))?.repeat(5)?.into_doc()
}

fn interspersed<'a, D: DocPlace<'a>>(place: &'a D) -> Result<D::Doc, BuildError> {
    let items = place.pretty(intersperse(line_or_space(), iter::repeat_n("a", 3)));
    let nested = joined(place.line(), items)?.nest(1);
    let front = joined(text(place, "("), nested);
    let back = joined(place.line(), text(place, ")"));
    joined(front, back)?.group()?.into_doc()
}

fn reflowed<'a, D: DocPlace<'a>>(place: &'a D) -> Result<D::Doc, BuildError> {
    place.reflow("a  b")?.into_doc()
}

fn of_macro<'a, D: DocPlace<'a>>(place: &'a D) -> Result<D::Doc, BuildError> {
    docs![place, "let x", soft_line_or_space(), Some("= 123")]?.into_doc()
}

fn owned<'a, D: DocPlace<'a>>(place: &'a D) -> Result<D::Doc, BuildError> {
    let long = Doc::Text(Text::from_display(place.memory(), LONG)?);
    let indented = joined(place.hard_line(), text(place, "b"))?.nest(2);
    joined(Ok(DocBuilder::new(place, long)), indented)?.into_doc()
}

fn printed<'a, D: DocPlace<'a>>(place: &'a D) -> Result<D::Doc, BuildError> {
    place.as_string(Stubborn)?.into_doc()
}

fn suffixes<'a, D: DocPlace<'a>>(place: &'a D) -> Result<D::Doc, BuildError> {
    let suffix = joined(text(place, "x"), put_off(place, "y"))?.as_line_suffix();
    let front = joined(text(place, "a"), suffix);
    joined(joined(front, place.hard_line()), text(place, "b"))?.into_doc()
}

fn grouped<'a, D: DocPlace<'a>>(place: &'a D) -> Result<D::Doc, BuildError> {
    let front = joined(text(place, "a"), place.line());
    joined(front, text(place, "b"))?.group()?.into_doc()
}

impl DocumentKind {
    pub fn name(self) -> &'static str {
        match self {
            DocumentKind::Repeated => "copies",
            DocumentKind::Interspersed => "separators",
            DocumentKind::Reflowed => "words",
            DocumentKind::OfMacro => "operands of a macro",
            DocumentKind::Owned => "an owned text",
            DocumentKind::Printed => "what a value prints",
            DocumentKind::Suffixes => "a suffix in a suffix",
            DocumentKind::TooWide => "a branch that is too wide",
            DocumentKind::Comments => "branches with suffixes",
            DocumentKind::EndingLine => "a branch that ends its line",
            DocumentKind::RejectedAfter => "a branch in one that is too wide",
            DocumentKind::BothKept => "a branch in one that fits",
            DocumentKind::Grouped => "a pair in a group",
        }
    }

    /// The width that it is laid out at.
    pub fn width(self) -> usize {
        match self {
            DocumentKind::EndingLine => 1,
            DocumentKind::Reflowed => 2,
            DocumentKind::Interspersed | DocumentKind::Comments => 5,
            DocumentKind::TooWide | DocumentKind::RejectedAfter => 10,
            _ => 80,
        }
    }

    /// Builds it in this place.
    pub fn document<'a, D: DocPlace<'a>>(self, place: &'a D) -> Result<D::Doc, BuildError> {
        match self {
            DocumentKind::Repeated => repeated(place),
            DocumentKind::Interspersed => interspersed(place),
            DocumentKind::Reflowed => reflowed(place),
            DocumentKind::OfMacro => of_macro(place),
            DocumentKind::Owned => owned(place),
            DocumentKind::Printed => printed(place),
            DocumentKind::Suffixes => suffixes(place),
            DocumentKind::TooWide => too_wide(place),
            DocumentKind::Comments => comments(place),
            DocumentKind::EndingLine => ending_line(place),
            DocumentKind::RejectedAfter => rejected_after(place),
            DocumentKind::BothKept => both_kept(place),
            DocumentKind::Grouped => grouped(place),
        }
    }
}
