//! Nodes that are not placed yet, documents in the making, and what places them: the calls that can fail.
use crate::expected::check;
use prettyless::prelude::*;
use prettyless::text::{BuildError, CowStr, Text};
use prettyless::{BuildDoc, Doc, DocBuilder};
use std::fmt;
use std::process::Abort;
use test_expectations::{points, rows, shows};

// Whether a document in the making is shown as this text.
fn makes<'a, D: DocPlace<'a>>(
    place: &'a D,
    made: Result<BuildDoc<'a, D::Doc>, BuildError>,
    text: &str,
) -> bool {
    match made {
        Ok(made) => shows(place, Ok(DocBuilder(place, made)), text),
        Err(_) => false,
    }
}

// Whether a node is shown as this text.
fn makes_node<'a, D: DocPlace<'a>>(
    place: &'a D,
    made: Result<Doc<'a, D::Doc>, BuildError>,
    text: &str,
) -> bool {
    match made {
        Ok(node) => shows(place, Ok(DocBuilder::new(place, node)), text),
        Err(_) => false,
    }
}

pub(crate) fn makings<'a, D: DocPlace<'a>>(rt: &impl Abort, place: &'a D) {
    rows! { makes_node, rt, place;
        Doc::text(place.memory(), CowStr::Borrowed("xy")) => "\"xy\"";
        Doc::as_string(place.memory(), 16) => "\"16\"";
        Doc::multiline_text(place.memory(), CowStr::Borrowed("x\ny")) => "MultilineText(\"x\\ny\")";
        Doc::line(place) => "LineOrSpace";
        Doc::line_(place) => "LineOrNil";
        Doc::WeakLine.clone(place) => "WeakLine";
    }
    rows! { makes, rt, place;
        BuildDoc::text(place.memory(), CowStr::Borrowed("xy")) => "\"xy\"";
        BuildDoc::as_string(place.memory(), 16) => "\"16\"";
        BuildDoc::multiline_text(place.memory(), CowStr::Borrowed("x\ny")) => "MultilineText(\"x\\ny\")";
        BuildDoc::line(place) => "LineOrSpace";
        BuildDoc::line_(place) => "LineOrNil";
        BuildDoc::Doc(Doc::HardLine).clone(place) => "HardLine";
    }
}

// A copy outlives the pointer that it is of.
fn copied<'a, D: DocPlace<'a>>(rt: &impl Abort, place: &'a D) -> Result<D::Doc, BuildError> {
    let pointer = place
        .alloc(Doc::HardLine)
        .expect(rt, "a node was not placed");
    let copy = place.clone_ptr(&pointer);
    drop(pointer);
    copy
}

// A line with a space of its own.
fn line_of_an_owned_space<'a, D: DocPlace<'a>>(place: &'a D) -> Result<D::Doc, BuildError> {
    let space = String::from_str(place.memory(), " ")?;
    let space = Text::from_cow(place.memory(), CowStr::Owned(space))?;
    let broken = place.alloc(Doc::HardLine)?;
    let flat = place.alloc(Doc::Text(space))?;
    place.alloc(Doc::BreakOrFlat(broken, flat))
}

// Compares what such a line is shown as: an arena copies the text of the space, and lends the copy to the node.
pub(crate) fn owned_line<'a, D: DocPlace<'a>>(rt: &impl Abort, place: &'a D, text: &str)
where
    D::Doc: fmt::Debug,
{
    check(rt, points(place, line_of_an_owned_space(place), text), text);
}

pub(crate) fn placings<'a, D: DocPlace<'a>>(rt: &impl Abort, place: &'a D)
where
    D::Doc: fmt::Debug,
{
    rows! { points, rt, place;
        place.alloc_cow(BuildDoc::Doc(Doc::HardLine)) => "HardLine";
        DocBuilder::new(place, Doc::WeakLine).into_doc() => "WeakLine";
        copied(rt, place) => "HardLine";
    }
}
