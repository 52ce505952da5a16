//! The constants of an arena: each has one node there, and where memory was refused for them they are placed as other nodes.
use crate::arena::{CountedPlace, InArena, in_arena};
use crate::expected::check;
use bumpalo::Bump;
use prettyless::text::{BuildError, Text};
use prettyless::{Doc, DocAllocator, DocBuilder, DocPlace, DocPtr};
use std::process::Abort;
use std::test::Fail;

// The place has the leaf, and places nothing for it.
fn place_leaf<'a, D: CountedPlace<'a>>(
    rt: &impl Abort,
    place: &'a D,
    leaf: Doc<'a, D::Doc>,
) -> Result<(), Fail> {
    place.alloc(leaf)?;
    check(rt, place.has_no_node(), "the nodes of a constant");
    Ok(())
}

fn place_leaves<'a, D: CountedPlace<'a>>(rt: &impl Abort, place: &'a D) -> Result<(), Fail> {
    place_leaf(rt, place, Doc::Nil)?;
    place_leaf(rt, place, Doc::Fail)?;
    place_leaf(rt, place, Doc::Text(Text::Borrowed(" ")))?;
    place_leaf(rt, place, Doc::WeakSpace)?;
    place_leaf(rt, place, Doc::HardLine)?;
    place_leaf(rt, place, Doc::WeakLine)?;
    place_leaf(rt, place, Doc::ExpandParent)
}

fn place_built<'a, D: DocPlace<'a>>(
    builder: Result<DocBuilder<'a, D>, BuildError>,
) -> Result<(), BuildError> {
    builder?.into_doc()?;
    Ok(())
}

fn place_lines<'a, D: DocPlace<'a>>(place: &'a D) -> Result<(), BuildError> {
    place_built(place.line())?;
    place_built(place.line_())?;
    place_built(place.softline())?;
    place_built(place.softline_())
}

// Lines are returned, and none is placed.
fn lines<'a, D: CountedPlace<'a>>(rt: &impl Abort, place: &'a D) -> Result<(), Fail> {
    place_lines(place)?;
    check(rt, place.has_no_node(), "the nodes of lines");
    Ok(())
}

// Another text of spaces, one whose width is counted, and a node over constants have a node each.
fn others<'a, D: CountedPlace<'a>>(rt: &impl Abort, place: &'a D) -> Result<(), Fail> {
    place.alloc(Doc::Text(Text::Borrowed("  ")))?;
    place.alloc(Doc::TextWithLen(1, Text::Borrowed(" ")))?;
    let first = place.alloc(Doc::Text(Text::Borrowed(" ")))?;
    let second = place.alloc(Doc::Text(Text::Borrowed(" ")))?;
    place.alloc(Doc::Append(first, second))?;
    check(rt, place.nodes() == 3, "the nodes of others");
    Ok(())
}

pub(crate) fn one_node_each<'a, D: CountedPlace<'a>>(
    rt: &impl Abort,
    place: &'a D,
) -> Result<(), Fail> {
    place_leaves(rt, place)?;
    lines(rt, place)?;
    others(rt, place)
}

#[test]
fn a_constant_has_one_node(rt: HostRuntime) -> Result<(), Fail> {
    in_arena(&rt, rt.alloc(), None, InArena::Constants)
}

fn refuses_a_line<'a, D: DocPlace<'a>>(place: &'a D) -> bool {
    matches!(place.alloc(Doc::HardLine), Err(BuildError::Memory(_)))
}

fn places_a_group<'a, D: DocPlace<'a>>(place: &'a D) -> Result<bool, BuildError> {
    let line = place.softline()?.into_doc()?;
    Ok(matches!(line.doc(), Doc::Group(_)))
}

// An arena that has no constants refuses a node while it has no room, and then places it as any other.
pub(crate) fn no_room_at_first<'a, D: CountedPlace<'a>>(
    rt: &impl Abort,
    bump: &Bump,
    place: &'a D,
) -> Result<(), Fail> {
    check(rt, refuses_a_line(place), "a line where there is no room");
    check(rt, place.has_no_node(), "the nodes where there is no room");
    bump.set_allocation_limit(None);
    check(rt, places_a_group(place)?, "a group where there is room");
    check(rt, place.nodes() == 4, "the nodes where there is room");
    Ok(())
}

#[test]
fn constants_find_no_room(rt: HostRuntime) -> Result<(), Fail> {
    in_arena(&rt, rt.alloc(), Some(0), InArena::ConstantsWithoutRoom)
}
