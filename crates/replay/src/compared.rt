//! What comes of a case, compared with what its line states and with what comes of it in other ways.
use crate::case::read_case;
use crate::hostile::compare_hostile;
use crate::layout::{Over, WrittenLayout, laid_out};
use crate::refusal::LineRefusal;
use crate::stated::{CaseOutcome, compare, compare_error, compare_stated};
use crate::words::{before_arrow, repeated, words};
use bumpalo::Bump;
use prettyless_doc::DocPlace;
use prettyless_pointers::{Arena, BoxAllocator, RcAllocator};
use std::alloc::Global;
use std::fmt;

// What is longer takes too long with each of its calls in turn, and with a piece of memory for each of its nodes.
const MOST_BYTES: usize = 256;

const MOST_VISITS: u64 = 10_000;

fn is_short(layout: &WrittenLayout) -> bool {
    layout.text.len() <= MOST_BYTES
        && layout.visits.printer <= MOST_VISITS
        && layout.visits.probes <= MOST_VISITS
}

// Refuses a layout that came out otherwise than another.
fn compare_layouts(
    alloc: Global,
    what: &str,
    one: &WrittenLayout,
    other: &WrittenLayout,
) -> Result<(), LineRefusal> {
    let (one, other) = (one.words()?, other.words()?);
    compare(alloc, what, one.as_str(), other.as_str())
}

// What comes of a case with its nodes in this place, where that is what is stated.
fn compared_in<'a, D: DocPlace<'a>>(
    place: &'a D,
    line: &'a [u8],
    stated: &[&str],
    hostile: bool,
) -> Result<WrittenLayout, LineRefusal>
where
    D::Doc: fmt::Debug,
{
    let alloc = place.memory();
    let words = words(alloc, line)?;
    let case = read_case(place, before_arrow(&words))?;
    let layout = laid_out(alloc, Over::Document, &case)?;
    let over_table = laid_out(alloc, Over::Table, &case)?;
    let found = CaseOutcome {
        case: &case,
        layout: &layout,
        over_table: &over_table,
    };
    compare_stated(alloc, stated, &found)?;
    compare_layouts(alloc, "over a table: ", &layout, &over_table)?;
    if hostile && is_short(&layout) {
        compare_hostile(alloc, &case, &layout)?;
    }
    Ok(layout)
}

// What comes of a case in an arena, where that is what is stated. In hostile trials a case that is short is in boxes and with counted
// owners as well.
fn compared_in_places(
    alloc: Global,
    line: &[u8],
    stated: &[&str],
    hostile: bool,
) -> Result<WrittenLayout, LineRefusal> {
    let bump = Bump::new(alloc);
    let arena = Arena::new(alloc, &bump);
    let layout = compared_in(&arena, line, stated, hostile)?;
    if hostile && is_short(&layout) {
        let boxes = BoxAllocator::new(alloc);
        let boxed = compared_in(&boxes, line, stated, false)?;
        compare_layouts(alloc, "in another place: ", &layout, &boxed)?;
        let owners = RcAllocator::new(alloc);
        let owned = compared_in(&owners, line, stated, false)?;
        compare_layouts(alloc, "in another place: ", &layout, &owned)?;
    }
    Ok(layout)
}

/// What comes of the case of this line, where that is what is stated, or nothing where that it writes none is.
pub fn compared(
    alloc: Global,
    line: &[u8],
    stated: &[&str],
    hostile: bool,
) -> Result<Option<WrittenLayout>, LineRefusal> {
    let stated = repeated(alloc, stated)?;
    match compared_in_places(alloc, line, &stated, hostile) {
        Ok(layout) => Ok(Some(layout)),
        Err(LineRefusal::NotACase(expected)) => {
            compare_error(alloc, &stated, expected)?;
            Ok(None)
        }
        Err(refusal) => Err(refusal),
    }
}
