//! An arena as a test wants it. It is made in one function, to which a test gives what it does there: a place that is made costs the
//! prover more than what is done with it.
use crate::{constants, refusals};
use bumpalo::Bump;
use prettyless::{Arena, DocPlace};
use std::alloc::Global;
use std::process::Abort;
use std::test::Fail;

// A place that shows how many nodes it has.
pub(crate) trait CountedPlace<'a>: DocPlace<'a> {
    fn nodes(&self) -> usize;

    fn has_no_node(&self) -> bool;
}

impl<'a> CountedPlace<'a> for Arena<'a> {
    fn nodes(&self) -> usize {
        self.len()
    }

    fn has_no_node(&self) -> bool {
        self.is_empty()
    }
}

// What is done in an arena.
#[derive(Clone, Copy)]
pub(crate) enum InArena {
    Constants,
    ConstantsWithoutRoom,
    OwnedTexts,
    Payloads,
}

fn done<'a, D: CountedPlace<'a>>(
    rt: &impl Abort,
    bump: &Bump,
    place: &'a D,
    what: InArena,
) -> Result<(), Fail> {
    match what {
        InArena::Constants => constants::one_node_each(rt, place),
        InArena::ConstantsWithoutRoom => constants::no_room_at_first(rt, bump, place),
        InArena::OwnedTexts => refusals::texts(rt, bump, place),
        InArena::Payloads => refusals::measures(rt, place),
    }
}

// Does this in a new arena, whose memory has this limit.
pub(crate) fn in_arena(
    rt: &impl Abort,
    memory: Global,
    limit: Option<usize>,
    what: InArena,
) -> Result<(), Fail> {
    let bump = Bump::new(memory);
    bump.set_allocation_limit(limit);
    let arena = Arena::new(memory, &bump);
    done(rt, &bump, &arena, what)
}
