//! A place of nodes that has what `DocPlace` asks for, and no more.
ghost use Rattle.std.specs.Prelude.{◌≡◌, IfErr, IfOk};
ghost use Rattle.prettyless_doc.specs.BuildErrors.{IsMemory};
ghost use Rattle.prettyless_doc.specs.DocTree.{tree_of};
ghost use Rattle.prettyless_pointers.specs.Trees.{box_tree};

use crate::calls;
use prettyless::prelude::*;
use prettyless::text::BuildError;
use prettyless::{BoxDoc, Doc};
use std::alloc::Global;

// Puts each node into a box of its own.
#[derive(Drop)]
struct OwnPlace {
    memory: Global,
}

impl<'a> DocPlace<'a> for OwnPlace {
    type Doc = BoxDoc<'a>;

    fn alloc(&'a self, doc: Doc<'a, BoxDoc<'a>>) -> Result<BoxDoc<'a>, BuildError>
        ensures ok { IfOk result (λ p. box_tree p ≡ tree_of box_tree doc.entry) }
        ensures err { IfErr result IsMemory }
    {
        BoxDoc::new(self.memory, doc)
    }

    fn clone_ptr(&'a self, pointer: &BoxDoc<'a>) -> Result<BoxDoc<'a>, BuildError>
        ensures ok { IfOk result (λ p. box_tree p ≡ box_tree pointer.now) }
        ensures err { IfErr result IsMemory }
    {
        pointer.clone(self.memory)
    }

    fn memory(&'a self) -> Global {
        self.memory
    }
}

#[test]
fn a_place_of_four_items_is_enough(rt: HostRuntime) {
    let place = OwnPlace { memory: rt.alloc() };
    calls::leaves(&rt, &place);
    calls::many_spaces(&rt, &place);
}
