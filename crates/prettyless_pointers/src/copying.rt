//! A boxed document is copied in a loop, which takes the same stack at any depth. What is copied is in nodes that
//! are still to be made: a node is made once all that it holds is copied.
ghost use Rattle.std.specs.Prelude.{◌≡◌, ◌+◌, ◌<◌, OnOk, IfOk, IfErr, IfSome, MatchOption};
ghost use Rattle.prettyless_doc.specs.BuildErrors.{IsMemory};
ghost use Rattle.prettyless_doc.specs.DocTree.{tree_of};
ghost use Rattle.prettyless_model.specs.Tree.{Tree};
ghost use Rattle.prettyless_pointers.specs.Copying.{filled, whole_copy, task_tree, task_work, frame_work, frames_work, copying_work};
ghost use Rattle.prettyless_pointers.specs.Copying.{copying_work_at};
ghost use Rattle.prettyless_pointers.specs.Trees.{box_tree};

use crate::boxes::BoxDoc;
use prettyless_doc::parts::{NodeParts, parts_of};
use prettyless_doc::{BuildError, Doc, DocPtr};
use prettyless_model::kind::{Pair, Single};
use std::alloc::Global;

// A node that is made once what it holds is copied.
#[derive(Drop)]
pub(crate) enum CopyFrame<'d, 'a> {
    Around(Single),
    // The first is being copied, and then this second.
    First(Pair, &'d BoxDoc<'a>),
    // The second is being copied, and this is the first.
    Second(Pair, BoxDoc<'a>),
}

// What is to be done next.
#[derive(Drop)]
pub(crate) enum CopyTask<'d, 'a> {
    Copy(&'d BoxDoc<'a>),
    // A copy, which goes into the innermost frame.
    Put(BoxDoc<'a>),
}

#[tactic(auto, using(crate::proofs::Copies::whole_of_push, crate::proofs::Copies::frames_work_of_push))]
fn push<'d, 'a>(
    frames: &mut Vec<CopyFrame<'d, 'a>>,
    frame: CopyFrame<'d, 'a>,
) -> Result<(), BuildError>
    ensures whole { OnOk result ((x : Tree)
        → whole_copy frames.new.items x ≡ whole_copy frames.old.items (filled frame.entry x)) }
    ensures work { OnOk result (frames_work frames.new.items ≡ frame_work frame.entry + frames_work frames.old.items) }
    ensures err { IfErr result IsMemory }
{
    frames.push(frame)?;
    Ok(())
}

#[tactic(auto, using(crate::proofs::Copies::whole_of_push, crate::proofs::Copies::frames_work_of_push))]
pub(crate) fn pop<'d, 'a>(frames: &mut Vec<CopyFrame<'d, 'a>>) -> Option<CopyFrame<'d, 'a>>
    ensures whole { MatchOption result
        ((x : Tree) → whole_copy frames.old.items x ≡ x)
        (λ f. (x : Tree) → whole_copy frames.old.items x ≡ whole_copy frames.new.items (filled f x)) }
    ensures work { IfSome result (λ f. frames_work frames.old.items ≡ frame_work f + frames_work frames.new.items) }
{
    frames.pop()
}

// A node, as a copy that is made.
fn put<'d, 'a>(alloc: Global, node: Doc<'a, BoxDoc<'a>>) -> Result<CopyTask<'d, 'a>, BuildError>
    ensures tree { IfOk result (λ t. task_tree t ≡ tree_of box_tree node.entry) }
    ensures work { IfOk result (λ t. task_work t ≡ 0) }
    ensures err { IfErr result IsMemory }
{
    Ok(CopyTask::Put(BoxDoc::new(alloc, node)?))
}

// Begins to copy a document: a node that holds others waits for them in a frame.
fn begin<'d, 'a>(
    alloc: Global,
    frames: &mut Vec<CopyFrame<'d, 'a>>,
    source: &'d BoxDoc<'a>,
) -> Result<CopyTask<'d, 'a>, BuildError>
    ensures whole { IfOk result (λ t. whole_copy frames.new.items (task_tree t)
        ≡ whole_copy frames.old.items (box_tree source.now)) }
    ensures work { IfOk result (λ t. copying_work frames.new.items t
        < copying_work_at frames.old.items (box_tree source.now)) }
    ensures err { IfErr result IsMemory }
{
    match parts_of(alloc, source.doc())? {
        NodeParts::None(node) => put(alloc, node),
        NodeParts::One(kind, inner) => {
            push(frames, CopyFrame::Around(kind))?;
            Ok(CopyTask::Copy(inner))
        }
        NodeParts::Two(kind, first, second) => {
            push(frames, CopyFrame::First(kind, second))?;
            Ok(CopyTask::Copy(first))
        }
    }
}

// Puts a copy into the innermost frame.
fn fill<'d, 'a>(
    alloc: Global,
    frames: &mut Vec<CopyFrame<'d, 'a>>,
    frame: CopyFrame<'d, 'a>,
    copy: BoxDoc<'a>,
) -> Result<CopyTask<'d, 'a>, BuildError>
    ensures whole { IfOk result (λ t. whole_copy frames.new.items (task_tree t)
        ≡ whole_copy frames.old.items (filled frame.entry (box_tree copy.entry))) }
    ensures work { IfOk result (λ t. copying_work frames.new.items t < frame_work frame.entry + frames_work frames.old.items) }
    ensures err { IfErr result IsMemory }
{
    match frame {
        CopyFrame::Around(kind) => put(alloc, Doc::around(kind, copy)),
        CopyFrame::First(kind, second) => {
            push(frames, CopyFrame::Second(kind, copy))?;
            Ok(CopyTask::Copy(second))
        }
        CopyFrame::Second(kind, first) => put(alloc, Doc::of_two(kind, first, copy)),
    }
}

impl<'a> BoxDoc<'a> {
    /// The same tree, in boxes of its own. If memory runs out it fails, and drops what it made.
    pub fn clone(&self, alloc: Global) -> Result<Self, BuildError>
        ensures ok { IfOk result (λ p. box_tree p ≡ box_tree self.now) }
        ensures err { IfErr result IsMemory }
    {
        let mut frames = Vec::new(alloc);
        let mut task = CopyTask::Copy(self);
        loop {
            task = match task {
                CopyTask::Copy(source) => begin(alloc, &mut frames, source)?,
                CopyTask::Put(copy) => match pop(&mut frames) {
                    Some(frame) => fill(alloc, &mut frames, frame, copy)?,
                    None => return Ok(copy),
                },
            };
        }
    }
}
