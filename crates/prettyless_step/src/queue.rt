//! The queue of line suffixes. It knows nothing of its nodes, and no column.
ghost use Rattle.std.specs.Prelude.{◌≡◌, ◌∷◌, ◌++◌, ◌<◌, ◌≤◌, [], drop, take, vec_len, IsTrue, OnOk, ◌↔◌};

use std::alloc::{AllocError, Global};

/// The line suffixes that were visited, the oldest first. Those from a start on are pending: the earlier ones were laid, and are
/// kept for trials that are undone.
#[derive(Drop)]
pub struct Queue<N> {
    nodes: Vec<N>,
    start: usize,
    pub ghost in_range: { start ≤ vec_len nodes },
}

/// How many suffixes a queue had, and from which on they were pending, to go back to.
#[derive(Clone, Copy)]
pub struct QueueMark {
    len: usize,
    start: usize,
    pub ghost in_range: { start ≤ len },
}

impl<N: Copy> Queue<N> {
    /// An empty one. It takes no memory.
    pub fn new(alloc: Global) -> Self
        ensures { result.nodes.items ≡ [] }
    {
        Queue {
            nodes: Vec::new(alloc),
            start: 0,
        }
    }

    /// Whether any is pending.
    #[inline(always)]
    pub fn is_pending(&self) -> bool
        ensures { IsTrue result ↔ (self.now.start < vec_len self.now.nodes) }
    {
        self.start < self.nodes.len()
    }

    /// Those that are pending, the oldest first.
    #[inline(always)]
    pub fn pending(&self) -> &[N]
        ensures { result.now ≡ drop self.now.start self.now.nodes.items }
    {
        &self.nodes[self.start..]
    }

    /// All of them, the oldest first.
    #[inline(always)]
    pub fn all(&self) -> &[N]
        ensures { result.now ≡ self.now.nodes.items }
    {
        &self.nodes
    }

    /// Adds one, which is pending.
    ///
    /// It fails where memory is refused. The start of those that are pending stays then, and no more is promised.
    #[inline(always)]
    pub fn push(&mut self, node: N) -> Result<(), AllocError>
        ensures nodes { OnOk result (self.new.nodes.items ≡ self.old.nodes.items ++ node ∷ []) }
        ensures start { self.new.start ≡ self.old.start }
    {
        self.nodes.push(node)?;
        Ok(())
    }

    /// None is pending any more.
    #[inline(always)]
    pub fn clear_pending(&mut self)
        ensures nodes { self.new.nodes ≡ self.old.nodes }
        ensures start { self.new.start ≡ vec_len self.old.nodes }
    {
        self.start = self.nodes.len();
    }

    /// Forgets those that were laid, where none is pending.
    #[inline(always)]
    pub fn forget_laid(&mut self)
        ensures pending { drop self.new.start self.new.nodes.items ≡ drop self.old.start self.old.nodes.items }
        ensures forgotten { drop self.old.start self.old.nodes.items ≡ [] → self.new.nodes.items ≡ [] }
        ensures start { self.old.start ≡ 0 → self.new.start ≡ 0 }
    {
        if self.start > 0 {
            self.clear_laid();
        }
    }

    // The same, at a call: few turns lay a suffix.
    #[inline(never)]
    fn clear_laid(&mut self)
        ensures pending { drop self.new.start self.new.nodes.items ≡ drop self.old.start self.old.nodes.items }
        ensures forgotten { drop self.old.start self.old.nodes.items ≡ [] → self.new.nodes.items ≡ [] }
        ensures start { self.old.start ≡ 0 → self.new.start ≡ 0 }
    {
        if self.start == self.nodes.len() {
            self.nodes.clear();
            self.start = 0;
        }
    }

    /// How many suffixes it has, and from which on they are pending: `rewind` goes back to that.
    #[inline(always)]
    pub fn mark(&self) -> QueueMark
        ensures len { result.len ≡ vec_len self.now.nodes }
        ensures start { result.start ≡ self.now.start }
    {
        QueueMark {
            len: self.nodes.len(),
            start: self.start,
        }
    }

    /// Rewinds to a mark: what was added since is dropped, and what was laid since is pending again.
    #[inline(always)]
    pub fn rewind(&mut self, mark: QueueMark)
        requires { mark.len ≤ vec_len self.old.nodes }
        ensures nodes { self.new.nodes.items ≡ take mark.len self.old.nodes.items }
        ensures start { self.new.start ≡ mark.start }
    {
        self.nodes.truncate(mark.len);
        self.start = mark.start;
    }
}
