//! The nodes that are still to be laid, as a stack: the nodes alone, and an indent and a mode once for all neighbours that share
//! them. It knows nodes by `Walk` alone, and no column and no width.
ghost use Rattle.std.specs.Prelude.{◌≡◌, ◌≤◌, vec_len};
ghost use Rattle.prettyless_probe.specs.Frames.{Rises, Rises-prop, lowest};

use crate::command::{Command, Frame};
use crate::walk::Walk;
use prettyless_model::mode::Mode;
use prettyless_summary::known::Known;
use prettyless_summary::summary::Summary;
use std::alloc::{AllocError, Global};

/// What a probe reads of a node in Break and of those below it: what their sum reads, and then so many nodes at the bottom.
#[derive(Clone, Copy)]
pub struct Below {
    /// The summary in Break of the topmost of these nodes, as many as are combined; of nothing where none is.
    pub sum: Summary,
    /// How many nodes at the bottom of the stack it does not combine.
    pub left: usize,
}

/// Nodes that are still to be laid, the next one last.
///
/// Each frame of the list has a node at least; the topmost frame, `here`, may have none.
#[derive(Drop)]
pub struct Stack<N> {
    nodes: Vec<N>,
    frames: Vec<Frame>,
    here: Frame,
    /// The sum of each node and of those below it, where nodes have summaries.
    sums: Vec<Below>,
    // What was read in advance; nothing depends on it.
    seen: bool,
    pub ghost bottom: { lowest frames.items here ≡ 0 },
    pub ghost rises: { Rises frames.items here } by { Rises-prop frames.items here },
    pub ghost top: { here.below ≤ vec_len nodes },
}

/// How far a stack was read downwards: the heights below which its nodes and its frames are not read yet, and the frame of the
/// nodes there.
#[derive(Clone, Copy)]
pub struct Cursor {
    nodes: usize,
    frames: usize,
    here: Frame,
}

impl<N: Walk> Stack<N> {
    ghost use Rattle.std.specs.Prelude.{◌∷◌, ◌++◌, ◌<◌, [], List, length, IsTrue, IsFalse, OnOk, MatchOption, ℕ, ⊤, ◌+◌, ◌^◌, take};
    ghost use Rattle.std.specs.Prelude.{if◌then◌else◌};
    ghost use Rattle.prettyless_model.specs.Layout.{next_indent as next_indent_of};
    ghost use Rattle.prettyless_probe.specs.Stack.{IsCursor, Task, follow, make_task, nodes, room_of, stack_of, task, tasks, trees, unread};
    ghost use Rattle.prettyless_probe.specs.Sums.{AreSums, HaveSum, IsSummed, SumsUp, below_run, bottom};

    /// An empty one. It takes no memory.
    pub fn new(alloc: Global) -> Self
        ensures empty { stack_of N.tree result ≡ [] }
        ensures summed { IsSummed N.HAS_SUMMARIES N.tree result }
    {
        Stack {
            nodes: Vec::new(alloc),
            frames: Vec::new(alloc),
            here: Frame {
                indent: 0,
                mode: Mode::Break,
                below: 0,
            },
            sums: Vec::new(alloc),
            seen: false,
        }
    }

    /// How many nodes it has.
    #[inline(always)]
    pub fn len(&self) -> usize
        ensures { result ≡ length (stack_of N.tree self.now) }
    {
        self.nodes.len()
    }

    /// How many nodes it has memory for.
    #[inline(always)]
    pub fn room(&self) -> usize
        ensures { result ≡ room_of self.now }
    {
        self.nodes.capacity()
    }

    /// Takes all nodes off.
    pub fn clear(&mut self)
        ensures { stack_of N.tree self.new ≡ [] }
    {
        self.nodes.clear();
        self.frames.clear();
        self.here.below = 0;
        if N::has_summaries() {
            self.sums.clear();
        }
    }

    // Whether the topmost frame has this indent and this mode.
    #[inline(always)]
    fn shares(&self, indent: usize, mode: Mode) -> bool
        ensures { IsTrue result → (self.now.here.indent ≡ indent) × (self.now.here.mode ≡ mode) }
    {
        match (self.here.mode, mode) {
            (Mode::Break, Mode::Break) | (Mode::Flat, Mode::Flat) => self.here.indent == indent,
            _ => false,
        }
    }

    // Opens a frame above the topmost one. It is not copied into the loops, which seldom reach it.
    #[inline(never)]
    fn open(&mut self, indent: usize, mode: Mode) -> Result<(), AllocError>
        requires { self.old.here.below < vec_len self.old.nodes }
        ensures same { OnOk result (stack_of N.tree self.new ≡ stack_of N.tree self.old) }
        ensures opened { OnOk result ((self.new.here.indent ≡ indent) × (self.new.here.mode ≡ mode)) }
        ensures sums { OnOk result (self.new.sums ≡ self.old.sums) }
        ensures summed { OnOk result (IsSummed N.HAS_SUMMARIES N.tree self.old → IsSummed N.HAS_SUMMARIES N.tree self.new) }
        ensures room { OnOk result (room_of self.old ≤ room_of self.new) }
    {
        self.frames.push(self.here)?;
        self.here = Frame {
            indent,
            mode,
            below: self.nodes.len(),
        };
        Ok(())
    }

    // The sum of a node and of those below it, when it is put on top.
    #[inline]
    fn sum_with(&self, node: &N) -> Below
        requires { IsTrue N.HAS_SUMMARIES }
        ensures { (i : ℕ) (m : Mode) → IsSummed N.HAS_SUMMARIES N.tree self.now
            → SumsUp result (make_task i m (N.tree node.now) ∷ stack_of N.tree self.now) }
    {
        let height = self.nodes.len();
        let Known::Whole(own) = node.known(Mode::Break) else {
            return Below {
                sum: Summary::nothing(),
                left: height + 1,
            };
        };
        let alone = Below {
            sum: own,
            left: height,
        };
        let Some(below) = self.sums.last() else {
            return alone;
        };
        match own.then(below.sum) {
            Some(sum) => Below {
                sum,
                left: below.left,
            },
            None => alone,
        }
    }

    // Puts the sum of a node and of those below it on top, before the node itself.
    #[inline(always)]
    fn push_sum(&mut self, node: &N) -> Result<(), AllocError>
        ensures sums { OnOk result ((i : ℕ) (m : Mode) → IsSummed N.HAS_SUMMARIES N.tree self.old
            → AreSums self.new.sums.items (make_task i m (N.tree node.now) ∷ stack_of N.tree self.old)) }
        ensures long { OnOk result (length self.new.sums.items ≡ length self.old.sums.items + (if N.HAS_SUMMARIES then 1 else 0)) }
        ensures others { self.new ≡ record self.old { sums = self.new.sums } }
    {
        if N::has_summaries() {
            let sum = self.sum_with(node);
            self.sums.push(sum)?;
        }
        Ok(())
    }

    /// The indent of the topmost frame.
    #[inline(always)]
    pub fn indent_in(&self) -> usize
        ensures { result ≡ self.now.here.indent }
    {
        self.here.indent
    }

    /// The mode of the topmost frame.
    #[inline(always)]
    pub fn mode_in(&self) -> Mode
        ensures { result ≡ self.now.here.mode }
    {
        self.here.mode
    }

    // Makes the topmost frame one of another indent and mode: it opens one, or changes the topmost one if that has no node.
    #[inline(always)]
    fn change(&mut self, indent: usize, mode: Mode) -> Result<(), AllocError>
        ensures same { OnOk result (stack_of N.tree self.new ≡ stack_of N.tree self.old) }
        ensures entered { OnOk result ((self.new.here.indent ≡ indent) × (self.new.here.mode ≡ mode)) }
        ensures sums { OnOk result (self.new.sums ≡ self.old.sums) }
        ensures summed { OnOk result (IsSummed N.HAS_SUMMARIES N.tree self.old → IsSummed N.HAS_SUMMARIES N.tree self.new) }
        ensures room { OnOk result (room_of self.old ≤ room_of self.new) }
    {
        if self.here.below < self.nodes.len() {
            return self.open(indent, mode);
        }
        self.here.indent = indent;
        self.here.mode = mode;
        Ok(())
    }

    /// Makes the topmost frame one of this indent, in columns, and this mode. All nodes keep theirs.
    ///
    /// It fails where memory is refused: nothing is promised of the stack then.
    #[inline(always)]
    pub fn enter(&mut self, indent: usize, mode: Mode) -> Result<(), AllocError>
        ensures same { OnOk result (stack_of N.tree self.new ≡ stack_of N.tree self.old) }
        ensures entered { OnOk result ((self.new.here.indent ≡ indent) × (self.new.here.mode ≡ mode)) }
        ensures summed { OnOk result (IsSummed N.HAS_SUMMARIES N.tree self.old → IsSummed N.HAS_SUMMARIES N.tree self.new) }
        ensures room { OnOk result (room_of self.old ≤ room_of self.new) }
    {
        if self.here.below < self.nodes.len() && self.shares(indent, mode) {
            return Ok(());
        }
        self.change(indent, mode)
    }

    /// Puts a node on top, in the topmost frame: it has the indent and the mode of that. It gets no sum.
    ///
    /// It fails where memory is refused: nothing is promised of the stack then.
    #[inline(always)]
    pub fn put_in(&mut self, node: N) -> Result<(), AllocError>
        ensures put { OnOk result (stack_of N.tree self.new
            ≡ make_task self.old.here.indent self.old.here.mode (N.tree node) ∷ stack_of N.tree self.old) }
        ensures here { OnOk result (self.new.here ≡ self.old.here) }
        ensures sums { OnOk result (self.new.sums ≡ self.old.sums) }
        ensures room { OnOk result ((room_of self.old ≤ room_of self.new) × (length (stack_of N.tree self.new) ≤ room_of self.new)) }
    {
        self.seen = node.touch();
        self.nodes.push(node)?;
        Ok(())
    }

    // Puts a node on top, in a frame of its own. It takes the place of the topmost one, if that has no node.
    #[inline(never)]
    fn put_framed(&mut self, indent: usize, mode: Mode, node: N) -> Result<(), AllocError>
        ensures put { OnOk result (stack_of N.tree self.new ≡ make_task indent mode (N.tree node) ∷ stack_of N.tree self.old) }
        ensures sums { OnOk result (self.new.sums ≡ self.old.sums) }
        ensures room { OnOk result (room_of self.old ≤ room_of self.new) }
    {
        self.change(indent, mode)?;
        self.put_in(node)
    }

    /// Puts a node on top, with this indent, in columns, and this mode. It gets no sum: a probe's own nodes have none.
    ///
    /// It fails where memory is refused: nothing is promised of the stack then.
    #[inline(always)]
    pub fn put(&mut self, indent: usize, mode: Mode, node: N) -> Result<(), AllocError>
        ensures put { OnOk result (stack_of N.tree self.new ≡ make_task indent mode (N.tree node) ∷ stack_of N.tree self.old) }
        ensures sums { OnOk result (self.new.sums ≡ self.old.sums) }
        ensures room { OnOk result (room_of self.old ≤ room_of self.new) }
    {
        if self.shares(indent, mode) {
            return self.put_in(node);
        }
        self.put_framed(indent, mode, node)
    }

    /// Puts a node on top, with this indent, in columns, and this mode, and its sum where nodes have summaries.
    ///
    /// It fails where memory is refused: nothing is promised of the stack then.
    #[inline(always)]
    pub fn push(&mut self, indent: usize, mode: Mode, node: N) -> Result<(), AllocError>
        ensures pushed { OnOk result (stack_of N.tree self.new ≡ make_task indent mode (N.tree node) ∷ stack_of N.tree self.old) }
        ensures summed { OnOk result (IsSummed N.HAS_SUMMARIES N.tree self.old → IsSummed N.HAS_SUMMARIES N.tree self.new) }
        ensures room { OnOk result (room_of self.old ≤ room_of self.new) }
    {
        self.push_sum(&node)?;
        self.put(indent, mode, node)?;
        Ok(())
    }

    // Takes the topmost frame off, which has no node. The answer is whether there is another one.
    #[inline(always)]
    fn leave(&mut self) -> bool
        requires { self.old.here.below ≡ vec_len self.old.nodes }
        ensures same { stack_of N.tree self.new ≡ stack_of N.tree self.old }
        ensures nodes { self.new.nodes ≡ self.old.nodes }
        ensures summed { IsSummed N.HAS_SUMMARIES N.tree self.old → IsSummed N.HAS_SUMMARIES N.tree self.new }
        ensures more { IsTrue result → self.new.here.below < vec_len self.new.nodes }
        ensures none { IsFalse result → vec_len self.new.nodes ≡ 0 }
    {
        match self.frames.pop() {
            Some(frame) => {
                self.here = frame;
                true
            }
            None => false,
        }
    }

    // Drops the sums of nodes that were taken off.
    #[inline(always)]
    fn cut_sums(&mut self)
        ensures sums { self.new.sums.items
            ≡ (if N.HAS_SUMMARIES then take (vec_len self.old.nodes) self.old.sums.items else self.old.sums.items) }
        ensures others { self.new ≡ record self.old { sums = self.new.sums } }
    {
        if N::has_summaries() {
            self.sums.truncate(self.nodes.len());
        }
    }

    // Takes the node on top, which is in the topmost frame.
    #[inline(always)]
    fn take_here(&mut self) -> N
        requires { self.old.here.below < vec_len self.old.nodes }
        ensures taken { stack_of N.tree self.old
            ≡ make_task self.new.here.indent self.new.here.mode (N.tree result) ∷ stack_of N.tree self.new }
        ensures summed { IsSummed N.HAS_SUMMARIES N.tree self.old → IsSummed N.HAS_SUMMARIES N.tree self.new }
        ensures room { room_of self.new ≡ room_of self.old }
    {
        let Some(node) = self.nodes.pop() else {
            unreachable!()
        };
        self.cut_sums();
        node
    }

    // Takes the topmost frame off if it has no node. The answer is whether there is a node.
    #[inline(always)]
    fn reach_node(&mut self) -> bool
        ensures same { stack_of N.tree self.new ≡ stack_of N.tree self.old }
        ensures summed { IsSummed N.HAS_SUMMARIES N.tree self.old → IsSummed N.HAS_SUMMARIES N.tree self.new }
        ensures more { IsTrue result → self.new.here.below < vec_len self.new.nodes }
        ensures none { IsFalse result → stack_of N.tree self.new ≡ [] }
        ensures room { room_of self.new ≡ room_of self.old }
    {
        if self.here.below < self.nodes.len() {
            return true;
        }
        self.leave()
    }

    /// Takes the node on top. Its indent and its mode are those of the topmost frame then.
    #[inline(always)]
    pub fn pop_in(&mut self) -> Option<N>
        ensures popped { MatchOption result
            ((stack_of N.tree self.old ≡ []) × (stack_of N.tree self.new ≡ []))
            (λ n. stack_of N.tree self.old ≡ make_task self.new.here.indent self.new.here.mode (N.tree n) ∷ stack_of N.tree self.new) }
        ensures summed { IsSummed N.HAS_SUMMARIES N.tree self.old → IsSummed N.HAS_SUMMARIES N.tree self.new }
        ensures room { room_of self.new ≡ room_of self.old }
    {
        if self.reach_node() {
            Some(self.take_here())
        } else {
            None
        }
    }

    /// Takes the node on top.
    #[inline(always)]
    pub fn pop(&mut self) -> Option<Command<N>>
        ensures popped { MatchOption result
            ((stack_of N.tree self.old ≡ []) × (stack_of N.tree self.new ≡ []))
            (λ c. stack_of N.tree self.old ≡ task N.tree c ∷ stack_of N.tree self.new) }
        ensures summed { IsSummed N.HAS_SUMMARIES N.tree self.old → IsSummed N.HAS_SUMMARIES N.tree self.new }
    {
        let node = self.pop_in()?;
        Some(Command {
            indent: self.here.indent,
            mode: self.here.mode,
            node,
        })
    }

    /// Puts nodes on top, with this indent and this mode, so that the first of them is the next one.
    ///
    /// It fails where memory is refused: nothing is promised of the stack then.
    pub fn push_each(&mut self, indent: usize, mode: Mode, nodes: &[N]) -> Result<(), AllocError>
        ensures pushed { OnOk result (stack_of N.tree self.new ≡ tasks indent mode (trees N.tree nodes.now) ++ stack_of N.tree self.old) }
        ensures summed { OnOk result (IsSummed N.HAS_SUMMARIES N.tree self.old → IsSummed N.HAS_SUMMARIES N.tree self.new) }
    {
        let mut k = nodes.len();
        while k > 0 {
            k -= 1;
            self.push(indent, mode, nodes[k])?;
        }
        Ok(())
    }

    // Keeps this many nodes at the bottom, from the topmost frame on.
    fn keep(&mut self, kept: usize)
        requires { self.old.here.below ≤ kept }
        ensures below { (above below : List Task) → stack_of N.tree self.old ≡ above ++ below → length below ≤ kept
            → (rest : List Task) × (stack_of N.tree self.new ≡ rest ++ below) }
        ensures at_most { length (stack_of N.tree self.new) ≤ kept }
        ensures here { self.new.here ≡ self.old.here }
        ensures nodes { vec_len self.old.nodes ≤ kept → vec_len self.new.nodes ≡ vec_len self.old.nodes }
        ensures cut { kept ≤ vec_len self.old.nodes → vec_len self.new.nodes ≡ kept }
        ensures summed { IsSummed N.HAS_SUMMARIES N.tree self.old → IsSummed N.HAS_SUMMARIES N.tree self.new }
    {
        self.nodes.truncate(kept);
        self.cut_sums();
    }

    /// Keeps this many nodes at the bottom.
    pub fn cut(&mut self, kept: usize)
        ensures cut { (above below : List Task) → stack_of N.tree self.old ≡ above ++ below → length below ≡ kept
            → stack_of N.tree self.new ≡ below }
        ensures summed { IsSummed N.HAS_SUMMARIES N.tree self.old → IsSummed N.HAS_SUMMARIES N.tree self.new }
    {
        'frames: while kept < self.here.below {
            self.keep(self.here.below);
            self.leave();
        }
        self.keep(kept);
    }

    /// The indent of the node on top, or another where there is none.
    #[inline(always)]
    pub fn next_indent(&self, other: usize) -> usize
        ensures { result ≡ next_indent_of other (follow (stack_of N.tree self.now)) }
    {
        if self.here.below < self.nodes.len() {
            return self.here.indent;
        }
        let depth = self.frames.len();
        if depth == 0 {
            return other;
        }
        let frame = self.frames[depth - 1];
        frame.indent
    }

    /// A cursor at the top: no node is read yet. It is of this stack, and only as the stack is now.
    #[inline(always)]
    pub fn cursor(&self) -> Cursor
        ensures of_this { IsCursor self.now result }
        ensures unread { unread N.tree self.now result ≡ stack_of N.tree self.now }
    {
        Cursor {
            nodes: self.nodes.len(),
            frames: self.frames.len(),
            here: self.here,
        }
    }

    // Goes on from a frame that is read to the one below it. The answer is whether there is one.
    #[inline(always)]
    fn leave_read(&self, cursor: &mut Cursor) -> bool
        requires of_this { IsCursor self.now cursor.old }
        requires read { cursor.old.here.below ≡ cursor.old.nodes }
        ensures of_this { IsCursor self.now cursor.new }
        ensures same { unread N.tree self.now cursor.new ≡ unread N.tree self.now cursor.old }
        ensures nodes { cursor.new.nodes ≡ cursor.old.nodes }
        ensures more { IsTrue result → cursor.new.here.below < cursor.new.nodes }
        ensures none { IsFalse result → cursor.new.nodes ≡ 0 }
    {
        if cursor.frames == 0 {
            return false;
        }
        cursor.frames -= 1;
        cursor.here = self.frames[cursor.frames];
        true
    }

    // Reads the next node downwards, if it is in the cursor's frame.
    #[inline(always)]
    fn read_here(&self, cursor: &mut Cursor) -> Option<Command<N>>
        requires { IsCursor self.now cursor.old }
        ensures of_this { IsCursor self.now cursor.new }
        ensures unread { MatchOption result
            ((cursor.old.here.below ≡ cursor.old.nodes) × (cursor.new ≡ cursor.old))
            (λ c. unread N.tree self.now cursor.old ≡ task N.tree c ∷ unread N.tree self.now cursor.new) }
    {
        if cursor.here.below == cursor.nodes {
            return None;
        }
        cursor.nodes -= 1;
        Some(Command {
            indent: cursor.here.indent,
            mode: cursor.here.mode,
            node: self.nodes[cursor.nodes],
        })
    }

    /// Reads the next node downwards, with its indent and mode, and moves the cursor past it.
    /// `None` is answered where all are read. The stack stays.
    #[inline(always)]
    pub fn read_down(&self, cursor: &mut Cursor) -> Option<Command<N>>
        requires { IsCursor self.now cursor.old }
        ensures of_this { IsCursor self.now cursor.new }
        ensures unread { MatchOption result
            ((unread N.tree self.now cursor.old ≡ []) × (unread N.tree self.now cursor.new ≡ []))
            (λ c. unread N.tree self.now cursor.old ≡ task N.tree c ∷ unread N.tree self.now cursor.new) }
    {
        if let Some(next) = self.read_here(cursor) {
            return Some(next);
        }
        if !self.leave_read(cursor) {
            return None;
        }
        self.read_here(cursor)
    }

    /// The sum of what is not read yet, where it combines a node at least: so it does where the next node has a summary, unless there are
    /// too many nodes.
    #[inline]
    pub fn sum_of(&self, cursor: &Cursor) -> Option<Below>
        requires of_this { IsCursor self.now cursor.now }
        requires summed { AreSums self.now.sums.items (unread N.tree self.now cursor.now) }
        ensures { MatchOption result
            (length (unread N.tree self.now cursor.now) ≤ length self.now.sums.items
            → (HaveSum (unread N.tree self.now cursor.now) → unread N.tree self.now cursor.now ≡ [])
            × (nodes (unread N.tree self.now cursor.now) < 2 ^ 32
            → below_run (unread N.tree self.now cursor.now) ≡ unread N.tree self.now cursor.now))
            (λ b. SumsUp b (unread N.tree self.now cursor.now) × (b.left < length (unread N.tree self.now cursor.now))) }
    {
        let height = cursor.nodes;
        if height == 0 || height > self.sums.len() {
            return None;
        }
        let below = self.sums[height - 1];
        if below.left < height {
            Some(below)
        } else {
            None
        }
    }

    // Leaves out the nodes of the cursor's frame that are not read yet, down to a height.
    #[inline(always)]
    fn skip_here(&self, cursor: &mut Cursor, left: usize)
        requires of_this { IsCursor self.now cursor.old }
        requires below { cursor.old.here.below ≤ left }
        requires left { left ≤ cursor.old.nodes }
        ensures of_this { IsCursor self.now cursor.new }
        ensures unread { unread N.tree self.now cursor.new ≡ bottom left (unread N.tree self.now cursor.old) }
        ensures others { cursor.new ≡ record cursor.old { nodes = left } }
    {
        cursor.nodes = left;
    }

    // Leaves out all nodes.
    #[inline(always)]
    fn skip_all(&self, cursor: &mut Cursor)
        ensures of_this { IsCursor self.now cursor.new }
        ensures unread { unread N.tree self.now cursor.new ≡ [] }
    {
        cursor.nodes = 0;
        cursor.frames = 0;
        cursor.here.below = 0;
    }

    /// Moves the cursor down, past all that is not read yet but so many nodes at the bottom. The stack stays.
    pub fn skip_to(&self, cursor: &mut Cursor, left: usize)
        requires of_this { IsCursor self.now cursor.old }
        requires left { left ≤ length (unread N.tree self.now cursor.old) }
        ensures of_this { IsCursor self.now cursor.new }
        ensures unread { unread N.tree self.now cursor.new ≡ bottom left (unread N.tree self.now cursor.old) }
    {
        if left == 0 {
            return self.skip_all(cursor);
        }
        'frames: while left < cursor.here.below {
            let below = cursor.here.below;
            self.skip_here(cursor, below);
            self.leave_read(cursor);
        }
        self.skip_here(cursor, left);
    }
}
