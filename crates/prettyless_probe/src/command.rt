//! A node that is still to be laid, with its indent and its mode. Nothing is known of the node: it may be of any type.
ghost use Rattle.std.specs.Prelude.{◌≡◌, ⊤};
ghost use Rattle.prettyless_model.specs.Column.{nested};

use prettyless_model::mode::Mode;
use std::alloc::AllocError;

/// A node that is still to be laid, with its indent in columns and its mode.
pub struct Command<N> {
    pub indent: usize,
    pub mode: Mode,
    pub node: N,
}

impl<N: Copy> Clone for Command<N> {
    ghost is_clone = { λ c d. d ≡ c };

    ghost is_infallible = { λ _. ⊤ };

    fn clone(&self) -> Result<Self, AllocError> {
        Ok(*self)
    }
}

impl<N: Copy> Copy for Command<N> {}

/// An indent that a nesting changes, kept within 0 and the greatest `usize`.
#[inline(always)]
pub fn nested_indent(indent: usize, offset: isize) -> usize
    ensures { result ≡ nested indent offset }
{
    indent.saturating_add_signed(offset)
}

/// An indent and a mode, for all nodes from a height on, up to where the next frame begins.
#[derive(Clone, Copy)]
pub struct Frame {
    pub indent: usize,
    pub mode: Mode,
    /// How many nodes of the stack are below the frame: its own begin at that height.
    pub below: usize,
}
