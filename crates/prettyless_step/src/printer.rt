//! The printer's state, and what a step answers. This file reads no node, and knows no sink.
use crate::piece::Piece;
use crate::queue::Queue;
use prettyless_model::column::Column;
use prettyless_model::options::RenderOptions;
use prettyless_probe::stack::Stack;

/// The printer's state: the column, the commands that are left, and the line suffixes that were visited.
#[derive(Drop)]
pub struct Printer<N> {
    pub options: RenderOptions,
    pub column: Column,
    /// Whether, since the open trial began, nothing went past the width.
    pub within: bool,
    /// The nodes that are left.
    pub commands: Stack<N>,
    /// The probe's own stack, which keeps its memory between probes.
    pub scratch: Stack<N>,
    /// What is left of a document that is laid as its texts, which keeps its memory between documents.
    pub flat: Vec<N>,
    /// The line suffixes that were visited.
    pub queue: Queue<N>,
}

/// The result of the visit of one node: nothing to write, a node to descend to at an indent, in the same mode or flat, a piece to
/// write, or a choice between two branches at an indent; or the node fails.
#[derive(Drop)]
pub enum StepResult<'v, N> {
    Silent,
    Descend(usize, N),
    DescendFlat(usize, N),
    /// A node that is laid flat, as its texts: a probe found `Fit::FitsAsTexts`.
    DescendTexts(usize, N),
    Emit(Piece<'v>),
    Failed,
    /// Nothing: the node needs a probe, and probes are past their limit.
    Shift,
    Choice(usize, N, N),
}
