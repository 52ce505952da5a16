//! The results of turns, alone and in a trial, of runs and of trials. They know nothing of nodes.

/// A choice between two branches of a union.
#[derive(Drop)]
pub struct Choice<N> {
    /// The indent of both branches, in columns.
    pub indent: usize,
    pub first: N,
    pub second: N,
}

/// The result of a turn: its last node was visited and written, or fails, or two branches are to be chosen from; or it stopped before
/// a node.
#[derive(Drop)]
pub enum TurnResult<N> {
    Complete,
    Failed,
    Choice(Choice<N>),
    /// The run stops here, perhaps to go on over a table. A step that needs a probe does nothing where probes are past the limit.
    /// `turn` puts its command back, and each caller up to `resume` answers `Shift` at once and leaves open trials open, so that all
    /// that is left stands in the `Run`. Then `run_with_shift` resumes it, or a run over a table that has the same left. That goes on
    /// in the innermost open trial, if one is open, with the command that was put back.
    Shift,
}

/// The result of a run: all is done, or it stopped (`TurnResult::Shift`).
#[derive(Clone, Copy)]
pub enum RunResult {
    Finished,
    Shift,
}

/// The state of a trial: it is running; it is complete, and its branch fits; its branch is rejected; two branches of a union in
/// it are to be chosen from; or it stopped (`TurnResult::Shift`).
#[derive(Drop)]
pub enum TrialState<N> {
    Running,
    Complete,
    Rejected,
    Choice(Choice<N>),
    Shift,
}

/// The result of open trials: the branch of the outermost one is kept, or rejected, with its second branch next; or they are still
/// open, since the innermost one stopped (`TurnResult::Shift`).
#[derive(Clone, Copy)]
pub enum TrialResult {
    Kept,
    Rejected,
    Shift,
}
