//! What a render costs. This file knows counts alone, and no nodes.

/// Counts of visited nodes. Each count stops at the greatest `u64`.
#[derive(Clone, Copy, Debug, Default)]
pub struct Visits {
    /// Visits of nodes by the printer: to print them, also in a trial that was rejected. A payload that a union
    /// rejected by its metrics counts too.
    pub printer: u64,
    /// Visits by probes: of nodes, and of the sums of a table's printer.
    pub probes: u64,
}

/// The summed cost of renders: their visits, and how often these were not bounded.
#[derive(Clone, Copy, Debug, Default)]
pub struct RenderCost {
    /// The nodes that were visited.
    pub visits: Visits,
    /// The number of tables for which there was no memory, which is no error. Without a table, probes may visit more
    /// nodes. It stops at the greatest `u64`.
    pub refused: u64,
}
