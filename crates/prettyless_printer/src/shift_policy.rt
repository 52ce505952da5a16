//! When a printer shifts: it goes on over a table of what is left where probes have visited much more than the printer.
//! This file knows counts of visits, and no table.
ghost use Rattle.std.specs.Prelude.{◌≡◌, ◌≤◌};

use prettyless_sink::visits::Visits;

/// Probes may visit so many times as many nodes as the printer (`probe_factor`). A node of a table costs about a dozen visits.
/// The limit is tested before a probe: after one long probe, around a long list, a table is not worth its price.
const FACTOR: u64 = 16;

/// And so many more (`probe_grace`).
const GRACE: u64 = 1000;

/// A table may have so many times as many nodes as were visited before it.
const ROOM: u64 = 4;

/// A table that is made before the first node may have so many. Its cells take 32 MiB at most.
pub(crate) const ROOM_AT_FIRST: u64 = 1_048_576;

/// What a render has to know to shift.
#[derive(Clone, Copy)]
pub struct ShiftPolicy {
    /// The visits before the render.
    pub start: Visits,
    /// Probes visit so many nodes before a table is made.
    pub next_try: u64,
}

impl ShiftPolicy {
    ghost use Rattle.std.specs.Prelude.{max};
    ghost use Rattle.prettyless_printer.specs.ShiftPolicy.{probe_limit};

    /// Before a render. A table is made as soon as it is worth it.
    pub(crate) fn new(start: Visits) -> Self
        ensures first { result ≡ record { start = start; next_try = 0 } }
        ensures within { start.probes ≤ probe_limit result start }
    {
        ShiftPolicy { start, next_try: 0 }
    }

    /// How many nodes probes may visit before a table is worth it.
    pub(crate) fn limit(&self, visits: Visits) -> u64
        ensures { result ≡ probe_limit self.now visits }
    {
        let printer = visits.printer.saturating_sub(self.start.printer);
        let worth = printer.saturating_mul(FACTOR).saturating_add(GRACE);
        self.start.probes.saturating_add(worth.max(self.next_try))
    }

    /// How many nodes a table may have: none where it is not worth it, and else so many times as many as were visited in the render.
    /// Where none with so many is made, the next one is tried once probes have visited as many nodes.
    pub(crate) fn next_room(&mut self, visits: Visits) -> u64
        ensures start { self.new.start ≡ self.old.start }
        ensures next { self.new.next_try ≤ max self.old.next_try result }
        ensures within { visits.probes ≤ probe_limit self.new visits }
    {
        if visits.probes <= self.limit(visits) {
            return 0;
        }
        let printer = visits.printer.saturating_sub(self.start.printer);
        let probes = visits.probes.saturating_sub(self.start.probes);
        self.next_try = printer.saturating_add(probes).saturating_mul(ROOM);
        self.next_try
    }
}
