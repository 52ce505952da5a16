//! Refused memory (out of memory), as a value that only a refused request makes. Refusals are counted by such values alone.
ghost use Rattle.std.specs.Prelude.{◌≡◌, ◌≤◌, ℕ, ⊤};
ghost use Rattle.prettyless_sink.specs.Sink.{rise};

use prettyless_model::count::one_more;
use prettyless_table::refusal::TableRefused;
use std::marker::Model;

/// Memory for a shift was refused: for the table, or for the printer over it. Only a refused request makes such a value.
#[derive(Drop)]
pub struct ShiftRefused {
    sealed: (),
}

// The error of a request that was refused, whichever that answered.
#[inline(always)]
pub(crate) fn refused<E: Drop>(_: E) -> ShiftRefused {
    ShiftRefused { sealed: () }
}

impl From<TableRefused> for ShiftRefused {
    ghost from_gives = { λ _ _. ⊤ };

    #[inline(always)]
    fn from(_: TableRefused) -> ShiftRefused {
        ShiftRefused { sealed: () }
    }
}

/// How many tables were refused memory. It stops at the greatest `u64`.
#[derive(Drop)]
pub struct Refusals {
    tables: u64,
}

impl Model for Refusals {
    ghost Value = { ℕ };

    ghost view = { λ r. r.tables };
}

impl Refusals {
    /// No table was refused memory.
    pub fn none() -> Self
        ensures { result ≡ 0 }
    {
        Refusals { tables: 0 }
    }

    /// One more table was refused memory.
    pub fn count(&mut self, _: ShiftRefused)
        ensures one { self.new ≡ rise self.old }
        ensures rises { self.old ≤ self.new }
    {
        self.tables = one_more(self.tables);
    }

    /// How many tables were refused memory.
    pub fn total(&self) -> u64
        ensures { result ≡ self.now }
    {
        self.tables
    }
}
