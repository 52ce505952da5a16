//! The cells of a table. A cell knows summaries and places, and neither the parts of a node nor the table.
ghost use Rattle.std.specs.Prelude.{◌≡◌, IfOk};
ghost use Rattle.prettyless_model.specs.Tree.{Tree};
ghost use Rattle.prettyless_table.specs.Cells.{KeepsBoth, second_of};
ghost use Rattle.prettyless_summary.specs.Known.{IsKnown};
ghost use Rattle.prettyless_table.specs.Sums.{AreDocumentSums};

use crate::refusal::{TableRefused, refused};
use crate::sums::{Counts, Sums, in_mode, is_narrow, kept, packed};
use prettyless_model::mode::Mode;
use prettyless_probe::walk::Walk;
use prettyless_summary::known::Known;
use std::alloc::Global;

/// A cell of a table: the summaries of a node, or a document that was stored.
#[derive(Drop)]
pub enum Cell<N> {
    /// A node that is not small: its summaries, and the place of its second part. Its first part, or only one, has the cell before it.
    Sums {
        flat_marks: u8,
        broken_marks: u8,
        second: u32,
        flat: Counts,
        broken: Counts,
    },
    /// The same of a node that is wider than `Sums` can say: the place of its second part, and its summaries.
    Wide(u32, Box<Sums>),
    /// A document that was stored, and its place.
    Root(u32, N),
}

impl<N: Walk> Cell<N> {
    /// The cell of a node with these summaries, whose second part is at a place. A wide one takes memory, which may be refused.
    #[inline(always)]
    pub fn of_sums(alloc: Global, sums: Sums, second: u32) -> Result<Self, TableRefused>
        ensures keeps { IfOk result (λ cell. (d : Tree) → AreDocumentSums sums d → KeepsBoth cell d) }
        ensures second { IfOk result (λ cell. second_of cell ≡ second) }
    {
        if !is_narrow(sums.flat) || !is_narrow(sums.broken) {
            return Ok(Cell::Wide(second, Box::new(alloc, sums).map_err(refused)?));
        }
        let (flat_marks, flat) = packed(sums.flat);
        let (broken_marks, broken) = packed(sums.broken);
        Ok(Cell::Sums {
            flat_marks,
            broken_marks,
            second,
            flat,
            broken,
        })
    }

    /// What the cell keeps of a mode.
    #[inline(always)]
    pub fn known(&self, mode: Mode) -> Known
        ensures { (d : Tree) → KeepsBoth self.now d → IsKnown result d mode }
    {
        match self {
            Cell::Sums {
                flat_marks,
                broken_marks,
                flat,
                broken,
                ..
            } => kept(mode, *flat_marks, *flat, *broken_marks, *broken),
            Cell::Wide(_, sums) => in_mode(**sums, mode),
            Cell::Root(_, _) => Known::nothing(),
        }
    }

    /// The place of the second part.
    #[inline(always)]
    pub fn second(&self) -> u32
        ensures { result ≡ second_of self.now }
    {
        match self {
            Cell::Sums { second, .. } | Cell::Wide(second, _) => *second,
            Cell::Root(_, _) => 0,
        }
    }
}

const _: () = prove!(size_of::<Cell<&'static u8>>() == 32);
