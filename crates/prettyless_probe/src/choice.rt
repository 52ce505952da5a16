//! Which of two nodes is taken: by the mode, by the column or by the indent.
//! This file knows nodes by `Walk` alone, and no stack.
ghost use Rattle.std.specs.Prelude.{◌≡◌, if◌then◌else◌};
ghost use Rattle.prettyless_model.specs.Choice.{column_holds, nesting_holds};
ghost use Rattle.prettyless_model.specs.Column.{prospective};
ghost use Rattle.prettyless_model.specs.Look.{by_mode};

use crate::walk::Walk;
use prettyless_model::choice::{ColumnTest, NestingTest};
use prettyless_model::column::Column;
use prettyless_model::mode::Mode;

/// The one that a mode chooses.
pub fn either<N: Copy>(mode: Mode, broken: N, flat: N) -> N
    ensures { result ≡ by_mode mode broken flat }
{
    match mode {
        Mode::Break => broken,
        Mode::Flat => flat,
    }
}

// The first of two nodes where a test holds, else the second.
#[inline(always)]
fn chosen<N: Walk>(holds: bool, first: N, second: N) -> N
    ensures { N.tree result ≡ if holds then N.tree first else N.tree second }
{
    if holds { first } else { second }
}

/// The one that a choice by column takes: the test is asked of the column where the next content would begin.
#[inline(always)]
pub fn by_column<N: Walk>(test: ColumnTest, column: Column, indent: usize, first: N, second: N) -> N
    ensures { N.tree result ≡ if column_holds test (prospective column) indent then N.tree first else N.tree second }
{
    chosen(test.holds(column.prospective(), indent), first, second)
}

/// The one that a choice by nesting takes.
#[inline(always)]
pub fn by_nesting<N: Walk>(test: NestingTest, indent: usize, first: N, second: N) -> N
    ensures { N.tree result ≡ if nesting_holds test indent then N.tree first else N.tree second }
{
    chosen(test.holds(indent), first, second)
}
