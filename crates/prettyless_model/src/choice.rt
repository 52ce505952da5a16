//! What a choice between two documents asks of the column or of the indent. This file knows numbers alone.
ghost use Rattle.std.specs.Prelude.{◌≡◌};
ghost use Rattle.prettyless_model.specs.Choice.{choice_holds, column_holds, nesting_holds};

/// What a choice by column asks: of the column where the next content would begin, weak spaces that wait included. The
/// first column is 0.
#[derive(Clone, Copy, Debug, PartialEq, Eq)]
pub enum ColumnTest {
    /// Whether it is at most this.
    AtMost(usize),
    /// Whether it is at least this.
    AtLeast(usize),
    /// Whether it is the indent.
    IsNesting,
}

impl ColumnTest {
    /// Whether the test holds at this column, where lines have this indent.
    #[inline]
    pub fn holds(self, column: usize, indent: usize) -> bool
        ensures { result ≡ column_holds self column indent }
    {
        match self {
            ColumnTest::AtMost(limit) => column <= limit,
            ColumnTest::AtLeast(limit) => limit <= column,
            ColumnTest::IsNesting => column == indent,
        }
    }
}

/// What a choice by nesting asks of the indent, in columns.
#[derive(Clone, Copy, Debug, PartialEq, Eq)]
pub enum NestingTest {
    /// Whether it is at most this.
    AtMost(usize),
    /// Whether it is at least this.
    AtLeast(usize),
}

impl NestingTest {
    /// Whether the test holds where lines have this indent.
    #[inline]
    pub fn holds(self, indent: usize) -> bool
        ensures { result ≡ nesting_holds self indent }
    {
        match self {
            NestingTest::AtMost(limit) => indent <= limit,
            NestingTest::AtLeast(limit) => limit <= indent,
        }
    }
}

/// What a choice between two documents asks: of the column, or of the indent alone.
#[derive(Clone, Copy, Debug, PartialEq, Eq)]
pub enum ChoiceTest {
    OnColumn(ColumnTest),
    OnNesting(NestingTest),
}

impl ChoiceTest {
    /// Whether the test holds at this column, where lines have this indent.
    #[inline]
    pub fn holds(self, column: usize, indent: usize) -> bool
        ensures { result ≡ choice_holds self column indent }
    {
        match self {
            ChoiceTest::OnColumn(test) => test.holds(column, indent),
            ChoiceTest::OnNesting(test) => test.holds(indent),
        }
    }
}
