//! The instructions of programs, with their operands.
ghost use Rattle.std.specs.Prelude.{◌≡◌};
ghost use Rattle.prettyless_model.specs.declared.choice.ChoiceTest.TheVariants.{OnColumn, OnNesting};
ghost use Rattle.prettyless_model.specs.declared.kind.Indenting.TheVariants.{Nest};
ghost use Rattle.prettyless_model.specs.declared.kind.Pair.TheVariants.{Chosen};
ghost use Rattle.prettyless_model.specs.declared.kind.Single.TheVariants.{Indented};
ghost use Rattle.prettyless_program.specs.declared.instruction.Instruction.TheVariants.{Both, Wrap};

use prettyless_model::choice::{ChoiceTest, ColumnTest, NestingTest};
use prettyless_model::kind::{Indenting, Pair, Single};

/// A document that holds no other.
#[derive(Clone, Copy)]
pub enum Leaf {
    Nil,
    Fail,
    WeakSpace,
    HardLine,
    WeakLine,
    ExpandParent,
    Line,
    LineOrNil,
}

/// How a text is counted.
#[derive(Clone, Copy)]
pub enum Words {
    /// By its display width.
    Measured,
    /// As one column a byte.
    Ascii,
    /// As a text that may have several lines.
    Multiline,
}

/// One instruction of a program. Its texts are those of the program.
#[derive(Clone, Copy)]
pub enum Instruction<'p> {
    /// Makes a document that holds no other.
    Leaf(Leaf),
    /// Makes a document of a text, counted in this way.
    Words(Words, &'p str),
    /// A text, and how many columns it counts as.
    Counted(usize, &'p str),
    /// Makes a node of this kind over the last document.
    Wrap(Single),
    /// Makes a node of this kind over the last two documents.
    Both(Pair),
    /// Opens a sequence: what is made until it is closed is one document.
    Open,
    /// Closes the sequence that was opened last.
    Close,
}

impl<'p> Instruction<'p> {
    /// The instruction that moves the indent of the last document by `offset` columns.
    #[inline(always)]
    pub fn nest(offset: isize) -> Self
        ensures { result ≡ Wrap (Indented (Nest offset)) }
    {
        Instruction::Wrap(Single::Indented(Indenting::Nest(offset)))
    }

    /// The choice that asks this of the column.
    #[inline(always)]
    pub fn on_column(test: ColumnTest) -> Self
        ensures { result ≡ Both (Chosen (OnColumn test)) }
    {
        Instruction::Both(Pair::Chosen(ChoiceTest::OnColumn(test)))
    }

    /// The choice that asks this of the indent.
    #[inline(always)]
    pub fn on_nesting(test: NestingTest) -> Self
        ensures { result ≡ Both (Chosen (OnNesting test)) }
    {
        Instruction::Both(Pair::Chosen(ChoiceTest::OnNesting(test)))
    }
}
