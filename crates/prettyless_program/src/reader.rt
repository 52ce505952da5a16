//! What is left of a program, read an instruction at a time.
ghost use Rattle.std.specs.Prelude.{◌≡◌, List, ◌∷◌, ◌++◌, ◌<◌, ◌^◌, [], length, IfOk, IfErr, IfSome, IfNone, MatchOption};
ghost use Rattle.std.specs.Int.{w32, to_le_bytes};
ghost use Rattle.std.specs.Str.{IsUtf8};
ghost use Rattle.prettyless_program.specs.Faults.{IsTextFault, Stops};
ghost use Rattle.prettyless_program.specs.Made.{instruction_of};
ghost use Rattle.prettyless_program.specs.Programs.{CodeItem, IsWritable, number, sized, written};
ghost use Rattle.prettyless_program.specs.declared.fault.ProgramFault.TheVariants.{Operand};

use crate::fault::ProgramFault;
use crate::instruction::{Instruction, Leaf, Words};
use prettyless_model::choice::{ColumnTest, NestingTest};
use prettyless_model::kind::{Indenting, Pair, Single};
use std::str::from_utf8;

/// What is left of a program.
#[derive(Clone, Copy)]
pub struct Reader<'p> {
    /// The bytes that are not read yet.
    pub rest: &'p [u8],
}

impl<'p> Reader<'p> {
    /// The byte that comes next, if there is one.
    #[inline(always)]
    fn byte(&mut self) -> Option<u8>
        ensures some { IfSome result (λ byte. self.old.rest.now ≡ byte ∷ self.new.rest.now) }
        ensures none { IfNone result (self.old.rest.now ≡ []) }
    {
        let rest: &'p [u8] = self.rest;
        match rest {
            [byte, after @ ..] => {
                self.rest = after;
                Some(*byte)
            }
            [] => None,
        }
    }

    /// The length that comes next, in four bytes, the lowest first.
    #[inline(always)]
    fn length(&mut self) -> Result<usize, ProgramFault>
        ensures ok { IfOk result (λ n. (self.old.rest.now ≡ to_le_bytes w32 n ++ self.new.rest.now) × (n < 2 ^ 32)) }
        ensures err { IfErr result (λ fault. (fault ≡ Operand) × (length self.old.rest.now < 4)) }
    {
        let rest: &'p [u8] = self.rest;
        match rest {
            [a, b, c, d, after @ ..] => {
                self.rest = after;
                Ok(u32::from_le_bytes([*a, *b, *c, *d]) as usize)
            }
            _ => Err(ProgramFault::Operand),
        }
    }

    /// The number that comes next, in eight bytes, the lowest first.
    #[inline(always)]
    fn number(&mut self) -> Result<usize, ProgramFault>
        ensures ok { IfOk result (λ n. (self.old.rest.now ≡ number n ++ self.new.rest.now) × (n < 2 ^ 64)) }
        ensures err { IfErr result (λ fault. (fault ≡ Operand) × (length self.old.rest.now < 8)) }
    {
        let rest: &'p [u8] = self.rest;
        match rest {
            [a, b, c, d, e, f, g, h, after @ ..] => {
                self.rest = after;
                Ok(usize::from_le_bytes([*a, *b, *c, *d, *e, *f, *g, *h]))
            }
            _ => Err(ProgramFault::Operand),
        }
    }

    /// The text that comes next, after its length in bytes.
    #[inline(always)]
    fn text(&mut self) -> Result<&'p str, ProgramFault>
        ensures ok { IfOk result (λ s. (self.old.rest.now ≡ sized s.now ++ self.new.rest.now)
            × (length s.now < 2 ^ 32) × IsUtf8 s.now) }
        ensures err { IfErr result (λ fault. IsTextFault fault self.old.rest.now) }
    {
        let length = self.length()?;
        let rest: &'p [u8] = self.rest;
        if length > rest.len() {
            return Err(ProgramFault::Operand);
        }
        let (bytes, after) = rest.split_at(length);
        self.rest = after;
        match from_utf8(bytes) {
            Ok(text) => Ok(text),
            Err(_) => Err(ProgramFault::Text),
        }
    }

    /// The instruction of this code, with the operands that come next.
    #[inline(always)]
    #[tactic(auto, using(crate::proofs::Operands::stopping))]
    fn instruction(&mut self, code: u8) -> Result<Instruction<'p>, ProgramFault>
        ensures ok { IfOk result (λ i. (code ∷ self.old.rest.now ≡ written (instruction_of i) ++ self.new.rest.now)
            × IsWritable (instruction_of i)) }
        ensures err { IfErr result (λ fault. (items : List CodeItem) → Stops fault (code ∷ self.old.rest.now) items) }
    {
        Ok(match code {
            0 => Instruction::Leaf(Leaf::Nil),
            1 => Instruction::Leaf(Leaf::Fail),
            2 => Instruction::Leaf(Leaf::WeakSpace),
            3 => Instruction::Leaf(Leaf::HardLine),
            4 => Instruction::Leaf(Leaf::WeakLine),
            5 => Instruction::Leaf(Leaf::ExpandParent),
            6 => Instruction::Leaf(Leaf::Line),
            7 => Instruction::Leaf(Leaf::LineOrNil),
            16 => Instruction::Words(Words::Measured, self.text()?),
            17 => Instruction::Words(Words::Ascii, self.text()?),
            18 => Instruction::Counted(self.number()?, self.text()?),
            19 => Instruction::Words(Words::Multiline, self.text()?),
            32 => Instruction::Wrap(Single::Group),
            33 => Instruction::Wrap(Single::Flatten),
            34 => Instruction::Wrap(Single::Indented(Indenting::Align)),
            35 => Instruction::Wrap(Single::Indented(Indenting::DedentToRoot)),
            36 => Instruction::Wrap(Single::LineSuffix),
            37 => Instruction::nest(self.number()?.cast_signed()),
            48 => Instruction::Both(Pair::Append),
            49 => Instruction::Both(Pair::BreakOrFlat),
            50 => Instruction::Both(Pair::Union),
            51 => Instruction::Both(Pair::PartialUnion),
            52 => Instruction::on_column(ColumnTest::AtMost(self.number()?)),
            53 => Instruction::on_column(ColumnTest::AtLeast(self.number()?)),
            54 => Instruction::on_column(ColumnTest::IsNesting),
            55 => Instruction::on_nesting(NestingTest::AtMost(self.number()?)),
            56 => Instruction::on_nesting(NestingTest::AtLeast(self.number()?)),
            64 => Instruction::Open,
            65 => Instruction::Close,
            _ => return Err(ProgramFault::Instruction),
        })
    }

    /// The instruction that comes next, if the program goes on.
    ///
    /// A `ProgramFault` says why the bytes there are no instruction. Nothing is promised of the reader then.
    #[inline(always)]
    pub fn next(&mut self) -> Result<Option<Instruction<'p>>, ProgramFault>
        ensures ok { IfOk result (λ next. MatchOption next (self.old.rest.now ≡ [])
            (λ i. (self.old.rest.now ≡ written (instruction_of i) ++ self.new.rest.now) × IsWritable (instruction_of i))) }
        ensures err { IfErr result (λ fault. (items : List CodeItem) → Stops fault self.old.rest.now items) }
    {
        let Some(code) = self.byte() else {
            return Ok(None);
        };
        Ok(Some(self.instruction(code)?))
    }
}
