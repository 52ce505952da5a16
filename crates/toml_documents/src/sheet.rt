//! Lines that are laid out one after another, with their comments aligned.
ghost use Rattle.std.specs.Prelude.{◌≡◌, ◌++◌, [], List, ℕ, true, IfOk, OnOk};
ghost use Rattle.std.specs.String.{string_bytes};
ghost use Rattle.toml_documents.specs.Alignment.{comments_as};
ghost use Rattle.toml_documents.specs.Sheets.{settled_lines, IsSheet};
ghost use Rattle.toml_documents.specs.Walks.{is_settled};

use crate::alignment::push_aligned;
use crate::walk::{FIRST, LinesRead};
use std::alloc::{AllocError, Global};

/// Lines that were laid out.
#[derive(Drop)]
pub struct Sheet {
    /// Whether comments at the ends of lines that follow each other are aligned.
    align: bool,
    /// The first lines, as they are to be.
    done: String,
    /// The lines after them, as they were laid out: the comments of later ones may be aligned with theirs.
    waiting: String,
    /// What those lines are.
    walk: LinesRead,
}

/// Adds lines with which no later ones are aligned, where their comments are aligned.
fn push_settled(done: &mut String, lines: &str, walk: LinesRead) -> Result<(), AllocError>
    ensures { OnOk result (string_bytes done.new ≡ string_bytes done.old ++ settled_lines walk.plain lines.now) }
{
    if walk.is_plain() {
        return done.push_str(lines);
    }
    push_aligned(done, lines)
}

/// Adds lines, where their comments are aligned if that is asked for.
fn push_as(done: &mut String, align: bool, lines: &str) -> Result<(), AllocError>
    ensures { OnOk result (string_bytes done.new ≡ string_bytes done.old ++ comments_as align lines.now) }
{
    if align {
        return push_aligned(done, lines);
    }
    done.push_str(lines)
}

impl Sheet {
    /// No line.
    pub fn new(alloc: Global, align: bool) -> Sheet
        ensures align { result.align ≡ align }
        ensures sheet { IsSheet result [] }
    {
        Sheet {
            align,
            done: String::new(alloc),
            waiting: String::new(alloc),
            walk: FIRST,
        }
    }

    /// Adds lines to those that wait.
    fn push_waiting(&mut self, lines: &str) -> Result<(), AllocError>
        requires { self.old.align ≡ true }
        ensures sheet { OnOk result ((before : List ℕ) → IsSheet self.old before → IsSheet self.new (before ++ lines.now)) }
        ensures align { self.new.align ≡ self.old.align }
    {
        self.waiting.push_str(lines)?;
        self.walk = self.walk.over(lines);
        Ok(())
    }

    /// Adds the lines that wait to those that are as they are to be.
    fn settle(&mut self) -> Result<(), AllocError>
        requires align { self.old.align ≡ true }
        requires settled { is_settled self.old.walk ≡ true }
        ensures sheet { OnOk result ((before : List ℕ) → IsSheet self.old before → IsSheet self.new before) }
        ensures align { self.new.align ≡ self.old.align }
    {
        push_settled(&mut self.done, self.waiting.as_str(), self.walk)?;
        self.waiting.clear();
        self.walk = FIRST;
        Ok(())
    }

    /// Adds lines, as they were laid out.
    pub fn push(&mut self, lines: &str) -> Result<(), AllocError>
        ensures sheet { OnOk result ((before : List ℕ) → IsSheet self.old before → IsSheet self.new (before ++ lines.now)) }
        ensures align { self.new.align ≡ self.old.align }
    {
        if !self.align {
            return self.done.push_str(lines);
        }
        self.push_waiting(lines)?;
        if self.walk.is_settled() {
            return self.settle();
        }
        Ok(())
    }

    /// All lines, where their comments are aligned if that is asked for.
    pub fn finish(self) -> Result<String, AllocError>
        ensures { IfOk result (λ made. (before : List ℕ) → IsSheet self before
            → string_bytes made ≡ comments_as self.align before) }
    {
        let Sheet {
            align,
            mut done,
            waiting,
            ..
        } = self;
        push_as(&mut done, align, waiting.as_str())?;
        Ok(done)
    }
}
