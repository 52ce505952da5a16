//! A summary but for its numbers, as one byte. This file knows no nodes.
ghost use Rattle.std.specs.Prelude.{◌≡◌, ◌<◌};
ghost use Rattle.prettyless_summary.specs.Marks.{marks_of, end_of as end_by, weak_of as weak_by};

use crate::summary::{End, Summary, Weak};

// The end that marks have.
#[inline(always)]
fn end_of(marks: u8) -> End
    ensures { result ≡ end_by marks }
{
    match marks % 4 {
        0 => End::Open,
        1 => End::No,
        2 => End::PaddingFits,
        _ => End::Yes,
    }
}

// The mode of the weak line that marks have.
#[inline(always)]
fn weak_of(marks: u8) -> Weak
    ensures { result ≡ weak_by marks }
{
    match marks / 16 {
        0 => Weak::Never,
        1 => Weak::Flat,
        _ => Weak::Break,
    }
}

impl Summary {
    /// All of it but its numbers, as a byte below 48.
    #[inline]
    pub fn marks(self) -> u8
        ensures marks { result ≡ marks_of self }
        ensures small { result < 48 }
    {
        let end = match self.end {
            End::Open => 0,
            End::No => 1,
            End::PaddingFits => 2,
            End::Yes => 3,
        };
        let ink = if self.has_ink { 4 } else { 0 };
        let suffix = if self.has_suffix { 8 } else { 0 };
        let weak = match self.weak {
            Weak::Never => 0,
            Weak::Flat => 16,
            Weak::Break => 32,
        };
        end + ink + suffix + weak
    }

    /// The summary with these numbers and marks.
    #[inline]
    pub fn unpacked(lead: u32, inner: usize, trail: u32, marks: u8) -> Self
        ensures lead { result.lead ≡ lead }
        ensures inner { result.inner ≡ inner }
        ensures trail { result.trail ≡ trail }
        ensures same { (s : Summary) → lead ≡ s.lead → inner ≡ s.inner → trail ≡ s.trail → marks ≡ marks_of s → result ≡ s }
    {
        Summary {
            inner,
            lead,
            trail,
            weak: weak_of(marks),
            has_ink: marks / 4 % 2 == 1,
            has_suffix: marks / 8 % 2 == 1,
            end: end_of(marks),
        }
    }
}
