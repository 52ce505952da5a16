//! Summaries: of what a document may begin with, of two documents one after the other, and the result of reading a line by one.
//! This file knows columns, modes and metrics, and no nodes.
ghost use Rattle.std.specs.Prelude.{◌≡◌, ℕ, ◌+◌, ◌<◌, ◌≤◌, ◌^◌, ◌↔◌, Bool, true, false, Option, Some, None, IfSome, IsTrue};
ghost use Rattle.std.specs.Prelude.{MatchOption, ◌||◌, max, nat_le, if◌then◌else◌};
ghost use Rattle.prettyless_model.specs.Column.{blank, commit, padding_fits};
ghost use Rattle.prettyless_model.specs.Look.{Answers, GoesOn, look_end, look_text, payload_begins};
ghost use Rattle.prettyless_model.specs.declared.column.Column.{Column};
ghost use Rattle.prettyless_summary.specs.Summary.{ContinuesLook, IsSmall, ReadsLook, ThenReads, look_by, look_ink, look_of, look_out};
ghost use Rattle.prettyless_summary.specs.Summary.{look_rest, look_weak, mode_of, after_spaces as spaced_by};
ghost use Rattle.prettyless_summary.specs.declared.summary.End.TheVariants.{Open};

use prettyless_model::column::Column;
use prettyless_model::metrics::Metrics;
use prettyless_model::mode::Mode;

/// What comes of a reading after what a summary has of it.
#[derive(Clone, Copy)]
pub enum End {
    /// It goes on.
    Open,
    /// No.
    No,
    /// Yes where the padding fits.
    PaddingFits,
    /// Yes.
    Yes,
}

/// The weak line that comes first, by its mode, or none. It takes one byte.
#[derive(Clone, Copy)]
pub enum Weak {
    Never,
    Flat,
    Break,
}

impl Weak {
    /// A weak line in this mode.
    #[inline(always)]
    pub fn of(mode: Mode) -> Self
        ensures { mode_of result ≡ Some mode }
    {
        match mode {
            Mode::Flat => Weak::Flat,
            Mode::Break => Weak::Break,
        }
    }

    /// The mode of the weak line, if there is one.
    #[inline(always)]
    pub fn mode(self) -> Option<Mode>
        ensures { result ≡ mode_of self }
    {
        match self {
            Weak::Never => None,
            Weak::Flat => Some(Mode::Flat),
            Weak::Break => Some(Mode::Break),
        }
    }
}

/// What a document shows a probe, up to the first thing that ends its line or decides it.
///
/// Where a weak line comes first, all but `lead` is what comes of the document if that weak line is nothing.
#[derive(Clone, Copy)]
pub struct Summary {
    /// Columns from the first ink to the last, with the weak spaces between, or the greatest `usize`.
    pub inner: usize,
    /// Weak spaces before the weak line that comes first; where there is none, before the first ink, or all.
    pub lead: u32,
    /// Weak spaces after the last ink.
    pub trail: u32,
    /// The mode of a weak line that comes before the first ink and the first line suffix.
    pub weak: Weak,
    /// Whether there is ink: a text that is not empty.
    pub has_ink: bool,
    /// Whether a line suffix becomes pending.
    pub has_suffix: bool,
    /// What comes of the reading after all that.
    pub end: End,
}

const _: () = prove!(size_of::<Summary>() == 24);

// The summary of nothing.
const NOTHING: Summary = Summary {
    inner: 0,
    lead: 0,
    trail: 0,
    weak: Weak::Never,
    has_ink: false,
    has_suffix: false,
    end: End::Open,
};

/// The result of reading a line by a summary.
#[derive(Clone, Copy)]
pub enum ReadResult {
    /// The answer of the probe.
    Answer(bool),
    /// No answer yet: the column, and whether a line suffix is pending.
    Line(Column, bool),
}

// The column after so many weak spaces, which are nothing on a fresh line.
#[inline(always)]
fn spaced(column: Column, blanks: u32) -> Column
    ensures { result ≡ spaced_by blanks column }
{
    if column.fresh {
        return column;
    }
    Column {
        padding: column.padding.saturating_add(blanks as usize),
        ..column
    }
}

// What becomes of a line that a weak line ends.
#[inline(always)]
fn weak_end(mode: Mode) -> End
    ensures { (width : ℕ) (c : Column) (p : Bool) → look_out width result c p ≡ look_end width mode c p }
{
    match mode {
        Mode::Break => End::PaddingFits,
        Mode::Flat => End::No,
    }
}

// The result of reading a line by an end.
#[inline(always)]
fn read_end(end: End, width: usize, column: Column, pending: bool) -> ReadResult
    ensures { look_of result ≡ look_out width end column pending }
{
    match end {
        End::Open => ReadResult::Line(column, pending),
        End::No => ReadResult::Answer(false),
        End::PaddingFits => ReadResult::Answer(column.padding_fits(width, pending)),
        End::Yes => ReadResult::Answer(true),
    }
}

impl Summary {
    /// The summary of nothing.
    #[inline(always)]
    pub fn nothing() -> Self
        ensures reads { ReadsLook result (λ width c p. GoesOn c p) }
        ensures small { IsSmall 0 result }
    {
        NOTHING
    }

    /// The summary of a weak space.
    #[inline(always)]
    pub fn blank() -> Self
        ensures reads { ReadsLook result (λ width c p. GoesOn (blank c) p) }
        ensures small { IsSmall 1 result }
    {
        Summary { lead: 1, ..NOTHING }
    }

    /// The summary of a line suffix.
    #[inline(always)]
    pub fn suffix() -> Self
        ensures reads { ReadsLook result (λ width c p. GoesOn c true) }
        ensures small { IsSmall 0 result }
    {
        Summary {
            has_suffix: true,
            ..NOTHING
        }
    }

    /// The summary of what no line holds.
    #[inline(always)]
    pub fn no() -> Self
        ensures reads { ReadsLook result (λ width c p. Answers false) }
        ensures small { IsSmall 0 result }
    {
        Summary {
            end: End::No,
            ..NOTHING
        }
    }

    /// The summary of the end of a line.
    #[inline(always)]
    pub fn hard() -> Self
        ensures reads { ReadsLook result (λ width c p. Answers (padding_fits width p c)) }
        ensures small { IsSmall 0 result }
    {
        Summary {
            end: End::PaddingFits,
            ..NOTHING
        }
    }

    /// The summary of a weak line in this mode.
    #[inline(always)]
    pub fn weak(mode: Mode) -> Self
        ensures reads { ReadsLook result (λ width c p. look_weak width (Some mode) c p) }
        ensures small { IsSmall 0 result }
    {
        Summary {
            weak: Weak::of(mode),
            ..NOTHING
        }
    }

    /// The summary of a text that is not empty, by its counted width in columns.
    #[inline(always)]
    pub fn ink(columns: usize) -> Self
        ensures reads { ReadsLook result (λ width c p.
            if nat_le (commit columns c).position width then GoesOn (commit columns c) p else Answers false) }
        ensures small { IsSmall 0 result }
    {
        Summary {
            inner: columns,
            has_ink: true,
            ..NOTHING
        }
    }

    /// The summary of a text, by its counted width in columns.
    #[inline(always)]
    pub fn text(columns: usize, text: &str) -> Self
        ensures reads { ReadsLook result (λ width c p. look_text width columns text.now c p) }
        ensures small { IsSmall 0 result }
    {
        if text.is_empty() {
            return Summary::nothing();
        }
        Summary::ink(columns)
    }

    /// The summary of a payload whose lines are broken.
    #[inline(always)]
    pub fn payload(metrics: Metrics) -> Self
        ensures reads { ReadsLook result (λ width c p. Answers (payload_begins width metrics c)) }
        ensures small { IsSmall 0 result }
    {
        if !metrics.first_nonempty {
            return NOTHING.and_end(false, End::Yes);
        }
        Summary::ink(metrics.first_width).and_end(false, End::Yes)
    }

    /// Whether nothing ends the line or decides it after what the summary has.
    #[inline(always)]
    pub fn is_open(self) -> bool
        ensures { IsTrue result ↔ (self.end ≡ Open) }
    {
        matches!(self.end, End::Open)
    }

    // It and then so many weak spaces, unless they are too many to count.
    #[inline(always)]
    fn and_blanks(self, count: u32) -> Option<Self>
        requires { self.end ≡ Open }
        ensures reads { IfSome result (λ sum. ContinuesLook self (λ width c p. GoesOn (spaced_by count c) p) sum) }
        ensures open { IfSome result (λ sum. sum.end ≡ Open) }
        ensures lead { IfSome result (λ sum. sum.lead ≤ self.lead + count) }
        ensures small { MatchOption result (2 ^ 32 ≤ self.lead + self.trail + count) (IsSmall (self.lead + self.trail + count)) }
    {
        if self.has_ink {
            return Some(Summary {
                trail: self.trail.checked_add(count)?,
                ..self
            });
        }
        if self.weak.mode().is_some() {
            return Some(self);
        }
        Some(Summary {
            lead: self.lead.checked_add(count)?,
            ..self
        })
    }

    // It and then a weak line or none. A weak line after ink or a line suffix ends the line.
    #[inline(always)]
    fn and_weak(self, weak: Weak) -> Self
        requires { self.end ≡ Open }
        ensures reads { ContinuesLook self (λ width c p. look_weak width (mode_of weak) c p) result }
        ensures lead { result.lead ≡ self.lead }
        ensures trail { result.trail ≡ self.trail }
    {
        let Some(mode) = weak.mode() else {
            return self;
        };
        if self.has_ink || self.has_suffix {
            return Summary {
                end: weak_end(mode),
                ..self
            };
        }
        if self.weak.mode().is_some() {
            return self;
        }
        Summary { weak, ..self }
    }

    // It and then ink of so many columns, with weak spaces after it.
    #[inline(always)]
    fn and_ink(self, columns: usize, trail: u32) -> Self
        requires { self.end ≡ Open }
        ensures reads { ContinuesLook self (λ width c p. look_ink width true columns trail c p) result }
        ensures lead { result.lead ≡ self.lead }
        ensures trail { result.trail ≤ trail }
    {
        if !self.has_ink {
            return Summary {
                inner: columns,
                trail,
                has_ink: true,
                ..self
            };
        }
        let before = self.inner.saturating_add(self.trail as usize);
        Summary {
            inner: before.saturating_add(columns),
            trail,
            ..self
        }
    }

    // It and then an end, with a line suffix before it or none.
    #[inline(always)]
    fn and_end(self, has_suffix: bool, end: End) -> Self
        ensures reads { ContinuesLook self (λ width c p. look_out width end c (has_suffix || p)) result }
        ensures lead { result.lead ≡ self.lead }
        ensures trail { result.trail ≡ self.trail }
    {
        if !self.is_open() {
            return self;
        }
        Summary {
            has_suffix: self.has_suffix || has_suffix,
            end,
            ..self
        }
    }

    // It and then what another one has after its weak line.
    #[inline(always)]
    fn and_rest(self, next: Summary) -> Self
        ensures reads { ContinuesLook self (λ width c p. look_rest width next c p) result }
        ensures lead { result.lead ≡ self.lead }
        ensures trail { result.trail ≤ max self.trail next.trail }
    {
        if !self.is_open() {
            return self;
        }
        if !next.has_ink {
            return self.and_end(next.has_suffix, next.end);
        }
        self.and_ink(next.inner, next.trail)
            .and_end(next.has_suffix, next.end)
    }

    /// The summary of what this one is of and then what the next one is of. None where there are more weak spaces than can be
    /// counted.
    #[inline]
    pub fn then(self, next: Summary) -> Option<Self>
        ensures reads { IfSome result (λ sum. ThenReads self next sum) }
        ensures small { (n k : ℕ) → n + k < 2 ^ 32 → IsSmall n self → IsSmall k next → MatchOption result ⊥ (IsSmall (n + k)) }
    {
        if !self.is_open() {
            return Some(self);
        }
        let blanks = self.and_blanks(next.lead)?;
        Some(blanks.and_weak(next.weak).and_rest(next))
    }

    /// The result of reading what it is the summary of, from a column on.
    ///
    /// It is the answer of the probe, or the line after what was read.
    /// `pending` says whether a line suffix is pending before that.
    #[inline]
    pub fn read(self, width: usize, column: Column, pending: bool) -> ReadResult
        ensures { look_of result ≡ look_by width self column pending }
    {
        let start = spaced(column, self.lead);
        if let Some(mode) = self.weak.mode()
            && (!start.fresh || pending)
        {
            return read_end(weak_end(mode), width, start, pending);
        }
        let pending_after = self.has_suffix || pending;
        if !self.has_ink {
            return read_end(self.end, width, start, pending_after);
        }
        let inked = start.committed(self.inner);
        if inked.position > width {
            return ReadResult::Answer(false);
        }
        read_end(self.end, width, spaced(inked, self.trail), pending_after)
    }
}
