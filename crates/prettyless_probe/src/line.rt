//! The line at the place that a probe has reached, and what a text, a payload and a line end do to it. It knows no nodes.
ghost use Rattle.std.specs.Prelude.{◌≡◌, false, if◌then◌else◌, length};
ghost use Rattle.prettyless_model.specs.Column.{commit, padding_fits, prospective, start};
ghost use Rattle.prettyless_model.specs.Look.{Answers, GoesOn, by_mode, look_text, payload_begins};
ghost use Rattle.prettyless_probe.specs.declared.line.ProbeLine.{ProbeLine};

use prettyless_model::column::Column;
use prettyless_model::metrics::Metrics;
use prettyless_model::mode::Mode;
use std::marker::Model;

/// The line at the place that a probe has reached.
#[derive(Clone, Copy)]
pub struct ProbeLine {
    pub column: Column,
    /// Whether a line suffix is pending.
    pub pending: bool,
}

/// A line while a probe reads texts: how it was before them, and where the next content would begin. So a text changes one number.
#[derive(Drop)]
pub(crate) struct LineState {
    before: ProbeLine,
    position: usize,
    has_text: bool,
}

impl Model for LineState {
    ghost Value = { ProbeLine };

    ghost view = { λ s. record s.before { column = if s.has_text then commit s.position start else s.before.column } };

    ghost invariant = { λ s. prospective (if s.has_text then commit s.position start else s.before.column) ≡ s.position };
}

impl LineState {
    // A line of which no text was read.
    #[inline(always)]
    pub(crate) fn at(line: ProbeLine) -> Self
        ensures { result ≡ line }
    {
        LineState {
            before: line,
            position: line.column.prospective(),
            has_text: false,
        }
    }

    // The line itself.
    #[inline(always)]
    pub(crate) fn get(&self) -> ProbeLine
        ensures { result ≡ self.now }
    {
        let mut line = self.before;
        if self.has_text {
            line.column = Column::start().committed(self.position);
        }
        line
    }

    // Reads a text, as `read_content` does.
    #[inline(always)]
    pub(crate) fn read_text(&mut self, width: usize, text: &str) -> bool
        ensures { look_text width (length text.now) text.now self.old.column self.old.pending
            ≡ if result then GoesOn self.new.column self.new.pending else Answers false }
    {
        if text.is_empty() {
            return true;
        }
        self.position = self.position.saturating_add(text.len());
        self.has_text = true;
        self.position <= width
    }
}

// Reads content: an empty text is nothing, another commits the column. The answer is whether the line stays within the width.
#[inline(always)]
pub(crate) fn read_content(width: usize, line: &mut ProbeLine, counted: usize, text: &str) -> bool
    ensures { look_text width counted text.now line.old.column line.old.pending
        ≡ if result then GoesOn line.new.column line.new.pending else Answers false }
{
    if text.is_empty() {
        return true;
    }
    line.column = line.column.committed(counted);
    line.column.position <= width
}

// Reads a payload, which ends the line: with its first part, in Break, and not at all when flat.
#[inline(always)]
pub(crate) fn read_payload(width: usize, line: &ProbeLine, mode: Mode, metrics: Metrics) -> bool
    ensures { result ≡ by_mode mode (payload_begins width metrics line.now.column) false }
{
    match mode {
        Mode::Break => {
            !metrics.first_nonempty || line.column.committed(metrics.first_width).position <= width
        }
        Mode::Flat => false,
    }
}

// Reads a line end that no flat line holds.
#[inline(always)]
pub(crate) fn read_line_end(width: usize, line: &ProbeLine, mode: Mode) -> bool
    ensures { result ≡ by_mode mode (padding_fits width line.now.pending line.now.column) false }
{
    match mode {
        Mode::Break => line.column.padding_fits(width, line.pending),
        Mode::Flat => false,
    }
}
