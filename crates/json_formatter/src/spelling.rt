//! How the line ends and the indents of a layout are spelled.
ghost use Rattle.std.specs.Prelude.{◌≡◌, ◌++◌, true, false, if◌then◌else◌};
ghost use Rattle.json_formatter.specs.Gaps.{gap_bytes};
ghost use Rattle.json_formatter.specs.Kept.{spelled_bytes};
ghost use Rattle.json_formatter.specs.Spelling.{begins_crlf, columns_spelled, ends_in_crlf, line_end_bytes, line_style, respelled};
ghost use Rattle.json_formatter.specs.Spelling.{spelling_of};

use crate::gaps::Gap;
use crate::style::{LineEnd, Style};
use memchr::memchr;

/// How line ends and indents are spelled.
#[derive(Clone, Copy)]
pub(crate) struct Spelling {
    /// Whether lines end in CR LF, else in LF.
    crlf: bool,
    /// How many columns a tab stands for; 0 where no tabs are written.
    tab: usize,
}

/// A gap as it is written.
#[derive(Clone, Copy)]
pub(crate) enum Spelled {
    /// With line feeds and spaces alone.
    Plain(Gap),
    /// Line ends, so many tabs, and so many spaces.
    Line(&'static str, usize, usize),
}

// Whether the first line end of a text is CR LF.
fn begins_crlf(text: &[u8]) -> bool
    ensures { result ≡ begins_crlf false text.now }
{
    match memchr(b'\n', text) {
        Some(place) => place > 0 && text[place - 1] == b'\r',
        None => false,
    }
}

// Whether the lines of a layout of a text end in CR LF.
fn ends_in_crlf(line_end: LineEnd, text: &[u8]) -> bool
    ensures { result ≡ ends_in_crlf line_end text.now }
{
    match line_end {
        LineEnd::OfText => begins_crlf(text),
        LineEnd::Lf => false,
        LineEnd::CrLf => true,
    }
}

// How many columns a tab stands for in a style; 0 where no tabs are written.
fn tab_of(style: Style) -> usize
    ensures { result ≡ (if style.tabs then style.indent else 0) }
{
    if style.tabs { style.indent as usize } else { 0 }
}

/// The style for the lines of a text that has a JSON text on each: each is laid out on one line, and ends as the first line of the
/// text does, or as the style says.
pub fn line_style(style: Style, text: &[u8]) -> Style
    ensures { result ≡ line_style style text.now }
{
    Style {
        width: usize::MAX,
        line_end: if ends_in_crlf(style.line_end, text) {
            LineEnd::CrLf
        } else {
            LineEnd::Lf
        },
        ..style
    }
}

impl Spelling {
    /// How a style spells the layout of this text.
    pub(crate) fn of(style: Style, text: &str) -> Spelling
        ensures { result ≡ spelling_of style text.now }
    {
        Spelling {
            crlf: ends_in_crlf(style.line_end, text.as_bytes()),
            tab: tab_of(style),
        }
    }

    /// Whether line ends are line feeds, and indents spaces.
    #[inline(always)]
    pub(crate) fn is_plain(self) -> bool
        ensures { result ≡ true → (self.crlf ≡ false) × (self.tab ≡ 0) }
    {
        !self.crlf && self.tab == 0
    }

    /// The end of a line.
    pub(crate) fn line_end(self) -> &'static str
        ensures { result.now ≡ line_end_bytes self.crlf }
    {
        if self.crlf { "\r\n" } else { "\n" }
    }

    // The end of a line, and of an empty one.
    fn blank_line(self) -> &'static str
        ensures { result.now ≡ line_end_bytes self.crlf ++ line_end_bytes self.crlf }
    {
        if self.crlf { "\r\n\r\n" } else { "\n\n" }
    }

    // Line ends, and an indent of so many columns.
    fn line(self, ends: &'static str, indent: usize) -> Spelled
        ensures { spelled_bytes result ≡ ends.now ++ columns_spelled self.tab indent }
    {
        if self.tab == 0 {
            Spelled::Line(ends, 0, indent)
        } else {
            Spelled::Line(ends, indent / self.tab, indent % self.tab)
        }
    }

    // A gap, where it is not spelled by line feeds and spaces alone.
    fn respell(self, gap: Gap) -> Spelled
        ensures { spelled_bytes result ≡ respelled self (gap_bytes gap) }
    {
        match gap {
            Gap::Line(indent) => self.line(self.line_end(), indent),
            Gap::BlankLine(indent) => self.line(self.blank_line(), indent),
            Gap::Nothing | Gap::Space => Spelled::Plain(gap),
        }
    }

    /// A gap as it is spelled.
    #[inline(always)]
    pub(crate) fn spell(self, gap: Gap) -> Spelled
        ensures { spelled_bytes result ≡ respelled self (gap_bytes gap) }
    {
        if self.is_plain() {
            Spelled::Plain(gap)
        } else {
            self.respell(gap)
        }
    }
}
