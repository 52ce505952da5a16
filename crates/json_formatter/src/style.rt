ghost use Rattle.std.specs.Prelude.{◌≡◌, false};
ghost use Rattle.json_formatter.specs.declared.style.Fill.TheVariants.{Numbers};

/// Which arrays fill their lines, where they do not fit one line.
#[derive(Clone, Copy, Debug, Drop, PartialEq, Eq)]
pub enum Fill {
    /// Those of numbers alone.
    Numbers,
    /// Those in which no array and no object is.
    All,
    /// None: each item has a line of its own.
    Nothing,
}

/// How the lines of a layout end.
#[derive(Clone, Copy, Debug, Drop, PartialEq, Eq)]
pub enum LineEnd {
    /// As the first line of the text does; in LF where it has one line alone.
    OfText,
    Lf,
    CrLf,
}

/// How a text is laid out.
#[derive(Clone, Copy, Debug, Drop, PartialEq, Eq)]
pub struct Style {
    /// The width of a line, in columns. The greatest is as much as one less.
    pub width: usize,
    /// By how many columns the members of an object or an array are indented relative to its brackets.
    pub indent: u32,
    /// Whether tabs are written in indents. Each stands for `indent` columns.
    pub tabs: bool,
    pub line_end: LineEnd,
    /// Which arrays fill their lines.
    pub fill: Fill,
    /// Whether a blank line is kept between two members, where lines are broken between them. Of several one is kept.
    pub blank_lines: bool,
    /// Whether the layout is that of the value alone. Else an object or an array with something in it stays broken where a line ends
    /// after its opening bracket, and an object on one line has blanks inside its braces.
    pub compact: bool,
    /// How deep arrays and objects may be in one another. More than 100,000 is as much.
    pub depth: usize,
}

impl Default for Style {
    ghost use Rattle.json_formatter.specs.declared.style.LineEnd.TheVariants.{OfText};

    ghost is_default = { λ style. (style.width ≡ 80) × (style.indent ≡ 2) × (style.tabs ≡ false) × (style.line_end ≡ OfText)
        × (style.fill ≡ Numbers) × (style.blank_lines ≡ false) × (style.compact ≡ false) × (style.depth ≡ 1000) };

    /// 80 columns, indents of 2 spaces, line ends as in the text, lines that are filled in arrays of numbers alone, no blank lines,
    /// not compact, and 1,000 levels.
    fn default() -> Style {
        Style {
            width: 80,
            indent: 2,
            tabs: false,
            line_end: LineEnd::OfText,
            fill: Fill::Numbers,
            blank_lines: false,
            compact: false,
            depth: 1000,
        }
    }
}
