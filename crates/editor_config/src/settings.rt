//! What the properties of a file say of its layout.
ghost use Rattle.std.specs.Prelude.{◌≡◌};
ghost use Rattle.editor_config.specs.Said.{indent_of, line_end_said, said_over, silent, uses_tabs, width_of};

/// What lines are indented with.
#[derive(Clone, Copy, Debug, Drop, PartialEq, Eq)]
pub enum IndentStyle {
    Spaces,
    Tabs,
}

/// How far in each level is.
#[derive(Clone, Copy, Debug, Drop, PartialEq, Eq)]
pub enum IndentSize {
    Columns(u32),
    /// As far as a tab is wide.
    TabWidth,
}

/// What ends a line.
#[derive(Clone, Copy, Debug, Drop, PartialEq, Eq)]
pub enum EndOfLine {
    Lf,
    CrLf,
    Cr,
}

/// The properties that are said of a file. A value is `None` where it is none of the property's, as `unset`: it takes back what
/// was said before.
#[derive(Clone, Copy, Debug, Drop, PartialEq, Eq)]
pub struct Settings {
    pub indent_style: Option<Option<IndentStyle>>,
    pub indent_size: Option<Option<IndentSize>>,
    /// In columns.
    pub tab_width: Option<Option<u32>>,
    /// In columns, the greatest number where lines have no limit.
    pub max_line_length: Option<Option<usize>>,
    pub end_of_line: Option<Option<EndOfLine>>,
}

// Whether these are the same word, in capitals or not.
pub(crate) fn is(word: &str, name: &str) -> bool {
    word.eq_ignore_ascii_case(name)
}

fn indent_style(value: &str) -> Option<IndentStyle> {
    if is(value, "space") {
        Some(IndentStyle::Spaces)
    } else if is(value, "tab") {
        Some(IndentStyle::Tabs)
    } else {
        None
    }
}

fn indent_size(value: &str) -> Option<IndentSize> {
    if is(value, "tab") {
        return Some(IndentSize::TabWidth);
    }
    match value.parse() {
        Ok(columns) => Some(IndentSize::Columns(columns)),
        Err(_) => None,
    }
}

fn line_length(value: &str) -> Option<usize> {
    if is(value, "off") {
        Some(usize::MAX)
    } else {
        value.parse().ok()
    }
}

fn line_end(value: &str) -> Option<EndOfLine> {
    if is(value, "lf") {
        Some(EndOfLine::Lf)
    } else if is(value, "crlf") {
        Some(EndOfLine::CrLf)
    } else if is(value, "cr") {
        Some(EndOfLine::Cr)
    } else {
        None
    }
}

impl Settings {
    /// Nothing is said.
    pub fn silent() -> Settings
        ensures { result ≡ silent }
    {
        Settings {
            indent_style: None,
            indent_size: None,
            tab_width: None,
            max_line_length: None,
            end_of_line: None,
        }
    }

    // Sets a property. One that says nothing of a layout changes nothing.
    pub(crate) fn set(&mut self, key: &str, value: &str) {
        if is(key, "indent_style") {
            self.indent_style = Some(indent_style(value));
        } else if is(key, "indent_size") {
            self.indent_size = Some(indent_size(value));
        } else if is(key, "tab_width") {
            self.tab_width = Some(value.parse().ok());
        } else if is(key, "max_line_length") {
            self.max_line_length = Some(line_length(value));
        } else if is(key, "end_of_line") {
            self.end_of_line = Some(line_end(value));
        }
    }

    /// These, and where they say nothing, what the others say.
    pub fn over(self, others: Settings) -> Settings
        ensures { result ≡ said_over self others }
    {
        Settings {
            indent_style: self.indent_style.or(others.indent_style),
            indent_size: self.indent_size.or(others.indent_size),
            tab_width: self.tab_width.or(others.tab_width),
            max_line_length: self.max_line_length.or(others.max_line_length),
            end_of_line: self.end_of_line.or(others.end_of_line),
        }
    }

    /// The width of a line, in columns, where it is said.
    pub fn width(self) -> Option<usize>
        ensures { result ≡ width_of self }
    {
        self.max_line_length.unwrap_or(None)
    }

    /// Whether lines are indented with tabs.
    pub fn uses_tabs(self) -> bool
        ensures { result ≡ uses_tabs self }
    {
        matches!(self.indent_style, Some(Some(IndentStyle::Tabs)))
    }

    /// How far in each level is, in columns, where that is said.
    pub fn indent(self) -> Option<u32>
        ensures { result ≡ indent_of self }
    {
        match self.indent_size {
            Some(Some(IndentSize::Columns(columns))) => Some(columns),
            Some(Some(IndentSize::TabWidth)) => self.tab_width.unwrap_or(None),
            None if self.uses_tabs() => self.tab_width.unwrap_or(None),
            _ => None,
        }
    }

    /// What ends a line, where it is said.
    pub fn line_end(self) -> Option<EndOfLine>
        ensures { result ≡ line_end_said self }
    {
        self.end_of_line.unwrap_or(None)
    }
}
