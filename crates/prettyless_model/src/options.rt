//! What a caller chooses of a layout. This file knows no documents, and no sinks.
ghost use Rattle.std.specs.Prelude.{◌≡◌};
ghost use Rattle.prettyless_model.specs.Options.{ending, options_at};
ghost use Rattle.prettyless_model.specs.declared.options.LineEnding.TheVariants.{Lf};
ghost use Rattle.prettyless_model.specs.declared.options.IndentationPolicy.TheVariants.{Eager};

/// How a line of the layout ends.
#[derive(Clone, Copy, Debug, PartialEq, Eq)]
pub enum LineEnding {
    /// By the byte 10.
    Lf,
    /// By the bytes 13 and 10.
    Crlf,
}

impl Default for LineEnding {
    ghost is_default = { λ ending. ending ≡ Lf };

    /// LF.
    fn default() -> Self {
        Self::Lf
    }
}

impl LineEnding {
    /// The bytes that end a line.
    pub fn as_str(self) -> &'static str
        ensures { result.now ≡ ending self }
    {
        match self {
            LineEnding::Lf => "\n",
            LineEnding::Crlf => "\r\n",
        }
    }
}

/// When the indent of a line is written: at its beginning, or with its first content.
#[derive(Clone, Copy, Debug, PartialEq, Eq)]
pub enum IndentationPolicy {
    /// At the line's beginning, also where no text follows on the line.
    Eager,
    /// Before the first content of the line: a text that is not empty, a payload whose first line is not empty, or a
    /// pending suffix. A line without one gets no indent.
    Deferred,
}

impl Default for IndentationPolicy {
    ghost is_default = { λ policy. policy ≡ Eager };

    /// At the line's beginning.
    fn default() -> Self {
        Self::Eager
    }
}

/// What a caller chooses of a layout.
#[derive(Clone, Copy, Debug)]
pub struct RenderOptions {
    /// The columns of a line that a layout aims to stay within.
    pub width: usize,
    /// What a line break writes. Line ends inside a text are written as they are.
    pub line_ending: LineEnding,
    /// When the spaces of an indent are written.
    pub indentation_policy: IndentationPolicy,
}

impl Default for RenderOptions {
    ghost is_default = { λ options. options ≡ options_at 80 };

    /// 80 columns, with lines that end in LF and indents that are written at once.
    fn default() -> Self {
        Self::new(80)
    }
}

impl RenderOptions {
    /// This width in columns, with lines that end in LF and indents that are written at once.
    ///
    /// ```
    /// RenderOptions::new(100) // 100 columns, LF, indents at once
    /// ```
    pub fn new(width: usize) -> Self
        ensures { result ≡ options_at width }
    {
        RenderOptions {
            width,
            line_ending: LineEnding::Lf,
            indentation_policy: IndentationPolicy::Eager,
        }
    }

    /// These options at another width, in columns.
    ///
    /// ```
    /// RenderOptions::default().with_width(100) // 100 columns
    /// ```
    pub fn with_width(self, width: usize) -> Self
        ensures { result ≡ record self { width = width } }
    {
        RenderOptions { width, ..self }
    }

    /// These options with another end of lines.
    ///
    /// ```
    /// RenderOptions::new(80).with_line_ending(LineEnding::Crlf) // CR LF
    /// ```
    pub fn with_line_ending(self, line_ending: LineEnding) -> Self
        ensures { result ≡ record self { line_ending = line_ending } }
    {
        RenderOptions {
            line_ending,
            ..self
        }
    }

    /// These options with indents written by another policy.
    ///
    /// ```
    /// RenderOptions::new(80).with_indentation_policy(IndentationPolicy::Deferred) // deferred indents
    /// ```
    pub fn with_indentation_policy(self, indentation_policy: IndentationPolicy) -> Self
        ensures { result ≡ record self { indentation_policy = indentation_policy } }
    {
        RenderOptions {
            indentation_policy,
            ..self
        }
    }
}
