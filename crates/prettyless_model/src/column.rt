//! A place on a line, and what content does to it. It knows numbers alone, and no documents.
ghost use Rattle.std.specs.Prelude.{◌≡◌};
ghost use Rattle.prettyless_model.specs.Column as spec;

/// Where a printer is on its line, in columns. Sums stop at the greatest `usize`.
#[derive(Clone, Copy)]
pub struct Column {
    /// What was written of the line.
    pub position: usize,
    /// Indent that is not written yet.
    pub indent: usize,
    /// Weak spaces that are not written yet.
    pub padding: usize,
    /// Whether the line has nothing but its indent.
    pub fresh: bool,
}

impl Column {
    /// The beginning of a document.
    pub fn start() -> Self
        ensures { result ≡ spec.start }
    {
        Column::indented(0)
    }

    /// The beginning of a line whose indent is written.
    pub fn indented(indent: usize) -> Self
        ensures { result ≡ spec.indented indent }
    {
        Column {
            position: indent,
            indent: 0,
            padding: 0,
            fresh: true,
        }
    }

    /// The beginning of a line whose indent is written with its first content.
    pub fn deferred(indent: usize) -> Self
        ensures { result ≡ spec.deferred indent }
    {
        Column {
            position: 0,
            indent,
            padding: 0,
            fresh: true,
        }
    }

    /// The column at which the next content would begin.
    pub fn prospective(self) -> usize
        ensures { result ≡ spec.prospective self }
    {
        self.position
            .saturating_add(self.indent)
            .saturating_add(self.padding)
    }

    /// The column after a weak space, which is nothing on a fresh line.
    pub fn blank(self) -> Self
        ensures { result ≡ spec.blank self }
    {
        if self.fresh {
            return self;
        }
        Column {
            position: self.position,
            indent: self.indent,
            padding: self.padding.saturating_add(1),
            fresh: false,
        }
    }

    /// Whether padding that a pending document would commit stays within the width.
    pub fn padding_fits(self, width: usize, pending: bool) -> bool
        ensures { result ≡ spec.padding_fits width pending self }
    {
        !pending || self.padding == 0 || self.prospective() <= width
    }

    /// How many spaces are written before the next content.
    pub fn gap(self) -> usize
        ensures { result ≡ spec.gap self }
    {
        self.indent.saturating_add(self.padding)
    }

    /// The column after content of this width.
    pub fn committed(self, width: usize) -> Self
        ensures { result ≡ spec.commit width self }
    {
        Column {
            position: self.prospective().saturating_add(width),
            indent: 0,
            padding: 0,
            fresh: false,
        }
    }
}
