ghost use Rattle.prettyless_laws.specs.Traced.{LayoutsAreTracesWrittenOut, TracesGoByWidth};

/// Documents are laid out alike whatever ends a line and whenever an indent is written: one width gives one trace.
pub fn law_endings()
    ensures { TracesGoByWidth }
{}

/// What a layout writes is its trace, piece by piece. Apart from the width, on which the trace depends, the options
/// decide only what ends a line, and whether an indent that no content uses is written.
pub fn law_deferred()
    ensures { LayoutsAreTracesWrittenOut }
{}
