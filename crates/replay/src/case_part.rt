/// A part that a line was expected to have.
#[derive(Clone, Copy)]
pub enum CasePart {
    Utf8,
    Case,
    Width,
    LineEnding,
    IndentationPolicy,
    Document,
    Text,
    /// The columns that a text counts as, or that a test compares.
    Columns,
    /// The columns that a nesting adds.
    Offset,
    Payload,
    ColumnTest,
    NestingTest,
    /// Nothing after the document.
    End,
    /// How often words are repeated.
    Times,
    /// What ends the words that are repeated.
    RepeatEnd,
    Statement,
    Visits,
}

impl CasePart {
    /// The same in words.
    pub fn description(self) -> &'static str {
        match self {
            CasePart::Utf8 => "UTF-8",
            CasePart::Case => "WIDTH lf|crlf eager|deferred NODE",
            CasePart::Width => "a width in decimal, below 2^64",
            CasePart::LineEnding => "lf or crlf",
            CasePart::IndentationPolicy => "eager or deferred",
            CasePart::Document => "a document",
            CasePart::Text => "a text in hexadecimal, lower case, or in quotes, or -",
            CasePart::Columns => "a number of columns in decimal, below 2^64",
            CasePart::Offset => "a number of columns in decimal, from -2^63 on and below 2^63",
            CasePart::Payload => "a text that holds LF or CR",
            CasePart::ColumnTest => "atmost, atleast or nesting",
            CasePart::NestingTest => "atmost or atleast",
            CasePart::End => "nothing after the document",
            CasePart::Times => "a number of times in decimal, at most 1000000",
            CasePart::RepeatEnd => "] after the words that are repeated",
            CasePart::Statement => "ok, fail, error, visits, table, few, pieces or debug",
            CasePart::Visits => "a number of visits in decimal, below 2^64",
        }
    }
}
