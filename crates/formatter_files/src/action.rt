//! What becomes of layouts.
ghost use Rattle.std.specs.Prelude.{◌≡◌};
ghost use Rattle.formatter_files.specs.Actions.{action_of, report_of};

use std::fmt;

/// What is reported of a text that is not laid out.
#[derive(Clone, Copy, Debug, Drop, PartialEq, Eq)]
pub enum Report {
    /// Its name, on standard error.
    Name,
    /// How it differs from its layout, on standard output.
    Difference,
    /// Both.
    NameAndDifference,
}

impl Report {
    /// What is reported, by whether names and differences are asked for. `None` where neither is.
    pub fn of(names: bool, differences: bool) -> Option<Report>
        ensures { result ≡ report_of names differences }
    {
        match (names, differences) {
            (true, true) => Some(Report::NameAndDifference),
            (true, false) => Some(Report::Name),
            (false, true) => Some(Report::Difference),
            (false, false) => None,
        }
    }

    pub(crate) fn has_name(self) -> bool {
        matches!(self, Report::Name | Report::NameAndDifference)
    }

    pub(crate) fn has_difference(self) -> bool {
        matches!(self, Report::Difference | Report::NameAndDifference)
    }
}

/// Files are to be replaced, and to be compared alone: it is asked for this report.
#[derive(Clone, Copy, Debug, Drop, PartialEq, Eq)]
pub struct WriteConflict {
    pub report: Report,
}

impl fmt::Display for WriteConflict {
    fn fmt<W: fmt::Write>(&self, f: &mut fmt::Formatter<W>) -> fmt::Result {
        let other = if self.report.has_name() {
            "--check"
        } else {
            "--diff"
        };
        write!(f, "the argument '--write' cannot be used with '{other}'")
    }
}

/// What is done with a layout while it is made.
#[derive(Clone, Copy, Debug, Drop, PartialEq, Eq)]
pub enum Action {
    /// It is written to standard output.
    Print,
    /// It replaces the file, where they differ. That of standard input is written to standard output.
    Replace,
    /// It is compared with the text, and this is reported where they differ. Nothing is written to files.
    Compare(Report),
}

impl Action {
    /// What is done, by whether files are to be replaced, and what is to be reported of those that are not laid out.
    ///
    /// `WriteConflict` where both are asked for.
    pub fn of(write: bool, report: Option<Report>) -> Result<Action, WriteConflict>
        ensures { result ≡ action_of write report }
    {
        match (write, report) {
            (false, None) => Ok(Action::Print),
            (true, None) => Ok(Action::Replace),
            (false, Some(report)) => Ok(Action::Compare(report)),
            (true, Some(report)) => Err(WriteConflict { report }),
        }
    }
}
