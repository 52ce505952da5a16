//! Laying out a file, or standard input.
ghost use Rattle.std.specs.Prelude.{◌≡◌};
ghost use Rattle.formatter_files.specs.declared.action.Report.{Report};

use crate::action::Action;
use crate::editor::settings_for;
use crate::ending::Ending;
use crate::formatter::Formatter;
use crate::outcome::FileError;
use crate::printing::print;
use crate::report::check;
use crate::rewriting::rewrite;
use crate::source::{ReadText, SourceText, is_input, name_of, read};
use crate::task::Task;
use editor_config::Settings;
use std::fs::Files;
use std::io;

/// Lays a text out, and does with the layout what is asked for while it is made.
fn lay_out<R: AllocGlobal + Files + Eprint + Print, F: Formatter>(
    rt: &R,
    formatter: &F,
    action: Action,
    source: SourceText<'_>,
) -> Result<Ending, FileError>
    ensures { (report : Report) → action ≡ Action.Compare report → result ≡ Ok Ending.Good
        → F.IsLayout formatter.now source.entry.bytes.now source.entry.bytes.now }
{
    match action {
        Action::Compare(report) => check(rt, formatter, report, source),
        Action::Replace if source.read.is_some() => Ok(rewrite(rt, formatter, source)?),
        Action::Replace | Action::Print => print(rt, formatter, source),
    }
}

/// What `.editorconfig` files say of a file, as far as that counts.
fn settings<R: AllocGlobal + Files>(rt: &R, task: &Task<'_>, file: &str) -> io::Result<Settings> {
    if !task.editorconfig || is_input(file) {
        return Ok(Settings::silent());
    }
    Ok(task.unsaid(settings_for(rt, file)?))
}

pub(crate) fn lay_out_file<R: AllocGlobal + Files + Input + Eprint + Print, F: Formatter>(
    rt: &R,
    formatter: &F,
    task: &Task<'_>,
    file: &str,
) -> Result<Ending, FileError> {
    let ReadText { bytes, read } = read(rt, file)?;
    let source = SourceText {
        name: name_of(file),
        bytes: &bytes,
        read,
    };
    let formatter = formatter.with_settings(settings(rt, task, file)?);
    lay_out(rt, &formatter, task.action, source)
}
