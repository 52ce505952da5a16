//! Laying out files and folders, one after the other.
use crate::below::lay_out_below;
use crate::ending::Ending;
use crate::formatter::Formatter;
use crate::laying::lay_out_file;
use crate::outcome::{FileError, ending_without_output, said};
use crate::source::is_input;
use crate::task::Task;
use std::fs::Files;
use std::io;
use std::io::ErrorKind;

/// Lays out a file that is named, or the files below a folder.
///
/// An error where standard output fails.
fn lay_out_named<R: AllocGlobal + Files + Input + Eprint + Print, F: Formatter>(
    rt: &R,
    formatter: &F,
    task: &Task<'_>,
    file: &str,
) -> io::Result<Ending> {
    // The error that it is a folder, and no look before, makes it one.
    match lay_out_file(rt, formatter, task, file) {
        Err(FileError::File(error)) if error.kind() == ErrorKind::IsADirectory && !is_input(file) =>
            { lay_out_below(rt, formatter, task, file) }
        outcome => said(rt, formatter.program(), file, outcome),
    }
}

fn lay_out_each<R: AllocGlobal + Files + Input + Eprint + Print, F: Formatter>(
    rt: &R,
    formatter: &F,
    task: &Task<'_>,
    files: &[&str],
) -> Ending {
    let mut all = Ending::Good;
    for file in files {
        match lay_out_named(rt, formatter, task, file) {
            Ok(ending) => all = all.and(ending),
            Err(error) => return ending_without_output(rt, formatter.program(), error),
        }
    }
    all
}

/// Lays out each of the files and those below folders, or standard input where none is named, and does with the layouts what is
/// asked for. A file that is refused or fails is said on standard error, and the others are laid out all the same: the worst
/// decides. Where standard output fails, that is the end, and no later file is read.
pub fn lay_out_all<R: AllocGlobal + Files + Input + Eprint + Print, F: Formatter>(
    rt: &R,
    formatter: &F,
    task: &Task<'_>,
) -> Ending {
    if task.files.is_empty() {
        lay_out_each(rt, formatter, task, &["-"])
    } else {
        lay_out_each(rt, formatter, task, &task.files)
    }
}
