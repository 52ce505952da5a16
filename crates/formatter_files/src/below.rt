//! Laying out the files below a folder.
use crate::ending::Ending;
use crate::folder::push_paths;
use crate::formatter::Formatter;
use crate::laying::lay_out_file;
use crate::outcome::{FileError, ending_of, said};
use crate::source::check_name;
use crate::task::Task;
use std::fs::Files;
use std::{fs, io};

/// Lays out what has this path, if it is a file whose name ends as it should. Of a folder the paths in it are appended.
fn visit<R: AllocGlobal + Files + Input + Eprint + Print, F: Formatter>(
    rt: &R,
    formatter: &F,
    task: &Task<'_>,
    path: &str,
    paths: &mut Vec<String>,
) -> Result<Ending, FileError> {
    check_name(path)?;
    // A link may lead out of the folder, or back into it, and is not followed.
    let data = fs::symlink_metadata(rt, path)?;
    if data.is_file() && path.ends_with(formatter.ending()) {
        return lay_out_file(rt, formatter, task, path);
    }
    if data.is_dir() {
        push_paths(rt, path, paths)?;
    }
    Ok(Ending::Good)
}

/// Lays out the files below a folder whose names end as they should, in the order of their names. It follows no link.
///
/// An error where standard output fails.
pub(crate) fn lay_out_below<R: AllocGlobal + Files + Input + Eprint + Print, F: Formatter>(
    rt: &R,
    formatter: &F,
    task: &Task<'_>,
    folder: &str,
) -> io::Result<Ending> {
    let program = formatter.program();
    let mut paths = Vec::new(rt.alloc());
    let mut all = match push_paths(rt, folder, &mut paths) {
        Ok(()) => Ending::Good,
        Err(error) => ending_of(rt, program, folder, Err(error)),
    };
    for _ in 0..u64::MAX {
        let Some(path) = paths.pop() else { break };
        let outcome = visit(rt, formatter, task, path.as_str(), &mut paths);
        all = all.and(said(rt, program, path.as_str(), outcome)?);
    }
    Ok(all)
}
