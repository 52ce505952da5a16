//! Replacing a file: the new one is written beside it, and takes its name once it is whole.
ghost use Rattle.std.specs.Prelude.{◌≡◌, IfOk};
ghost use Rattle.std.specs.Path.{path_buf_bytes, path_bytes};
ghost use Rattle.formatter_files.specs.Names.{path_beside};

use crate::stamp::{Stamp, check_unchanged};
use std::alloc::{AllocError, Global};
use std::fs::{File, Files, Metadata, OpenFile, OpenOptions};
use std::io::{ErrorKind, Write};
use std::os::unix::fs::{MetadataExt, OpenOptionsExt, lchown};
use std::path::{Path, PathBuf};
use std::{fs, io};

/// How many names are tried for the file beside another.
const NAMES: u32 = 1000;

/// The path of a file beside the one at this path, by a number.
///
/// `AllocError` where memory is refused.
pub fn path_beside(alloc: Global, path: Path<'_>, number: u32) -> Result<PathBuf, AllocError>
    ensures { IfOk result (λ p. path_buf_bytes p ≡ path_beside (path_bytes path.entry) number) }
{
    let name = format!(in alloc; ".formatting-{number}")?;
    path.with_file_name(alloc, name.as_str())
}

/// Opens a file that did not exist. No one else may read it.
fn create<R: Files>(rt: &R, path: Path<'_>) -> io::Result<R::File> {
    let mut how = OpenOptions::new();
    how.write(true).create_new(true).mode(0o600);
    how.open(rt, path)
}

/// Makes a file beside the one at this path, under a name that was free, with its path.
fn create_beside<R: Files + AllocGlobal>(rt: &R, path: Path<'_>) -> io::Result<(PathBuf, R::File)> {
    for number in 0..NAMES {
        let beside = path_beside(rt.alloc(), path, number)?;
        match create(rt, beside.as_path()) {
            Ok(file) => return Ok((beside, file)),
            Err(error) if error.kind() == ErrorKind::AlreadyExists => {}
            Err(error) => return Err(error),
        }
    }
    Err(io::Error::new(ErrorKind::AlreadyExists, "no name beside it is free"))
}

/// What is known of the file at this path, if it is a regular file that may be written.
fn replaceable<R: Files>(rt: &R, path: Path<'_>) -> io::Result<Metadata> {
    let old = fs::metadata(rt, path)?;
    if !old.is_file() {
        return Err(io::Error::new(ErrorKind::InvalidInput, "no regular file"));
    }
    File::options().append(true).open(rt, path)?;
    Ok(old)
}

/// A new file beside the one that it is to replace. What is written to it is its text.
#[derive(Drop)]
pub struct NewFile<F> {
    file: F,
    /// Its path.
    beside: PathBuf,
    /// The path of the file that it replaces, and what is known of that.
    path: PathBuf,
    old: Metadata,
    /// What the file showed that was read, if one was.
    read: Option<Stamp>,
}

impl<F: Write> Write for NewFile<F> {
    /// Writes all of the bytes, or fails after a part of them.
    fn write(&mut self, buf: &[u8]) -> io::Result<usize> {
        self.file.write_all(buf)?;
        Ok(buf.len())
    }

    fn flush(&mut self) -> io::Result<()> {
        self.file.flush()
    }
}

/// Makes a file that is to replace the one with this name. Where the name is that of a symbolic link, it is to replace the file
/// that the link leads to, and the link stays. No one else may read the new file yet. What the old one showed when it was `read`
/// it has to show once more when it is replaced.
///
/// An error where any step fails, and where the file is no regular file or may not be written: then no file is left beside it.
pub fn begin<R: Files + AllocGlobal>(
    rt: &R,
    name: &str,
    read: Option<Stamp>,
) -> io::Result<NewFile<R::File>> {
    let path = fs::canonicalize(rt, name)?;
    let old = replaceable(rt, path.as_path())?;
    let (beside, file) = create_beside(rt, path.as_path())?;
    Ok(NewFile {
        file,
        beside,
        path,
        old,
        read,
    })
}

/// Gives the new file the owner and the permissions of the old one, and waits until all of it is on disk.
fn settle<R: Files>(rt: &R, file: R::File, beside: Path<'_>, old: &Metadata) -> io::Result<()> {
    lchown(rt, beside, Some(old.uid()), Some(old.gid()))?;
    file.set_permissions(old.permissions())?;
    file.sync_all()
}

/// Has a file take the name of another that is as it was when it was read.
fn take_name<R: Files>(
    rt: &R,
    beside: Path<'_>,
    path: Path<'_>,
    read: Option<Stamp>,
) -> io::Result<()> {
    check_unchanged(read, Stamp::of(&fs::metadata(rt, path)?))?;
    fs::rename(rt, beside, path)
}

/// Has the new file replace the old one, with its owner and its permissions. Other names of the old one (hard links) keep it.
///
/// An error where any step fails, and where the old file is not as it was when it was read: then the old file is as it was, and no
/// file is left beside it.
pub fn finish<R: Files>(rt: &R, new: NewFile<R::File>) -> io::Result<()> {
    let NewFile {
        file,
        beside,
        path,
        old,
        read,
    } = new;
    let beside = beside.as_path();
    let outcome = match settle(rt, file, beside, &old) {
        Ok(()) => take_name(rt, beside, path.as_path(), read),
        Err(error) => Err(error),
    };
    if outcome.is_err() {
        let _ = fs::remove_file(rt, beside);
    }
    outcome
}

/// Removes the new file. The old one is as it was.
pub fn discard<R: Files>(rt: &R, new: NewFile<R::File>) {
    let _ = fs::remove_file(rt, new.beside.as_path());
}
