//! What stands in a folder.
ghost use Rattle.std.specs.Prelude.{◌≡◌, IfOk, map};
ghost use Rattle.formatter_files.specs.Folders.{IsVisitedInOrder, is_passed_over, lacks_slash, path_in, visited};

use crate::arguments::text_of;
use std::alloc::{AllocError, Global};
use std::fs::Files;
use std::io;
use std::io::Read;

/// Whether what has this name in a folder is not looked at: the folder itself, the one above it, what `git` and `npm` keep, and
/// what has no name.
fn is_passed_over(name: &[u8]) -> bool
    ensures { result ≡ is_passed_over name.now }
{
    name.is_empty()
        || name == b".".as_slice()
        || name == b"..".as_slice()
        || name == b".git".as_slice()
        || name == b"node_modules".as_slice()
}

/// The names that are looked at, as they stand in a listing, where a NUL ends each.
///
/// `AllocError` where memory is refused.
fn visited(alloc: Global, listing: &[u8]) -> Result<Vec<&[u8]>, AllocError>
    ensures { IfOk result (λ names. map (λ name. name.now) names.items ≡ visited listing.now) }
{
    listing
        .split(|byte| *byte == 0)
        .filter(|name| !is_passed_over(*name))
        .collect(alloc)
}

/// The names that are looked at, in the order of their bytes.
///
/// `AllocError` where memory is refused.
pub fn visited_in_order(alloc: Global, listing: &[u8]) -> Result<Vec<&[u8]>, AllocError>
    ensures { IfOk result (λ names. IsVisitedInOrder listing.now names.items) }
{
    let mut names = visited(alloc, listing)?;
    names.sort()?;
    Ok(names)
}

/// Whether a path has no slash at its end.
fn lacks_slash(path: &[u8]) -> bool
    ensures { result ≡ lacks_slash path.now }
{
    !path.is_empty() && path[path.len() - 1] != b'/'
}

/// The path of what has this name in a folder. With no name it ends in a slash, so it is the folder also where that is a link.
///
/// `AllocError` where memory is refused.
pub fn path_in(alloc: Global, folder: &[u8], name: &[u8]) -> Result<Vec<u8>, AllocError>
    ensures { IfOk result (λ path. path.items ≡ path_in folder.now name.now) }
{
    let mut path = Vec::from_slice(alloc, folder)?;
    if lacks_slash(folder) {
        path.push(b'/')?;
    }
    path.extend_from_slice(name)?;
    Ok(path)
}

// How many bytes of names are read at once. They have room for any name.
const ROOM: usize = 4096;

// The text of a path in a folder.
fn path_text(alloc: Global, folder: &str, name: &[u8]) -> Result<String, AllocError> {
    text_of(alloc, path_in(alloc, folder.as_bytes(), name)?)
}

/// The names in a folder in the order of the file system, with a NUL after each.
fn listing<R: AllocGlobal + Files>(rt: &R, folder: &str) -> io::Result<Vec<u8>> {
    let path = path_text(rt.alloc(), folder, b"")?;
    let mut names = rt.open_dir(path.as_str())?;
    let mut listing = Vec::new(rt.alloc());
    let mut bytes = [0u8; ROOM];
    for _ in 0..u64::MAX {
        match names.read(&mut bytes)? {
            0 => break,
            len => listing.extend_from_slice(&bytes[..len])?,
        }
    }
    Ok(listing)
}

/// Appends the paths of what stands in a folder, so that they are taken from the end in the order of their names. One that is not
/// UTF-8 is a text that is no name of a file.
///
/// An error where the folder cannot be read, or memory is refused.
pub(crate) fn push_paths<R: AllocGlobal + Files>(
    rt: &R,
    folder: &str,
    paths: &mut Vec<String>,
) -> io::Result<()> {
    let listing = listing(rt, folder)?;
    let names = visited_in_order(rt.alloc(), &listing)?;
    for name in names.iter().rev() {
        paths.push(path_text(rt.alloc(), folder, *name)?)?;
    }
    Ok(())
}
