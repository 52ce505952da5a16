//! Texts that are to be laid out: of files, and of standard input.
use crate::arguments::shown_of;
use crate::stamp::Stamp;
use std::alloc::Global;
use std::fs::{Files, OpenFile};
use std::io::{ErrorKind, Read};
use std::{fs, io};

/// A text that is to be laid out.
#[derive(Clone, Copy, Drop)]
pub(crate) struct SourceText<'s> {
    pub(crate) name: &'s str,
    pub(crate) bytes: &'s [u8],
    /// What its file showed when it was read. Of standard input, nothing.
    pub(crate) read: Option<Stamp>,
}

/// Whether this is standard input, and not the name of a file.
pub(crate) fn is_input(file: &str) -> bool {
    file == "-"
}

/// The file as messages name it.
pub(crate) fn name_of(file: &str) -> &str {
    if is_input(file) {
        "<stdin>"
    } else {
        shown_of(file).unwrap_or(file)
    }
}

/// An error where the name of a file is not UTF-8: such a file can't be opened.
pub(crate) fn check_name(name: &str) -> io::Result<()> {
    if shown_of(name).is_none() {
        return Ok(());
    }
    let error = "the name is not UTF-8; its text can be given as standard input";
    Err(io::Error::new(ErrorKind::InvalidFilename, error))
}

/// A text that was read.
#[derive(Drop)]
pub(crate) struct ReadText {
    pub(crate) bytes: Vec<u8>,
    /// What its file showed before. Of standard input, nothing.
    pub(crate) read: Option<Stamp>,
}

/// All of a file, in memory for as much as it is said to have, and one byte more to see its end.
fn read_all<F: Read>(alloc: Global, file: &mut F, len: u64) -> io::Result<Vec<u8>> {
    let room = usize::try_from(len).unwrap_or(usize::MAX).saturating_add(1);
    let mut bytes = Vec::with_capacity(alloc, room)?;
    file.read_to_end(&mut bytes)?;
    Ok(bytes)
}

fn read_file<R: AllocGlobal + Files>(rt: &R, name: &str) -> io::Result<ReadText> {
    check_name(name)?;
    let mut file = fs::open(rt, name)?;
    let stamp = Stamp::of(&file.metadata()?);
    let bytes = read_all(rt.alloc(), &mut file, stamp.len)?;
    Ok(ReadText {
        bytes,
        read: Some(stamp),
    })
}

pub(crate) fn read<R: AllocGlobal + Files + Input>(rt: &R, file: &str) -> io::Result<ReadText> {
    if !is_input(file) {
        return read_file(rt, file);
    }
    let mut bytes = Vec::new(rt.alloc());
    rt.reader().read_to_end(&mut bytes)?;
    Ok(ReadText { bytes, read: None })
}
