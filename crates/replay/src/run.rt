use crate::answer::{LineAnswer, answered};
use std::alloc::Global;
use std::io;
use std::io::{BufRead, ErrorKind, Write};

/// How many lines are as they state, and how many are not.
#[derive(Clone, Copy, Default)]
pub struct Tally {
    pub same: u64,
    pub different: u64,
}

// Reads the next line, without its LF. It is false where none is left. Where the reader fails, the line has the bytes that
// it gave.
fn next_line<R: BufRead>(reader: &mut R, line: &mut Vec<u8>) -> io::Result<bool> {
    line.clear();
    if reader.read_until(b'\n', line)? == 0 {
        return Ok(false);
    }
    if line.ends_with(b"\n".as_slice()) {
        line.pop();
    }
    Ok(true)
}

fn write_line<W: Write>(out: &mut W, text: &str) -> io::Result<()> {
    out.write_all(text.as_bytes())?;
    out.write_all(b"\n")
}

impl Tally {
    // Counts a line, and writes what is said of it.
    fn add<W: Write>(&mut self, answer: &LineAnswer, out: &mut W) -> io::Result<()> {
        match answer {
            LineAnswer::Nothing => Ok(()),
            LineAnswer::Outcome(text) => write_line(out, text.as_str()),
            LineAnswer::AsStated => {
                self.same = self.same.saturating_add(1);
                Ok(())
            }
            LineAnswer::Differs(text) => {
                self.different = self.different.saturating_add(1);
                write_line(out, text.as_str())
            }
        }
    }

    // Writes how many lines are as they state, where one states something.
    fn write<W: Write>(self, alloc: Global, out: &mut W) -> io::Result<()> {
        let same = self.same;
        let all = same.saturating_add(self.different);
        if all == 0 {
            return Ok(());
        }
        write_line(
            out,
            format!(in alloc; "{same} of {all} cases as stated")?.as_str(),
        )
    }
}

/// Answers the lines of a reader to its end, one after the other, and counts them from 1. A line that states what comes of its
/// case is compared, and the last line counts those.
///
/// It stops at an error of the reader or the writer, and after 2^64 - 1 lines. The writer then has a beginning of the answers.
pub fn run<R: BufRead, W: Write>(
    alloc: Global,
    hostile: bool,
    reader: &mut R,
    out: &mut W,
) -> io::Result<Tally> {
    let mut line = Vec::new(alloc);
    let mut tally = Tally::default();
    for before in 0..u64::MAX {
        if !next_line(reader, &mut line)? {
            tally.write(alloc, out)?;
            return Ok(tally);
        }
        match answered(alloc, hostile, before + 1, &line) {
            Ok(answer) => tally.add(&answer, out)?,
            Err(_) => write_line(out, "error out of memory")?,
        }
    }
    Err(io::Error::from(ErrorKind::FileTooLarge))
}
