//! A difference as people read it: the changes, each with some lines around it, in the form that `diff -u` and `patch` have.
use crate::difference::DiffLine;
use crate::head::heads;
use std::alloc::Global;
use std::io;
use std::io::Write;

// How many kept lines are shown before a change, and after it.
const AROUND: usize = 3;

// Whether a line is shown: it is a change, or not far from one.
fn is_shown(lines: &[DiffLine<'_>], index: usize) -> bool {
    let begin = index.saturating_sub(AROUND);
    let end = index.saturating_add(AROUND + 1);
    let near = lines.get(begin..end.min(lines.len())).unwrap_or(&[]);
    near.iter().any(|line| !matches!(*line, DiffLine::Kept(_)))
}

// The end of the lines from `begin` on that are shown in a row.
fn shown_end(lines: &[DiffLine<'_>], begin: usize) -> usize {
    for index in begin..lines.len() {
        if !is_shown(lines, index) {
            return index;
        }
    }
    lines.len()
}

/// How many lines of the old text, and of the new one.
#[derive(Clone, Copy, Drop)]
struct LineCounts {
    old: usize,
    new: usize,
}

impl LineCounts {
    fn after(self, line: DiffLine<'_>) -> LineCounts {
        let (in_old, in_new) = match line {
            DiffLine::Kept(_) => (1, 1),
            DiffLine::Removed(_) => (1, 0),
            DiffLine::Added(_) => (0, 1),
        };
        LineCounts {
            old: self.old.saturating_add(in_old),
            new: self.new.saturating_add(in_new),
        }
    }
}

// Writes which lines of one text a hunk has: the first, and how many, if that is not one. Of no lines, the one before them.
fn write_range(out: &mut Vec<u8>, before: usize, count: usize) -> io::Result<()> {
    match count {
        0 => write!(out, "{before},0"),
        1 => write!(out, "{}", before.saturating_add(1)),
        _ => write!(out, "{},{count}", before.saturating_add(1)),
    }
}

// Writes the head of a hunk of these lines.
fn write_head(out: &mut Vec<u8>, before: LineCounts, lines: &[DiffLine<'_>]) -> io::Result<()> {
    let mut counts = LineCounts { old: 0, new: 0 };
    for line in lines {
        counts = counts.after(*line);
    }
    write!(out, "@@ -")?;
    write_range(out, before.old, counts.old)?;
    write!(out, " +")?;
    write_range(out, before.new, counts.new)?;
    writeln!(out, " @@")
}

fn write_line(out: &mut Vec<u8>, line: DiffLine<'_>) -> io::Result<()> {
    let (mark, text) = match line {
        DiffLine::Kept(text) => (b' ', text),
        DiffLine::Removed(text) => (b'-', text),
        DiffLine::Added(text) => (b'+', text),
    };
    out.push(mark)?;
    out.write_all(text)?;
    if text.last() != Some(&b'\n') {
        writeln!(out, "\n\\ No newline at end of file")?;
    }
    Ok(())
}

/// A difference of the file with this name and its layout: after the name, the changes, with three lines before and after each.
pub(crate) fn hunks(alloc: Global, name: &str, lines: &[DiffLine<'_>]) -> io::Result<Vec<u8>> {
    let mut out = heads(alloc, name.as_bytes())?;
    let mut before = LineCounts { old: 0, new: 0 };
    let mut end = 0;
    for (index, line) in lines.iter().enumerate() {
        if index >= end && is_shown(lines, index) {
            end = shown_end(lines, index);
            write_head(&mut out, before, lines.get(index..end).unwrap_or(&[]))?;
        }
        if index < end {
            write_line(&mut out, *line)?;
        }
        before = before.after(*line);
    }
    Ok(out)
}
