//! The layout of entries, which shows all that they hold.
ghost use Rattle.std.specs.Prelude.{IfOk};
ghost use Rattle.std.specs.String.{string_bytes};
ghost use Rattle.example_formatters.specs.EntryItems.{Appends, entries_items};

use crate::entry::ConfigurationEntry;
use crate::entry_document::documents;
use prettyless::{BoxAllocator, DocPlace, DocPtr, PrettyError};
use std::alloc::Global;
use std::fmt;

/// Appends the layout of entries at this width, with the nodes of their document in boxes.
fn write_in<'a>(
    boxes: &'a BoxAllocator,
    width: usize,
    entries: &'a [ConfigurationEntry],
    out: &mut String,
) -> Result<(), PrettyError<fmt::Error>>
    ensures { IfOk result (λ _. Appends (entries_items entries.now) (string_bytes out.old) (string_bytes out.new)) }
{
    let document = documents(boxes, entries)?;
    document.doc().render_fmt(boxes.memory(), width, out)?;
    Ok(())
}

/// Appends the layout of entries at this width, in columns. It shows each name, value and comment, in order, and each comment
/// ends its line. Where it fails, a beginning of the layout may have been appended.
pub fn write_entries(
    alloc: Global,
    width: usize,
    entries: &[ConfigurationEntry],
    out: &mut String,
) -> Result<(), PrettyError<fmt::Error>>
    ensures { IfOk result (λ _. Appends (entries_items entries.now) (string_bytes out.old) (string_bytes out.new)) }
{
    let boxes = BoxAllocator::new(alloc);
    write_in(&boxes, width, entries, out)
}
