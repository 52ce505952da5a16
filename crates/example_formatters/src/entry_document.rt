//! The document of entries: what each function makes is said by what it shows.
ghost use Rattle.std.specs.List.{AllZip};
ghost use Rattle.std.specs.Prelude.{IfOk, List, map};
ghost use Rattle.prettyless_shapes.specs.Shows.{Item, shows};
ghost use Rattle.prettyless.specs.Trees.{box_tree};
ghost use Rattle.example_formatters.specs.EntryItems.{block_items, entries_items, entry_items, setting_items};

use crate::entry::{ConfigurationEntry, ConfigurationSetting};
use prettyless::prelude::*;
use prettyless::text::BuildError;
use prettyless::{BoxAllocator, BoxDoc};
use prettyless_shapes::{block, ended, hanging, joined, spaced, stacked_all, text};

/// A setting: its value is on the line of its name where it fits there, and else on the next line.
fn setting<'a, D: DocPlace<'a>>(
    place: &'a D,
    setting: &'a ConfigurationSetting,
) -> Result<D::Doc, BuildError>
    ensures { IfOk result (λ p. shows (D.Doc.tree p) (setting_items setting.now)) }
{
    let name = spaced(
        place,
        text(place, setting.name.as_str())?,
        text(place, "=")?,
    )?;
    let value = joined(
        place,
        text(place, setting.value.as_str())?,
        text(place, ";")?,
    )?;
    let both = hanging(place, name, value, 2)?;
    match &setting.comment {
        None => Ok(both),
        Some(comment) => spaced(place, both, text(place, comment.as_str())?),
    }
}

/// Documents between braces, each on lines of its own.
fn braces<'a, D: DocPlace<'a>>(
    place: &'a D,
    name: &'a str,
    docs: Vec<D::Doc>,
) -> Result<D::Doc, BuildError>
    ensures { IfOk result (λ p. (lists : List (List Item)) → AllZip shows (map D.Doc.tree docs.items) lists
        → shows (D.Doc.tree p) (block_items name.now lists)) }
{
    let before = spaced(place, text(place, name)?, text(place, "{")?)?;
    let inside = stacked_all(place, docs)?;
    block(place, before, inside, text(place, "}")?, 2)
}

/// The document of an entry.
fn document<'a>(
    boxes: &'a BoxAllocator,
    entry: &'a ConfigurationEntry,
) -> Result<BoxDoc<'a>, BuildError>
    ensures { IfOk result (λ p. shows (box_tree p) (entry_items entry.now)) }
{
    match entry {
        ConfigurationEntry::Setting(of) => setting(boxes, of),
        ConfigurationEntry::Block(name, entries) => {
            let mut docs = Vec::new(boxes.memory());
            for entry in entries {
                docs.push(document(boxes, entry)?)?;
            }
            braces(boxes, name.as_str(), docs)
        }
    }
}

/// The document of entries, each of which ends its line. It answers `BuildError::Memory` where memory was refused. No
/// clause says which error comes.
pub fn documents<'a>(
    boxes: &'a BoxAllocator,
    entries: &'a [ConfigurationEntry],
) -> Result<BoxDoc<'a>, BuildError>
    ensures { IfOk result (λ p. shows (box_tree p) (entries_items entries.now)) }
{
    let mut docs = Vec::new(boxes.memory());
    for entry in entries {
        docs.push(document(boxes, entry)?)?;
    }
    ended(boxes, stacked_all(boxes, docs)?)
}
