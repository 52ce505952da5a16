//! Layouts of entries, worked by hand, and read back.
use example_formatters::entry::{ConfigurationEntry, ConfigurationSetting};
use example_formatters::entry_write::write_entries;
use std::alloc::{AllocError, Global};
use std::mem;
use std::test::Fail;

fn setting(
    alloc: Global,
    name: &str,
    value: &str,
    comment: &str,
) -> Result<ConfigurationEntry, AllocError> {
    let comment = if comment.is_empty() {
        None
    } else {
        Some(String::from_str(alloc, comment)?)
    };
    Ok(ConfigurationEntry::Setting(ConfigurationSetting {
        name: String::from_str(alloc, name)?,
        value: String::from_str(alloc, value)?,
        comment,
    }))
}

/// What was read so far: entries, the blocks that are open around them, and the last name.
#[derive(Drop)]
struct ReadEntries {
    open: Vec<(String, Vec<ConfigurationEntry>)>,
    entries: Vec<ConfigurationEntry>,
    name: String,
}

fn read_word(alloc: Global, at: &mut ReadEntries, word: &str) -> Result<(), AllocError> {
    if word == "{" {
        let name = mem::replace(&mut at.name, String::new(alloc));
        let around = mem::replace(&mut at.entries, Vec::new(alloc));
        at.open.push((name, around))?;
    } else if word == "}" {
        if let Some((name, around)) = at.open.pop() {
            let entries = mem::replace(&mut at.entries, around);
            at.entries.push(ConfigurationEntry::Block(name, entries))?;
        }
    } else if let Some(value) = word.strip_suffix(";") {
        let entry = setting(alloc, at.name.as_str(), value, "")?;
        at.entries.push(entry)?;
    } else if word != "=" {
        at.name = String::from_str(alloc, word)?;
    }
    Ok(())
}

fn read_comment(alloc: Global, at: &mut ReadEntries, comment: &str) -> Result<(), AllocError> {
    let comment = format!(in alloc; "# {comment}")?;
    if let Some(ConfigurationEntry::Setting(last)) = at.entries.pop() {
        let (name, value) = (last.name.as_str(), last.value.as_str());
        let entry = setting(alloc, name, value, comment.as_str())?;
        at.entries.push(entry)?;
    }
    Ok(())
}

/// The entries that a layout is read as. A comment goes up to the end of its line.
fn read(alloc: Global, layout: &str) -> Result<Vec<ConfigurationEntry>, AllocError> {
    let mut at = ReadEntries {
        open: Vec::new(alloc),
        entries: Vec::new(alloc),
        name: String::new(alloc),
    };
    for line in layout.lines() {
        let (code, comment) = line.split_once("# ").unwrap_or((line, ""));
        for word in code.split_whitespace() {
            read_word(alloc, &mut at, word)?;
        }
        if !comment.is_empty() {
            read_comment(alloc, &mut at, comment)?;
        }
    }
    Ok(at.entries)
}

/// A setting, and a block of two more.
fn entries(alloc: Global) -> Result<Vec<ConfigurationEntry>, AllocError> {
    let mut inner = Vec::new(alloc);
    inner.push(setting(alloc, "port", "80", "# plain")?)?;
    inner.push(setting(alloc, "host", "example.org", "")?)?;
    let mut entries = Vec::new(alloc);
    entries.push(setting(alloc, "user", "www", "# not root")?)?;
    entries.push(ConfigurationEntry::Block(String::from_str(alloc, "server")?, inner))?;
    Ok(entries)
}

#[rattlefmt::skip]
const LAYOUTS: &[(usize, &str)] = &[
    (22, "user = www; # not root\nserver {\n  port = 80; # plain\n  host = example.org;\n}\n"),
    (10, "user =\n  www; # not root\nserver {\n  port =\n    80; # plain\n  host =\n    example.org;\n}\n"),
];

#[test]
fn entries_read_back(rt: HostRuntime) -> Result<(), Fail> {
    let alloc = rt.alloc();
    let entries = entries(alloc)?;
    for &(width, layout) in LAYOUTS {
        let mut out = String::new(alloc);
        assert!(rt; write_entries(alloc, width, entries.as_slice(), &mut out).is_ok());
        assert!(rt; out.as_str() == layout, "{layout} at {width}");
        assert!(rt; read(alloc, out.as_str())? == entries);
    }
    Ok(())
}
