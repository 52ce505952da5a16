//! How the head of a difference names a file, so that `patch` and `git apply` find it.
ghost use Rattle.std.specs.Prelude.{◌≡◌, ◌++◌, IfOk, OnOk};
ghost use Rattle.std.specs.List.{list_any};
ghost use Rattle.formatter_files.specs.Heads.{escape, head_name, heads, is_control, is_escaped, is_marked, is_quoted, is_space_byte};
ghost use Rattle.formatter_files.specs.Heads.{quoted};

use std::alloc::{AllocError, Global};

fn is_control(byte: u8) -> bool
    ensures { result ≡ is_control byte }
{
    byte < 0x20 || byte == 0x7F
}

/// Whether this is a quote or a backslash.
fn is_marked(byte: u8) -> bool
    ensures { result ≡ is_marked byte }
{
    byte == b'"' || byte == b'\\'
}

fn has_escaped(name: &[u8]) -> bool
    ensures { result ≡ list_any is_escaped name.now }
{
    for byte in name {
        if is_control(*byte) || is_marked(*byte) {
            return true;
        }
    }
    false
}

fn has_space(name: &[u8]) -> bool
    ensures { result ≡ list_any is_space_byte name.now }
{
    for byte in name {
        if *byte == b' ' {
            return true;
        }
    }
    false
}

/// Whether a name would not be read as it is.
fn is_quoted(name: &[u8]) -> bool
    ensures { result ≡ is_quoted name.now }
{
    match name {
        [] => false,
        [first, ..] => *first == b' ' || name[name.len() - 1] == b' ' || has_escaped(name),
    }
}

/// Appends a byte as C writes it between quotes.
fn push_escape(out: &mut Vec<u8>, byte: u8) -> Result<(), AllocError>
    ensures { OnOk result (out.new.items ≡ out.old.items ++ escape byte) }
{
    if is_marked(byte) {
        out.extend_from_slice(&[b'\\', byte])
    } else if (0x07..=0x0D).contains(&byte) {
        out.extend_from_slice(&[b'\\', b"abtnvfr"[usize::from(byte - 7)]])
    } else if is_control(byte) || byte >= 0x80 {
        let digits = [byte / 64, byte / 8 % 8, byte % 8];
        out.extend_from_slice(&[b'\\', b'0' + digits[0], b'0' + digits[1], b'0' + digits[2]])
    } else {
        Ok(out.push(byte)?)
    }
}

/// A name in quotes.
fn quoted(alloc: Global, name: &[u8]) -> Result<Vec<u8>, AllocError>
    ensures { IfOk result (λ written. written.items ≡ quoted name.now) }
{
    let mut written = Vec::new(alloc);
    written.push(b'"')?;
    for byte in name {
        push_escape(&mut written, *byte)?;
    }
    written.push(b'"')?;
    Ok(written)
}

/// A name as a head has it: in quotes where it would not be read as it is, with a tab after it where it has spaces.
///
/// `AllocError` where memory is refused.
pub fn head_name(alloc: Global, name: &[u8]) -> Result<Vec<u8>, AllocError>
    ensures { IfOk result (λ written. written.items ≡ head_name name.now) }
{
    if is_quoted(name) {
        return quoted(alloc, name);
    }
    let mut written = Vec::from_slice(alloc, name)?;
    if has_space(name) {
        written.push(b'\t')?;
    }
    Ok(written)
}

/// The two lines before the hunks of a difference, of a file that has one name before and after.
///
/// `AllocError` where memory is refused.
pub fn heads(alloc: Global, name: &[u8]) -> Result<Vec<u8>, AllocError>
    ensures { IfOk result (λ written. written.items ≡ heads name.now) }
{
    let name = head_name(alloc, name)?;
    let mut written = Vec::from_slice(alloc, b"--- ")?;
    written.extend_from_slice(&name)?;
    written.extend_from_slice(b"\n+++ ")?;
    written.extend_from_slice(&name)?;
    written.push(b'\n')?;
    Ok(written)
}
