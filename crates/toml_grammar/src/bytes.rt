ghost use Rattle.std.specs.Prelude.{◌≡◌, slice_index, take, drop};
ghost use Rattle.toml_grammar.specs.Bytes as spec;

/// The byte at a place, or 0 past the end.
#[inline]
pub(crate) fn byte_at(bytes: &[u8], place: usize) -> u8
    ensures { result ≡ slice_index bytes.now place }
{
    bytes.get(place).copied().unwrap_or(0)
}

/// The first `count` bytes, or all where there are fewer.
#[inline]
pub(crate) fn front(bytes: &[u8], count: usize) -> &[u8]
    ensures { result.now ≡ take count bytes.now }
{
    if count < bytes.len() {
        &bytes[..count]
    } else {
        bytes
    }
}

/// The bytes after the first `count`, or none where there are fewer.
#[inline]
pub(crate) fn past(bytes: &[u8], count: usize) -> &[u8]
    ensures { result.now ≡ drop count bytes.now }
{
    if count < bytes.len() {
        &bytes[count..]
    } else {
        &bytes[bytes.len()..]
    }
}

/// Whether the byte is one of a bare key.
#[inline]
pub(crate) fn is_bare(byte: u8) -> bool
    ensures { result ≡ spec.is_bare byte }
{
    byte.is_ascii_alphanumeric() || byte == b'-' || byte == b'_'
}

/// Whether the byte is a sign of a number or of a time's offset.
#[inline]
pub(crate) fn is_plus_or_minus(byte: u8) -> bool
    ensures { result ≡ spec.is_plus_or_minus byte }
{
    byte == b'+' || byte == b'-'
}

/// Whether the byte is the tab or no control character.
#[inline]
pub(crate) fn is_non_eol(byte: u8) -> bool
    ensures { result ≡ spec.is_non_eol byte }
{
    byte == b'\t' || (byte >= 0x20 && byte != 0x7F)
}
