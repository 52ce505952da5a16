ghost use Rattle.std.specs.Prelude.{◌≡◌};
ghost use Rattle.toml_lexemes.specs.Bytes.{is_blank};
ghost use Rattle.toml_lexemes.specs.Statements.{trimmed};

/// Whether the byte is a blank.
fn is_blank(byte: u8) -> bool
    ensures { result ≡ is_blank byte }
{
    matches!(byte, b' ' | b'\t' | b'\r')
}

/// The text without the blanks at its end.
pub fn trimmed(text: &str) -> &str
    ensures { result.now ≡ trimmed text.now }
{
    let bytes = text.as_bytes();
    let mut end = bytes.len();
    while end > 0 && is_blank(bytes[end - 1]) {
        end -= 1;
    }
    &text[..end]
}
