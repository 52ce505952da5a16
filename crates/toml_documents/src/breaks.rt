//! The line ends of a text.
ghost use Rattle.std.specs.Prelude.{◌≡◌};
ghost use Rattle.std.specs.List.{list_any};
ghost use Rattle.toml_documents.specs.Documents.{is_line_feed_byte};

/// Whether a line ends in the text.
pub fn has_lines(text: &str) -> bool
    ensures { result ≡ list_any is_line_feed_byte text.now }
{
    text.as_bytes().iter().any(|byte| *byte == b'\n')
}
