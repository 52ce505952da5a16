//! What a gap between lexemes is.
ghost use Rattle.std.specs.Prelude.{◌≡◌, ◌==◌};
ghost use Rattle.toml_grammar.specs.Grammar as spec;

/// Whether exactly one space is the gap.
pub(crate) fn is_one_space(gap: &str) -> bool
    ensures { result ≡ spec.is_one_space gap.now }
{
    let bytes = gap.as_bytes();
    bytes.len() == 1 && bytes[0] == b' '
}

/// Whether no CR is in the gap, but for one that is the last blank before a line end.
pub(crate) fn is_clear(gap: &str, before_line_end: bool) -> bool
    ensures { result ≡ spec.is_clear gap.now before_line_end }
{
    let bytes = gap.as_bytes();
    let end = if before_line_end {
        bytes.len().saturating_sub(1)
    } else {
        bytes.len()
    };
    bytes[..end].iter().all(|byte| *byte != b'\r')
}
