ghost use Rattle.std.specs.Prelude.{◌≡◌};
ghost use Rattle.std.specs.List.{list_all};
ghost use Rattle.toml_grammar.specs.Bytes.{is_non_eol};
ghost use Rattle.toml_grammar.specs.Comments as spec;

use crate::bytes::{byte_at, is_non_eol};

/// Whether no byte is a control character but the tab.
#[inline]
fn are_non_eol(bytes: &[u8]) -> bool
    ensures { result ≡ list_all is_non_eol bytes.now }
{
    bytes.iter().all(|byte| is_non_eol(*byte))
}

/// Whether a comment lexeme holds no control character but the tab.
#[tactic(auto, unfolding(crate::specs::Comments::is_comment))]
pub fn is_comment(text: &str) -> bool
    ensures { result ≡ spec.is_comment text.now }
{
    let bytes = text.as_bytes();
    byte_at(bytes, 0) == b'#' && are_non_eol(bytes)
}
