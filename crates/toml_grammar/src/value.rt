ghost use Rattle.std.specs.Prelude.{◌≡◌};
ghost use Rattle.toml_grammar.specs.Values as spec;

use crate::date::{is_date_of, is_date_time, is_local_time};
use crate::number::is_number;

/// Whether the bytes are true or false.
#[tactic(auto, unfolding(crate::specs::Values::is_boolean))]
fn is_boolean(bytes: &[u8]) -> bool
    ensures { result ≡ spec.is_boolean bytes.now }
{
    bytes == b"true".as_slice() || bytes == b"false".as_slice()
}

/// Whether a word is a whole value: a boolean, an integer or a float of any size, a date, a time, or both joined by T.
#[tactic(auto, unfolding(crate::specs::Values::is_value))]
pub fn is_value(text: &str) -> bool
    ensures { result ≡ spec.is_value text.now }
{
    let bytes = text.as_bytes();
    is_boolean(bytes)
        || is_number(bytes)
        || is_date_of(bytes)
        || is_local_time(bytes)
        || is_date_time(bytes)
}
