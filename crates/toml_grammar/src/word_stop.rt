//! Where a string or a comment stops being one of TOML 1.0.
ghost use Rattle.std.specs.Prelude.{◌≡◌};
ghost use Rattle.std.specs.List.{prefix_len};
ghost use Rattle.toml_grammar.specs.Bytes.{is_non_eol};
ghost use Rattle.toml_grammar.specs.WordStops as spec;

use crate::bytes::is_non_eol;
use crate::string::{StringPlace, string_next};

/// What was to come where a string stops being one of TOML.
#[derive(Clone, Copy, Debug, PartialEq, Eq)]
pub enum StringDue {
    /// The quote that closes a string of one line.
    Quote,
    /// The quotes that close a string of several lines.
    Quotes,
    /// A byte that makes an escape with the backslash before it.
    Escape,
    /// A digit of an escape in hex digits.
    Digit,
    /// A last digit with which they write a Unicode scalar value.
    Scalar,
    /// The line end that a backslash takes away.
    LineEnd,
    /// The line feed after a CR.
    LineFeed,
    /// No control character.
    Plain,
}

/// Where a string stops being one of TOML.
#[derive(Clone, Copy, Debug, PartialEq, Eq)]
pub struct StringStop {
    /// So many of its bytes may stand where they do.
    pub count: usize,
    /// What was to come after them.
    pub due: StringDue,
}

/// What was to come in place of a byte.
fn due_at(place: StringPlace, byte: u8) -> StringDue
    ensures { result ≡ spec.due_at place byte }
{
    match place {
        StringPlace::Escaped(_) => StringDue::Escape,
        StringPlace::Folded => StringDue::LineEnd,
        StringPlace::Returned(_) => StringDue::LineFeed,
        StringPlace::Hex(..) if byte.is_ascii_hexdigit() => StringDue::Scalar,
        StringPlace::Hex(..) => StringDue::Digit,
        _ if byte == b'\r' => StringDue::Quote,
        _ => StringDue::Plain,
    }
}

/// What was to come where no byte is left.
fn due_after(place: StringPlace) -> StringDue
    ensures { result ≡ spec.due_after place }
{
    match place {
        StringPlace::Opened(_) | StringPlace::InLine(_) => StringDue::Quote,
        StringPlace::Escaped(false) | StringPlace::Hex(false, _, _) => StringDue::Quote,
        _ => StringDue::Quotes,
    }
}

/// Where a string lexeme stops being one of TOML. For one that is not.
#[tactic(auto, using(crate::proofs::WordStops::stop_from_at))]
pub fn string_stop(text: &str) -> StringStop
    ensures { result ≡ spec.string_stop text.now }
{
    let mut place = StringPlace::Start;
    let mut count = 0;
    'bytes: for byte in text.as_bytes() {
        let next = string_next(place, *byte);
        if matches!(next, StringPlace::Wrong) {
            return StringStop {
                count,
                due: due_at(place, *byte),
            };
        }
        place = next;
        count += 1;
    }
    StringStop {
        count,
        due: due_after(place),
    }
}

/// How many bytes of a comment lexeme are before its first control character.
pub fn comment_stop(text: &str) -> usize
    ensures { result ≡ prefix_len is_non_eol text.now }
{
    text.as_bytes()
        .iter()
        .take_while(|byte| is_non_eol(**byte))
        .count()
}
