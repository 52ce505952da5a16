ghost use Rattle.std.specs.Prelude.{◌≡◌};
ghost use Rattle.std.specs.List.{fold};
ghost use Rattle.toml_grammar.specs.Keys as spec;

use crate::bytes::is_bare;

/// Where in a key a byte stands.
#[derive(Clone, Copy)]
pub(crate) enum KeyPlace {
    /// A part of the key is due: at the beginning, or after a dot.
    Due,
    /// In a bare part.
    Inside,
    /// After a part that has ended.
    After,
    /// The bytes are no piece of a key.
    Wrong,
}

/// The place after one byte more.
#[inline]
fn key_next(place: KeyPlace, byte: u8) -> KeyPlace
    ensures { result ≡ spec.key_next place byte }
{
    match place {
        KeyPlace::Due | KeyPlace::Inside if is_bare(byte) => KeyPlace::Inside,
        KeyPlace::Inside | KeyPlace::After if byte == b'.' => KeyPlace::Due,
        _ => KeyPlace::Wrong,
    }
}

/// Reads a word as a piece of a dotted key, whose parts and dots alternate. `due` says whether a part is to come next: at the
/// beginning of the key, or after a dot. The answer says whether one is to come after the word; it is `None` where the word
/// can't stand there.
#[tactic(auto, unfolding(crate::specs::Keys::key_word))]
pub fn key_word(text: &str, due: bool) -> Option<bool>
    ensures { result ≡ spec.key_word due text.now }
{
    let start = if due { KeyPlace::Due } else { KeyPlace::After };
    match text
        .as_bytes()
        .iter()
        .fold(start, |place, byte| key_next(place, *byte))
    {
        KeyPlace::Due => Some(true),
        KeyPlace::Inside | KeyPlace::After => Some(false),
        KeyPlace::Wrong => None,
    }
}
