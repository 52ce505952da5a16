ghost use Rattle.std.specs.Prelude.{◌≡◌, ◌+◌, ◌^◌, ◌<◌, ◌≤◌, ℕ, List, [], ◌∷◌, ◌++◌, length, take};
ghost use Rattle.text_lexemes.specs.Places.{IsPlace, begins_character};

/// A place in a text: its line and its column, from 1. A column is a character.
#[derive(Clone, Copy, Debug, Drop, PartialEq, Eq)]
pub struct Place {
    /// How many line feeds are before it, and one.
    pub line: usize,
    /// How many characters of its line are before it, and one.
    pub column: usize,
}

/// Whether a character begins with this byte.
fn begins_character(byte: u8) -> bool
    ensures { result ≡ begins_character byte }
{
    byte < 0x80 || byte >= 0xC0
}

/// The place after one byte more.
fn after(place: Place, byte: u8) -> Place
    requires { (place.line + 1 < 2 ^ 64) × (place.column + 1 < 2 ^ 64) }
    ensures { (bytes : List ℕ) → IsPlace bytes place → IsPlace (bytes ++ byte ∷ []) result }
{
    let Place { line, column } = place;
    if byte == b'\n' {
        Place {
            line: line + 1,
            column: 1,
        }
    } else if begins_character(byte) {
        Place {
            line,
            column: column + 1,
        }
    } else {
        place
    }
}

/// The place of the byte at this offset in bytes, or of the end.
pub fn place_at(bytes: &[u8], offset: usize) -> Place
    requires { offset ≤ length bytes.now }
    ensures { IsPlace (take offset bytes.now) result }
{
    let mut place = Place { line: 1, column: 1 };
    for byte in &bytes[..offset] {
        place = after(place, *byte);
    }
    place
}
