//! Where a text is deeper than it may be.
ghost use Rattle.std.specs.Prelude.{◌≡◌, ◌⊎◌, ◌≤◌, ◌∷◌, [], length, true, IfOk, IfSome};
ghost use Rattle.json.specs.Ascii as ascii;
ghost use Rattle.text_lexemes.specs.Places.{IsPlaceWithin};
ghost use Rattle.json_lexemes.specs.View.{text_of};
ghost use Rattle.json_grammar.specs.Faults.{IsOpening, OpensWithin};

use crate::expected::Expected;
use crate::fault::Fault;
use crate::next::Reading;
use json_lexemes::{Lexeme, Lexer, spaces_end};
use std::alloc::{AllocError, Global};
use text_lexemes::place_at;

/// Whether a lexeme opens an array or an object.
fn opens(lexeme: Lexeme<'_>) -> bool
    ensures { result ≡ true → IsOpening (text_of lexeme.entry) }
{
    matches!(lexeme, Lexeme::OpenObject | Lexeme::OpenArray)
}

/// The first bracket of a JSON text that opens an array or an object within so many others, as what stands where less nesting was
/// expected. Where there is none, that is the end of the text.
///
/// `AllocError` where memory is refused.
pub fn depth_fault<'t>(alloc: Global, text: &'t str, most: usize) -> Result<Fault<'t>, AllocError>
    ensures place { IfOk result (λ fault. IsPlaceWithin text.now fault.place) }
    ensures expected { IfOk result (λ fault. fault.expected ≡ Expected.LessNesting) }
    ensures found { IfOk result (λ fault. IfSome fault.found (λ _. OpensWithin most text.now fault.place)) }
{
    let bytes = text.as_bytes();
    let mut reading = Reading::new(alloc);
    let mut offset = 0;
    for lexeme in Lexer::new(text) {
        offset = spaces_end(bytes, offset);
        if opens(lexeme) && reading.depth() >= most {
            return Ok(Fault {
                place: place_at(bytes, offset),
                expected: Expected::LessNesting,
                found: Some(lexeme),
                opened: None,
            });
        }
        let refused = reading.step(lexeme, offset)?;
        if let Some(_) = refused {
            break;
        }
        offset += lexeme.text().len();
    }
    Ok(Fault {
        place: place_at(bytes, bytes.len()),
        expected: Expected::LessNesting,
        found: None,
        opened: None,
    })
}
