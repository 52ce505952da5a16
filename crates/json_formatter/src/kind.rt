ghost use Rattle.std.specs.Prelude.{◌≡◌};
ghost use Rattle.json.specs.Ascii.{comma};
ghost use Rattle.json_formatter.specs.PieceTexts.{piece_text, IsPiece};
ghost use Rattle.json_formatter.specs.Documents.{closes, is_number, is_json_sign, may_fill, opens};

use crate::piece::JsonPiece;
use crate::style::Fill;

/// Whether the piece opens a list, which is an object or an array.
pub(crate) fn opens(piece: JsonPiece<'_>) -> bool
    requires { IsPiece piece }
    ensures { result ≡ opens (piece_text piece.entry) }
{
    matches!(piece, JsonPiece::OpenObject(_) | JsonPiece::OpenArray(_))
}

/// Whether the piece closes a list.
pub(crate) fn closes(piece: JsonPiece<'_>) -> bool
    requires { IsPiece piece }
    ensures { result ≡ closes (piece_text piece.entry) }
{
    matches!(piece, JsonPiece::CloseObject | JsonPiece::CloseArray)
}

/// Whether the piece is a comma.
pub(crate) fn is_comma(piece: JsonPiece<'_>) -> bool
    requires { IsPiece piece }
    ensures { result ≡ is_json_sign comma (piece_text piece.entry) }
{
    matches!(piece, JsonPiece::Comma)
}

/// Whether the piece is a number, where it is one of a JSON text.
pub(crate) fn is_number(piece: JsonPiece<'_>) -> bool
    requires { IsPiece piece }
    ensures { result ≡ is_number (piece_text piece.entry) }
{
    match piece {
        JsonPiece::Word(word) => matches!(word.as_bytes(), [b'-' | b'0'..=b'9', ..]),
        _ => false,
    }
}

/// Whether the piece may be an item of an array that fills its lines, where it is a lexeme of a JSON text.
pub(crate) fn may_fill(fill: Fill, piece: JsonPiece<'_>) -> bool
    requires { IsPiece piece }
    ensures { result ≡ may_fill fill (piece_text piece.entry) }
{
    match fill {
        Fill::Numbers => is_number(piece),
        Fill::All => !opens(piece),
        Fill::Nothing => false,
    }
}
