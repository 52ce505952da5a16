ghost use Rattle.std.specs.Prelude.{◌≡◌, ℕ, ◌<◌, ◌≤◌, ◌∷◌, [], List, IfSome, MatchOption, true};
ghost use Rattle.json.specs.Ascii.{comma};
ghost use Rattle.json_lexemes.specs.SpacedLexemes.{spaced_lexemes};
ghost use Rattle.json_formatter.specs.Pieces.{pieces_of};
ghost use Rattle.json_formatter.specs.PieceTexts.{piece_text, IsPiece};
ghost use Rattle.json_formatter.specs.Documents.{closes, greatest_width, is_json_sign, next_is, opens, stops};
ghost use Rattle.json_formatter.specs.Window.{width_with_comma, IsWidthUpTo, IsWindow};

use crate::ahead::Ahead;
use crate::columns::piece_columns;
use crate::kind::{closes, opens};
use crate::piece::JsonPiece;
use crate::scanner::Scanner;
use std::alloc::Global;
use std::marker::Model;

/// The pieces of a text, read in their order, with a scanner ahead of them that measures lists. A clause sees how those that
/// are left are spelled.
#[derive(Drop)]
pub(crate) struct Pieces<'a> {
    reader: Ahead<'a>,
    scanner: Scanner<'a>,
    /// How many of the scanner's lists the reader has opened.
    passed: usize,
    /// Which of them the reader has just opened, if the last piece opened one.
    here: Option<usize>,
}

impl<'a> Model for Pieces<'a> {
    ghost use Rattle.std.specs.Prelude.{ℕ, List};
    ghost use Rattle.json_formatter.specs.Window.{IsWindow};

    ghost Value = { List (List ℕ) };

    ghost view = { λ a. a.reader };

    ghost invariant = { λ a. IsWindow a.reader a.scanner a.passed a.here };
}

impl<'a> Pieces<'a> {
    /// All pieces of this text, on lines that are compact or not.
    pub(crate) fn new(alloc: Global, text: &'a str, compact: bool) -> Pieces<'a>
        ensures { result ≡ pieces_of compact (spaced_lexemes text.now) }
    {
        let reader = Ahead::new(text, compact);
        let scanner = Scanner::new(alloc, reader.again(), compact);
        Pieces {
            reader,
            scanner,
            passed: 0,
            here: None,
        }
    }

    /// Takes the next piece, or answers `None` where none is left.
    #[inline(always)]
    pub(crate) fn next(&mut self) -> Option<JsonPiece<'a>>
        ensures next { MatchOption result ((self.old ≡ []) × (self.new ≡ []))
            (λ piece. self.old ≡ piece_text piece ∷ self.new) }
        ensures kind { IfSome result IsPiece }
    {
        let taken = self.reader.next();
        self.here = None;
        if let Some(piece) = taken
            && opens(piece)
        {
            self.here = open_list(&self.reader, &mut self.scanner, &mut self.passed);
        }
        taken
    }

    /// The pieces that are left, once more.
    pub(crate) fn again(&self) -> Ahead<'a>
        ensures { result ≡ self.now }
    {
        self.reader.again()
    }

    /// Whether nothing is left of the list that is open here but what closes it.
    pub(crate) fn is_at_end(&self) -> bool
        ensures { result ≡ stops closes self.now }
    {
        self.reader.is_at_end()
    }

    /// Whether a comma comes next.
    pub(crate) fn next_is_comma(&self) -> bool
        ensures { result ≡ next_is (is_json_sign comma) self.now }
    {
        self.reader.next_is_comma()
    }

    /// The columns from here to what closes the list that is open here, on one line, with the comma after that, if one comes, where
    /// these are at most so many.
    pub(crate) fn columns_with_comma(&mut self, compact: bool, most: usize) -> Option<usize>
        requires { most < greatest_width }
        ensures same { self.new ≡ self.old }
        ensures width { MatchOption result
            ((w : ℕ) → width_with_comma compact 1 self.old ≡ Some w → most < w)
            (λ w. (width_with_comma compact 1 self.old ≡ Some w) × (w ≤ most)) }
    {
        if let Some(index) = self.here
            && self.scanner.measures(compact)
        {
            match self.scanner.width(index, most) {
                Ok(width) => return width,
                Err(_) => {
                    self.scanner.restart(self.reader.again());
                    self.passed = 0;
                    self.here = None;
                }
            }
        }
        width_up_to(self.reader.again(), compact, most)
    }
}

/// Passes the piece that opens a list, which the reader has just taken. Answers its index among the scanner's lists, or `None`
/// where memory is refused for it.
fn open_list<'a>(reader: &Ahead<'a>, scanner: &mut Scanner<'a>, passed: &mut usize) -> Option<usize>
    ensures { (s : List ℕ) → opens s ≡ true → IsWindow (s ∷ reader.now) scanner.old passed.old None
        → IsWindow reader.now scanner.new passed.new result }
{
    let index = *passed;
    if index < scanner.list_count() {
        *passed += 1;
        return Some(index);
    }
    scanner.restart(reader.again());
    *passed = 0;
    if scanner.opened().is_err() {
        scanner.restart(reader.again());
        return None;
    }
    *passed = 1;
    Some(0)
}

/// The columns from here to what closes the list that is open here, on one line, with the comma after that, if one comes, where
/// these are at most so many. It measures them anew.
fn width_up_to(mut pieces: Ahead<'_>, compact: bool, most: usize) -> Option<usize>
    requires { most < greatest_width }
    ensures { IsWidthUpTo compact most pieces.entry result }
{
    let mut room = most;
    let mut inner: usize = 0;
    while let Some(piece) = pieces.next() {
        let columns = piece_columns(compact, piece, &pieces)?;
        room = room.checked_sub(columns)?;
        if opens(piece) {
            inner += 1;
        } else if closes(piece) {
            if inner == 0 {
                room = room.checked_sub(usize::from(pieces.next_is_comma()))?;
                return Some(most - room);
            }
            inner -= 1;
        }
    }
    None
}
