//! A layout of a JSON text is its lexemes in their order, with a gap before each.
ghost use Rattle.std.specs.Prelude.{◌≡◌, ◌<◌, ◌++◌, [], length, MatchOption, IfSome};
ghost use Rattle.json_lexemes.specs.View.{text_of, IsNamed};
ghost use Rattle.json.specs.Ascii.{comma};
ghost use Rattle.json_formatter.specs.Documents.{closes, greatest_width, is_json_sign, next_is, stops};
ghost use Rattle.json_formatter.specs.Gaps.{all_fill, close_after, flat_after, flat_gap, flat_joint, gap_before, gap_bytes, gap_end};
ghost use Rattle.json_formatter.specs.Gaps.{indent_at, list_fits, mark_after, number_fits, open_at, start_state, state_after};
ghost use Rattle.json_formatter.specs.Gaps.{value_at};
ghost use Rattle.json_formatter.specs.Gaps.{value_gap, word_end};
ghost use Rattle.json_formatter.specs.Kept.{gap_kept, kept_after, kept_of, laid_left, spelled_bytes};
ghost use Rattle.json_formatter.specs.Spelling.{respelled};
ghost use Rattle.json_formatter.specs.Pieces.{text_pieces};
ghost use Rattle.json_formatter.specs.PieceTexts.{piece_text, IsPiece};

use crate::ahead::Ahead;
use crate::columns::{piece_columns, text_columns};
use crate::kept::Kept;
use crate::kind::{closes, is_comma, may_fill, opens};
use crate::piece::JsonPiece;
use crate::spelling::{Spelled, Spelling};
use crate::style::{Fill, Style};
use crate::window::Pieces;
use json_lexemes::Lexeme;
use std::alloc::Global;
use std::marker::Model;

/// What stands before a lexeme.
#[derive(Clone, Copy)]
pub(crate) enum Gap {
    Nothing,
    Space,
    /// The end of a line, and so many spaces in the next one.
    Line(usize),
    /// The same, with an empty line between them.
    BlankLine(usize),
}

/// What joins the next value or key to what is before it.
#[derive(Clone, Copy)]
enum Joint {
    /// Nothing: it comes right after a bracket, or is the first one.
    Nothing,
    /// A blank in a style that isn't compact, unless it closes the object whose brace it comes right after.
    Brace,
    /// A space.
    Space,
    /// A new line.
    Line,
    /// A space where a number fits the line with its comma, and else a new line.
    Fill,
}

/// Where a layout stands between two pieces.
#[derive(Clone, Copy)]
struct State {
    /// How many lists are open whose members stand in lines of their own.
    depth: usize,
    /// How many lists are open on one line, each in the one before; none outside of such lines.
    flat: usize,
    /// The column where the line ends, outside of lists on one line. A word before a comma isn't counted where a new line comes
    /// after it.
    column: usize,
    /// Whether the innermost list in lines of its own fills them.
    fills: bool,
    joint: Joint,
}

// Before the first piece.
const START: State = State {
    depth: 0,
    flat: 0,
    column: 0,
    fills: false,
    joint: Joint::Nothing,
};

// The indent of what stands in so many lists.
#[inline(always)]
fn indent_at(style: Style, depth: usize) -> usize
    ensures { result ≡ indent_at style depth }
{
    depth.saturating_mul(style.indent as usize)
}

// Whether nothing but items that may fill lines, with commas, stands in the list that is open here.
fn all_fill(fill: Fill, mut pieces: Ahead<'_>) -> bool
    ensures { result ≡ all_fill fill pieces.entry }
{
    while let Some(piece) = pieces.next() {
        if closes(piece) {
            return true;
        }
        if !may_fill(fill, piece) && !is_comma(piece) {
            return false;
        }
    }
    false
}

// Whether the list that is opened at a column stays within the width, with a comma that comes after it.
#[inline(always)]
fn list_fits(pieces: &mut Pieces<'_>, style: Style, column: usize, opening: JsonPiece<'_>) -> bool
    requires bounded { style.width < greatest_width }
    requires piece { IsPiece opening }
    ensures same { pieces.new ≡ pieces.old }
    ensures fits { result ≡ list_fits style column (piece_text opening.entry) pieces.old }
{
    let Some(bracket) = piece_columns(style.compact, opening, &pieces.again()) else {
        return false;
    };
    let begun = column.saturating_add(bracket);
    if begun > style.width {
        return false;
    }
    pieces
        .columns_with_comma(style.compact, style.width - begun)
        .is_some()
}

// Whether a number fits the line after a space, with its comma.
#[inline(always)]
fn number_fits(style: Style, column: usize, piece: JsonPiece<'_>, comma: bool) -> bool
    requires { IsPiece piece }
    ensures { result ≡ number_fits style column (piece_text piece.entry) comma }
{
    let end = column.saturating_add(1).saturating_add(text_columns(piece));
    end.saturating_add(usize::from(comma)) <= style.width
}

// The gap before a piece of a list on one line.
#[inline(always)]
fn flat_gap(style: Style, joint: Joint, piece: JsonPiece<'_>) -> Gap
    requires { IsPiece piece }
    ensures { result ≡ flat_gap style joint (piece_text piece.entry) }
{
    match joint {
        Joint::Space => Gap::Space,
        Joint::Brace if !style.compact && !closes(piece) => Gap::Space,
        Joint::Brace => Gap::Nothing,
        _ if !style.compact && matches!(piece, JsonPiece::CloseObject) => Gap::Space,
        _ => Gap::Nothing,
    }
}

// What joins the next piece to one of a list on one line.
#[inline(always)]
fn flat_joint(piece: JsonPiece<'_>) -> Joint
    requires { IsPiece piece }
    ensures { result ≡ flat_joint (piece_text piece.entry) }
{
    match piece {
        JsonPiece::Comma | JsonPiece::Colon => Joint::Space,
        JsonPiece::OpenObject(_) => Joint::Brace,
        _ => Joint::Nothing,
    }
}

// The column after a gap.
#[inline(always)]
fn gap_end(column: usize, gap: Gap) -> usize
    ensures { result ≡ gap_end column gap }
{
    match gap {
        Gap::Nothing => column,
        Gap::Space => column.saturating_add(1),
        Gap::Line(indent) | Gap::BlankLine(indent) => indent,
    }
}

impl State {
    // Goes past a piece of a list on one line.
    #[inline(always)]
    fn pass_flat(&mut self, piece: JsonPiece<'_>)
        requires { IsPiece piece }
        ensures { self.new ≡ flat_after self.old (piece_text piece.entry) }
    {
        self.joint = flat_joint(piece);
        match piece {
            JsonPiece::OpenObject(_) | JsonPiece::OpenArray(_) => self.flat = self
                .flat
                .saturating_add(1),
            JsonPiece::CloseObject | JsonPiece::CloseArray => self.flat = self
                .flat
                .saturating_sub(1),
            _ => {}
        }
    }

    // Goes past a comma or a colon.
    #[inline(always)]
    fn pass_mark(&mut self, joint: Joint)
        ensures { self.new ≡ mark_after self.old joint }
    {
        self.column = self.column.saturating_add(1);
        self.joint = joint;
    }

    // Goes past what closes a list in lines of its own.
    #[inline(always)]
    fn pass_close(&mut self)
        ensures { self.new ≡ close_after self.old }
    {
        self.depth = self.depth.saturating_sub(1);
        self.fills = false;
        self.joint = Joint::Nothing;
    }

    // The gap before a value or a key, after whose first piece these come.
    #[inline(always)]
    fn value_gap(&self, style: Style, piece: JsonPiece<'_>, pieces: &Pieces<'_>) -> Gap
        requires { IsPiece piece }
        ensures { result ≡ value_gap style self.now self.now.joint (piece_text piece.entry) (next_is (is_json_sign comma) pieces.now) }
    {
        match self.joint {
            Joint::Nothing | Joint::Brace => Gap::Nothing,
            Joint::Space => Gap::Space,
            Joint::Fill if number_fits(style, self.column, piece, pieces.next_is_comma()) => {
                Gap::Space
            }
            Joint::Line | Joint::Fill => Gap::Line(indent_at(style, self.depth)),
        }
    }

    // Goes past the bracket that opens a list at a column.
    #[inline(always)]
    fn open_at(
        &mut self,
        style: Style,
        column: usize,
        opening: JsonPiece<'_>,
        pieces: &mut Pieces<'_>,
    )
        requires bounded { style.width < greatest_width }
        requires piece { IsPiece opening }
        ensures same { pieces.new ≡ pieces.old }
        ensures state { self.new ≡ open_at style self.old column (piece_text opening.entry) pieces.old }
    {
        self.column = column;
        if pieces.is_at_end() || list_fits(pieces, style, column, opening) {
            self.flat = 1;
            self.joint = flat_joint(opening);
            return;
        }
        self.depth = self.depth.saturating_add(1);
        self.fills = matches!(opening, JsonPiece::OpenArray(_))
            && all_fill(style.fill, pieces.again());
        self.joint = Joint::Line;
    }

    // The column after a word or a key that begins at a column. It isn't counted where a comma comes next, and then a new line.
    #[inline(always)]
    fn word_end(&self, column: usize, piece: JsonPiece<'_>, pieces: &Pieces<'_>) -> usize
        requires { IsPiece piece }
        ensures { result ≡ word_end self.now.fills column (piece_text piece.entry) pieces.now }
    {
        if !self.fills && pieces.next_is_comma() {
            column
        } else {
            column.saturating_add(text_columns(piece))
        }
    }

    // Goes past the first piece of a value, or a key, at a column.
    #[inline(always)]
    fn value_at(
        &mut self,
        style: Style,
        column: usize,
        piece: JsonPiece<'_>,
        pieces: &mut Pieces<'_>,
    )
        requires bounded { style.width < greatest_width }
        requires piece { IsPiece piece }
        ensures same { pieces.new ≡ pieces.old }
        ensures state { self.new ≡ value_at style self.old column (piece_text piece.entry) pieces.old }
    {
        if opens(piece) {
            self.open_at(style, column, piece, pieces);
        } else {
            self.column = self.word_end(column, piece, pieces);
            self.joint = Joint::Nothing;
        }
    }

    // The gap before a value or a key. Goes past its first piece.
    #[inline(always)]
    fn value(&mut self, style: Style, piece: JsonPiece<'_>, pieces: &mut Pieces<'_>) -> Gap
        requires bounded { style.width < greatest_width }
        requires piece { IsPiece piece }
        ensures same { pieces.new ≡ pieces.old }
        ensures gap { result ≡ value_gap style self.old self.old.joint (piece_text piece.entry) (next_is (is_json_sign comma) pieces.old) }
        ensures state { self.new ≡ value_at style self.old (gap_end self.old.column result) (piece_text piece.entry) pieces.old }
    {
        let gap = self.value_gap(style, piece, pieces);
        let column = gap_end(self.column, gap);
        self.value_at(style, column, piece, pieces);
        gap
    }

    // The gap before a piece, after which these come. Goes past it.
    #[inline(always)]
    fn step(&mut self, style: Style, piece: JsonPiece<'_>, pieces: &mut Pieces<'_>) -> Gap
        requires bounded { style.width < greatest_width }
        requires piece { IsPiece piece }
        ensures same { pieces.new ≡ pieces.old }
        ensures gap { result ≡ gap_before style self.old (piece_text piece.entry) pieces.old }
        ensures state { self.new ≡ state_after style self.old (piece_text piece.entry) pieces.old }
    {
        if self.flat > 0 {
            let gap = flat_gap(style, self.joint, piece);
            self.pass_flat(piece);
            return gap;
        }
        match piece {
            JsonPiece::Comma if self.fills => {
                self.pass_mark(Joint::Fill);
                Gap::Nothing
            }
            JsonPiece::Comma => {
                self.pass_mark(Joint::Line);
                Gap::Nothing
            }
            JsonPiece::Colon => {
                self.pass_mark(Joint::Space);
                Gap::Nothing
            }
            JsonPiece::CloseObject | JsonPiece::CloseArray => {
                let indent = indent_at(style, self.depth.saturating_sub(1));
                self.pass_close();
                Gap::Line(indent)
            }
            _ => self.value(style, piece, pieces),
        }
    }
}

/// The lexemes of a text as they are laid out in a style. A clause sees the bytes of the layout that are left.
#[derive(Drop)]
pub(crate) struct Layout<'a> {
    pieces: Pieces<'a>,
    style: Style,
    state: State,
    /// Where it stands in the text, if blank lines are kept.
    kept: Option<Kept<'a>>,
    spelling: Spelling,
    /// Whether no blank lines are kept, line ends are line feeds, and indents spaces.
    plain: bool,
}

impl<'a> Model for Layout<'a> {
    ghost use Rattle.std.specs.Prelude.{◌≡◌, ℕ, ◌<◌, List, true};
    ghost use Rattle.json_formatter.specs.Documents.{greatest_width};
    ghost use Rattle.json_formatter.specs.Kept.{HasPlainGaps, laid_left};

    ghost Value = { List ℕ };

    ghost view = { λ a. laid_left a.style a.state a.kept a.spelling a.pieces };

    ghost invariant = { λ a. (a.style.width < greatest_width) × (a.plain ≡ true → HasPlainGaps a.kept a.spelling) };
}

impl<'a> Layout<'a> {
    /// The lexemes of this text, laid out in this style, and spelled so.
    pub(crate) fn new(alloc: Global, text: &'a str, style: Style, spelling: Spelling) -> Layout<'a>
        requires { style.width < greatest_width }
        ensures { result ≡ laid_left style start_state (kept_of style text.now) spelling (text_pieces style text.now) }
    {
        Layout {
            pieces: Pieces::new(alloc, text, style.compact),
            style,
            state: START,
            kept: if style.blank_lines {
                Some(Kept::new(text))
            } else {
                None
            },
            spelling,
            plain: !style.blank_lines && spelling.is_plain(),
        }
    }

    /// The next lexeme, with the gap before it, or `None` where none is left.
    #[inline(always)]
    pub(crate) fn next(&mut self) -> Option<(Spelled, Lexeme<'a>)>
        ensures next { MatchOption result ((self.old ≡ []) × (self.new ≡ []))
            (λ next. self.old ≡ spelled_bytes next.0 ++ (text_of next.1 ++ self.new)) }
        ensures fewer { IfSome result (λ next. length self.new < length self.old) }
    {
        self.advance()
    }

    // The same. No lexeme is empty.
    #[inline(always)]
    fn advance(&mut self) -> Option<(Spelled, Lexeme<'a>)>
        ensures next { MatchOption result ((self.old ≡ []) × (self.new ≡ []))
            (λ next. self.old ≡ spelled_bytes next.0 ++ (text_of next.1 ++ self.new)) }
        ensures named { IfSome result (λ next. IsNamed next.1) }
    {
        let piece = self.pieces.next()?;
        let gap = self.state.step(self.style, piece, &mut self.pieces);
        let lexeme = piece.lexeme();
        if self.plain {
            return Some((Spelled::Plain(gap), lexeme));
        }
        let spelled = spell_kept(self.spelling, &mut self.kept, gap, lexeme);
        Some((spelled, lexeme))
    }
}

// The gap before the next lexeme as it is spelled, with an empty line where one is kept. Goes past that lexeme.
#[inline(always)]
fn spell_kept(
    spelling: Spelling,
    kept: &mut Option<Kept<'_>>,
    gap: Gap,
    lexeme: Lexeme<'_>,
) -> Spelled
    requires { IsNamed lexeme }
    ensures gap { spelled_bytes result ≡ respelled spelling (gap_kept kept.old (gap_bytes gap)) }
    ensures left { kept.new ≡ kept_after kept.old (text_of lexeme.entry) }
{
    match kept {
        Some(kept) => spelling.spell(kept.gap(gap, lexeme)),
        None => spelling.spell(gap),
    }
}
