//! The documents of values.
ghost use Rattle.std.specs.Prelude.{◌≡◌, ◌++◌, ◌≤◌, ◌∷◌, [], ℕ, List, length, true, false, IfOk, IfErr, OnOk};
ghost use Rattle.prettyless_pointers.specs.Trees.{ref_tree};
ghost use Rattle.toml_lexemes.specs.View.{toml_text_of, HasTomlKind};
ghost use Rattle.toml_formatter.specs.Depths.{TakesWithin};
ghost use Rattle.toml_documents.specs.Documents.{Level, indent_in, level_end, list_tree, new_level, unclosed_tree};
ghost use Rattle.toml_formatter.specs.Drafts.{ReadsOn, ReadsPart, Stands};
ghost use Rattle.toml_formatter.specs.Errors.{IsFormatMemory, IsRefusalWithin};
ghost use Rattle.toml_documents.specs.Gaps.{is_nested};
ghost use Rattle.toml_documents.specs.Kinds.{is_closing, is_opening, last_after, IsPart};
ghost use Rattle.toml_documents.specs.Lexing.{ClosesNext};
ghost use Rattle.toml_lexemes.specs.Sound.{IsSound};
ghost use Rattle.toml_formatter.specs.Lines.{IsValue, ShowsTaken, TakesLine, TakesValue};

use crate::error::FormatError;
use crate::line::Line;
use crate::parts::{apart, lexeme};
use prettyless_pointers::{Arena, RefDoc};
use prettyless_shapes::{grouped, indented, joined, text};
use toml_documents::Style;
use toml_documents::ahead::Ahead;
use toml_documents::gaps::before_close;
use toml_documents::kind::{Kind, kind_of, opens};
use toml_documents::numbers::kind_before;
use toml_lexemes::Lexeme;

/// What each lexeme of a text is laid out with.
#[derive(Clone, Copy)]
pub(crate) struct Setting<'a> {
    pub(crate) arena: &'a Arena<'a>,
    pub(crate) style: Style,
}

/// By how many columns what is in brackets of this kind is indented.
fn indent_in(kind: Kind, style: Style) -> u32
    ensures { result ≡ indent_in style kind }
{
    match kind {
        Kind::Array | Kind::Numbers => style.indent,
        _ => 0,
    }
}

/// A list of this kind, which was opened by this bracket and has this line in it.
fn closed<'a>(
    setting: &Setting<'a>,
    kind: Kind,
    bracket: Lexeme<'a>,
    line: Line<'a>,
    close: Lexeme<'a>,
) -> Result<RefDoc<'a>, FormatError>
    requires kind { is_nested kind ≡ true }
    requires opens { is_opening bracket ≡ true }
    requires closes { is_closing close ≡ true }
    ensures made { IfOk result (λ p. (left taken : List (List ℕ)) → IsSound (toml_text_of close.entry) left
        → ShowsTaken true true line.entry (toml_text_of close.entry ∷ left) taken
        → IsValue (last_after bracket.entry) (toml_text_of bracket.entry) left (taken ++ toml_text_of close.entry ∷ []) (ref_tree p)) }
    ensures tree { IfOk result (λ p. (lv : Level) → lv.kind ≡ kind → lv.opening ≡ toml_text_of bracket.entry → Stands lv line.entry
        → ref_tree p ≡ list_tree setting.now.style lv (toml_text_of close.entry)) }
    ensures err { IfErr result IsFormatMemory }
{
    let arena = setting.arena;
    let line = line.closed(arena, kind)?;
    let inner = joined(arena, text(arena, bracket.text())?, line.doc)?;
    let nested = indented(arena, inner, indent_in(kind, setting.style))?;
    let gap = before_close(kind, line.last);
    let doc = apart(arena, nested, gap, text(arena, close.text())?)?;
    Ok(grouped(arena, doc)?)
}

/// A list that was opened by this bracket and has this line in it, and that the text ends in.
fn unclosed<'a>(
    setting: &Setting<'a>,
    bracket: Lexeme<'a>,
    line: Line<'a>,
) -> Result<RefDoc<'a>, FormatError>
    requires { is_opening bracket ≡ true }
    ensures made { IfOk result (λ p. (taken : List (List ℕ)) → ShowsTaken true true line.entry [] taken
        → IsValue (last_after bracket.entry) (toml_text_of bracket.entry) [] taken (ref_tree p)) }
    ensures tree { IfOk result (λ p. (lv : Level) → lv.opening ≡ toml_text_of bracket.entry → Stands lv line.entry
        → ref_tree p ≡ unclosed_tree lv) }
    ensures err { IfErr result IsFormatMemory }
{
    let arena = setting.arena;
    let line = line.settled(arena)?;
    Ok(joined(arena, text(arena, bracket.text())?, line.doc)?)
}

/// The document of the value that begins with this lexeme, and goes on with those that come next. So many brackets may be
/// in one another in it.
#[cycle(value)]
pub(crate) fn value<'a, 't: 'a>(
    setting: &Setting<'a>,
    lexemes: &mut Ahead<'t>,
    around: Kind,
    is_first: bool,
    first: Lexeme<'t>,
    depth: usize,
) -> Result<RefDoc<'a>, FormatError>
    requires named { HasTomlKind first }
    requires part { IsPart first }
    ensures made { IfOk result (λ p.
        TakesValue (last_after first.entry) (toml_text_of first.entry) lexemes.old lexemes.new (ref_tree p)) }
    ensures read { IfOk result (λ p.
        ReadsPart setting.now.style around is_first (toml_text_of first.entry) lexemes.old lexemes.new (ref_tree p)) }
    ensures fewer { OnOk result (length lexemes.new ≤ length lexemes.old) }
    ensures within { OnOk result (TakesWithin depth (toml_text_of first.entry ∷ lexemes.old) lexemes.new) }
    ensures err { IfErr result (IsRefusalWithin depth (toml_text_of first.entry ∷ lexemes.old)) }
{
    if !opens(first) {
        return Ok(lexeme(setting.arena, first.text())?);
    }
    if depth == 0 {
        return Err(FormatError::TooDeep);
    }
    let kind = kind_before(kind_of(around, is_first, first), lexemes);
    let line = inside(setting, lexemes, kind, depth - 1)?;
    match lexemes.next() {
        Some(close) => closed(setting, kind, first, line, close),
        None => unclosed(setting, first, line),
    }
}

/// What is in brackets, up to what closes them.
#[cycle(value)]
fn inside<'a, 't: 'a>(
    setting: &Setting<'a>,
    lexemes: &mut Ahead<'t>,
    kind: Kind,
    depth: usize,
) -> Result<Line<'a>, FormatError>
    requires { is_nested kind ≡ true }
    ensures made { IfOk result (λ line. TakesLine line lexemes.old lexemes.new) }
    ensures read { IfOk result (λ line. (opening : List ℕ) →
        ReadsOn setting.now.style true (new_level kind opening) lexemes.old lexemes.new line) }
    ensures closing { OnOk result (ClosesNext lexemes.new) }
    ensures fewer { OnOk result (length lexemes.new ≤ length lexemes.old) }
    ensures within { OnOk result (TakesWithin depth lexemes.old lexemes.new) }
    ensures err { IfErr result (IsRefusalWithin depth lexemes.old) }
{
    let mut line = Line::new(setting.arena)?;
    while let Some(next) = lexemes.next_inside() {
        line = with_next(setting, lexemes, kind, line, next, depth)?;
    }
    Ok(line)
}

/// The line with this lexeme in brackets taken.
#[cycle(value)]
fn with_next<'a, 't: 'a>(
    setting: &Setting<'a>,
    lexemes: &mut Ahead<'t>,
    kind: Kind,
    line: Line<'a>,
    next: Lexeme<'t>,
    depth: usize,
) -> Result<Line<'a>, FormatError>
    requires kind { is_nested kind ≡ true }
    requires named { HasTomlKind next }
    requires sound { IsSound (toml_text_of next) lexemes.old }
    requires part { is_closing next ≡ false }
    ensures made { IfOk result (λ made. (taken : List (List ℕ))
        → ShowsTaken true true line.entry (toml_text_of next.entry ∷ lexemes.old) taken
        → (more : List (List ℕ)) × (toml_text_of next.entry ∷ lexemes.old ≡ more ++ lexemes.new)
        × ShowsTaken true true made lexemes.new (taken ++ more)) }
    ensures read { IfOk result (λ made. (lv : Level) → lv.kind ≡ kind → Stands lv line.entry
        → ReadsOn setting.now.style true lv (toml_text_of next.entry ∷ lexemes.old) lexemes.new made) }
    ensures fewer { OnOk result (length lexemes.new ≤ length lexemes.old) }
    ensures within { OnOk result (TakesWithin depth (toml_text_of next.entry ∷ lexemes.old) lexemes.new) }
    ensures err { IfErr result (IsRefusalWithin depth (toml_text_of next.entry ∷ lexemes.old)) }
{
    match next {
        Lexeme::LineEnd => Ok(line.with_line_end()),
        Lexeme::Comma => Ok(line.with_comma(setting.arena)?),
        Lexeme::Comment(comment) => Ok(line.with_comment(setting.arena, kind, comment)?),
        _ => {
            let value = value(setting, lexemes, kind, false, next, depth)?;
            Ok(line.with_value(setting.arena, kind, next, value)?)
        }
    }
}
