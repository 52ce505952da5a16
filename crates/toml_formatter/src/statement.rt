//! The documents of statements.
ghost use Rattle.std.specs.Prelude.{◌≡◌, ◌∷◌, ◌++◌, ◌≤◌, [], ℕ, List, length, false, true, IfOk, IfErr, OnOk};
ghost use Rattle.prettyless_pointers.specs.Trees.{ref_tree};
ghost use Rattle.toml_lexemes.specs.View.{toml_text_of, HasTomlKind};
ghost use Rattle.toml_grammar.specs.Nesting.{max_brackets};
ghost use Rattle.prettyless_trees.specs.Built.{append};
ghost use Rattle.prettyless_trees.specs.Counted as counted;
ghost use Rattle.toml_formatter.specs.Depths.{TakesWithin};
ghost use Rattle.toml_documents.specs.Documents.{Level, closed_end, new_statement, with_part};
ghost use Rattle.toml_formatter.specs.Drafts.{ReadsFirst, ReadsOn, ReadsStatement, Stands};
ghost use Rattle.toml_documents.specs.declared.kind.Kind.TheVariants.{Statement};
ghost use Rattle.toml_formatter.specs.Errors.{IsFormatMemory, IsRefusalWithin};
ghost use Rattle.toml_documents.specs.Kinds.{is_closing};
ghost use Rattle.toml_lexemes.specs.Sound.{IsSound, LineEndsNext};
ghost use Rattle.toml_formatter.specs.Lines.{TakesMore, ShowsTaken, MayGoOn, TakesStatement};

use crate::error::FormatError;
use crate::line::Line;
use crate::list::{Setting, value};
use prettyless_pointers::RefDoc;
use prettyless_shapes::{joined, text};
use toml_documents::ahead::Ahead;
use toml_documents::kind::{Kind, Last, closes, last_of};
use toml_documents::trim::trimmed;
use toml_grammar::MAX_DEPTH;
use toml_lexemes::Lexeme;

/// The line with a bracket that closes nothing taken. Reading drops a comma before it.
fn with_closing<'a>(
    setting: &Setting<'a>,
    line: Line<'a>,
    bracket: Lexeme<'a>,
) -> Result<Line<'a>, FormatError>
    requires closes { is_closing bracket ≡ true }
    requires goes_on { TakesMore false line }
    ensures line { IfOk result (λ made. (left taken : List (List ℕ)) → IsSound (toml_text_of bracket.entry) left
        → ShowsTaken false true line.entry (toml_text_of bracket.entry ∷ left) taken
        → ShowsTaken false true made left (taken ++ toml_text_of bracket.entry ∷ [])) }
    ensures goes_on { IfOk result (λ made. TakesMore false made) }
    ensures stands { IfOk result (λ made. (lv : Level) → lv.kind ≡ Statement → Stands lv line.entry
        → Stands (with_part new_statement (toml_text_of bracket.entry)
        (append (closed_end lv).tree (counted.text (toml_text_of bracket.entry)))) made) }
    ensures err { IfErr result IsFormatMemory }
{
    let line = line.closed(setting.arena, Kind::Statement)?;
    let bracket = text(setting.arena, bracket.text())?;
    let doc = joined(setting.arena, line.doc, bracket)?;
    Ok(Line::begun(doc, Last::Close))
}

/// The line that begins with this lexeme outside of brackets, which is no line end.
fn begun<'a, 't: 'a>(
    setting: &Setting<'a>,
    lexemes: &mut Ahead<'t>,
    first: Lexeme<'t>,
) -> Result<Line<'a>, FormatError>
    requires named { HasTomlKind first }
    requires sound { IsSound (toml_text_of first) lexemes.old }
    requires no_line_end { LineEndsNext (toml_text_of first ∷ lexemes.old) → ⊥ }
    ensures line { IfOk result (λ made. (more : List (List ℕ)) × (toml_text_of first.entry ∷ lexemes.old ≡ more ++ lexemes.new)
        × ShowsTaken false true made lexemes.new more) }
    ensures read { IfOk result (λ made. ReadsFirst setting.now.style (toml_text_of first.entry ∷ lexemes.old) lexemes.new made) }
    ensures goes_on { IfOk result (λ made. MayGoOn made lexemes.new) }
    ensures fewer { OnOk result (length lexemes.new ≤ length lexemes.old) }
    ensures within { OnOk result (TakesWithin max_brackets (toml_text_of first.entry ∷ lexemes.old) lexemes.new) }
    ensures err { IfErr result (IsRefusalWithin max_brackets (toml_text_of first.entry ∷ lexemes.old)) }
{
    let arena = setting.arena;
    if closes(first) {
        let bracket = text(arena, first.text())?;
        return Ok(Line::begun(bracket, Last::Close));
    }
    match first {
        Lexeme::Comma => Ok(Line::begun(text(arena, ",")?, Last::Comma)),
        Lexeme::Comment(comment) => Ok(Line::begun(text(arena, trimmed(comment))?, Last::Comment)),
        _ => {
            let value = value(setting, lexemes, Kind::Statement, true, first, MAX_DEPTH)?;
            Ok(Line::begun(value, last_of(first)))
        }
    }
}

/// The line with this lexeme outside of brackets taken, which is no line end.
fn with_next<'a, 't: 'a>(
    setting: &Setting<'a>,
    lexemes: &mut Ahead<'t>,
    line: Line<'a>,
    next: Lexeme<'t>,
) -> Result<Line<'a>, FormatError>
    requires named { HasTomlKind next }
    requires sound { IsSound (toml_text_of next) lexemes.old }
    requires no_line_end { LineEndsNext (toml_text_of next ∷ lexemes.old) → ⊥ }
    requires goes_on { TakesMore false line }
    ensures line { IfOk result (λ made. (taken : List (List ℕ))
        → ShowsTaken false true line.entry (toml_text_of next.entry ∷ lexemes.old) taken
        → (more : List (List ℕ)) × (toml_text_of next.entry ∷ lexemes.old ≡ more ++ lexemes.new)
        × ShowsTaken false true made lexemes.new (taken ++ more)) }
    ensures read { IfOk result (λ made. (lv : Level) → lv.kind ≡ Statement → Stands lv line.entry
        → ReadsOn setting.now.style false lv (toml_text_of next.entry ∷ lexemes.old) lexemes.new made) }
    ensures goes_on { IfOk result (λ made. MayGoOn made lexemes.new) }
    ensures fewer { OnOk result (length lexemes.new ≤ length lexemes.old) }
    ensures within { OnOk result (TakesWithin max_brackets (toml_text_of next.entry ∷ lexemes.old) lexemes.new) }
    ensures err { IfErr result (IsRefusalWithin max_brackets (toml_text_of next.entry ∷ lexemes.old)) }
{
    let arena = setting.arena;
    let kind = Kind::Statement;
    if closes(next) {
        return with_closing(setting, line, next);
    }
    match next {
        Lexeme::Comma => Ok(line.with_comma(arena)?),
        Lexeme::Comment(comment) => Ok(line.with_comment(arena, kind, comment)?),
        _ => {
            let value = value(setting, lexemes, kind, false, next, MAX_DEPTH)?;
            Ok(line.with_value(arena, kind, next, value)?)
        }
    }
}

/// The document of the statement that begins with this lexeme, which is no line end, with the line end after it taken.
pub(crate) fn statement<'a, 't: 'a>(
    setting: &Setting<'a>,
    lexemes: &mut Ahead<'t>,
    first: Lexeme<'t>,
) -> Result<RefDoc<'a>, FormatError>
    requires named { HasTomlKind first }
    requires sound { IsSound (toml_text_of first) lexemes.old }
    requires no_line_end { LineEndsNext (toml_text_of first ∷ lexemes.old) → ⊥ }
    ensures made { IfOk result (λ p. TakesStatement (toml_text_of first.entry ∷ lexemes.old) lexemes.new (ref_tree p)) }
    ensures read { IfOk result (λ p.
        ReadsStatement setting.now.style (toml_text_of first.entry ∷ lexemes.old) lexemes.new (ref_tree p)) }
    ensures fewer { OnOk result (length lexemes.new ≤ length lexemes.old) }
    ensures within { OnOk result (TakesWithin max_brackets (toml_text_of first.entry ∷ lexemes.old) lexemes.new) }
    ensures err { IfErr result (IsRefusalWithin max_brackets (toml_text_of first.entry ∷ lexemes.old)) }
{
    let mut line = begun(setting, lexemes, first)?;
    while let Some(next) = lexemes.next_on_line() {
        line = with_next(setting, lexemes, line, next)?;
    }
    Ok(line.settled(setting.arena)?.doc)
}
