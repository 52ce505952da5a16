//! The layout of statements, one after another: each is laid out as it is read, and its document is dropped.
ghost use Rattle.std.specs.Prelude.{◌≡◌, ◌++◌, ◌∷◌, ◌≤◌, ℕ, List, length, true, false, IfOk, IfErr, OnOk};
ghost use Rattle.std.specs.String.{string_bytes};
ghost use Rattle.prettyless_trees.specs.Built.{append};
ghost use Rattle.prettyless_model.specs.Layout.{Whole, layout};
ghost use Rattle.prettyless_pointers.specs.Trees.{ref_tree};
ghost use Rattle.prettyless_model.specs.declared.options.IndentationPolicy.TheVariants.{Deferred};
ghost use Rattle.toml_lexemes.specs.Lexemes.{toml_lexemes_of};
ghost use Rattle.toml_lexemes.specs.Sound.{AreSound, IsSound};
ghost use Rattle.toml_lexemes.specs.View.{toml_text_of, HasTomlKind};
ghost use Rattle.toml_grammar.specs.Nesting.{is_too_deep};
ghost use Rattle.toml_documents.specs.Documents.{lines_with};
ghost use Rattle.toml_formatter.specs.Errors.{IsFormatMemory, IsRefusalOf};
ghost use Rattle.toml_documents.specs.Laid.{HasTomlOptions, IsLaidToml};
ghost use Rattle.toml_formatter.specs.Formats.{IsTomlLayout};
ghost use Rattle.toml_formatter.specs.Presses.{blank_after, AddsLines, IsPressed};
ghost use Rattle.prettyless_laws.specs.InTurn.{EndsHard};

use crate::error::FormatError;
use crate::list::Setting;
use crate::statement::statement;
use bumpalo::Bump;
use prettyless_doc::DocPtr;
use prettyless_model::options::RenderOptions;
use prettyless_pointers::{Arena, RefDoc};
use prettyless_shapes::{ended, nil};
use prettyless_sink::error::RenderError;
use std::alloc::{AllocError, Global};
use toml_documents::Style;
use toml_documents::ahead::Ahead;
use toml_documents::sheet::Sheet;
use toml_lexemes::Lexeme;

/// With so many nodes an arena is given up.
const FULL: usize = 1024;

/// The text that is laid out, and what it is laid out with.
#[derive(Clone, Copy)]
pub(crate) struct Press<'t> {
    pub(crate) text: &'t str,
    pub(crate) alloc: Global,
    pub(crate) style: Style,
    pub(crate) options: RenderOptions,
}

/// What was laid out of a text.
#[derive(Drop)]
struct Laid {
    sheet: Sheet,
    /// The lines that were laid out last.
    lines: String,
    /// Whether a statement was laid out, and whether a blank line came after it.
    some: bool,
    blank: bool,
}

/// Adds the layout of a document to a text.
fn render<'a, P: DocPtr<'a>>(
    document: &P,
    alloc: Global,
    options: RenderOptions,
    text: &mut String,
) -> Result<(), FormatError>
    ensures laid { OnOk result ((bytes : List ℕ) × (layout options (P.tree document.now) ≡ Whole bytes)
        × (string_bytes text.new ≡ string_bytes text.old ++ bytes)) }
    ensures err { IfErr result IsFormatMemory }
{
    let doc = document.doc();
    match doc.render_fmt_with(alloc, options, text) {
        Ok(()) => Ok(()),
        Err(RenderError::Memory(error)) => Err(FormatError::Memory(error)),
        // A `String` fails only where memory is refused, and a document of lexemes has nothing that fails.
        Err(RenderError::Sink(_) | RenderError::Document(_)) => {
            Err(FormatError::Memory(AllocError))
        }
    }
}

impl Laid {
    /// Nothing.
    fn new(press: &Press<'_>) -> Laid
        requires { HasTomlOptions press.now.style press.now.options }
        ensures { IsPressed press.now result (toml_lexemes_of press.now.text.now) }
    {
        Laid {
            sheet: Sheet::new(press.alloc, press.style.align),
            lines: String::new(press.alloc),
            some: false,
            blank: false,
        }
    }

    /// Adds the layout of lines.
    fn push<'a>(&mut self, press: &Press<'_>, lines: RefDoc<'a>) -> Result<(), FormatError>
        requires deferred { press.now.options.indentation_policy ≡ Deferred }
        requires ends { EndsHard (ref_tree lines) }
        ensures lines { OnOk result
            (AddsLines press.now.options self.old.sheet self.new.sheet (λ done. append done (ref_tree lines.entry))) }
        ensures align { self.new.sheet.align ≡ self.old.sheet.align }
        ensures err { IfErr result IsFormatMemory }
    {
        self.lines.clear();
        render(&lines, press.alloc, press.options, &mut self.lines)?;
        self.sheet.push(self.lines.as_str())?;
        Ok(())
    }

    /// Adds a blank line, where one is to come.
    fn push_blank<'a>(&mut self, press: &Press<'_>, arena: &'a Arena<'a>) -> Result<(), FormatError>
        requires { press.now.options.indentation_policy ≡ Deferred }
        ensures lines { OnOk result
            (AddsLines press.now.options self.old.sheet self.new.sheet (blank_after self.old.blank)) }
        ensures align { self.new.sheet.align ≡ self.old.sheet.align }
        ensures err { IfErr result IsFormatMemory }
    {
        if !self.blank {
            return Ok(());
        }
        let line = ended(arena, nil(arena)?)?;
        self.push(press, line)
    }

    /// Adds a statement on a line of its own, after a blank line where one is to come.
    fn push_statement<'a>(
        &mut self,
        press: &Press<'_>,
        arena: &'a Arena<'a>,
        statement: RefDoc<'a>,
    ) -> Result<(), FormatError>
        requires { press.now.options.indentation_policy ≡ Deferred }
        ensures lines { OnOk result (AddsLines press.now.options self.old.sheet self.new.sheet
            (λ done. lines_with self.old.blank done (ref_tree statement.entry))) }
        ensures align { self.new.sheet.align ≡ self.old.sheet.align }
        ensures some { OnOk result (self.new.some ≡ true) }
        ensures blank { OnOk result (self.new.blank ≡ false) }
        ensures err { IfErr result IsFormatMemory }
    {
        self.push_blank(press, arena)?;
        let line = ended(arena, statement)?;
        self.push(press, line)?;
        self.some = true;
        self.blank = false;
        Ok(())
    }
}

/// Lays out the statement that begins with this lexeme, or takes this line end.
fn lay_next<'a, 't: 'a>(
    press: &Press<'t>,
    arena: &'a Arena<'a>,
    lexemes: &mut Ahead<'t>,
    laid: &mut Laid,
    first: Lexeme<'t>,
) -> Result<(), FormatError>
    requires laid { IsPressed press.now laid.old (toml_text_of first ∷ lexemes.old) }
    requires named { HasTomlKind first }
    requires sound { IsSound (toml_text_of first) lexemes.old }
    ensures laid { OnOk result (IsPressed press.now laid.new lexemes.new) }
    ensures fewer { OnOk result (length lexemes.new ≤ length lexemes.old) }
    ensures err { IfErr result (IsRefusalOf press.now.text.now) }
{
    if let Lexeme::LineEnd = first {
        laid.blank = laid.some;
        return Ok(());
    }
    let setting = Setting {
        arena,
        style: press.style,
    };
    let next = statement(&setting, lexemes, first)?;
    laid.push_statement(press, arena, next)
}

/// Lays out some statements, the first of which begins with this lexeme.
fn lay_some<'a, 't: 'a>(
    press: &Press<'t>,
    arena: &'a Arena<'a>,
    lexemes: &mut Ahead<'t>,
    laid: &mut Laid,
    first: Lexeme<'t>,
) -> Result<(), FormatError>
    requires laid { IsPressed press.now laid.old (toml_text_of first ∷ lexemes.old) }
    requires named { HasTomlKind first }
    requires sound { IsSound (toml_text_of first) lexemes.old }
    ensures laid { OnOk result (IsPressed press.now laid.new lexemes.new) }
    ensures fewer { OnOk result (length lexemes.new ≤ length lexemes.old) }
    ensures err { IfErr result (IsRefusalOf press.now.text.now) }
{
    lay_next(press, arena, lexemes, laid, first)?;
    while arena.len() < FULL {
        match lexemes.next() {
            Some(next) => lay_next(press, arena, lexemes, laid, next)?,
            None => return Ok(()),
        }
    }
    Ok(())
}

/// The same, with the documents in an arena of their own.
fn lay_apart<'t>(
    press: &Press<'t>,
    lexemes: &mut Ahead<'t>,
    laid: &mut Laid,
    first: Lexeme<'t>,
) -> Result<(), FormatError>
    requires laid { IsPressed press.now laid.old (toml_text_of first ∷ lexemes.old) }
    requires named { HasTomlKind first }
    requires sound { IsSound (toml_text_of first) lexemes.old }
    ensures laid { OnOk result (IsPressed press.now laid.new lexemes.new) }
    ensures fewer { OnOk result (length lexemes.new ≤ length lexemes.old) }
    ensures err { IfErr result (IsRefusalOf press.now.text.now) }
{
    let bump = Bump::new(press.alloc);
    let arena = Arena::new(press.alloc, &bump);
    lay_some(press, &arena, lexemes, laid, first)
}

/// The layout of the text.
pub(crate) fn lay_text(press: &Press<'_>) -> Result<String, FormatError>
    requires sound { AreSound (toml_lexemes_of press.now.text.now) }
    requires options { HasTomlOptions press.now.style press.now.options }
    ensures ok { IfOk result (λ layout. IsTomlLayout press.now.text.now (string_bytes layout)) }
    ensures laid { IfOk result (λ layout. IsLaidToml press.now.style press.now.text.now (string_bytes layout)) }
    ensures shallow { OnOk result (is_too_deep press.now.text.now ≡ false) }
    ensures err { IfErr result (IsRefusalOf press.now.text.now) }
{
    let mut lexemes = Ahead::new(press.text);
    let mut laid = Laid::new(press);
    while let Some(first) = lexemes.next() {
        lay_apart(press, &mut lexemes, &mut laid, first)?;
    }
    Ok(laid.sheet.finish()?)
}
