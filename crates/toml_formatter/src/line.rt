//! The document of a line or of what is in brackets, while its lexemes are taken.
ghost use Rattle.std.specs.Prelude.{◌≡◌, ◌++◌, ◌⊎◌, ◌∷◌, [], ℕ, Bool, List, true, false, ◌&&◌, ◌||◌, IfOk};
ghost use Rattle.prettyless_pointers.specs.Trees.{ref_tree};
ghost use Rattle.toml_lexemes.specs.Bytes.{comma, hash, head, line_feed};
ghost use Rattle.toml_lexemes.specs.View.{toml_text_of, HasTomlKind};
ghost use Rattle.toml_lexemes.specs.Statements.{role, trimmed, a_closing};
ghost use Rattle.toml_lexemes.specs.Shown.{IsWholeLexeme};
ghost use Rattle.toml_documents.specs.Gaps.{is_nested, is_last_comment, may_hold};
ghost use Rattle.toml_documents.specs.Documents as document;
ghost use Rattle.toml_documents.specs.Documents.{Level, end_after_comma, after_comments, closed_end, comma_kept, ends_item, is_array};
ghost use Rattle.toml_formatter.specs.Drafts.{Stands, line_end, settled_end};
ghost use Rattle.toml_documents.specs.Kinds.{last_after, IsPart};
ghost use Rattle.toml_documents.specs.declared.kind.Kind.{Kind};
ghost use Rattle.toml_formatter.specs.Lines.{begun, IsValue, ShowsTaken, IsClosed, TakesMore};

use crate::parts::{apart, broken_if, trailed, uncounted};
use prettyless_pointers::{Arena, RefDoc};
use prettyless_shapes::{joined, nil, text};
use prettyless_text::BuildError;
use toml_documents::gaps::{before, before_comma, before_comment};
use toml_documents::kind::{Kind, Last, last_of};
use toml_documents::trim::trimmed;
use toml_lexemes::Lexeme;

/// The lexemes of a line or of a list so far. A comma that was taken waits for what comes after it, and comments wait for
/// whether a comma comes.
#[derive(Clone, Copy)]
pub(crate) struct Line<'a> {
    pub(crate) doc: RefDoc<'a>,
    /// What the document ends with.
    pub(crate) last: Last,
    /// Whether a comma waits.
    pub(crate) comma: bool,
    /// Whether comments wait, and their document.
    pub(crate) is_commented: bool,
    pub(crate) comments: RefDoc<'a>,
    /// Whether a line has ended since the last lexeme, and whether a blank line came.
    pub(crate) broken: bool,
    pub(crate) blank: bool,
}

/// Whether a comma or comments may wait in a document that ends so.
fn holds(last: Last) -> bool
    ensures { result ≡ may_hold last }
{
    matches!(last, Last::Comma | Last::Comment)
}

impl<'a> Line<'a> {
    /// A document that ends so, with nothing that waits.
    pub(crate) fn begun(doc: RefDoc<'a>, last: Last) -> Line<'a>
        ensures { result ≡ begun doc.entry last }
    {
        Line {
            doc,
            last,
            comma: false,
            is_commented: false,
            comments: doc,
            broken: false,
            blank: false,
        }
    }

    /// No lexeme of a list.
    pub(crate) fn new(arena: &'a Arena<'a>) -> Result<Line<'a>, BuildError>
        ensures line { IfOk result (λ line. (left : List (List ℕ)) → ShowsTaken true true line left []) }
        ensures stands { IfOk result (λ line. (kind : Kind) (opening : List ℕ) → Stands (document.new_level kind opening) line) }
    {
        Ok(Line::begun(nil(arena)?, Last::Start))
    }

    /// The same with a line end in brackets after it.
    pub(crate) fn with_line_end(self) -> Line<'a>
        ensures line { (left taken : List (List ℕ)) → ShowsTaken true true self.entry ((line_feed ∷ []) ∷ left) taken
            → ShowsTaken true true result left (taken ++ (line_feed ∷ []) ∷ []) }
        ensures stands { (lv : Level) → Stands lv self.entry → Stands (document.with_line_end lv) result }
    {
        Line {
            broken: true,
            blank: self.broken,
            ..self
        }
    }

    /// The same with the comma that waits in its place.
    fn with_settled_comma(self, arena: &'a Arena<'a>) -> Result<Line<'a>, BuildError>
        ensures line { IfOk result (λ line. (nested exact : Bool) (left taken : List (List ℕ))
            → (nested ≡ false → self.entry.comma ≡ true → is_last_comment self.entry.last ≡ false)
            → ShowsTaken nested exact self.entry left taken → ShowsTaken nested exact line left taken) }
        ensures no_comma { IfOk result (λ line. line.comma ≡ false) }
        ensures commented { IfOk result (λ line. line.is_commented ≡ self.entry.is_commented) }
        ensures last { IfOk result (λ line. is_last_comment self.entry.last ≡ false → is_last_comment line.last ≡ false) }
        ensures end { IfOk result (λ line. line_end line ≡ end_after_comma self.entry.comma (line_end self.entry)) }
        ensures comments { IfOk result (λ line. line.comments ≡ self.entry.comments) }
        ensures blank { IfOk result (λ line. line.blank ≡ self.entry.blank) }
    {
        if !self.comma {
            return Ok(self);
        }
        let comma = text(arena, ",")?;
        let doc = apart(arena, self.doc, before_comma(self.last), comma)?;
        Ok(Line {
            doc,
            last: Last::Comma,
            comma: false,
            ..self
        })
    }

    /// The same with the comments that wait in their place, where no comma waits.
    fn with_settled_comments(self, arena: &'a Arena<'a>) -> Result<Line<'a>, BuildError>
        ensures line { IfOk result (λ line. (nested exact : Bool) (left taken : List (List ℕ))
            → self.entry.comma ≡ false → ShowsTaken nested exact self.entry left taken → ShowsTaken nested exact line left taken) }
        ensures comma { IfOk result (λ line. line.comma ≡ self.entry.comma) }
        ensures commented { IfOk result (λ line. line.is_commented ≡ false) }
        ensures last { IfOk result (λ line. self.entry.is_commented ≡ false → is_last_comment self.entry.last ≡ false
            → is_last_comment line.last ≡ false) }
        ensures end { IfOk result (λ line. line_end line
            ≡ after_comments self.entry.is_commented (ref_tree self.entry.comments) (line_end self.entry)) }
        ensures blank { IfOk result (λ line. line.blank ≡ self.entry.blank) }
    {
        if !self.is_commented {
            return Ok(self);
        }
        let doc = joined(arena, self.doc, self.comments)?;
        Ok(Line {
            doc,
            last: Last::Comment,
            is_commented: false,
            ..self
        })
    }

    /// The same with the comma and the comments that wait in their places.
    pub(crate) fn settled(self, arena: &'a Arena<'a>) -> Result<Line<'a>, BuildError>
        ensures line { IfOk result (λ line. (nested exact : Bool) (left taken : List (List ℕ))
            → (nested ≡ false → self.entry.comma ≡ true → is_last_comment self.entry.last ≡ false)
            → ShowsTaken nested exact self.entry left taken → ShowsTaken nested exact line left taken) }
        ensures no_comma { IfOk result (λ line. line.comma ≡ false) }
        ensures no_comments { IfOk result (λ line. line.is_commented ≡ false) }
        ensures last { IfOk result (λ line. self.entry.is_commented ≡ false → is_last_comment self.entry.last ≡ false
            → is_last_comment line.last ≡ false) }
        ensures end { IfOk result (λ line. line_end line ≡ settled_end self.entry) }
        ensures blank { IfOk result (λ line. line.blank ≡ self.entry.blank) }
    {
        self.with_settled_comma(arena)?.with_settled_comments(arena)
    }

    /// Whether what waits is put in its place before a comma is taken.
    fn settles(self) -> bool
        ensures { result ≡ (self.entry.comma || may_hold self.entry.last) }
    {
        self.comma || holds(self.last)
    }

    /// The same with a comma that waits.
    fn with_waiting_comma(self) -> Line<'a>
        ensures line { (nested : Bool) (left taken : List (List ℕ)) → self.entry.comma ≡ false
            → (self.entry.is_commented ≡ false) ⊎ (may_hold self.entry.last ≡ false)
            → ShowsTaken nested true self.entry ((comma ∷ []) ∷ left) taken
            → ShowsTaken nested true result left (taken ++ (comma ∷ []) ∷ []) }
        ensures last { result.last ≡ self.entry.last }
        ensures commented { result.is_commented ≡ self.entry.is_commented }
        ensures made { result ≡ record self.entry { comma = true; broken = false; blank = false } }
    {
        Line {
            comma: true,
            broken: false,
            blank: false,
            ..self
        }
    }

    /// The same with a comma taken.
    pub(crate) fn with_comma(self, arena: &'a Arena<'a>) -> Result<Line<'a>, BuildError>
        ensures line { IfOk result (λ line. (nested : Bool) (left taken : List (List ℕ)) → TakesMore nested self.entry
            → ShowsTaken nested true self.entry ((comma ∷ []) ∷ left) taken
            → ShowsTaken nested true line left (taken ++ (comma ∷ []) ∷ [])) }
        ensures goes_on { IfOk result (λ line. (nested : Bool) → TakesMore nested self.entry → TakesMore nested line) }
        ensures stands { IfOk result (λ line. (lv : Level) → Stands lv self.entry → Stands (document.level_with_comma lv) line) }
    {
        if self.settles() {
            return Ok(self.settled(arena)?.with_waiting_comma());
        }
        Ok(self.with_waiting_comma())
    }

    /// The same with these comments that wait.
    fn with_comments(self, comments: RefDoc<'a>) -> Line<'a>
        ensures { result ≡ record self.entry { is_commented = true; comments = comments.entry; broken = false; blank = false } }
    {
        Line {
            is_commented: true,
            comments,
            broken: false,
            blank: false,
            ..self
        }
    }

    /// The same with a comment taken.
    pub(crate) fn with_comment(
        self,
        arena: &'a Arena<'a>,
        kind: Kind,
        comment: &'a str,
    ) -> Result<Line<'a>, BuildError>
        requires goes_on { TakesMore (is_nested kind) self }
        requires whole { IsWholeLexeme (trimmed comment.now) }
        requires comment { head comment.now ≡ hash }
        ensures line { IfOk result (λ line. (left taken : List (List ℕ))
            → ShowsTaken (is_nested kind) true self.entry (comment.now ∷ left) taken
            → ShowsTaken (is_nested kind) true line left (taken ++ comment.now ∷ [])) }
        ensures last { IfOk result (λ line. line.last ≡ self.entry.last) }
        ensures stands { IfOk result (λ line. (lv : Level) → lv.kind ≡ kind → Stands lv self.entry
            → Stands (document.with_comment lv comment.now) line) }
    {
        let gap = before_comment(kind, self.last, self.is_commented, self.broken, self.blank);
        let comment = uncounted(arena, trimmed(comment))?;
        if self.is_commented {
            let comments = apart(arena, self.comments, gap, comment)?;
            return Ok(self.with_comments(comments));
        }
        let comments = apart(arena, nil(arena)?, gap, comment)?;
        Ok(self.with_comments(comments))
    }

    /// The same with a document that begins with this lexeme.
    pub(crate) fn with_value(
        self,
        arena: &'a Arena<'a>,
        kind: Kind,
        first: Lexeme<'a>,
        value: RefDoc<'a>,
    ) -> Result<Line<'a>, BuildError>
        requires named { HasTomlKind first }
        requires part { IsPart first }
        requires goes_on { TakesMore (is_nested kind) self }
        requires whole { IsWholeLexeme (toml_text_of first) }
        ensures line { IfOk result (λ line. (left old taken more : List (List ℕ))
            → ShowsTaken (is_nested kind) true self.entry (toml_text_of first.entry ∷ old) taken
            → IsValue (last_after first.entry) (toml_text_of first.entry) left more (ref_tree value.entry)
            → ShowsTaken (is_nested kind) true line left (taken ++ (toml_text_of first.entry ∷ more))) }
        ensures goes_on { IfOk result (λ line. TakesMore (is_nested kind) line) }
        ensures stands { IfOk result (λ line. (lv : Level) → lv.kind ≡ kind → Stands lv self.entry
            → Stands (document.with_part lv (toml_text_of first.entry) (ref_tree value.entry)) line) }
    {
        let line = self.settled(arena)?;
        let gap = before(kind, line.last, first, line.blank);
        let doc = apart(arena, line.doc, gap, value)?;
        Ok(Line {
            doc,
            last: last_of(first),
            broken: false,
            blank: false,
            ..line
        })
    }

    /// Whether the comma that waits, or one that may be added, stands in front of the comments before a closing bracket.
    fn keeps_comma(self, kind: Kind) -> bool
        ensures held { may_hold self.entry.last ≡ true → result ≡ self.entry.comma }
        ensures kept { result ≡ comma_kept kind self.entry.last self.entry.comma self.entry.is_commented }
    {
        match (kind, self.last) {
            (_, Last::Comma | Last::Comment) => self.comma,
            (
                Kind::Array | Kind::Numbers,
                Last::Close | Last::Equals | Last::Word | Last::Dot | Last::String,
            ) => self.is_commented,
            _ => false,
        }
    }

    /// Whether a comma may be added after the last lexeme where an array is broken.
    fn may_trail(self, kind: Kind) -> bool
        ensures plain { result ≡ true → may_hold self.entry.last ≡ false }
        ensures nested { result ≡ true → is_nested kind ≡ true }
        ensures trails { result ≡ (is_array kind && ends_item self.entry.last) }
    {
        matches!(
            (kind, self.last),
            (
                Kind::Array | Kind::Numbers,
                Last::Close | Last::Equals | Last::Word | Last::Dot | Last::String
            )
        )
    }

    /// The same as it stands before a closing bracket: with its comments in their place, and a comma in front of them or at the
    /// end where an array is broken. An array with a comma after its last item is.
    pub(crate) fn closed(self, arena: &'a Arena<'a>, kind: Kind) -> Result<Line<'a>, BuildError>
        requires { is_nested kind ≡ false → is_last_comment self.last ≡ false }
        ensures last { IfOk result (λ line. self.entry.is_commented ≡ false → is_last_comment self.entry.last ≡ false
            → is_last_comment line.last ≡ false) }
        ensures closed { IfOk result (λ line. (x : List ℕ) (left taken : List (List ℕ)) → role x ≡ a_closing
            → ShowsTaken (is_nested kind) true self.entry (x ∷ left) taken → IsClosed (is_nested kind) line x taken) }
        ensures end { IfOk result (λ line. (lv : Level) → lv.kind ≡ kind → Stands lv self.entry → line_end line ≡ closed_end lv) }
    {
        let line = Line {
            comma: self.keeps_comma(kind),
            ..self
        };
        let line = line.settled(arena)?;
        if line.may_trail(kind) {
            let doc = broken_if(arena, trailed(arena, line.doc)?, self.comma)?;
            return Ok(Line { doc, ..line });
        }
        Ok(line)
    }
}
