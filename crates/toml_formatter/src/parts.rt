//! Documents of lexemes, and documents with a gap between them.
ghost use Rattle.std.specs.Prelude.{◌≡◌, [], ◌∷◌, IfOk};
ghost use Rattle.prettyless_trees.specs.Counted as counted;
ghost use Rattle.prettyless_trees.specs.Built.{append, softline};
ghost use Rattle.prettyless_trees.specs.Lines.{line_};
ghost use Rattle.prettyless_model.specs.Tree.{Nil, BreakOrFlat, TextWithLen};
ghost use Rattle.prettyless_model.specs.Shows.{Mark, apart, loose, shows, spaced};
ghost use Rattle.prettyless_shapes.specs.Items.{ShowsBoth, ShowsMore, ShowsSame};
ghost use Rattle.prettyless_laws.specs.Shown.{text_items};
ghost use Rattle.toml_lexemes.specs.Bytes.{blank_space, comma};
ghost use Rattle.toml_documents.specs.Documents.{broken_if, lexeme_tree, separated};
ghost use Rattle.toml_documents.specs.Gaps.{gap_items};

use prettyless_alloc::DocAllocator;
use prettyless_build::{DocBuilder, Pretty};
use prettyless_doc::{BuildDoc, Doc, DocPlace};
use prettyless_shapes::{broken, ended, joined, lined, spaced, stacked, text};
use prettyless_text::{BuildError, Text};
use toml_documents::breaks::has_lines;
use toml_documents::gaps::Gap;

/// A lexeme, as it is spelled. Where it has several lines, the groups around it are not flat.
pub(crate) fn lexeme<'a, D: DocPlace<'a>>(
    place: &'a D,
    spelling: &'a str,
) -> Result<D::Doc, BuildError>
    ensures ok { IfOk result (λ p. D.Doc.tree p ≡ lexeme_tree spelling.now) }
    ensures items { IfOk result (λ p. shows (D.Doc.tree p) (text_items spelling.now)) }
{
    broken_if(place, text(place, spelling)?, has_lines(spelling))
}

/// A document, which keeps the groups around it from being flat, if it does.
pub(crate) fn broken_if<'a, D: DocPlace<'a>>(
    place: &'a D,
    doc: D::Doc,
    breaks: bool,
) -> Result<D::Doc, BuildError>
    ensures ok { IfOk result (λ p. D.Doc.tree p ≡ broken_if breaks (D.Doc.tree doc)) }
    ensures items { IfOk result (λ p. ShowsSame (D.Doc.tree doc) (D.Doc.tree p)) }
{
    if breaks {
        return broken(place, doc);
    }
    Ok(doc)
}

/// A text that counts no columns: no array in front of it is broken for its sake.
pub(crate) fn uncounted<'a, D: DocPlace<'a>>(
    place: &'a D,
    spelling: &'a str,
) -> Result<D::Doc, BuildError>
    ensures ok { IfOk result (λ p. D.Doc.tree p ≡ TextWithLen 0 spelling.now) }
    ensures items { IfOk result (λ p. shows (D.Doc.tree p) (text_items spelling.now)) }
{
    place.alloc(Doc::TextWithLen(0, Text::Borrowed(spelling)))
}

/// A document, and a line end after it, or nothing where lines are flat.
fn edged<'a, D: DocPlace<'a>>(place: &'a D, doc: D::Doc) -> Result<D::Doc, BuildError>
    ensures ok { IfOk result (λ p. D.Doc.tree p ≡ append (D.Doc.tree doc) line_) }
    ensures items { IfOk result (λ p. ShowsMore (D.Doc.tree doc) (loose ∷ []) (D.Doc.tree p)) }
{
    DocBuilder(place, BuildDoc::DocPtr(doc))
        .join(place.line_()?)?
        .into_doc()
}

/// A document, and a line end after it only where the line has no room for what comes next, and else a space.
fn softened<'a, D: DocPlace<'a>>(place: &'a D, doc: D::Doc) -> Result<D::Doc, BuildError>
    ensures ok { IfOk result (λ p. D.Doc.tree p ≡ append (D.Doc.tree doc) softline) }
    ensures items { IfOk result (λ p. ShowsMore (D.Doc.tree doc) (apart ∷ []) (D.Doc.tree p)) }
{
    DocBuilder(place, BuildDoc::DocPtr(doc))
        .join(place.softline()?)?
        .into_doc()
}

/// A document, and a space after it that counts no columns.
fn blanked<'a, D: DocPlace<'a>>(place: &'a D, doc: D::Doc) -> Result<D::Doc, BuildError>
    ensures ok { IfOk result (λ p. D.Doc.tree p ≡ append (D.Doc.tree doc) (TextWithLen 0 (blank_space ∷ []))) }
    ensures items { IfOk result (λ p. ShowsMore (D.Doc.tree doc) (spaced ∷ []) (D.Doc.tree p)) }
{
    joined(place, doc, uncounted(place, " ")?)
}

/// A document, and a comma after it where lines are broken.
pub(crate) fn trailed<'a, D: DocPlace<'a>>(place: &'a D, doc: D::Doc) -> Result<D::Doc, BuildError>
    ensures ok { IfOk result (λ p. D.Doc.tree p ≡ append (D.Doc.tree doc) (BreakOrFlat (counted.text (comma ∷ [])) Nil)) }
    ensures items { IfOk result (λ p. ShowsMore (D.Doc.tree doc) (Mark (comma ∷ []) ∷ []) (D.Doc.tree p)) }
{
    DocBuilder(place, BuildDoc::DocPtr(doc))
        .join(",".pretty(place)?.when_group_break()?)?
        .into_doc()
}

/// Two documents with a gap between them.
pub(crate) fn apart<'a, D: DocPlace<'a>>(
    place: &'a D,
    front: D::Doc,
    gap: Gap,
    next: D::Doc,
) -> Result<D::Doc, BuildError>
    ensures ok { IfOk result (λ p. D.Doc.tree p ≡ separated gap (D.Doc.tree front) (D.Doc.tree next)) }
    ensures items { IfOk result (λ p. ShowsBoth (D.Doc.tree front) (gap_items gap) (D.Doc.tree next) (D.Doc.tree p)) }
{
    match gap {
        Gap::Nothing => joined(place, front, next),
        Gap::Space => spaced(place, front, next),
        Gap::Beside => joined(place, blanked(place, front)?, next),
        Gap::Edge => joined(place, edged(place, front)?, next),
        Gap::Line => lined(place, front, next),
        Gap::Fill => joined(place, softened(place, front)?, next),
        Gap::BlankLine => lined(place, edged(place, front)?, next),
        Gap::Break => stacked(place, front, next),
        Gap::BlankBreak => stacked(place, ended(place, front)?, next),
    }
}
