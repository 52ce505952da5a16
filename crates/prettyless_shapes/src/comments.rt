//! Documents with a comment after them.
ghost use Rattle.std.specs.Prelude.{◌≡◌, [], ◌∷◌, ◌++◌, IfOk, IfErr, map};
ghost use Rattle.prettyless_model.specs.Shows.{Late, ended, spaced};
ghost use Rattle.prettyless_doc.specs.BuildErrors.{IsMemory};
ghost use Rattle.prettyless_laws.specs.Shown.{text_items};
ghost use Rattle.prettyless_shapes.specs.Items.{ShowsMore};
ghost use Rattle.prettyless_shapes.specs.Shapes.{late_commented, commented};

use crate::gaps::{ended, followed, spaced};
use crate::leaves::text;
use prettyless_alloc::DocAllocator;
use prettyless_build::Pretty;
use prettyless_doc::{BuildError, DocPlace};

/// The document, a space, the comment and a line break, so that nothing comes after the comment on its line. It keeps
/// the groups around it from being flat, and fails if memory runs out.
///
/// Where punctuation, as a comma, is to come before the comment, `with_late_comment` is for it.
///
/// ```
/// joined(place, with_comment(place, a, "# c")?, b)? // "a # c\nb"
/// ```
pub fn with_comment<'a, D: DocPlace<'a>>(
    place: &'a D,
    doc: D::Doc,
    comment: &'a str,
) -> Result<D::Doc, BuildError>
    ensures ok { IfOk result (λ p. D.Doc.tree p ≡ commented (D.Doc.tree doc) comment.now) }
    ensures items { IfOk result (λ p.
        ShowsMore (D.Doc.tree doc) (spaced ∷ (text_items comment.now ++ ended ∷ [])) (D.Doc.tree p)) }
    ensures err { IfErr result IsMemory }
{
    let comment = text(place, comment)?;
    ended(place, spaced(place, doc, comment)?)
}

/// The document, with a space and the comment put off to the end of the line. What else comes on this line is in front
/// of them. It fails if memory runs out.
///
/// It breaks no line. Around it, `broken` keeps the groups that it is in from being flat.
///
/// ```
/// joined(place, with_late_comment(place, a, "# c")?, b)? // "ab # c"
/// ```
pub fn with_late_comment<'a, D: DocPlace<'a>>(
    place: &'a D,
    doc: D::Doc,
    comment: &'a str,
) -> Result<D::Doc, BuildError>
    ensures ok { IfOk result (λ p. D.Doc.tree p ≡ late_commented (D.Doc.tree doc) comment.now) }
    ensures items { IfOk result (λ p.
        ShowsMore (D.Doc.tree doc) (Late spaced ∷ map Late (text_items comment.now)) (D.Doc.tree p)) }
    ensures err { IfErr result IsMemory }
{
    let comment = place.space()?.join(comment.pretty(place)?)?;
    followed(place, doc, comment.as_line_suffix()?)
}
